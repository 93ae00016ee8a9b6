// Places of rules by the ids that they can match.
ghost use Rattle.std.specs.Prelude.{◌≡◌, ◌≤◌, ◌<◌, ◌+◌, ℕ, List, [], OnOk, OnErr, insert, remove, length, get_or, vec_len, vec_capacity};
ghost use Rattle.std.specs.Global.{Vec as Held};
ghost use Rattle.ug_types.specs.declared.rule.Query as rule;
ghost use Rattle.ug_policy.specs.Candidates.{AreCandidates, StandsForQueries};
ghost use Rattle.ug_policy.specs.Places.{places_of};
ghost use Rattle.ug_policy.specs.Reaches as spec;

use crate::places::{put_in_each, reserve_each, take_out_each};
use crate::reach::{Reach, reach_of, remainder};
use std::alloc::Global;
use std::marker::Model;
use ug_types::{NoMemory, Query};

fn no_lists(alloc: Global) -> [Vec<u32>; 64]
    ensures items { (r : ℕ) (d : Held ℕ) → r < 64 → (get_or result r d).items ≡ [] }
    ensures len { (r : ℕ) (d : Held ℕ) → r < 64 → vec_len (get_or result r d) ≡ 0 }
{
    std::array::from_fn(|_i| Vec::new(alloc))
}

// The reach of a rule that is put in, for which there is room.
fn put_reach(reaches: &mut Vec<Reach>, at: usize, reach: Reach)
    requires place { at ≤ vec_len reaches.old }
    requires room { vec_len reaches.old < vec_capacity reaches.old }
    ensures items { reaches.new.items ≡ insert reaches.old.items at reach }
    ensures len { vec_len reaches.new ≡ vec_len reaches.old + 1 }
    ensures capacity { vec_capacity reaches.new ≡ vec_capacity reaches.old }
{
    let _put = reaches.insert(at, reach);
}

/// The places of the rules that can match ids of each remainder, in order, and the reach of each rule.
#[derive(Drop)]
pub struct Index {
    lists: [Vec<u32>; 64],
    reaches: Vec<Reach>,
    spare: usize,
}

impl Model for Index {
    ghost use Rattle.ug_policy.specs.Candidates.{Indexed};
    ghost use Rattle.ug_policy.specs.Lists.{IsIndex};

    ghost Value = { Indexed };

    ghost view = { λ x. record { reaches = x.reaches.items; spare = x.spare } };

    ghost invariant = { λ x. IsIndex x.lists x.reaches x.spare };
}

impl Index {
    /// The index of no rules. It takes no memory.
    pub fn new(alloc: Global) -> Index
        ensures reaches { result.reaches ≡ [] }
        ensures stands { StandsForQueries result [] }
    {
        Index {
            lists: no_lists(alloc),
            reaches: Vec::new(alloc),
            spare: 0,
        }
    }

    /// The number of rules.
    pub fn len(&self) -> usize
        ensures value { result ≡ length self.now.reaches }
        ensures few { length self.now.reaches ≤ 65536 }
    {
        self.reaches.len()
    }

    /// Makes room for one rule more. A refusal changes nothing.
    pub fn reserve(&mut self) -> Result<(), NoMemory>
        ensures reaches { self.new.reaches ≡ self.old.reaches }
        ensures ok { OnOk result (0 < self.new.spare) }
        ensures more { self.old.spare ≤ self.new.spare }
        ensures err { OnErr result (self.new ≡ self.old) }
    {
        if self.spare > 0 {
            return Ok(());
        }
        if self.reaches.reserve(1).is_err() {
            return Err(NoMemory);
        }
        if reserve_each(&mut self.lists).is_err() {
            return Err(NoMemory);
        }
        self.spare = 1;
        Ok(())
    }

    /// A rule is put in at that place. There is room for it, so that it takes no memory.
    pub fn insert(&mut self, at: usize, query: &Query)
        requires place { at ≤ length self.old.reaches }
        requires few { length self.old.reaches < 65536 }
        requires spare { 0 < self.old.spare }
        ensures reaches { self.new.reaches ≡ insert self.old.reaches at (spec.reach_of query.now) }
        ensures spare { self.new.spare + 1 ≡ self.old.spare }
        ensures stands { (queries : List rule.Query) → StandsForQueries self.old queries
            → StandsForQueries self.new (insert queries at query.now) }
    {
        let reach = reach_of(query);
        put_reach(&mut self.reaches, at, reach);
        put_in_each(&mut self.lists, at as u32, reach);
        self.spare -= 1;
    }

    /// The rule at that place is taken out. It takes no memory.
    pub fn remove(&mut self, at: usize)
        requires place { at < length self.old.reaches }
        ensures reaches { self.new.reaches ≡ remove self.old.reaches at }
        ensures spare { self.new.spare ≡ self.old.spare }
        ensures stands { (queries : List rule.Query) → StandsForQueries self.old queries
            → StandsForQueries self.new (remove queries at) }
    {
        let reach = self.reaches.remove(at);
        take_out_each(&mut self.lists, at as u32, reach);
    }

    /// The places of the rules that can match the id, in order. It takes no memory.
    pub fn candidates(&self, vendor: u16, product: u16) -> &[u32]
        ensures places { result.now ≡ places_of (spec.remainder vendor product) self.now.reaches }
        ensures candidates { (queries : List rule.Query) → StandsForQueries self.now queries
            → AreCandidates queries vendor product result.now }
    {
        self.lists[remainder(vendor, product) as usize].as_slice()
    }
}
