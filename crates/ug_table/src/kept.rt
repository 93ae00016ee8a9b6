// The standings in ordered maps.
ghost use Rattle.std.specs.Prelude.{◌≡◌, ◌≤◌, ◌<◌, ◌+◌, ◌^◌, true, false, [], length, map, None, option_copied, Some, ℕ, IfSome, IsSome, OnOk, OnErr, is_some, not, nat_eq, vec_capacity};
ghost use Rattle.std.specs.BTreeMap.{get};
ghost use Rattle.std.proofs.lemmas.Map.Entries.{option_filter};
ghost use Rattle.std.specs.Ordering.{nat_cmp};
ghost use Rattle.std.specs.List.{filter, list_any};
ghost use Rattle.ug_table.specs.Allowed.{matches_allowed};
ghost use Rattle.std.specs.List.Sorted.{IsSorted};
ghost use Rattle.ug_types.specs.Names.{sweep_cmp};
ghost use Rattle.ug_table.specs.Standings.{named, standing_of, numbered, marked, did_default, without, with_standing, lists};
ghost use Rattle.ug_table.specs.Slots.{filled, place_of, IsRetry, noted};
ghost use Rattle.ug_table.specs.Orders.{with_order};
ghost use Rattle.ug_table.specs.Order.{IsNextNumbered};

use crate::slots::{
    Slots, fill, find, forget, has, make_place, mark, mark_default, order, retain_listed,
};
use crate::standing::{Known, Place, Standing};
use crate::table::known_of;
use crate::watch::{Watch, find_allowed, look_again, look_at, matches_found, rules_out, watching};
use std::alloc::Global;
use std::collections::BTreeMap;
use std::marker::Model;
use std::mem::replace;
use std::ops::Bound;
use ug_types::{NoMemory, NodeName, Principal, Query, Target};

/// The standings, seen as their list in sweep order of their names, beside the place that is held for one to come.
#[derive(Drop)]
pub struct Standings {
    pub(crate) by_name: Slots,
    by_number: BTreeMap<u64, NodeName>,
    // Its slot is empty, and its number leads to its name.
    place: Option<Place>,
    // The numbers of those that aren't settled, with room for each.
    retry: Vec<u64>,
    watch: Option<Watch>,
}

impl Model for Standings {
    ghost use Rattle.std.specs.Prelude.{vec_capacity};
    ghost use Rattle.ug_table.specs.Slots.{Store, store, filled, Agree};
    ghost use Rattle.ug_table.specs.Watched.{AnswersFor};

    ghost Value = { Store };

    ghost view = { λ s. store s.by_name.entries s.place };

    ghost invariant = { λ s.
        Agree s.by_name s.by_number s.place s.retry.items (vec_capacity s.retry)
        × AnswersFor s.watch (filled s.by_name.entries) };
}

impl Standings {
    /// No standing, and no place. It takes no memory.
    pub fn new(alloc: Global) -> Standings
        ensures items { result.items ≡ [] }
        ensures place { result.place ≡ None }
    {
        Standings {
            by_name: BTreeMap::new(alloc),
            by_number: BTreeMap::new(alloc),
            place: None,
            retry: Vec::new(alloc),
            watch: None,
        }
    }

    /// The standing of a name.
    pub fn named(&self, name: &NodeName) -> Option<&Standing>
        ensures { option_copied result ≡ named name.now self.now.items }
    {
        find(&self.by_name, name)
    }

    /// What is known of the standing of a name.
    pub fn find(&self, name: &NodeName) -> Option<Known>
        ensures { result ≡ standing_of name.now self.now.items }
    {
        match self.named(name) {
            Some(s) => Some(known_of(s)),
            None => None,
        }
    }

    /// Whether a query matches a settled device whose verdict is to allow it.
    pub fn any_allowed(&self, query: &Query) -> bool
        ensures { result ≡ list_any (matches_allowed query.now) self.now.items }
    {
        if rules_out(&self.watch, query) {
            return false;
        }
        matches_found(&self.by_name, &self.watch, query)
            || find_allowed(&self.by_name, query).is_some()
    }

    /// Has the answer for a query at hand from now on, where there is memory for it.
    pub fn watch(&mut self, alloc: Global, query: Option<&Query>)
        ensures items { self.new.items ≡ self.old.items }
        ensures place { self.new.place ≡ self.old.place }
    {
        let watch = match query {
            Some(query) => watching(alloc, query, &self.by_name),
            None => None,
        };
        drop(replace(&mut self.watch, watch));
    }

    /// The standing of a number.
    pub fn numbered(&self, number: u64) -> Option<&Standing>
        ensures { option_copied result ≡ numbered number self.now.items }
    {
        let name = match self.by_number.get(&number) {
            Some(name) => name,
            None => return None,
        };
        find(&self.by_name, name)
    }

    /// The standing with the least number above that one.
    pub fn first_after(&self, number: u64) -> Option<&Standing>
        ensures { IsNextNumbered self.now.items number (option_copied result) }
    {
        let mut from = number;
        while let Some(at) = next_key(&self.by_number, from) {
            if let Some(s) = self.numbered(at) {
                return Some(s);
            }
            from = at;
        }
        None
    }

    /// The numbers of the standings that aren't settled.
    pub fn retry(&self) -> &[u64]
        ensures { IsRetry self.now.items result.now }
    {
        &self.retry
    }

    /// Holds a place for a standing of that name and number, in place of any that was held. Where there is no memory,
    /// none is held.
    pub fn reserve(&mut self, name: &NodeName, number: u64) -> Result<(), NoMemory>
        requires unnamed { named name.now self.old.items ≡ None }
        requires unnumbered { numbered number self.old.items ≡ None }
        ensures items { self.new.items ≡ self.old.items }
        ensures place { OnOk result (self.new.place ≡ place_of name.now number) }
        ensures refused { OnErr result (self.new.place ≡ None) }
    {
        self.release();
        if self.retry.reserve(self.by_name.len() + 1).is_err() {
            return Err(NoMemory);
        }
        if self.by_number.insert(number, *name).is_err() {
            return Err(NoMemory);
        }
        if make_place(&mut self.by_name, name) {
            self.place = Some(Place {
                name: *name,
                number,
            });
            return Ok(());
        }
        let _again = self.by_number.remove(&number);
        Err(NoMemory)
    }

    /// Puts a standing in its place. It takes no memory.
    pub fn put(&mut self, standing: Standing)
        requires place { self.old.place ≡ place_of standing.name standing.number }
        ensures items { self.new.items ≡ with_standing standing self.old.items }
        ensures place { self.new.place ≡ None }
        ensures len { length self.new.items ≡ length self.old.items + 1 }
    {
        note_mark(&mut self.retry, standing.number, true, standing.settled);
        look_at(&mut self.watch, &standing);
        fill(&mut self.by_name, standing);
        self.place = None;
    }

    /// Gives up the place that is held, if any.
    pub fn release(&mut self)
        ensures items { self.new.items ≡ self.old.items }
        ensures place { self.new.place ≡ None }
    {
        let Some(place) = self.place else {
            return;
        };
        let _number = self.by_number.remove(&place.number);
        forget(&mut self.by_name, &place.name);
        self.place = None;
    }

    /// Drops the standing of a name.
    pub fn forget(&mut self, name: &NodeName)
        ensures items { self.new.items ≡ without name.now self.old.items }
        ensures len { length self.new.items ≤ length self.old.items }
    {
        let (number, settled) = match find(&self.by_name, name) {
            Some(s) => (s.number, s.settled),
            None => return,
        };
        note_mark(&mut self.retry, number, settled, true);
        let _number = self.by_number.remove(&number);
        forget(&mut self.by_name, name);
    }

    /// Notes whether the standing of a name is settled. It takes no memory.
    pub fn mark(&mut self, name: &NodeName, settled: bool)
        ensures items { self.new.items ≡ map (marked name.now settled) self.old.items }
        ensures len { length self.new.items ≡ length self.old.items }
    {
        let (number, was) = match find(&self.by_name, name) {
            Some(s) => (s.number, s.settled),
            None => return,
        };
        note_mark(&mut self.retry, number, was, settled);
        mark(&mut self.by_name, name, settled);
        look_again(&mut self.watch, &self.by_name, name);
    }

    /// Notes that the default of a name's device was written, where it was. It takes no memory.
    pub fn mark_default(&mut self, name: &NodeName, wrote: bool)
        ensures items { self.new.items ≡ did_default name.now wrote self.old.items }
        ensures len { length self.new.items ≡ length self.old.items }
    {
        if wrote {
            mark_default(&mut self.by_name, name);
        }
    }

    /// Gives the standing of a number the verdict that a user or group ordered.
    pub fn set_verdict(&mut self, number: u64, verdict: Target, who: Principal)
        ensures items { self.new.items ≡ with_order number verdict who self.old.items }
        ensures len { length self.new.items ≡ length self.old.items }
    {
        let name = match self.numbered(number) {
            Some(s) => s.name,
            None => return,
        };
        order(&mut self.by_name, &name, number, verdict, who);
        look_again(&mut self.watch, &self.by_name, &name);
    }

    /// How many standings there are.
    pub fn count_filled(&self) -> usize
        ensures { result ≡ length self.now.items }
    {
        match self.place {
            Some(_) => self.by_name.len() - 1,
            None => self.by_name.len(),
        }
    }

    /// How many standings there are, and places for others.
    pub fn count(&self) -> usize
        ensures most { length self.now.items ≤ result }
        ensures small { result < 2 ^ 63 }
    {
        self.by_name.len()
    }

    /// Drops the standings of other names than these, which are in order, and any place.
    pub fn retain_listed(&mut self, names: &[NodeName])
        requires { IsSorted sweep_cmp names.now }
        ensures items { self.new.items ≡ filter (λ s. lists names.now s.name) self.old.items }
        ensures len { length self.new.items ≤ length self.old.items }
    {
        self.release();
        retain_listed(&mut self.by_name, names);
        keep_numbers(&mut self.by_number, names);
        keep_known(&mut self.retry, &self.by_number);
    }
}

// The least number above that one that has a name.
fn next_key(by_number: &BTreeMap<u64, NodeName>, number: u64) -> Option<u64>
    ensures none { result ≡ None → (q : ℕ) → number < q → get nat_cmp by_number.now q ≡ None }
    ensures some { IfSome result
        (λ n. (number < n)
        × ((q : ℕ) → number < q → IsSome (get nat_cmp by_number.now q) → n ≤ q)) }
{
    match by_number
        .range((Bound::Excluded(number), Bound::Unbounded))
        .next()
    {
        Some((at, _name)) => Some(*at),
        None => None,
    }
}

fn keep_numbers(by_number: &mut BTreeMap<u64, NodeName>, names: &[NodeName])
    requires { IsSorted sweep_cmp names.now }
    ensures { (q : ℕ)
        → get nat_cmp by_number.new q
        ≡ option_filter (lists names.now) (get nat_cmp by_number.old q) }
{
    by_number.retain(|_number, name| has(names, name));
}

fn keep_known(retry: &mut Vec<u64>, by_number: &BTreeMap<u64, NodeName>)
    ensures items { retry.new.items
        ≡ filter (λ n. is_some (get nat_cmp by_number.now n)) retry.old.items }
    ensures capacity { vec_capacity retry.new ≡ vec_capacity retry.old }
{
    retry.retain(|n| by_number.contains_key(n));
}

// Notes that the mark of a number went from `was` to `now`.
fn note_mark(retry: &mut Vec<u64>, number: u64, was: bool, now: bool)
    requires { was ≡ true → now ≡ false → length retry.old.items < vec_capacity retry.old }
    ensures items { retry.new.items ≡ noted number was now retry.old.items }
    ensures capacity { vec_capacity retry.new ≡ vec_capacity retry.old }
{
    match (was, now) {
        (true, false) => retry.push_reserved(number),
        (false, true) => take_out(retry, number),
        _ => {}
    }
}

// Takes a number off the list.
fn take_out(retry: &mut Vec<u64>, number: u64)
    ensures items { retry.new.items ≡ filter (λ n. not (nat_eq n number)) retry.old.items }
    ensures capacity { vec_capacity retry.new ≡ vec_capacity retry.old }
{
    retry.retain(|n| *n != number);
}
