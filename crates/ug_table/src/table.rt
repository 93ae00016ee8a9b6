// The list of standings, in sweep order of their names.
ghost use Rattle.std.specs.Prelude.{◌≡◌, ◌↔◌, [], false, length, option_copied, IsNone};
ghost use Rattle.ug_types.specs.Elements.{Has};
ghost use Rattle.ug_table.specs.declared.standing.Standing.{Standing};
ghost use Rattle.ug_table.specs.Order.{StandInOrder, IsNextNumbered};
ghost use Rattle.std.specs.List.{list_any};
ghost use Rattle.ug_match.specs.Queries.{query_matches};
ghost use Rattle.ug_table.specs.Allowed.{allowed_of, allowed_records};
ghost use Rattle.ug_table.specs.Standings.{known_of, numbered};

use crate::kept::Standings;
use crate::standing::{Known, Standing};
use std::alloc::Global;
use std::marker::Model;
use ug_match::matches;
use ug_types::{Judged, NodeName, Query, Target};

/// The standings, seen as their list in sweep order of their names, the number of the next, and whether a listing has
/// succeeded.
#[derive(Drop)]
pub struct Table {
    pub(crate) standings: Standings,
    pub(crate) next: u64,
    pub(crate) listed: bool,
    // Room for the names of all standings.
    pub(crate) names: Vec<NodeName>,
}

impl Model for Table {
    ghost use Rattle.std.specs.Prelude.{◌≤◌, length, vec_capacity};
    ghost use Rattle.ug_table.specs.Table.{TableState};
    ghost use Rattle.ug_table.specs.Order.{StandInOrder};

    ghost Value = { TableState };

    ghost view = { λ t. record {
      standings = t.standings.items;
      next = t.next;
      listed = t.listed;
    } };

    ghost invariant = { λ t. StandInOrder t.next t.standings.items
        × (length t.standings.items ≤ vec_capacity t.names) };
}

impl Table {
    /// Drops it. A crate that calls this need not prove how its parts are dropped.
    pub fn discard(self) {}

    /// No standing. It takes no memory.
    pub fn new(alloc: Global) -> Table
        ensures standings { result.standings ≡ [] }
        ensures next { result.next ≡ 1 }
        ensures listed { result.listed ≡ false }
    {
        Table {
            standings: Standings::new(alloc),
            next: 1,
            listed: false,
            names: Vec::new(alloc),
        }
    }

    /// Whether a listing has succeeded.
    pub fn listed(&self) -> bool
        ensures { result ≡ self.now.listed }
    {
        self.listed
    }

    /// How many standings there are.
    pub fn count(&self) -> usize
        ensures { result ≡ length self.now.standings }
    {
        self.standings.count_filled()
    }

    /// The number of the next standing: numbers begin with 1, and each is given out once.
    pub fn next_number(&self) -> u64
        ensures next { result ≡ self.now.next }
        ensures standings { StandInOrder result self.now.standings }
    {
        self.next
    }

    /// The standing of that number. It is none exactly where no standing has it.
    pub fn standing(&self, number: u64) -> Option<&Standing>
        ensures value { option_copied result ≡ numbered number self.now.standings }
        ensures none { IsNone result
            ↔ ((s : Standing) → Has self.now.standings s → s.number ≡ number → ⊥) }
    {
        self.standings.numbered(number)
    }

    /// The standing with the least number above that one. From 0 on, it leads to each standing in the order of their
    /// numbers.
    pub fn standing_after(&self, number: u64) -> Option<&Standing>
        ensures { IsNextNumbered self.now.standings number (option_copied result) }
    {
        self.standings.first_after(number)
    }

    /// Whether a query matches a settled device whose verdict is to allow it. A malformed device matches none. It takes
    /// no memory.
    pub fn any_allowed(&self, query: &Query) -> bool
        ensures { result ≡ list_any (query_matches query.now) (allowed_records self.now.standings) }
    {
        self.standings.any_allowed(query)
    }
}

// Whether a query matches the device of a standing, which is settled and allowed.
pub fn is_allowed(s: &Standing, query: &Query) -> bool
    ensures { result
        ≡ list_any (query_matches query.now) (allowed_of s.now.settled s.now.verdict s.now.judged) }
{
    match (s.settled, s.verdict, &s.judged) {
        (true, Target::Allow, Judged::Good(device)) => matches(query, device),
        _ => false,
    }
}

/// What the writes of a standing need.
pub fn known_of(s: &Standing) -> Known
    ensures { result ≡ known_of s.now }
{
    Known {
        number: s.number,
        held: s.held,
        verdict: s.verdict,
        removed: s.removed,
        defaulted: s.defaulted,
    }
}
