// A query about the devices that are allowed, whose answer is at hand.
ghost use Rattle.std.specs.Prelude.{◌≡◌, true, None, Some, is_some};
ghost use Rattle.std.specs.List.{list_any};
ghost use Rattle.std.specs.BTreeMap.{IsOrdered};
ghost use Rattle.ug_types.specs.Names.{sweep_cmp};
ghost use Rattle.ug_table.specs.Slots.{filled, AllNamed};
ghost use Rattle.ug_table.specs.Allowed.{matches_allowed};
ghost use Rattle.ug_table.specs.Standings.{named};
ghost use Rattle.ug_table.specs.Watched.{AnswersFor, if_looked, looked_at};

use crate::query::{copy_query, is_same};
use crate::slots::{Slots, find};
use crate::standing::Standing;
use crate::table::is_allowed;
use std::alloc::Global;
use ug_types::{NodeName, Query};

/// A query, and the name of a device that it matched. Where it has none, it matches no device that is settled and allowed.
#[derive(Drop)]
pub struct Watch {
    pub query: Query,
    pub found: Option<NodeName>,
}

/// The name of the first device that is settled and allowed, and that the query matches.
pub(crate) fn find_allowed(slots: &Slots, query: &Query) -> Option<NodeName>
    ensures { is_some result ≡ list_any (matches_allowed query.now) (filled slots.now.entries) }
{
    for (_name, slot) in slots {
        if let Some(s) = slot
            && is_allowed(s, query)
        {
            return Some(s.name);
        }
    }
    None
}

/// The query with its answer. Where memory is short, none.
pub(crate) fn watching(alloc: Global, query: &Query, slots: &Slots) -> Option<Watch>
    ensures { AnswersFor result (filled slots.now.entries) }
{
    let query = match copy_query(alloc, query) {
        Ok(query) => query,
        Err(_) => return None,
    };
    let found = find_allowed(slots, &query);
    Some(Watch { query, found })
}

/// Looks at a standing that is new, or changed.
pub(crate) fn look_at(watch: &mut Option<Watch>, s: &Standing)
    ensures { watch.new ≡ looked_at s.now watch.old }
{
    if let Some(w) = watch
        && is_allowed(s, &w.query)
    {
        w.found = Some(s.name);
    }
}

/// Looks at the standing of a name, which changed.
pub(crate) fn look_again(watch: &mut Option<Watch>, slots: &Slots, name: &NodeName)
    requires ordered { IsOrdered sweep_cmp slots.now }
    requires bear { AllNamed slots.now.entries }
    ensures { watch.new
        ≡ if_looked (named name.now (filled slots.now.entries)) watch.old }
{
    if let Some(s) = find(slots, name) {
        look_at(watch, s);
    }
}

/// Whether the query is watched, and matches nobody.
pub(crate) fn rules_out(watch: &Option<Watch>, query: &Query) -> bool
    ensures { result ≡ true → watch.now ≡ Some (record { query = query.now; found = None }) }
{
    match watch {
        Some(w) => w.found.is_none() && is_same(&w.query, query),
        None => false,
    }
}

/// Whether the query matches the device that was found last.
pub(crate) fn matches_found(slots: &Slots, watch: &Option<Watch>, query: &Query) -> bool
    requires ordered { IsOrdered sweep_cmp slots.now }
    requires bear { AllNamed slots.now.entries }
    ensures { result ≡ true
        → list_any (matches_allowed query.now) (filled slots.now.entries) ≡ true }
{
    let Some(
        Watch {
            found: Some(name),
            ..
        },
    ) = watch
    else {
        return false;
    };
    match find(slots, name) {
        Some(s) => is_allowed(s, query),
        None => false,
    }
}
