// The slots of names: each holds a standing, or its place.
ghost use Rattle.std.specs.Prelude.{◌≡◌, ◌≤◌, ◌+◌, true, false, ◌||◌, ◌&&◌, not, [], ◌∷◌, length, map, Some, None, option_copied};
ghost use Rattle.std.specs.Bool.{OnTrue, OnFalse};
ghost use Rattle.std.specs.List.{filter};
ghost use Rattle.std.specs.List.Sorted.{IsSorted};
ghost use Rattle.std.specs.BTreeMap.{IsOrdered};
ghost use Rattle.ug_types.specs.Names.{sweep_cmp};
ghost use Rattle.ug_table.specs.Standings.{same_name, named, marked, with_default, without, with_standing, lists};
ghost use Rattle.ug_types.specs.Elements.{Has};
ghost use Rattle.ug_table.specs.declared.standing.Standing.{Standing};
ghost use Rattle.ug_table.specs.Bring.{is_reject};
ghost use Rattle.ug_table.specs.Orders.{with_order};
ghost use Rattle.ug_table.specs.Slots.{filled, slot_of, empty_of, AllNamed};

use crate::bring::is_reject;
use crate::standing::Standing;
use std::collections::BTreeMap;
use std::mem::replace;
use ug_types::{Cause, NodeName, Principal, Target};

pub(crate) type Slots = BTreeMap<NodeName, Option<Standing>>;

/// The standing of a name.
pub(crate) fn find<'a>(slots: &'a Slots, name: &NodeName) -> Option<&'a Standing>
    requires ordered { IsOrdered sweep_cmp slots.now }
    requires bear { AllNamed slots.now.entries }
    ensures { option_copied result ≡ named name.now (filled slots.now.entries) }
{
    match slots.get(name) {
        Some(slot) => slot.as_ref(),
        None => None,
    }
}

/// Notes whether the standing of a name is settled. A rejected device that is settled was removed.
pub(crate) fn mark(slots: &mut Slots, name: &NodeName, settled: bool)
    requires ordered { IsOrdered sweep_cmp slots.old }
    requires bear { AllNamed slots.old.entries }
    ensures items { filled slots.new.entries
        ≡ map (marked name.now settled) (filled slots.old.entries) }
    ensures ordered { IsOrdered sweep_cmp slots.new }
    ensures bear { AllNamed slots.new.entries }
    ensures empty { empty_of slots.new.entries ≡ empty_of slots.old.entries }
    ensures len { length slots.new.entries ≡ length slots.old.entries }
{
    let Some(slot) = slots.get_mut(name) else {
        return;
    };
    let Some(s) = slot else {
        return;
    };
    s.removed = is_removed(s, settled);
    s.settled = settled;
}

// Whether a device is removed, once its settling has ended so.
fn is_removed(s: &Standing, settled: bool) -> bool
    ensures { result ≡ (s.now.removed || (settled && is_reject s.now.verdict)) }
{
    s.removed || (settled && is_reject(s.verdict))
}

/// Notes that the default of a name's device was written.
pub(crate) fn mark_default(slots: &mut Slots, name: &NodeName)
    requires ordered { IsOrdered sweep_cmp slots.old }
    requires bear { AllNamed slots.old.entries }
    ensures items { filled slots.new.entries
        ≡ map (with_default name.now) (filled slots.old.entries) }
    ensures ordered { IsOrdered sweep_cmp slots.new }
    ensures bear { AllNamed slots.new.entries }
    ensures empty { empty_of slots.new.entries ≡ empty_of slots.old.entries }
    ensures len { length slots.new.entries ≡ length slots.old.entries }
{
    let Some(slot) = slots.get_mut(name) else {
        return;
    };
    let Some(s) = slot else {
        return;
    };
    s.defaulted = true;
}

/// Gives the standing of a name and number the verdict that a user or group ordered.
pub(crate) fn order(
    slots: &mut Slots,
    name: &NodeName,
    number: u64,
    verdict: Target,
    who: Principal,
)
    requires ordered { IsOrdered sweep_cmp slots.old }
    requires bear { AllNamed slots.old.entries }
    requires own { (s : Standing) → Has (filled slots.old.entries) s
        → same_name s.name name.now ≡ false → s.number ≡ number → ⊥ }
    requires numbered { (s : Standing) → Has (filled slots.old.entries) s
        → same_name s.name name.now ≡ true → s.number ≡ number }
    ensures items { filled slots.new.entries
        ≡ with_order number verdict who (filled slots.old.entries) }
    ensures ordered { IsOrdered sweep_cmp slots.new }
    ensures bear { AllNamed slots.new.entries }
    ensures empty { empty_of slots.new.entries ≡ empty_of slots.old.entries }
    ensures len { length slots.new.entries ≡ length slots.old.entries }
{
    let Some(slot) = slots.get_mut(name) else {
        return;
    };
    let Some(s) = slot else {
        return;
    };
    s.cause = Cause::Order(who);
    s.verdict = verdict;
}

/// Drops the slot of a name.
pub(crate) fn forget(slots: &mut Slots, name: &NodeName)
    requires ordered { IsOrdered sweep_cmp slots.old }
    requires bear { AllNamed slots.old.entries }
    ensures items { filled slots.new.entries ≡ without name.now (filled slots.old.entries) }
    ensures ordered { IsOrdered sweep_cmp slots.new }
    ensures bear { AllNamed slots.new.entries }
    ensures empty { empty_of slots.new.entries
        ≡ filter (λ n. not (same_name n name.now)) (empty_of slots.old.entries) }
    ensures len { length slots.new.entries ≤ length slots.old.entries }
{
    drop(slots.remove(name));
}

/// Makes a place for a name that has no standing.
pub(crate) fn make_place(slots: &mut Slots, name: &NodeName) -> bool
    requires ordered { IsOrdered sweep_cmp slots.old }
    requires bear { AllNamed slots.old.entries }
    requires absent { named name.now (filled slots.old.entries) ≡ None }
    requires full { empty_of slots.old.entries ≡ [] }
    ensures items { filled slots.new.entries ≡ filled slots.old.entries }
    ensures ordered { IsOrdered sweep_cmp slots.new }
    ensures bear { AllNamed slots.new.entries }
    ensures len { length slots.new.entries ≤ length slots.old.entries + 1 }
    ensures place { OnTrue result (empty_of slots.new.entries ≡ name.now ∷ []) }
    ensures same { OnFalse result (slots.new.entries ≡ slots.old.entries) }
{
    let made = slots.insert(*name, None);
    let has_place = made.is_ok();
    drop(made);
    has_place
}

/// Fills the place of a standing.
pub(crate) fn fill(slots: &mut Slots, standing: Standing)
    requires ordered { IsOrdered sweep_cmp slots.old }
    requires bear { AllNamed slots.old.entries }
    requires place { slot_of standing.name slots.old.entries ≡ Some None }
    requires only { empty_of slots.old.entries ≡ standing.name ∷ [] }
    ensures items { filled slots.new.entries ≡ with_standing standing (filled slots.old.entries) }
    ensures ordered { IsOrdered sweep_cmp slots.new }
    ensures bear { AllNamed slots.new.entries }
    ensures empty { empty_of slots.new.entries ≡ [] }
    ensures len { length slots.new.entries ≡ length slots.old.entries }
{
    let name = standing.name;
    match slots.get_mut(&name) {
        Some(slot) => drop(replace(slot, Some(standing))),
        None => drop(standing),
    }
}

/// Whether the names, which are in order, have that name.
pub(crate) fn has(names: &[NodeName], name: &NodeName) -> bool
    requires { IsSorted sweep_cmp names.now }
    ensures { result ≡ lists names.now name.now }
{
    names.binary_search(name).is_ok()
}

/// Keeps the slots of the names, which are in order.
pub(crate) fn retain_listed(slots: &mut Slots, names: &[NodeName])
    requires sorted { IsSorted sweep_cmp names.now }
    requires bear { AllNamed slots.old.entries }
    ensures entries { slots.new.entries ≡ filter (λ e. lists names.now e.0) slots.old.entries }
    ensures items { filled slots.new.entries
        ≡ filter (λ s. lists names.now s.name) (filled slots.old.entries) }
    ensures ordered { IsOrdered sweep_cmp slots.new }
    ensures bear { AllNamed slots.new.entries }
    ensures empty { empty_of slots.new.entries
        ≡ filter (lists names.now) (empty_of slots.old.entries) }
    ensures len { length slots.new.entries ≤ length slots.old.entries }
{
    slots.retain(|name, _slot| has(names, name));
}
