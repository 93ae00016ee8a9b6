// Brings a device to its verdict.
ghost use Rattle.std.specs.Prelude.{◌≡◌, ◌≤◌, ◌+◌, ◌&&◌, List, Some, None};
ghost use Rattle.ug_types.specs.Names.{parent_of};
ghost use Rattle.ug_kernel.specs.declared.control.Write.{Write};
ghost use Rattle.ug_kernel.specs.declared.control.Control.TheVariants.{Default};
ghost use Rattle.ug_kernel.specs.declared.control.Write.TheVariants.{Remove};
ghost use Rattle.ug_kernel.specs.Tree.{Return, Runs};
ghost use Rattle.ug_audit.specs.Journal.{Notes, noted_in};
ghost use Rattle.ug_audit.specs.declared.entry.Entry.{Entry};
ghost use Rattle.ug_table.specs.declared.standing.Settled.TheVariants.{Stands};
ghost use Rattle.ug_table.specs.Done.{control_of};
ghost use Rattle.ug_table.specs.Bring.{wants, write_of, is_reject, is_to_go, valuing, to_once, after_hold, after_write, close_gone, once, writing, bringing, default_write, default_due, treating};
ghost use Rattle.ug_table.specs.Settle.{stands};

use crate::standing::{Known, Settled};
use std::alloc::Global;
use ug_audit::{Auditor, Entry, Journal};
use ug_kernel::{
    FailedCall, Held, RemoveHold, Sysfs, Write, Wrote, failed_call, hold_default, hold_remove, put,
};
use ug_types::{NodeName, Target};

/// Whether a verdict wants the device to be authorised.
pub fn is_wanted(verdict: Target) -> bool
    ensures { result ≡ wants verdict }
{
    match verdict {
        Target::Allow => true,
        Target::Block => false,
        Target::Reject => false,
    }
}

fn write_for(verdict: Target) -> Write
    ensures { result ≡ write_of verdict }
{
    match verdict {
        Target::Allow => Write::On,
        Target::Block => Write::Off,
        Target::Reject => Write::Off,
    }
}

pub fn is_reject(verdict: Target) -> bool
    ensures { result ≡ is_reject verdict }
{
    match verdict {
        Target::Allow => false,
        Target::Block => false,
        Target::Reject => true,
    }
}

/// Whether the settling of a name ended so that its device has what its verdict wants.
pub fn is_stands(settled: Settled) -> bool
    ensures { result ≡ stands settled }
{
    match settled {
        Settled::Stands => true,
        _ => false,
    }
}

// Whether a device is still to be removed, now that its value was written.
fn is_to_go(known: Known, settled: Settled) -> bool
    ensures { result ≡ (stands settled && is_to_go known) }
{
    is_stands(settled) && is_reject(known.verdict) && !known.removed
}

// Closes the held file of a device that was found gone.
fn close_gone<Y: Sysfs>(sysfs: &mut Y, known: Known, settled: Settled)
    ensures { (entries : List Entry) → Runs Y.gives sysfs.old
        (close_gone known.held.0 entries settled) (settled, entries) sysfs.new }
{
    match settled {
        Settled::Nobody => sysfs.close(known.held),
        _ => {}
    }
}

// Notes what became of a write, and how the settling goes on behind it.
fn note_write(
    out: &mut Journal,
    name: &NodeName,
    number: u64,
    write: Write,
    outcome: Wrote,
    failed: FailedCall,
) -> Settled
    requires { 2 ≤ (noted_in out.old).spare }
    ensures after { after_write name.now number write (noted_in out.old).entries outcome failed
        ≡ Return (result, (noted_in out.new).entries) }
    ensures journal { Notes (λ b. ⟦<dyn Auditor as Auditor>⟧ b.vtable) 2 out.old out.new }
    ensures stands { result ≡ Stands → (noted_in out.old).spare ≤ (noted_in out.new).spare + 1 }
{
    out.push(Entry::Wrote {
        number,
        name: *name,
        write,
        outcome,
    });
    match outcome {
        Wrote::Done => Settled::Stands,
        Wrote::Gone => {
            out.push(Entry::Gone {
                number,
                name: *name,
            });
            Settled::Nobody
        }
        Wrote::Failed => Settled::Fault(failed),
    }
}

/// Writes where the value differs from the one that the verdict wants.
#[tactic(auto, unfolding(crate::specs::Bring::valuing))]
fn set_value<Y: Sysfs>(
    sysfs: &mut Y,
    name: &NodeName,
    known: Known,
    on: bool,
    out: &mut Journal,
) -> Settled
    requires { 3 ≤ (noted_in out.old).spare }
    ensures runs { Runs Y.gives sysfs.old (valuing name.now known on (noted_in out.old).entries)
        (result, (noted_in out.new).entries) sysfs.new }
    ensures journal { Notes (λ b. ⟦<dyn Auditor as Auditor>⟧ b.vtable) 3 out.old out.new }
    ensures stands { result ≡ Stands → (noted_in out.old).spare ≤ (noted_in out.new).spare + 2 }
{
    if is_wanted(known.verdict) == on {
        return Settled::Stands;
    }
    let number = known.number;
    let write = write_for(known.verdict);
    out.push(Entry::Intent {
        number,
        name: *name,
        write,
    });
    let outcome = sysfs.write(known.held, write);
    let failed = failed_call(sysfs);
    note_write(out, name, number, write, outcome, failed)
}

// Writes to a file of a device that was held, and closes it.
fn write_file<Y: Sysfs>(
    sysfs: &mut Y,
    name: &NodeName,
    known: Known,
    write: Write,
    file: Held,
    out: &mut Journal,
) -> Settled
    requires { 3 ≤ (noted_in out.old).spare }
    ensures runs { Runs Y.gives sysfs.old
        (to_once name.now known write file.0 (noted_in out.old).entries)
        (result, (noted_in out.new).entries) sysfs.new }
    ensures journal { Notes (λ b. ⟦<dyn Auditor as Auditor>⟧ b.vtable) 3 out.old out.new }
    ensures stands { result ≡ Stands → (noted_in out.old).spare ≤ (noted_in out.new).spare + 2 }
{
    let number = known.number;
    let intent = Entry::Intent {
        number,
        name: *name,
        write,
    };
    out.push(intent);
    let wrote = put(sysfs, file, write);
    let failed = failed_call(sysfs);
    sysfs.close(file);
    note_write(out, name, number, write, wrote, failed)
}

// Writes to a file of a device where it is held.
fn write_held<Y: Sysfs>(
    sysfs: &mut Y,
    name: &NodeName,
    known: Known,
    write: Write,
    hold: RemoveHold,
    out: &mut Journal,
) -> Settled
    requires { 3 ≤ (noted_in out.old).spare }
    ensures runs { Runs Y.gives sysfs.old
        (after_hold name.now known write (noted_in out.old).entries hold)
        (result, (noted_in out.new).entries) sysfs.new }
    ensures journal { Notes (λ b. ⟦<dyn Auditor as Auditor>⟧ b.vtable) 3 out.old out.new }
    ensures stands { result ≡ Stands → (noted_in out.old).spare ≤ (noted_in out.new).spare + 2 }
{
    match hold {
        RemoveHold::Ready(file) => write_file(sysfs, name, known, write, file, out),
        RemoveHold::Gone => {
            out.push(Entry::Gone {
                number: known.number,
                name: *name,
            });
            Settled::Nobody
        }
        RemoveHold::Failed(failed) => Settled::Fault(failed),
        RemoveHold::Memory => Settled::Memory,
    }
}

// Opens the `remove` file of a device, and writes to it.
#[tactic(auto, unfolding(crate::specs::Bring::once), using(ug_kernel::proofs::Runs::runs_then))]
fn remove<Y: Sysfs>(
    alloc: Global,
    sysfs: &mut Y,
    name: &NodeName,
    known: Known,
    out: &mut Journal,
) -> Settled
    requires { 3 ≤ (noted_in out.old).spare }
    ensures runs { Runs Y.gives sysfs.old (once name.now known Remove (noted_in out.old).entries)
        (result, (noted_in out.new).entries) sysfs.new }
    ensures journal { Notes (λ b. ⟦<dyn Auditor as Auditor>⟧ b.vtable) 3 out.old out.new }
{
    let hold = hold_remove(alloc, sysfs, name, known.held);
    write_held(sysfs, name, known, Write::Remove, hold, out)
}

// Opens the `authorized_default` file of a root hub, and writes to it.
#[tactic(auto, unfolding(crate::specs::Bring::once), using(ug_kernel::proofs::Runs::runs_then))]
fn write_default<Y: Sysfs>(
    alloc: Global,
    sysfs: &mut Y,
    name: &NodeName,
    known: Known,
    write: Write,
    out: &mut Journal,
) -> Settled
    requires root { parent_of name.now ≡ None }
    requires file { control_of write ≡ Default }
    requires room { 3 ≤ (noted_in out.old).spare }
    ensures runs { Runs Y.gives sysfs.old (once name.now known write (noted_in out.old).entries)
        (result, (noted_in out.new).entries) sysfs.new }
    ensures journal { Notes (λ b. ⟦<dyn Auditor as Auditor>⟧ b.vtable) 3 out.old out.new }
    ensures stands { result ≡ Stands → (noted_in out.old).spare ≤ (noted_in out.new).spare + 2 }
{
    let hold = hold_default(alloc, sysfs, name, known.held);
    write_held(sysfs, name, known, write, hold, out)
}

// What is written to the default of each root hub.
fn default_write(hub_default: Option<Write>) -> Option<Write>
    ensures { result ≡ default_write hub_default }
{
    match hub_default {
        Some(Write::DefaultOff) => Some(Write::DefaultOff),
        Some(Write::DefaultOn) => Some(Write::DefaultOn),
        _ => None,
    }
}

// What is still to be written to the default of a root hub.
fn default_due(hub_default: Option<Write>, name: &NodeName, known: Known) -> Option<Write>
    ensures due { result ≡ default_due hub_default name.now known }
    ensures root { (what : Write) → result ≡ Some what
        → (parent_of name.now ≡ None) × (control_of what ≡ Default) }
{
    if name.parent().is_none() && !known.defaulted {
        default_write(hub_default)
    } else {
        None
    }
}

/// Makes all writes of a sweep for a device: first that to the default of a root hub, where it is still to be made, and then those of
/// its verdict. It tells whether the default was written.
pub fn treat<Y: Sysfs>(
    alloc: Global,
    sysfs: &mut Y,
    name: &NodeName,
    known: Known,
    on: bool,
    hub_default: Option<Write>,
    out: &mut Journal,
) -> (Settled, bool)
    requires { 7 ≤ (noted_in out.old).spare }
    ensures runs { Runs Y.gives sysfs.old
        (treating hub_default name.now known on (noted_in out.old).entries)
        (result.0, result.1, (noted_in out.new).entries) sysfs.new }
    ensures journal { Notes (λ b. ⟦<dyn Auditor as Auditor>⟧ b.vtable) 7 out.old out.new }
{
    let write = match default_due(hub_default, name, known) {
        Some(write) => write,
        None => return (bring(alloc, sysfs, name, known, on, out), false),
    };
    let settled = write_default(alloc, sysfs, name, known, write, out);
    if is_stands(settled) {
        let known = Known {
            defaulted: true,
            ..known
        };
        return (bring(alloc, sysfs, name, known, on, out), true);
    }
    close_gone(sysfs, known, settled);
    (settled, false)
}

/// Writes where the value differs from the one that the verdict wants, and then removes a device that is rejected and
/// wasn't removed yet. The held file of a device that is found gone is closed.
pub fn bring<Y: Sysfs>(
    alloc: Global,
    sysfs: &mut Y,
    name: &NodeName,
    known: Known,
    on: bool,
    out: &mut Journal,
) -> Settled
    requires { 5 ≤ (noted_in out.old).spare }
    ensures runs { Runs Y.gives sysfs.old (bringing name.now known on (noted_in out.old).entries)
        (result, (noted_in out.new).entries) sysfs.new }
    ensures journal { Notes (λ b. ⟦<dyn Auditor as Auditor>⟧ b.vtable) 5 out.old out.new }
{
    let settled = make_writes(alloc, sysfs, name, known, on, out);
    close_gone(sysfs, known, settled);
    settled
}

fn make_writes<Y: Sysfs>(
    alloc: Global,
    sysfs: &mut Y,
    name: &NodeName,
    known: Known,
    on: bool,
    out: &mut Journal,
) -> Settled
    requires { 5 ≤ (noted_in out.old).spare }
    ensures runs { Runs Y.gives sysfs.old (writing name.now known on (noted_in out.old).entries)
        (result, (noted_in out.new).entries) sysfs.new }
    ensures journal { Notes (λ b. ⟦<dyn Auditor as Auditor>⟧ b.vtable) 5 out.old out.new }
{
    let settled = set_value(sysfs, name, known, on, out);
    if is_to_go(known, settled) {
        return remove(alloc, sysfs, name, known, out);
    }
    settled
}
