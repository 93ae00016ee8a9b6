// The pass behind an event, which switches off interfaces.
ghost use Rattle.std.specs.Prelude.{◌≡◌, ◌⊎◌, ◌∷◌, [], true, IfOk, OnOk};
ghost use Rattle.ug_core.specs.Event.{daemon_of};
ghost use Rattle.ug_iface.specs.Settle.{aim_of};
ghost use Rattle.ug_script.specs.Passes as passes;
ghost use Rattle.ug_script.specs.Passes.{aims_at, aims_in, pass_over, pass_tells_memory, IsPassedOver};
ghost use Rattle.std.specs.List.{list_any};

use crate::pass_lines::{pass_begins, pass_ends, push_device};
use rand_chacha::ChaCha20Rng;
use std::alloc::Global;
use ug_cond::FixedZone;
use ug_core::Daemon;
use ug_iface::{IfaceEntry, IfaceRule, Passed, settle_ifaces};
use ug_sysfs::SimKernel;
use ug_table::Standing;
use ug_types::{DeviceRecord, Judged, NoMemory, Target};

fn iface_tells_memory(entry: &IfaceEntry) -> bool
    ensures { result ≡ passes.iface_tells_memory entry.now }
{
    matches!(entry, IfaceEntry::Memory { .. })
}

fn ends_by_memory(end: Passed) -> bool
    ensures { result ≡ passes.ends_by_memory end }
{
    matches!(end, Passed::Memory)
}

fn any_tells_memory(entries: &[IfaceEntry]) -> bool
    ensures { result ≡ list_any passes.iface_tells_memory entries.now }
{
    entries.iter().any(iface_tells_memory)
}

fn tells_memory(end: Passed, entries: &[IfaceEntry]) -> bool
    ensures { result ≡ pass_tells_memory end entries.now }
{
    ends_by_memory(end) || any_tells_memory(entries)
}

/// Switches off the interfaces of a device that rules name, and appends what is told of that.
fn pass_device(
    alloc: Global,
    kernel: &mut SimKernel,
    rules: &[IfaceRule],
    device: &DeviceRecord,
    standing: &Standing,
    text: &mut Vec<u8>,
) -> Result<(), NoMemory>
    ensures { OnOk result (IsPassedOver
        (aim_of rules.now device.now standing.now.number standing.now.held.0 ∷ [])
        kernel.old text.old.items kernel.new text.new.items) }
{
    let mut entries = Vec::new(alloc);
    let end = settle_ifaces(
        alloc,
        kernel,
        rules,
        device,
        standing.number,
        standing.held,
        &mut entries,
    );
    if tells_memory(end, entries.as_slice()) {
        return Err(NoMemory);
    }
    push_device(text, &device.via_port, entries.as_slice(), end)
}

/// The same of a standing that is settled, has the verdict to allow its device, and has a record.
fn pass_standing(
    alloc: Global,
    kernel: &mut SimKernel,
    rules: &[IfaceRule],
    standing: &Standing,
    text: &mut Vec<u8>,
) -> Result<(), NoMemory>
    ensures { OnOk result (IsPassedOver (aims_at rules.now standing.now)
        kernel.old text.old.items kernel.new text.new.items) }
{
    match (standing.settled, standing.verdict, &standing.judged) {
        (true, Target::Allow, Judged::Good(device)) => {
            pass_device(alloc, kernel, rules, device, standing, text)
        }
        _ => Ok(()),
    }
}

/// The same of each standing, by number.
fn pass_standings(
    alloc: Global,
    daemon: &Daemon<FixedZone, ChaCha20Rng>,
    rules: &[IfaceRule],
    kernel: &mut SimKernel,
    text: &mut Vec<u8>,
) -> Result<(), NoMemory>
    ensures { OnOk result (IsPassedOver
        (aims_in rules.now (daemon_of daemon.now).sweep.standings)
        kernel.old text.old.items kernel.new text.new.items) }
{
    let mut number = 0;
    while let Some(standing) = daemon.standing_after(number) {
        pass_standing(alloc, kernel, rules, standing, text)?;
        number = standing.number;
    }
    Ok(())
}

/// The pass behind the daemon's last event, and its text. Where there are no rules it does nothing.
pub fn pass_behind(
    alloc: Global,
    daemon: &Daemon<FixedZone, ChaCha20Rng>,
    rules: &[IfaceRule],
    kernel: &mut SimKernel,
) -> Result<Vec<u8>, NoMemory>
    ensures { IfOk result (λ text. (kernel.new.ran_out ≡ true)
        ⊎ (record { text = text.items; world = kernel.new }
        ≡ passes.pass_behind rules.now (daemon_of daemon.now) kernel.old)) }
{
    let mut text = Vec::new(alloc);
    if rules.is_empty() {
        return Ok(text);
    }
    let event = daemon.next_event().saturating_sub(1);
    text.extend_from_slice(pass_begins(event).bytes())?;
    pass_standings(alloc, daemon, rules, kernel, &mut text)?;
    text.extend_from_slice(pass_ends(event).bytes())?;
    Ok(text)
}
