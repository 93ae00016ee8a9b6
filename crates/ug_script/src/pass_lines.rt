// The lines of a pass over the interfaces of devices.
ghost use Rattle.std.specs.Prelude.{◌≡◌, ◌≤◌, ◌<◌, ◌+◌, ◌++◌, OnOk, flat_map, length};
ghost use Rattle.ug_audit.specs.Lines.{wrote_word};
ghost use Rattle.ug_script.specs.PassLines as lines;
ghost use Rattle.ug_script.specs.PassLines.{told_text, ending_text, iface_line, iface_text};

use ug_iface::{IfaceEntry, IfaceName, Passed};
use ug_kernel::Wrote;
use ug_types::{Line, NoMemory, NodeName};

/// Appends the name of an interface.
fn push_iface(line: &mut Line, name: &IfaceName)
    requires { length line.old + 80 ≤ 512 }
    ensures text { line.new ≡ line.old ++ iface_text name.now }
    ensures length { length line.new ≤ length line.old + 80 }
{
    let _short = name.device.len();
    line.push(name.device.bytes());
    line.push(b":");
    line.push_decimal(name.config as u64);
    line.push(b".");
    line.push_decimal(name.number as u64);
}

#[tactic(auto, unfolding(ug_audit::specs::Lines::wrote_word))]
fn word_of(out: Wrote) -> &'static [u8]
    ensures text { result.now ≡ wrote_word out }
    ensures length { length result.now ≤ 6 }
{
    match out {
        Wrote::Done => b"done",
        Wrote::Gone => b"gone",
        Wrote::Failed => b"failed",
    }
}

/// A line that begins with a word, a standing's number and an interface.
fn begin_line(word: &[u8], number: u64, name: &IfaceName) -> Line
    requires { length word.now ≤ 20 }
    ensures text { result
        ≡ word.now ++ (Rattle.std.specs.Prelude.decimal number
        ++ (Rattle.std.specs.Prelude.codes " " ++ iface_text name.now)) }
    ensures length { length result ≤ 121 }
{
    let mut line = Line::of(word);
    line.push_decimal(number);
    line.push(b" ");
    push_iface(&mut line, name);
    line
}

/// What is told of an interface.
#[tactic(auto, unfolding(crate::specs::PassLines::iface_line))]
fn iface_line(entry: &IfaceEntry) -> Line
    ensures { result ≡ lines.iface_line entry.now }
{
    match entry {
        IfaceEntry::Intent { number, name } => {
            let mut line = begin_line(b"iface-intent ", *number, name);
            line.push(b" off\n");
            line
        }
        IfaceEntry::Wrote { number, name, out } => {
            let mut line = begin_line(b"iface-wrote ", *number, name);
            line.push(b" off ");
            line.push(word_of(*out));
            line.push(b"\n");
            line
        }
        IfaceEntry::Fault { name, count, .. } => {
            let mut line = Line::of(b"iface-unsettled ");
            push_iface(&mut line, name);
            line.push(b" fault ");
            line.push_decimal(*count);
            line.push(b"\n");
            line
        }
        IfaceEntry::Memory { name, .. } => {
            let mut line = Line::of(b"iface-unsettled ");
            push_iface(&mut line, name);
            line.push(b" memory\n");
            line
        }
    }
}

/// How the pass over a device ended, where that is told.
#[tactic(auto, unfolding(crate::specs::PassLines::ending_text))]
fn ending(device: &NodeName, end: Passed) -> Line
    ensures { result ≡ ending_text device.now end }
{
    let _short = device.len();
    match end {
        Passed::Done | Passed::Gone => Line::new(),
        Passed::Fault(count) => {
            let mut line = Line::of(b"iface-unsettled ");
            line.push(device.bytes());
            line.push(b" fault ");
            line.push_decimal(count);
            line.push(b"\n");
            line
        }
        Passed::Memory => {
            let mut line = Line::of(b"iface-unsettled ");
            line.push(device.bytes());
            line.push(b" memory\n");
            line
        }
    }
}

fn push_entries(text: &mut Vec<u8>, entries: &[IfaceEntry]) -> Result<(), NoMemory>
    ensures { OnOk result
        (text.new.items ≡ text.old.items ++ flat_map lines.iface_line entries.now) }
{
    for entry in entries {
        text.extend_from_slice(iface_line(entry).bytes())?;
    }
    Ok(())
}

/// What is written of one device.
pub fn push_device(
    text: &mut Vec<u8>,
    device: &NodeName,
    entries: &[IfaceEntry],
    end: Passed,
) -> Result<(), NoMemory>
    ensures { OnOk result
        (text.new.items ≡ text.old.items ++ told_text device.now entries.now end) }
{
    push_entries(text, entries)?;
    text.extend_from_slice(ending(device, end).bytes())?;
    Ok(())
}

/// The first line of the pass behind an event.
#[tactic(auto, unfolding(crate::specs::PassLines::pass_begins))]
pub fn pass_begins(event: u64) -> Line
    ensures { result ≡ lines.pass_begins event }
{
    let mut line = Line::of(b"pass ");
    line.push_decimal(event);
    line.push(b"\n");
    line
}

/// And the last one.
#[tactic(auto, unfolding(crate::specs::PassLines::pass_ends))]
pub fn pass_ends(event: u64) -> Line
    ensures { result ≡ lines.pass_ends event }
{
    let mut line = Line::of(b"pass-end ");
    line.push_decimal(event);
    line.push(b"\n");
    line
}
