// The text of an event.
ghost use Rattle.std.specs.Prelude.{◌≡◌, ◌≤◌, ◌++◌, Some, IfOk, OnOk};
ghost use Rattle.ug_types.specs.Ends.{Rose};
ghost use Rattle.ug_command_io.specs.Runs.{Closes};
ghost use Rattle.ug_script.specs.Play as play;
ghost use Rattle.ug_script.specs.Replay as replay;
ghost use Rattle.ug_script.specs.Replay.{terminated, lines_text};

use crate::quoting::push_reply;
use std::alloc::Global;
use ug_audit::line_of;
use ug_command_io::Ran;
use ug_core::{Entry, Fault, Report};
use ug_types::{Line, NoMemory, Put, Refusal, Saved, Sink};

fn push_line(text: &mut Vec<u8>, entry: &Entry) -> Result<(), NoMemory>
    ensures { OnOk result (text.new.items ≡ text.old.items ++ terminated entry.now) }
{
    text.extend_from_slice(line_of(entry).bytes())?;
    text.push(b'\n')?;
    Ok(())
}

/// The lines of the entries, each with its newline.
fn text_of(alloc: Global, entries: &[Entry]) -> Result<Vec<u8>, NoMemory>
    ensures { IfOk result (λ text. text.items ≡ lines_text entries.now) }
{
    let mut text = Vec::new(alloc);
    for entry in entries {
        push_line(&mut text, entry)?;
    }
    Ok(text)
}

/// What is written of an event: the lines of its entries, and those of its reply.
pub fn outcome_text(alloc: Global, report: &Report) -> Result<Vec<u8>, NoMemory>
    ensures { IfOk result (λ text. text.items
        ≡ replay.outcome_text (record {
          entries = report.now.entries.entries;
          reply = report.now.reply;
        })) }
{
    let mut text = text_of(alloc, report.entries.as_slice())?;
    if let Some(reply) = &report.reply {
        push_reply(alloc, &mut text, reply)?;
    }
    Ok(text)
}

/// The text of an event, and behind it that of its pass.
pub fn whole_text(alloc: Global, report: &Report, passed: &[u8]) -> Result<Vec<u8>, NoMemory>
    ensures { IfOk result (λ text. text.items
        ≡ replay.outcome_text (record {
          entries = report.now.entries.entries;
          reply = report.now.reply;
        }) ++ passed.now) }
{
    let mut text = outcome_text(alloc, report)?;
    text.extend_from_slice(passed)?;
    Ok(text)
}

#[tactic(auto, unfolding(crate::specs::Replay::stopped_line))]
fn stopped_line(call: u64) -> Line
    ensures { result ≡ replay.stopped_line call }
{
    let mut line = Line::of(b"stopped ");
    line.push_decimal(call);
    line.push(b"\n");
    line
}

/// What is written of an event in which the machine stopped: the line of its beginning, and that of the call.
pub fn stopped_text(alloc: Global, entries: &[Entry], call: u64) -> Result<Vec<u8>, NoMemory>
    ensures { IfOk result (λ text. text.items ≡ replay.stopped_text call entries.now) }
{
    let mut text = Vec::new(alloc);
    if let Some(first) = entries.first() {
        push_line(&mut text, first)?;
    }
    text.extend_from_slice(stopped_line(call).bytes())?;
    Ok(text)
}

fn entry_tells_memory(entry: &Entry) -> bool
    ensures { result ≡ play.entry_tells_memory entry.now }
{
    match entry {
        Entry::Unsettled { fault, .. } | Entry::UnsettledAll { fault } => {
            matches!(fault, Fault::Memory)
        }
        Entry::Save(saved) => matches!(saved, Saved::Memory),
        Entry::Reply(Err(refusal)) => matches!(refusal, Refusal::Memory { .. }),
        _ => false,
    }
}

/// Whether one of the entries tells want of memory.
pub fn tells_memory(entries: &[Entry]) -> bool
    ensures { result ≡ play.tells_memory entries.now }
{
    entries.iter().any(entry_tells_memory)
}

/// Writes a text.
pub fn put<K: Sink>(out: &mut K, text: &[u8]) -> Ran
    ensures ran { Closes (Some text.now) (K.held out.old) (K.held out.new) result }
    ensures taken { (¬ (result ≡ Ran.Bad)) × (¬ (result ≡ Ran.TooLong)) }
    ensures counted { K.faults out.old ≤ K.faults out.new }
    ensures cause { result ≡ Ran.SinkFailed → Rose (K.faults out.old) (K.faults out.new) }
{
    match out.put(text) {
        Put::Done => Ran::Done,
        Put::Failed => Ran::SinkFailed,
    }
}
