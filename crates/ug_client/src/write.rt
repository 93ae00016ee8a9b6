// What is printed of a reply.
ghost use Rattle.std.specs.Prelude.{◌≡◌, ◌≤◌, ◌++◌, IfOk, OnOk};
ghost use Rattle.ug_types.specs.Ends.{Rose};
ghost use Rattle.ug_proto.specs.Replies.{ended_lines};
ghost use Rattle.ug_client.specs.Answers.{printed};
ghost use Rattle.ug_proto.specs.declared.reply.Reply.TheVariants.{Refused};
ghost use Rattle.ug_client.specs.Asking.{Writes, end_by_reply};
ghost use Rattle.ug_client.specs.Fetching.{WritesText};

use crate::asked::Asked;
use std::alloc::Global;
use ug_proto::Reply;
use ug_types::{NoMemory, Put, Refusal, Sink, Text, words_of};

/// The lines, each with its newline.
pub fn put_lines(out: &mut Vec<u8>, lines: &[Text]) -> Result<(), NoMemory>
    ensures { OnOk result (out.new.items ≡ out.old.items ++ ended_lines lines.now) }
{
    for line in lines {
        out.extend_from_slice(line.bytes())?;
        out.extend_from_slice(b"\n")?;
    }
    Ok(())
}

/// A refusal's line.
pub fn put_words(out: &mut Vec<u8>, refusal: &Refusal) -> Result<(), NoMemory>
    ensures { OnOk result (out.new.items ≡ out.old.items ++ printed (Refused refusal.now)) }
{
    let words = words_of(refusal);
    out.extend_from_slice(words.bytes())?;
    out.extend_from_slice(b"\n")?;
    Ok(())
}

/// The lines of a done reply, or a refusal's line, each with its newline.
pub fn print_answer(alloc: Global, reply: &Reply) -> Result<Vec<u8>, NoMemory>
    ensures { IfOk result (λ text. text.items ≡ printed reply.now) }
{
    let mut out = Vec::new(alloc);
    match reply {
        Reply::Lines(lines) => put_lines(&mut out, lines.as_slice())?,
        Reply::Refused(refusal) => put_words(&mut out, refusal)?,
    }
    Ok(out)
}

fn end_of(reply: &Reply) -> Asked
    ensures { result ≡ end_by_reply reply.now }
{
    match reply {
        Reply::Lines(_) => Asked::Done,
        Reply::Refused(_) => Asked::Refused,
    }
}

/// Writes a text of a reply, by one call of the sink.
pub fn write_text<K: Sink>(out: &mut K, reply: &Reply, text: &[u8]) -> Asked
    ensures written { WritesText (K.held out.old) (K.held out.new) reply.now text.now result }
    ensures counted { K.faults out.old ≤ K.faults out.new }
    ensures cause { result ≡ Asked.WriteFault → Rose (K.faults out.old) (K.faults out.new) }
{
    match out.put(text) {
        Put::Done => end_of(reply),
        Put::Failed => Asked::WriteFault,
    }
}

/// Prints the reply, by one call of the sink.
pub fn write_answer<K: Sink>(alloc: Global, out: &mut K, reply: &Reply) -> Asked
    ensures written { Writes (K.held out.old) (K.held out.new) reply.now result }
    ensures text { WritesText (K.held out.old) (K.held out.new) reply.now (printed reply.now)
        result }
    ensures counted { K.faults out.old ≤ K.faults out.new }
    ensures cause { result ≡ Asked.WriteFault → Rose (K.faults out.old) (K.faults out.new) }
{
    match print_answer(alloc, reply) {
        Ok(text) => write_text(out, reply, &text),
        Err(_) => Asked::Memory,
    }
}
