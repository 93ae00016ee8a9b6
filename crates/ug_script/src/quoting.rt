// Lines behind a mark.
ghost use Rattle.std.specs.Prelude.{◌≡◌, ◌++◌, Some, OnOk};
ghost use Rattle.ug_script.specs.Replay.{quoted, quoted_lines, reply_lines};

use std::alloc::Global;
use ug_lines::next_line;
use ug_proto::{Reply, print_reply};
use ug_types::NoMemory;

/// A line behind `> `.
fn push_quoted(text: &mut Vec<u8>, line: &[u8]) -> Result<(), NoMemory>
    ensures { OnOk result (text.new.items ≡ text.old.items ++ quoted line.now) }
{
    text.extend_from_slice(b"> ")?;
    text.extend_from_slice(line)?;
    text.push(b'\n')?;
    Ok(())
}

fn push_quoted_lines(text: &mut Vec<u8>, lines: &[u8]) -> Result<(), NoMemory>
    ensures { OnOk result (text.new.items ≡ text.old.items ++ quoted_lines lines.now) }
{
    let mut rest = lines;
    while !rest.is_empty() {
        let (line, more) = next_line(rest);
        push_quoted(text, line)?;
        rest = more;
    }
    Ok(())
}

/// The lines of a reply, each behind `> `.
pub fn push_reply(alloc: Global, text: &mut Vec<u8>, reply: &Reply) -> Result<(), NoMemory>
    ensures { OnOk result (text.new.items ≡ text.old.items ++ reply_lines (Some reply.now)) }
{
    let printed = print_reply(alloc, reply)?;
    push_quoted_lines(text, printed.bytes())
}
