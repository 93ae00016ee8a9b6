// Devices and interfaces that come and go.
ghost use Rattle.ug_steps.specs.Grammar as grammar;
ghost use Rattle.ug_steps.specs.Grammar.{move_of};
ghost use Rattle.ug_steps.specs.Words.{Parses};

use crate::iface_lines::{iface_name, new_iface};
use crate::line_word::{LineWord, line_word};
use crate::plugs::device;
use crate::step::StepFault;
use crate::words::{name, space};
use std::alloc::Global;
use ug_sysfs::{IfaceMove, Move};

/// What stands behind `plug`, `unplug`, `iface` or `uniface`. `plug` takes a name, `1` where the device starts authorised, else `0`, its
/// descriptors in hexadecimal, and its texts, each a dash or a string. `unplug` takes a name. `iface` takes the device's name, the
/// interface's configuration and number with a dot between, its class, subclass and protocol, and `1` where it starts authorised, else
/// `0`. `uniface` takes the first two of these.
fn move_behind(alloc: Global, word: LineWord, text: &[u8]) -> Result<Move, StepFault>
    ensures { Parses (grammar.move_behind word text.now) result }
{
    let bad = StepFault::Bad;
    match word {
        LineWord::Plug => device(alloc, text).map(Move::Plug),
        LineWord::Unplug => name(text).ok_or(bad).map(Move::Unplug),
        LineWord::Iface => new_iface(text)
            .ok_or(bad)
            .map(IfaceMove::Add)
            .map(Move::Iface),
        LineWord::Uniface => iface_name(text)
            .ok_or(bad)
            .map(IfaceMove::Remove)
            .map(Move::Iface),
        _ => Err(bad),
    }
}

/// A move that stands behind the number of a call.
pub fn move_line(alloc: Global, line: &[u8]) -> Result<Move, StepFault>
    ensures { Parses (move_of line.now) result }
{
    match space(line) {
        None => Err(StepFault::Bad),
        Some(at) => match line_word(&line[..at]) {
            None => Err(StepFault::Bad),
            Some(word) => move_behind(alloc, word, &line[at + 1..]),
        },
    }
}
