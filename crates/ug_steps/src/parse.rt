// The steps of a script's lines.
ghost use Rattle.ug_steps.specs.Grammar as grammar;
ghost use Rattle.ug_steps.specs.Grammar.{step_of_line};
ghost use Rattle.ug_steps.specs.Words.{Parses};

use crate::event_lines::{hint, order};
use crate::iface_lines::{iface_name, new_iface};
use crate::line_word::{LineWord, line_word};
use crate::plan_lines::{disk_fail, failing, scheduled, stop};
use crate::plugs::device;
use crate::setup_lines::{offset, read_access, read_folder_line, read_iface_rule, read_rule, seed};
use crate::step::{Plan, SetupLine, Step, StepFault};
use crate::words::{moment, name, space};
use std::alloc::Global;
use ug_sysfs::{IfaceMove, Move};
use ug_types::{Event, Moment, Text, is_word};

/// What stands behind a line's first word.
#[tactic(auto, unfolding(crate::specs::Grammar::step_by_word))]
fn step_by_word(alloc: Global, word: LineWord, text: &[u8]) -> Result<Step, StepFault>
    ensures { Parses (grammar.step_by_word word text.now) result }
{
    let bad = StepFault::Bad;
    match word {
        LineWord::Plug => device(alloc, text).map(Move::Plug).map(Step::Move),
        LineWord::Unplug => name(text).ok_or(bad).map(Move::Unplug).map(Step::Move),
        LineWord::Iface => new_iface(text)
            .ok_or(bad)
            .map(IfaceMove::Add)
            .map(Move::Iface)
            .map(Step::Move),
        LineWord::Uniface => iface_name(text)
            .ok_or(bad)
            .map(IfaceMove::Remove)
            .map(Move::Iface)
            .map(Step::Move),
        LineWord::Before => scheduled(alloc, false, text)
            .map(Plan::Move)
            .map(Step::Schedule),
        LineWord::After => scheduled(alloc, true, text)
            .map(Plan::Move)
            .map(Step::Schedule),
        LineWord::Fail => failing(text).ok_or(bad).map(Plan::Fail).map(Step::Schedule),
        LineWord::Disk => disk_fail(text)
            .ok_or(bad)
            .map(Plan::OnDisk)
            .map(Step::Schedule),
        LineWord::Stop => stop(text).ok_or(bad).map(Plan::OnDisk).map(Step::Schedule),
        LineWord::Sweep => moment(text)
            .ok_or(bad)
            .map(Moment)
            .map(Event::Sweep)
            .map(Step::Event),
        LineWord::Order => order(alloc, text).map(Step::Event),
        LineWord::Hint => hint(alloc, text).map(Step::Event),
        LineWord::Rule => read_rule(alloc, text).map(Step::Setup),
        LineWord::Folder => read_folder_line(alloc, text).map(Step::Setup),
        LineWord::Conf => Ok(Step::Setup(SetupLine::Conf(Text::of(alloc, text)?))),
        LineWord::Access => read_access(alloc, text).map(Step::Setup),
        LineWord::Seed => seed(text).ok_or(bad).map(SetupLine::Seed).map(Step::Setup),
        LineWord::Zone => offset(text)
            .ok_or(bad)
            .map(SetupLine::Zone)
            .map(Step::Setup),
        LineWord::IfaceRule => read_iface_rule(alloc, text).map(Step::Setup),
    }
}

/// Reads a line that is not the first. An empty line and a comment are skipped. `plug`, `unplug`, `iface` and `uniface` tell what the
/// kernel does by itself; `before`, `after`, `fail`, `disk fail` and `stop` speak of a call of the next event; `sweep`, `order` and `hint` are events; `restart`
/// begins another run of the daemon; `rule`, `folder`, `conf`, `access`, `seed`, `zone` and `iface-rule` stand
/// before all others.
#[tactic(auto, unfolding(crate::specs::Grammar::step_of_line))]
pub fn parse_line(alloc: Global, line: &[u8]) -> Result<Step, StepFault>
    ensures { Parses (step_of_line line.now) result }
{
    if line.is_empty() || line.starts_with(b"#") {
        return Ok(Step::Skip);
    }
    if is_word(line, b"restart") {
        return Ok(Step::Restart);
    }
    match space(line) {
        None => Err(StepFault::Bad),
        Some(at) => match line_word(&line[..at]) {
            None => Err(StepFault::Bad),
            Some(word) => step_by_word(alloc, word, &line[at + 1..]),
        },
    }
}
