// The words that lines begin with.
ghost use Rattle.std.specs.Prelude.{◌≡◌};
ghost use Rattle.ug_steps.specs.LineWords.{line_word_of, plan_word_of, setup_word_of};

use ug_types::is_word;

/// A line's first word.
#[derive(Clone, Copy)]
pub enum LineWord {
    Plug,
    Unplug,
    Iface,
    Uniface,
    Before,
    After,
    Fail,
    /// `disk fail`.
    Disk,
    Stop,
    Sweep,
    Order,
    Hint,
    Rule,
    Folder,
    Conf,
    Access,
    Seed,
    Zone,
    IfaceRule,
}

/// The word of a line that stands before all others.
#[tactic(auto, unfolding(crate::specs::LineWords::setup_word_of))]
fn setup_word(text: &[u8]) -> Option<LineWord>
    ensures { result ≡ setup_word_of text.now }
{
    if is_word(text, b"rule") {
        return Some(LineWord::Rule);
    }
    if is_word(text, b"folder") {
        return Some(LineWord::Folder);
    }
    if is_word(text, b"conf") {
        return Some(LineWord::Conf);
    }
    if is_word(text, b"access") {
        return Some(LineWord::Access);
    }
    if is_word(text, b"seed") {
        return Some(LineWord::Seed);
    }
    if is_word(text, b"zone") {
        return Some(LineWord::Zone);
    }
    if is_word(text, b"iface-rule") {
        return Some(LineWord::IfaceRule);
    }
    None
}

/// That, or the word of a line for a call of the next event.
#[tactic(auto, unfolding(crate::specs::LineWords::plan_word_of))]
fn plan_word(text: &[u8]) -> Option<LineWord>
    ensures { result ≡ plan_word_of text.now }
{
    if is_word(text, b"before") {
        return Some(LineWord::Before);
    }
    if is_word(text, b"after") {
        return Some(LineWord::After);
    }
    if is_word(text, b"fail") {
        return Some(LineWord::Fail);
    }
    if is_word(text, b"disk") {
        return Some(LineWord::Disk);
    }
    if is_word(text, b"stop") {
        return Some(LineWord::Stop);
    }
    setup_word(text)
}

#[tactic(auto, unfolding(crate::specs::LineWords::line_word_of))]
pub fn line_word(text: &[u8]) -> Option<LineWord>
    ensures { result ≡ line_word_of text.now }
{
    if is_word(text, b"plug") {
        return Some(LineWord::Plug);
    }
    if is_word(text, b"unplug") {
        return Some(LineWord::Unplug);
    }
    if is_word(text, b"iface") {
        return Some(LineWord::Iface);
    }
    if is_word(text, b"uniface") {
        return Some(LineWord::Uniface);
    }
    if is_word(text, b"sweep") {
        return Some(LineWord::Sweep);
    }
    if is_word(text, b"order") {
        return Some(LineWord::Order);
    }
    if is_word(text, b"hint") {
        return Some(LineWord::Hint);
    }
    plan_word(text)
}
