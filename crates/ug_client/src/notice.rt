// Notices in front of a reply.
ghost use Rattle.std.specs.Prelude.{◌≡◌, ◌<◌, ◌+◌, ◌++◌, ◌∷◌, IfSome, IfNone, take, drop, length};
ghost use Rattle.ug_types.specs.Elements.{Has};
ghost use Rattle.ug_client.specs.Notices.{IsInFront};

use crate::notice_line::is_notice;

/// What stands in front of a text.
#[derive(Clone, Copy)]
pub enum Front {
    /// A notice, of so many bytes with its newline.
    Notice(usize),
    /// The beginning of a line that may become a notice, or nothing.
    Begun,
    Other,
}

/// How many bytes stand before the first newline.
pub fn line_length(text: &[u8]) -> Option<usize>
    ensures within { IfSome result (λ n. n < length text.now) }
    ensures some { IfSome result (λ n. text.now ≡ take n text.now ++ 10 ∷ drop (n + 1) text.now) }
    ensures line { IfSome result (λ n. ¬ Has (take n text.now) 10) }
    ensures none { IfNone result (¬ Has text.now 10) }
{
    for (i, byte) in text.iter().enumerate() {
        if *byte == b'\n' {
            return Some(i);
        }
    }
    None
}

/// What stands in front where no line ends.
fn front_of_begun(text: &[u8]) -> Front
    requires { ¬ Has text.now 10 }
    ensures { IsInFront text.now result }
{
    if text.starts_with(b"! ") {
        return Front::Begun;
    }
    if b"! ".starts_with(text) {
        return Front::Begun;
    }
    Front::Other
}

/// What stands in front.
pub fn front_of(text: &[u8]) -> Front
    ensures { IsInFront text.now result }
{
    match line_length(text) {
        Some(n) => {
            if is_notice(&text[..n]) {
                return Front::Notice(n + 1);
            }
            Front::Other
        }
        None => front_of_begun(text),
    }
}
