// Notices behind a reply, line by line.
ghost use Rattle.std.specs.Prelude.{◌≡◌, ◌≢◌, ◌≤◌, Some, drop, length};
ghost use Rattle.ug_types.specs.Ends.{Rose};
ghost use Rattle.ug_client.specs.Watching.{IsNextNotice, ShowsBy};

use crate::asked::Asked;
use crate::notice::line_length;
use crate::notice_line::is_notice;
use ug_types::{Put, Sink};

/// The greatest length of a line.
const MAX_LINE: usize = 65535;

/// What stands in front of a text.
#[derive(Clone, Copy)]
pub enum Next {
    /// A notice, of so many bytes with its newline.
    Notice(usize),
    /// The beginning of a line, or nothing.
    Begun,
    Other,
}

/// How a showing ended, the place behind what was shown, and how many more lines may be shown.
#[derive(Clone, Copy)]
pub struct Shown {
    /// None where more bytes are wanted.
    pub ended: Option<Asked>,
    pub at: usize,
    pub room: u64,
}

/// What stands in front.
fn next_line(text: &[u8]) -> Next
    ensures { IsNextNotice text.now result }
{
    match line_length(text) {
        Some(n) => {
            if n > MAX_LINE {
                return Next::Other;
            }
            if is_notice(&text[..n]) {
                return Next::Notice(n + 1);
            }
            Next::Other
        }
        None => {
            if text.len() > MAX_LINE {
                return Next::Other;
            }
            Next::Begun
        }
    }
}

/// Prints the notices that stand whole, but no more than so many.
pub fn show_notices<K: Sink>(out: &mut K, text: &[u8], most: u64) -> Shown
    ensures shows { ShowsBy text.now most (K.held out.old)
        (drop result.at text.now) result.room (K.held out.new) result.ended }
    ensures within { result.at ≤ length text.now }
    ensures no_link { result.ended ≢ Some Asked.LinkFailed }
    ensures counted { K.faults out.old ≤ K.faults out.new }
    ensures cause { result.ended ≡ Some Asked.WriteFault
        → Rose (K.faults out.old) (K.faults out.new) }
{
    let mut at = 0;
    let mut room = most;
    'notices: loop {
        if room == 0 {
            return Shown {
                ended: Some(Asked::Done),
                at,
                room,
            };
        }
        match next_line(&text[at..]) {
            Next::Notice(n) => {
                match out.put(&text[at..at + n]) {
                    Put::Done => {}
                    Put::Failed => return Shown {
                        ended: Some(Asked::WriteFault),
                        at,
                        room,
                    },
                }
                at += n;
                room -= 1;
            }
            Next::Begun => return Shown {
                ended: None,
                at,
                room,
            },
            Next::Other => return Shown {
                ended: Some(Asked::NoReply),
                at,
                room,
            },
        }
    }
}
