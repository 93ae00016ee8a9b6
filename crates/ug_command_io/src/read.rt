// An input that is read whole, up to a limit.
ghost use Rattle.std.specs.Prelude.{◌≡◌, Err};
ghost use Rattle.ug_types.specs.Ends.{Rose};
ghost use Rattle.ug_command_io.specs.Reading.{ReadsWhole};

use std::alloc::Global;
use ug_types::{Source, Taken, Text};

/// Why an input wasn't read whole.
#[derive(Clone, Copy)]
pub enum InputFault {
    /// It has more bytes than the limit. Some of those behind the limit were taken.
    TooLong,
    /// The source failed.
    Failed,
    Memory,
}

/// All bytes of an input that has at most that many. Memory grows with the input, and not with the limit.
pub fn read_input<S: Source>(alloc: Global, input: &mut S, most: usize) -> Result<Text, InputFault>
    ensures read { ReadsWhole most (S.left input.old) (S.left input.new) result }
    ensures cause { result ≡ Err InputFault.Failed
        → Rose (S.faults input.old) (S.faults input.new) }
{
    let mut bytes = Vec::new(alloc);
    let mut piece = [0u8; 4096];
    'pieces: loop {
        match input.take(&mut piece) {
            Taken::Bytes(n) => {
                if n > most - bytes.len() {
                    return Err(InputFault::TooLong);
                }
                if bytes.extend_from_slice(&piece[..n]).is_err() {
                    return Err(InputFault::Memory);
                }
            }
            Taken::End => return Ok(Text::from_vec(bytes)),
            Taken::Failed => return Err(InputFault::Failed),
        }
    }
}
