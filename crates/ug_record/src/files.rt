// The text of a file.
ghost use Rattle.std.specs.Prelude.{◌≡◌, IfOk};
ghost use Rattle.ug_record.specs.Records.{without_newline as file_text};

use std::alloc::Global;
use ug_types::{NoMemory, Text};

/// The bytes of a file in sysfs, less the newline at their end, if there is one.
pub fn text_of(alloc: Global, file: &[u8]) -> Result<Text, NoMemory>
    ensures { IfOk result (λ text. text ≡ file_text file.now) }
{
    Text::of(alloc, without_newline(file))
}

#[tactic(auto, using(crate::proofs::Newline::text_cut, crate::proofs::Newline::text_kept, crate::proofs::Newline::text_empty))]
pub fn without_newline(file: &[u8]) -> &[u8]
    ensures { result.now ≡ file_text file.now }
{
    let Some(end) = file.len().checked_sub(1) else {
        return file;
    };
    if file[end] == b'\n' {
        &file[..end]
    } else {
        file
    }
}
