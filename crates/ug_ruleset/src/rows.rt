// A row of a list: a number and what has it.
ghost use Rattle.std.specs.Prelude.{◌≡◌, IfOk, OnOk, decimal};
ghost use Rattle.ug_lines.specs.Splitting.{IsLine};
ghost use Rattle.ug_ruleset.specs.Rows.{numbered_row};

use itoa::Buffer;
use std::alloc::Global;
use ug_types::NoMemory;

/// `NUMBER: TEXT`.
#[tactic(auto, unfolding(crate::specs::Rows::numbered_row))]
pub fn print_row(alloc: Global, number: u64, text: &[u8]) -> Result<Vec<u8>, NoMemory>
    ensures row { IfOk result (λ row. row.items ≡ numbered_row number text.now) }
    ensures one_line { IsLine text.now → OnOk result (IsLine (numbered_row number text.now)) }
{
    let mut digits = Buffer::new();
    let mut row = Vec::new(alloc);
    row.extend_from_slice(digits.format(number).as_bytes())?;
    row.extend_from_slice(b": ")?;
    row.extend_from_slice(text)?;
    Ok(row)
}
