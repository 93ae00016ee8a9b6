// Numbers in hexadecimal digits.
ghost use Rattle.std.specs.Prelude.{◌≡◌, ◌++◌, OnOk};
ghost use Rattle.ug_lines.specs.Digits.{hex_four, hex_two};

use ug_lines::{four_digits, two_digits};
use ug_types::NoMemory;

/// Appends two digits in lower case.
pub fn put_byte(out: &mut Vec<u8>, n: u8) -> Result<(), NoMemory>
    ensures { OnOk result (out.new.items ≡ out.old.items ++ hex_two n) }
{
    out.extend_from_slice(&two_digits(n))?;
    Ok(())
}

/// Appends four digits in lower case.
pub fn put_number(out: &mut Vec<u8>, n: u16) -> Result<(), NoMemory>
    ensures { OnOk result (out.new.items ≡ out.old.items ++ hex_four n) }
{
    out.extend_from_slice(&four_digits(n))?;
    Ok(())
}
