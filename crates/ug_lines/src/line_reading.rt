// Texts that are read line by line, up to the first bad line.
ghost use Rattle.std.specs.Prelude.{◌≡◌, ℕ, ◌+◌, List, OnOk, Result};
ghost use Rattle.ug_types.specs.declared.text_fault.TextFault.{TextFault};
ghost use Rattle.ug_lines.specs.LineReading.{LeadsTo, text_read};

use crate::first_line::next_line;
use std::alloc::Global;
use ug_types::FileFault;

/// What takes the lines of a text one by one.
pub trait LineReader {
    /// What the lines so far say.
    ghost State: { Type 0 };

    ghost state: { Self → State };

    /// What the line of a number says behind others, or its fault.
    ghost reads: { ℕ → State → List ℕ → Result State TextFault };

    /// What joins it and the number of its next line.
    ghost keeps: { ℕ → Self → Type 0 };

    /// Takes the line of that number, without its newline.
    fn read_line(&mut self, alloc: Global, number: u64, line: &[u8]) -> Result<(), FileFault>
        requires { keeps number self.old }
        ensures read { LeadsTo (reads number (state self.old) line.now) result (state self.new) }
        ensures kept { OnOk result (keeps (number + 1) self.new) };
}

/// Takes the lines of a text, up to the first bad one. They count from 1, and the last may lack its newline. Linear in the
/// number of bytes, beside what the lines take.
pub fn read_lines<R: LineReader>(
    alloc: Global,
    reader: &mut R,
    text: &[u8],
) -> Result<(), FileFault>
    requires { R.keeps 1 reader.old }
    ensures { LeadsTo (text_read R.reads (R.state reader.old) text.now) result
        (R.state reader.new) }
{
    let mut number: u64 = 1;
    let mut rest = text;
    while !rest.is_empty() {
        let (line, more) = next_line(rest);
        match reader.read_line(alloc, number, line) {
            Ok(()) => {}
            Err(fault) => return Err(fault),
        }
        number += 1;
        rest = more;
    }
    Ok(())
}
