// The fault line of an access text.
ghost use Rattle.std.specs.Prelude.{◌≡◌};
ghost use Rattle.ug_acl.specs.Adding.{bad_access_line};

use ug_types::{Line, TextFault};

/// `bad access line N kind K place P`.
#[tactic(auto, unfolding(crate::specs::Adding::bad_access_line))]
pub fn line_of_bad_access(fault: TextFault) -> Line
    ensures { result ≡ bad_access_line fault }
{
    let mut line = Line::of(b"bad access line ");
    line.push_decimal(fault.line);
    line.push(b" kind ");
    line.push_decimal(fault.kind as u64);
    line.push(b" place ");
    line.push_decimal(fault.place);
    line.push(b"\n");
    line
}
