// The lines about a text of rules, each with its newline.
ghost use Rattle.std.specs.Prelude.{◌≡◌};
ghost use Rattle.ug_commands.specs.CheckingLines.{rules_line, bad_rules_line};

use ug_types::{Line, TextFault};

/// `rules N`.
#[tactic(auto, unfolding(crate::specs::CheckingLines::rules_line))]
pub fn line_of_count(count: u64) -> Line
    ensures { result ≡ rules_line count }
{
    let mut line = Line::of(b"rules ");
    line.push_decimal(count);
    line.push(b"\n");
    line
}

/// `bad rules line N kind K place P`.
#[tactic(auto, unfolding(crate::specs::CheckingLines::bad_rules_line))]
pub fn line_of_bad_rules(fault: TextFault) -> Line
    ensures { result ≡ bad_rules_line fault }
{
    let mut line = Line::of(b"bad rules line ");
    line.push_decimal(fault.line);
    line.push(b" kind ");
    line.push_decimal(fault.kind as u64);
    line.push(b" place ");
    line.push_decimal(fault.place);
    line.push(b"\n");
    line
}
