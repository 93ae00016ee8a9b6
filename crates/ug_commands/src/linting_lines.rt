// The lines about rules that can never decide, each with its newline.
ghost use Rattle.std.specs.Prelude.{◌≡◌, ◌++◌, IfOk, OnOk};
ghost use Rattle.ug_commands.specs.LintingLines as lines;

use std::alloc::Global;
use ug_lint::Finding;
use ug_types::{Line, NoMemory, Text};

/// `covered J by I` or `never J`, counted from 1.
#[tactic(auto, unfolding(crate::specs::LintingLines::finding_line))]
fn line_of_finding(finding: &Finding) -> Line
    ensures { result ≡ lines.finding_line finding.now }
{
    match finding {
        Finding::Covered { rule, by } => {
            let mut line = Line::of(b"covered ");
            line.push_decimal(*rule as u64 + 1);
            line.push(b" by ");
            line.push_decimal(*by as u64 + 1);
            line.push(b"\n");
            line
        }
        Finding::Never { rule } => {
            let mut line = Line::of(b"never ");
            line.push_decimal(*rule as u64 + 1);
            line.push(b"\n");
            line
        }
    }
}

/// `lint N`.
#[tactic(auto, unfolding(crate::specs::LintingLines::count_line))]
fn line_of_findings(count: u64) -> Line
    ensures { result ≡ lines.count_line count }
{
    let mut line = Line::of(b"lint ");
    line.push_decimal(count);
    line.push(b"\n");
    line
}

fn push_line(text: &mut Vec<u8>, line: &Line) -> Result<(), NoMemory>
    ensures { OnOk result (text.new.items ≡ text.old.items ++ line.now) }
{
    match text.extend_from_slice(line.bytes()) {
        Ok(()) => Ok(()),
        Err(_) => Err(NoMemory),
    }
}

/// A line for each finding, and one with their number.
pub fn text_of_findings(alloc: Global, found: &[Finding]) -> Result<Text, NoMemory>
    ensures { IfOk result (λ text. text ≡ lines.findings_text found.now) }
{
    let mut text = Vec::new(alloc);
    for finding in found {
        push_line(&mut text, &line_of_finding(finding))?;
    }
    push_line(&mut text, &line_of_findings(found.len() as u64))?;
    Ok(Text::from_vec(text))
}
