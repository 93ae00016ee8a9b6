// The list of devices.
ghost use Rattle.std.specs.Prelude.{◌≡◌, ◌++◌, ◌∷◌, [], IfOk, OnOk, option_copied};
ghost use Rattle.ug_lines.specs.Splitting.{IsLine, AreLines};
ghost use Rattle.ug_core.specs.DeviceRows.{IsFirstFrom, device_row, device_rows, device_text};

use std::alloc::Global;
use ug_print::{device_line, malformed_line};
use ug_ruleset::print_row;
use ug_table::{Standing, Table};
use ug_types::{Judged, List, NoMemory, NodeName, Target, Text};

fn print_device(
    alloc: Global,
    name: &NodeName,
    judged: &Judged,
    verdict: Target,
) -> Result<Text, NoMemory>
    ensures text { IfOk result (λ text. text ≡ device_text name.now verdict judged.now) }
    ensures one_line { IfOk result (λ text. IsLine text) }
{
    match judged {
        Judged::Good(device) => device_line(alloc, device, verdict),
        Judged::Malformed { kind, place } => malformed_line(alloc, name, *kind, *place, verdict),
    }
}

// Puts the row of a standing behind the others.
#[tactic(auto, unfolding(crate::specs::DeviceRows::device_row))]
fn push_device_row(alloc: Global, s: &Standing, rows: &mut List<Text>) -> Result<(), NoMemory>
    ensures row { OnOk result (rows.new ≡ rows.old ++ device_row s.now ∷ []) }
    ensures one_line { OnOk result (IsLine (device_row s.now)) }
{
    let text = print_device(alloc, &s.name, &s.judged, s.verdict)?;
    let row = print_row(alloc, s.number, text.bytes());
    drop(text);
    rows.push(Text::from_vec(row?))
}

// The standing with the least number from that one on.
fn standing_from(table: &Table, number: u64) -> Option<&Standing>
    ensures { IsFirstFrom table.now.standings number (option_copied result) }
{
    match table.standing(number) {
        Some(s) => Some(s),
        None => table.standing_after(number),
    }
}

/// The lines of a list of devices, without their newlines: one for each standing, by rising number, `NUMBER: DEVICE` with
/// the verdict on the device. A malformed device has the line of its first fault.
pub fn list_devices(alloc: Global, table: &Table) -> Result<List<Text>, NoMemory>
    ensures rows { IfOk result (λ rows. rows ≡ device_rows table.now.standings) }
    ensures one_line { IfOk result (λ rows. AreLines rows) }
{
    let mut rows = List::new(alloc);
    // Each number is below the next one, so the walk ends.
    let _next = table.next_number();
    let mut from = 0;
    while let Some(s) = standing_from(table, from) {
        push_device_row(alloc, s, &mut rows)?;
        from = s.number + 1;
    }
    Ok(rows)
}
