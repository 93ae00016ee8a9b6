// The numbers of the devices that a query matches.
ghost use Rattle.std.specs.Prelude.{◌≡◌, ◌++◌, [], IfOk, OnOk};
ghost use Rattle.ug_rows.specs.Rows as rows;

use crate::rows::{matches_text, read_row};
use std::alloc::Global;
use ug_types::{NoMemory, Query, Text};

#[tactic(auto, unfolding(crate::specs::Rows::matching_number))]
pub fn matching_number(alloc: Global, query: &Query, row: &[u8]) -> Result<Option<u64>, NoMemory>
    ensures { IfOk result (λ number. number ≡ rows.matching_number query.now row.now) }
{
    let Some((number, text)) = read_row(row) else {
        return Ok(None);
    };
    match matches_text(alloc, query, text) {
        Ok(true) => Ok(Some(number)),
        Ok(false) => Ok(None),
        Err(fault) => Err(fault),
    }
}

fn push_number(numbers: &mut Vec<u64>, number: Option<u64>) -> Result<(), NoMemory>
    ensures { OnOk result (numbers.new.items
        ≡ numbers.old.items ++ rows.onto_numbers number []) }
{
    if let Some(number) = number {
        numbers.push(number)?;
    }
    Ok(())
}

/// The numbers of the rows whose devices the query matches, in the order of the rows.
#[tactic(auto, using(crate::proofs::Numbers::one_more))]
pub fn matching_numbers(alloc: Global, query: &Query, list: &[Text]) -> Result<Vec<u64>, NoMemory>
    ensures { IfOk result (λ numbers. numbers.items ≡ rows.matching_numbers query.now list.now) }
{
    let mut numbers = Vec::new(alloc);
    for row in list {
        let number = matching_number(alloc, query, row.bytes())?;
        push_number(&mut numbers, number)?;
    }
    Ok(numbers)
}
