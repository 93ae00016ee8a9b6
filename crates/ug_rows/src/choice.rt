// What is chosen of a list.
ghost use Rattle.std.specs.Prelude.{◌≡◌, IfOk};
ghost use Rattle.ug_rows.specs.Rows as rows;

use crate::rows::{matches_text, read_row, told_verdict};
use std::alloc::Global;
use ug_types::{NoMemory, Query, Target};

/// Which devices of a list are wanted: usbguard(1), list-devices.
#[derive(Drop)]
pub struct Choice {
    /// Those that are allowed. With neither this nor `blocked`, each verdict is wanted.
    pub allowed: bool,
    /// Those that are blocked.
    pub blocked: bool,
    /// Of these, those that it matches.
    pub query: Option<Query>,
}

impl Choice {
    /// Drops it. A crate that calls this need not prove how its parts are dropped.
    pub fn discard(self) {}
}

fn is_wanted(allowed: bool, blocked: bool, verdict: Option<Target>) -> bool
    ensures { result ≡ rows.is_wanted allowed blocked verdict }
{
    match verdict {
        Some(Target::Allow) => allowed || !blocked,
        Some(Target::Block) => blocked || !allowed,
        Some(Target::Reject) | None => !allowed && !blocked,
    }
}

fn matches_given(alloc: Global, query: &Option<Query>, text: &[u8]) -> Result<bool, NoMemory>
    ensures { IfOk result (λ matched. matched ≡ rows.matches_given query.now text.now) }
{
    match query {
        Some(query) => matches_text(alloc, query, text),
        None => Ok(true),
    }
}

/// Whether the row is one of those that are wanted.
#[tactic(auto, unfolding(crate::specs::Rows::is_chosen))]
pub fn is_chosen(alloc: Global, choice: &Choice, row: &[u8]) -> Result<bool, NoMemory>
    ensures { IfOk result (λ chosen. chosen ≡ rows.is_chosen choice.now row.now) }
{
    let Some((_number, text)) = read_row(row) else {
        return Ok(false);
    };
    if !is_wanted(choice.allowed, choice.blocked, told_verdict(text)) {
        return Ok(false);
    }
    matches_given(alloc, &choice.query, text)
}
