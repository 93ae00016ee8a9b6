// Whether the conditions of a rule hold.
ghost use Rattle.std.specs.Prelude.{◌≡◌, ◌↔◌, ℕ, List, IsTrue, if◌then◌else◌};
ghost use Rattle.rand_core.specs.Stream.{next_u64};
ghost use Rattle.ug_cond.specs.Conditions as conditions;
ghost use Rattle.ug_cond.specs.Judgements.{Judgement, IsHistory};
ghost use Rattle.ug_cond.specs.Truth.{ConditionsHold};
ghost use Rattle.ug_cond.specs.Words.{behind, is_random, random_count, words_of};

use crate::allowed::Allowed;
use crate::context::Context;
use crate::history::History;
use rand_core::Rng;
use ug_types::{Cond, CondKind, Conds, Moment, Op};

// An end before the begin is on the next day.
fn is_in_time(begin: u32, end: u32, second: u32) -> bool
    ensures { result ≡ conditions.is_in_time begin end second }
{
    if begin <= end {
        begin <= second && second <= end
    } else {
        begin <= second || second <= end
    }
}

fn was_recent(past: Option<u32>, now: Moment, kept: Option<Moment>) -> bool
    ensures { result ≡ conditions.was_recent past now kept }
{
    match kept {
        None => false,
        Some(kept) => match past {
            None => true,
            Some(past) => now.0.saturating_sub(kept.0) <= past as u64,
        },
    }
}

fn is_drawn(billionths: u32, word: u64) -> bool
    ensures { result ≡ conditions.is_drawn billionths word }
{
    word as u128 * 1_000_000_000 < (billionths as u128) << 64
}

fn is_so<A: Allowed, R: Rng>(
    kind: &CondKind,
    history: &History,
    ctx: &Context,
    allowed: &A,
    rng: &mut R,
) -> bool
    ensures value { result ≡ conditions.is_so history.now ctx.now (A.records allowed.now)
        (next_u64 (R.stream rng.old)).0 kind.now }
    ensures words { R.stream rng.new
        ≡ (if is_random kind.now then (next_u64 (R.stream rng.old)).1 else R.stream rng.old) }
{
    match kind {
        CondKind::LocalTime { begin, end } => is_in_time(*begin, *end, ctx.second),
        CondKind::AllowedMatches(query) => allowed.any_allowed(query),
        CondKind::RuleApplied(past) => was_recent(*past, ctx.moment, history.applied),
        CondKind::RuleEvaluated(past) => was_recent(*past, ctx.moment, history.evaluated),
        CondKind::Random(billionths) => is_drawn(*billionths, rng.next_u64()),
        CondKind::True => true,
        CondKind::False => false,
    }
}

fn condition_holds<A: Allowed, R: Rng>(
    cond: &Cond,
    history: &History,
    ctx: &Context,
    allowed: &A,
    rng: &mut R,
) -> bool
    ensures value { result ≡ conditions.condition_holds history.now ctx.now (A.records allowed.now)
        (cond.now, (next_u64 (R.stream rng.old)).0) }
    ensures words { R.stream rng.new
        ≡ (if is_random cond.now.kind then (next_u64 (R.stream rng.old)).1 else R.stream rng.old) }
{
    let so = is_so(&cond.kind, history, ctx, allowed, rng);
    if cond.negated { !so } else { so }
}

fn by_operator(op: Op, all: bool, some: bool) -> bool
    ensures { result ≡ conditions.by_operator op all some }
{
    match op {
        Op::AllOf | Op::Equals | Op::EqualsOrdered => all,
        Op::OneOf => some,
        Op::NoneOf => !some,
    }
}

/// Whether the conditions of a rule hold, by their operator. Every condition is evaluated, in order, and a random one
/// takes the next 64-bit word, also where the conditions before it have decided. It takes no memory.
pub fn holds<A: Allowed, R: Rng>(
    conds: &Conds,
    history: &History,
    ctx: &Context,
    allowed: &A,
    rng: &mut R,
) -> bool
    ensures value { result ≡ conditions.conditions_hold history.now ctx.now
        (A.records allowed.now) conds.now
        (words_of (random_count conds.now.items) (R.stream rng.old)) }
    ensures judgements { (judgements : List Judgement) (id : ℕ)
        → IsHistory judgements id history.now
        → (IsTrue result ↔ ConditionsHold judgements id ctx.now (A.records allowed.now) conds.now
        (words_of (random_count conds.now.items) (R.stream rng.old))) }
    ensures words { R.stream rng.new ≡ behind (random_count conds.now.items) (R.stream rng.old) }
{
    let mut all = true;
    let mut some = false;
    for cond in conds.items.as_slice() {
        let holds = condition_holds(cond, history, ctx, allowed, rng);
        all &= holds;
        some |= holds;
    }
    by_operator(conds.op, all, some)
}
