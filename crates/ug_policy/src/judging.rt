// The rule that decides.
ghost use Rattle.std.specs.Prelude.{◌≡◌, Some, if◌then◌else◌, length};
ghost use Rattle.ug_cond.specs.Words.{behind, words_of};
ghost use Rattle.ug_policy.specs.Deciding as deciding;
ghost use Rattle.ug_policy.specs.Matching as matching;
ghost use Rattle.ug_policy.specs.Rules.{queries};
ghost use Rattle.ug_policy.specs.Candidates.{AreCandidates};

use crate::entry::RuleEntry;
use rand_core::Rng;
use ug_cond::{Allowed, Context, History, holds};
use ug_match::matches;
use ug_types::{Cause, Conds, DeviceRecord, Moment, Target};

fn greatest(kept: Option<Moment>, moment: Moment) -> Moment
    ensures { result ≡ matching.greatest kept moment }
{
    match kept {
        Some(kept) => { if kept.0 <= moment.0 { moment } else { kept } }
        None => moment,
    }
}

// A rule without conditions always holds.
fn conditions_hold<A: Allowed, R: Rng>(
    conds: &Option<Conds>,
    history: &History,
    ctx: &Context,
    allowed: &A,
    rng: &mut R,
) -> bool
    ensures value { result
        ≡ deciding.rule_conditions_hold history.now ctx.now (A.records allowed.now) conds.now
        (words_of (deciding.conditions_take conds.now) (R.stream rng.old)) }
    ensures words { R.stream rng.new
        ≡ behind (deciding.conditions_take conds.now) (R.stream rng.old) }
{
    match conds {
        Some(conds) => holds(conds, history, ctx, allowed, rng),
        None => true,
    }
}

// Notes the moment of an evaluation, and of a decision.
fn note(history: &mut History, moment: Moment, decides: bool)
    ensures { history.new ≡ record {
      evaluated = Some (matching.greatest history.old.evaluated moment);
      applied = if decides then Some (matching.greatest history.old.applied moment) else
          history.old.applied;
    } }
{
    history.evaluated = Some(greatest(history.evaluated, moment));
    if decides {
        history.applied = Some(greatest(history.applied, moment));
    }
}

// Whether a rule that is reached decides. Where it matches, its history gets the moment.
fn evaluate<A: Allowed, R: Rng>(
    entry: &mut RuleEntry,
    dev: &DeviceRecord,
    ctx: &Context,
    allowed: &A,
    rng: &mut R,
) -> bool
    ensures value { result
        ≡ deciding.decides dev.now ctx.now (A.records allowed.now) entry.old (R.stream rng.old) }
    ensures entry { entry.new ≡ (if result then matching.rule_noted ctx.now.moment entry.old else
        deciding.seen dev.now ctx.now.moment entry.old) }
    ensures words { R.stream rng.new
        ≡ behind (deciding.rule_takes dev.now entry.old) (R.stream rng.old) }
{
    if !matches(&entry.rule.query, dev) {
        return false;
    }
    let decides = conditions_hold(&entry.rule.conds, &entry.history, ctx, allowed, rng);
    note(&mut entry.history, ctx.moment, decides);
    decides
}

/// Judges by the first rule that matches and whose conditions hold, and brings the histories of the rules that were
/// evaluated up to date. A rule that is at none of the places doesn't match.
pub fn judge_by<A: Allowed, R: Rng>(
    entries: &mut [RuleEntry],
    places: &[u32],
    dev: &DeviceRecord,
    ctx: &Context,
    allowed: &A,
    implicit: Target,
    rng: &mut R,
) -> (Target, Cause)
    requires { AreCandidates (queries entries.old) dev.now.vendor dev.now.product places.now }
    ensures judged { deciding.Judges dev.now ctx.now (A.records allowed.now) implicit
        entries.old (R.stream rng.old) result entries.new (R.stream rng.new) }
    ensures len { length entries.new ≡ length entries.old }
{
    for i in 0..places.len() {
        let place = places[i] as usize;
        let entry = &mut entries[place];
        if evaluate(entry, dev, ctx, allowed, rng) {
            return (entry.rule.target, Cause::Rule(entry.id));
        }
    }
    (implicit, Cause::Implicit)
}
