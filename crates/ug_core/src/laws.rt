// What verdicts come to.
ghost use Rattle.std.specs.Prelude.{◌≡◌, ◌↔◌, ℕ, ◌+◌, Bool, List, [], ◌++◌};
ghost use Rattle.ug_types.specs.declared.record.DeviceRecord.{DeviceRecord};
ghost use Rattle.ug_types.specs.declared.record.Judged.{Judged};
ghost use Rattle.ug_types.specs.declared.verdict.Cause.{Cause};
ghost use Rattle.ug_types.specs.declared.verdict.Target.{Target};
ghost use Rattle.ug_cond.specs.Judgements.{Judgement};
ghost use Rattle.ug_policy.specs.Kept.{StandsFor};
ghost use Rattle.ug_policy.specs.Rules.{IsNumbered};
ghost use Rattle.ug_ruleset.specs.RuleFile.{as_given};
ghost use Rattle.ug_core.specs.Policy.{Judging, judgements_of, later_of, verdict_of, words_needed};
ghost use Rattle.ug_core.specs.Chain.{AreRuns};
ghost use Rattle.ug_core.specs.Rulings.{CanTake, PolicyStep, after_steps, changed_alone, judgements_for, words_for};
ghost use Rattle.ug_core.specs.Stops.{StartsJust, StartsSure, StopsLeaveRules};
ghost use Rattle.ug_core.specs.Verdicts.{IsLater, IsVerdict};

/// A verdict is the one that its cases say. What judges keeps the rules as they were given; and the histories stand for the
/// judgements before with this one.
pub fn verdict_law()
    ensures cases { (p : Judging) (records : List DeviceRecord) (dev : Judged)
        (controller present on : Bool) (verdict : Target) (cause : Cause)
        → (verdict_of p records dev controller present on ≡ (verdict, cause))
        ↔ IsVerdict p records dev controller present on verdict cause }
    ensures given { (p : Judging) (records : List DeviceRecord) (dev : Judged)
        (controller present : Bool)
        → as_given (later_of p records dev controller present).rules ≡ as_given p.rules }
    ensures later { (policy p : Judging) (words : ℕ) (judgements : List Judgement)
        (records : List DeviceRecord) (dev : Judged) (controller present : Bool)
        → IsLater policy words judgements p
        → IsLater policy (words + words_needed p records dev controller present) (judgements
        ++ judgements_of p records dev controller present)
        (later_of p records dev controller present) }
    ensures history { (p : Judging) (records : List DeviceRecord) (dev : Judged)
        (controller present : Bool) (judgements : List Judgement)
        → IsNumbered p.rules p.next → StandsFor p.rules p.next judgements
        → StandsFor (later_of p records dev controller present).rules p.next
        (judgements ++ judgements_of p records dev controller present) }
{}

/// What holds of any run of the daemon from its start. And what is left of a policy after rulings and changes has taken just the rulings'
/// words, its histories stand for just their judgements, and but for these it is what the changes alone leave.
pub fn run_law()
    ensures runs { AreRuns }
    ensures later { (policy : Judging) (steps : List PolicyStep) → IsLater policy 0 [] policy
        → CanTake policy steps
        → IsLater (changed_alone policy steps) (words_for policy steps)
        (judgements_for policy steps) (after_steps policy steps) }
{}

/// A stop at any moment of a run leaves a rule file that is in the grammar and within its limit. Its rules are the permanent rules in force, or
/// these after exactly one order, which was in progress, or whose save failed since the last save that was done. A start has just these rules.
pub fn stop_law()
    ensures leaves { StopsLeaveRules }
    ensures starts { StartsJust }
    ensures sure { StartsSure }
{}
