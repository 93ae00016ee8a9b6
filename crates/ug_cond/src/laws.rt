// What the definitions of conditions come to.
ghost use Rattle.std.specs.Prelude.{◌↔◌, ℕ, List, IsTrue};
ghost use Rattle.ug_types.specs.declared.record.DeviceRecord.{DeviceRecord};
ghost use Rattle.ug_types.specs.declared.rule.Cond.{Cond};
ghost use Rattle.ug_cond.specs.declared.context.Context as when;
ghost use Rattle.ug_cond.specs.declared.history.History as past;
ghost use Rattle.ug_cond.specs.Conditions.{condition_holds};
ghost use Rattle.ug_cond.specs.Judgements.{Judgement, IsHistory};
ghost use Rattle.ug_cond.specs.Truth.{ConditionHolds};

/// What is kept of a rule tells whether a condition of it holds as all judgements do, however many there were.
pub fn conditions_law()
    ensures { (judgements : List Judgement) (id : ℕ) (history : past.History) (ctx : when.Context)
        (records : List DeviceRecord) (cond : Cond) (word : ℕ) → IsHistory judgements id history
        → (IsTrue
        (condition_holds history ctx records
        (cond, word)) ↔ ConditionHolds judgements id ctx records (cond, word)) }
{}
