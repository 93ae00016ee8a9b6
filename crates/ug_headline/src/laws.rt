// The headline as a law of the daemon's runs.
ghost use Rattle.std.specs.Prelude.{◌≡◌, ◌↔◌, ℕ, List, Option, IsTrue, is_none};
ghost use Rattle.ug_types.specs.Names.{parent_of};
ghost use Rattle.ug_types.specs.declared.record.DeviceRecord.{DeviceRecord};
ghost use Rattle.ug_types.specs.declared.rule.Conds.{Conds};
ghost use Rattle.ug_types.specs.declared.rule.Query.{Query};
ghost use Rattle.ug_kernel.specs.Kernel.{Kernel};
ghost use Rattle.ug_kernel.specs.declared.control.Held.{Held};
ghost use Rattle.ug_table.specs.Laws.{IsDevice};
ghost use Rattle.ug_headline.specs.Devices.{IsJudgedDevice, is_root_name};
ghost use Rattle.ug_match.specs.Queries.{query_matches};
ghost use Rattle.ug_cond.specs.declared.context.Context.{Context};
ghost use Rattle.ug_cond.specs.declared.history.History.{History};
ghost use Rattle.ug_cond.specs.Judgements.{IsHistory, Judgement};
ghost use Rattle.ug_policy.specs.Deciding.{rule_conditions_hold};
ghost use Rattle.ug_headline.specs.Defaults.{DefaultsAreSetting};
ghost use Rattle.ug_headline.specs.Rules.{Hold, Matches};
ghost use Rattle.ug_headline.specs.Seeing.{EachWriteIsWarranted};
ghost use Rattle.ug_headline.specs.Silence.{NothingAuthorised};

use ug_types::Judged;

/// Each write that authorises a device reached the very device that was judged, and what allowed it was in force then: the first rule that
/// matched, the implicit target, a setting for devices that are present, or an order of one who may.
pub fn headline_law()
    ensures { EachWriteIsWarranted }
{}

/// The daemon's test of a rule's attributes, and that of its conditions, are what the headline says of them.
pub fn rules_law()
    ensures matches { (query : Query) (device : DeviceRecord)
        → IsTrue (query_matches query device) ↔ Matches query device }
    ensures hold { (judgements : List Judgement) (id : ℕ) (history : History) (ctx : Context)
        (beside : List DeviceRecord) (conds : Option Conds) (words : List ℕ)
        → IsHistory judgements id history
        → IsTrue (rule_conditions_hold history ctx beside conds words)
        ↔ Hold judgements id ctx beside conds words }
{}

/// The headline says something: where no setting and no rule allows a device, and no order is granted, no device is authorised.
pub fn silence_law()
    ensures { NothingAuthorised }
{}

/// Nothing is written to the default of a root hub but what the setting says: where that is off, nothing but off.
pub fn defaults_law()
    ensures { DefaultsAreSetting }
{}

/// A root hub's name has no parent's, and the daemon's own word of a device is that of the headline.
pub fn devices_law()
    ensures root { (name : List ℕ) → is_none (parent_of name) ≡ is_root_name name }
    ensures device { (k : Kernel) (i : ℕ) (name : List ℕ) (held : Held) (dev : DeviceRecord)
        → IsDevice k i name held (Judged.Good dev) → IsJudgedDevice k i name held dev }
{}
