// What the rule that is made of a device is.
ghost use Rattle.std.specs.Prelude.{◌≡◌, ℕ, Bool, List, Some, None};
ghost use Rattle.ug_types.specs.declared.record.DeviceRecord.{DeviceRecord};
ghost use Rattle.ug_policy.specs.declared.entry.RuleEntry.{RuleEntry};
ghost use Rattle.ug_ruleset.specs.RulePlaces.{made_rule};
ghost use Rattle.ug_ruleset.specs.MadeRules.{IsFirstMade, HasNoneMade};

/// The rule of a device is the first that is permanent and is the device's generated rule but for its target; there is none
/// just where no rule is so.
pub fn made_rule_law()
    ensures some { (device : DeviceRecord) (with_port : Bool) (rules : List RuleEntry) (id : ℕ)
        → made_rule device with_port rules ≡ Some id → IsFirstMade device with_port rules id }
    ensures none { (device : DeviceRecord) (with_port : Bool) (rules : List RuleEntry)
        → made_rule device with_port rules ≡ None → HasNoneMade device with_port rules }
{}
