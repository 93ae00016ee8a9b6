// Laws of printed rules.
ghost use Rattle.std.specs.Prelude.{◌≡◌, ◌↔◌, All, Bool, IsTrue, List, Ok, map};
ghost use Rattle.ug_types.specs.declared.record.DeviceRecord.{DeviceRecord};
ghost use Rattle.ug_types.specs.declared.rule.Rule.{Rule};
ghost use Rattle.ug_types.specs.declared.verdict.Target.{Target};
ghost use Rattle.ug_match.specs.Queries.{query_matches};
ghost use Rattle.ug_rule.specs.Files.{file_read};
ghost use Rattle.ug_rule.specs.Grammar.{Says, WellFormed};
ghost use Rattle.ug_lines.specs.Splitting.{IsLine, AreLinesOf};
ghost use Rattle.ug_print.specs.Alike.{IsAlike};
ghost use Rattle.ug_print.specs.Bytes.{RuleOfBytes};
ghost use Rattle.ug_print.specs.Generated.{generated_of};
ghost use Rattle.ug_print.specs.Made.{is_made_of};
ghost use Rattle.ug_print.specs.RuleTexts.{rules_text_of};
ghost use Rattle.ug_print.specs.Words.{rule_text};

use ug_types::{DeviceRecord, Rule, Target};

/// Of rules that some lines read as, with bytes for their texts: the canonical text has no newline and reads as the rule
/// again, and no two of them have one text.
pub fn printed_law()
    ensures one_line { (rule : Rule) → WellFormed rule → RuleOfBytes rule
        → IsLine (rule_text rule) }
    ensures read { (rule : Rule) → WellFormed rule → RuleOfBytes rule → Says (rule_text rule) rule }
    ensures apart { (a b : Rule) → WellFormed a → RuleOfBytes a → WellFormed b → RuleOfBytes b
        → rule_text a ≡ rule_text b → a ≡ b }
{}

/// Of the same rules: the text of a rule file with them has their canonical texts for its lines, and reads as them.
pub fn rules_text_law()
    ensures lines { (rules : List Rule) → All WellFormed rules → All RuleOfBytes rules
        → AreLinesOf (rules_text_of rules) (map rule_text rules) }
    ensures reads { (rules : List Rule) → All WellFormed rules → All RuleOfBytes rules
        → file_read (rules_text_of rules) ≡ Ok rules }
{}

/// Where a line reads as the rule, some line reads as the rule with another target.
pub fn target_law()
    ensures well_formed { (rule : Rule) (target : Target) → WellFormed rule → RuleOfBytes rule
        → WellFormed (record rule { target = target }) }
    ensures bytes { (rule : Rule) (target : Target) → RuleOfBytes rule
        → RuleOfBytes (record rule { target = target }) }
{}

/// The rule that is made of a device matches that device, and exactly the devices that are as it asks.
pub fn generated_law()
    ensures own { (device : DeviceRecord) (target : Target) (with_port : Bool)
        → IsTrue (query_matches (generated_of device target with_port).query device) }
    ensures alike { (device other : DeviceRecord) (target : Target) (with_port : Bool)
        → IsTrue (query_matches (generated_of device target with_port).query other)
        ↔ IsAlike with_port device other }
{}

/// A rule is made of a device just where it is the device's generated rule, with its own target.
pub fn made_law()
    ensures { (device : DeviceRecord) (with_port : Bool) (rule : Rule)
        → IsTrue (is_made_of device with_port rule) ↔
        (rule ≡ generated_of device rule.target with_port) }
{}
