// Laws of the meaning of a line that switches off interfaces.
ghost use Rattle.std.specs.Prelude.{◌≡◌, ◌↔◌, ℕ, List, Ok, Err, codes};
ghost use Rattle.std.specs.List.Sorted.{IsPermutation, IsSorted};
ghost use Rattle.ug_iface.specs.Order.{in_iface_order};
ghost use Rattle.ug_rule.specs.Faults.{fault_at};
ghost use Rattle.ug_rule.specs.declared.fault.Fault.{Fault};
ghost use Rattle.ug_rule.specs.declared.fault.FaultKind.TheVariants.{BadByte, BadValue, ConditionInQuery, Repeated, TrailingToken, UnknownWord};
ghost use Rattle.ug_iface.specs.Rules.{HasNoOff, HasRuleFault, IsIfaceRule, InRule, NoOff, keyboards_off, iface_rule_read};

use crate::name::IfaceName;
use crate::rules::IfaceRule;

/// A line is read as a rule exactly where its tokens are `off`, an interface type and a query. It is refused by kind 13 exactly
/// where it has tokens of which the first isn't `off`, at that token, or none, at its end; and by another kind exactly where
/// it has a lexical fault, or behind `off` no interface type, or behind that no query.
pub fn iface_rules_law()
    ensures rules { (line : List ℕ) (rule : IfaceRule)
        → (iface_rule_read line ≡ Ok rule) ↔ IsIfaceRule line rule }
    ensures no_off { (line : List ℕ) (place : ℕ)
        → (iface_rule_read line ≡ Err (NoOff place)) ↔ HasNoOff line place }
    ensures others { (line : List ℕ) (fault : Fault)
        → (iface_rule_read line ≡ Err (InRule fault)) ↔ HasRuleFault line fault }
{}

/// Lines by example: a rule, and faults with their places in the whole line.
pub fn iface_lines_law()
    ensures rule { iface_rule_read (codes "off 03:*:* 1050:*")
        ≡ Ok keyboards_off }
    ensures attribute { iface_rule_read (codes "  off 03:*:* id 1050:* # keyboards")
        ≡ Ok keyboards_off }
    ensures other_word { iface_rule_read (codes "on 03:*:* 1050:*")
        ≡ Err (NoOff 0) }
    ensures comment { iface_rule_read (codes "  # off")
        ≡ Err (NoOff 7) }
    ensures lexical { iface_rule_read (codes "on 03:*:* 1050;")
        ≡ Err (InRule (fault_at BadByte 14)) }
    ensures no_type { iface_rule_read (codes "off ")
        ≡ Err (InRule (fault_at BadValue 4)) }
    ensures bad_type { iface_rule_read (codes "off 3:*:* 1050:*")
        ≡ Err (InRule (fault_at BadValue 4)) }
    ensures no_query { iface_rule_read (codes "off 03:*:*")
        ≡ Err (InRule (fault_at BadValue 10)) }
    ensures unknown { iface_rule_read (codes "off 03:*:* 1050:* port")
        ≡ Err (InRule (fault_at UnknownWord 18)) }
    ensures repeated { iface_rule_read (codes "off 03:*:* 1050:* id 1050:*")
        ≡ Err (InRule (fault_at Repeated 18)) }
    ensures condition { iface_rule_read (codes "off 03:*:* 1050:* if true")
        ≡ Err (InRule (fault_at ConditionInQuery 18)) }
    ensures trailing { iface_rule_read (codes "off 03:*:* 1050:* {")
        ≡ Err (InRule (fault_at TrailingToken 18)) }
{}

/// Interfaces in order are those that a sort leaves, by the name of their device, configuration and number.
pub fn iface_order_law()
    ensures only { (names order : List IfaceName) → IsPermutation names order
        → IsSorted ⟦<IfaceName as Ord>⟧.cmp order → order ≡ in_iface_order names }
    ensures all { (names : List IfaceName) → IsPermutation names (in_iface_order names) }
    ensures sorted { (names : List IfaceName)
        → IsSorted ⟦<IfaceName as Ord>⟧.cmp (in_iface_order names) }
{}
