// Laws of the meaning of a rule's text.
ghost use Rattle.std.specs.Prelude.{◌≡◌, ◌↔◌, ◌⊎◌, ℕ, List, Some, None, Ok, Err};
ghost use Rattle.ug_words.specs.declared.token.Token.{Token};
ghost use Rattle.ug_lines.specs.Lines.{lines_of};
ghost use Rattle.ug_lines.specs.Splitting.{AreLinesOf};
ghost use Rattle.ug_rule.specs.declared.fault.Ending.{Ending};
ghost use Rattle.ug_rule.specs.declared.fault.Fault.{Fault};
ghost use Rattle.ug_rule.specs.Conditions.{conditions_of};
ghost use Rattle.ug_rule.specs.Files.{file_read, line_read};
ghost use Rattle.ug_rule.specs.Grammar.{AllAttributes, Asks, IsConditions, IsQuery, IsRule, IsValue, Says, WellFormed};
ghost use Rattle.ug_rule.specs.Queries.{attributes_of};
ghost use Rattle.ug_rule.specs.Rules.{rule_of, rule_read, whole_query, query_read};
ghost use Rattle.ug_rule.specs.Texts.{AreRules, IsBlankLine};
ghost use Rattle.ug_rule.specs.Values.{id_in, interface_in, string_in, value_of};

use ug_types::{Conds, Id, Iface, Query, Rule, Values};

/// A value is read exactly as its tokens are cut into one item, or an operator or none and items in braces.
pub fn values_law()
    ensures ids { (line : List ℕ) (ending : Ending) (values : Values Id) (tokens rest : List Token)
        → (value_of line (id_in line) ending tokens ≡ Ok (values, rest))
        ↔ IsValue line (id_in line) values tokens rest }
    ensures interfaces { (line : List ℕ)
        (ending : Ending) (values : Values Iface) (tokens rest : List Token)
        → (value_of line (interface_in line) ending tokens ≡ Ok (values, rest))
        ↔ IsValue line (interface_in line) values tokens rest }
    ensures strings { (line : List ℕ)
        (ending : Ending) (values : Values (List ℕ)) (tokens rest : List Token)
        → (value_of line (string_in line) ending tokens ≡ Ok (values, rest))
        ↔ IsValue line (string_in line) values tokens rest }
{}

/// Attributes are read exactly as their tokens are cut into names and values, in whatever order, each name once.
pub fn attributes_law()
    ensures { (line : List ℕ) (ending : Ending) (query all : Query) (tokens rest : List Token)
        → (attributes_of line ending query tokens ≡ Ok (all, rest))
        ↔ AllAttributes line query all tokens rest }
{}

/// Conditions are read exactly as their tokens are cut into one condition, or an operator or none and conditions in braces.
pub fn conditions_law()
    ensures { (line : List ℕ) (ending : Ending) (conds : Conds) (tokens rest : List Token)
        → (conditions_of line ending tokens ≡ Ok (conds, rest))
        ↔ IsConditions line conds tokens rest }
{}

/// Tokens are read as a rule exactly where they are a target, a bare id or none, and parts in any order, and as a query
/// exactly where they are a bare id or none and attributes, at least one of them.
pub fn rules_law()
    ensures rules { (line : List ℕ) (rule : Rule) (tokens : List Token)
        → (rule_of line tokens ≡ Ok rule) ↔ IsRule line rule tokens }
    ensures queries { (line : List ℕ) (query : Query) (tokens : List Token)
        → (whole_query line tokens ≡ Ok query) ↔ IsQuery line query tokens }
{}

/// A line reads as a rule exactly where it is cut into tokens that are this rule. So it is with queries.
pub fn lines_law()
    ensures rules { (line : List ℕ) (rule : Rule) → (rule_read line ≡ Ok rule) ↔ Says line rule }
    ensures queries { (line : List ℕ) (query : Query) → (query_read line ≡ Ok query)
        ↔ Asks line query }
    ensures well_formed { (rule : Rule) → WellFormed rule
        ↔ ((line : List ℕ) × (rule_read line ≡ Ok rule)) }
{}

/// A line of a text is blank or a comment exactly where it has no token; and it is read as a rule exactly where it is one.
pub fn text_lines_law()
    ensures blank { (line : List ℕ) → (line_read line ≡ Ok None) ↔ IsBlankLine line }
    ensures rules { (line : List ℕ) (rule : Rule) → (line_read line ≡ Ok (Some rule))
        ↔ Says line rule }
{}

/// A text splits into its lines and in no other way. It is read exactly where each line is a rule, blank or a comment, and
/// then its rules are those of the lines, in their order.
pub fn text_law()
    ensures lines { (text : List ℕ) (lines : List (List ℕ)) → (lines_of text ≡ lines)
        ↔ AreLinesOf text lines }
    ensures rules { (text : List ℕ) (rules : List Rule) → (file_read text ≡ Ok rules)
        ↔ AreRules (lines_of text) rules }
{}

/// A line is one rule, or has one first fault, and never both. So it is with queries.
pub fn one_meaning()
    ensures some { (line : List ℕ) → ((rule : Rule) × (rule_read line ≡ Ok rule))
        ⊎ ((fault : Fault) × (rule_read line ≡ Err fault)) }
    ensures one_rule { (line : List ℕ) (a b : Rule) → rule_read line ≡ Ok a → rule_read line ≡ Ok b
        → a ≡ b }
    ensures not_both { (line : List ℕ) (rule : Rule) (fault : Fault) → rule_read line ≡ Ok rule
        → rule_read line ≡ Err fault → ⊥ }
    ensures some_query { (line : List ℕ) → ((query : Query) × (query_read line ≡ Ok query))
        ⊎ ((fault : Fault) × (query_read line ≡ Err fault)) }
    ensures one_query { (line : List ℕ) (a b : Query) → query_read line ≡ Ok a
        → query_read line ≡ Ok b → a ≡ b }
    ensures never_both { (line : List ℕ) (query : Query) (fault : Fault)
        → query_read line ≡ Ok query → query_read line ≡ Err fault → ⊥ }
{}
