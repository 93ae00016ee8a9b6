// What the words of rules mean.
ghost use Rattle.std.specs.Prelude.{◌≡◌, ◌↔◌, ℕ, ◌<◌, ◌^◌, List, Some, codes, decimal, true, ◌⊎◌, Ok, Err, length};
ghost use Rattle.ug_words.specs.declared.words.Clock.{Clock};
ghost use Rattle.ug_words.specs.declared.words.DaySpan.{DaySpan};
ghost use Rattle.ug_lines.specs.Digits.{hex_four, hex_two};
ghost use Rattle.ug_types.specs.Targets.{target_of};
ghost use Rattle.ug_types.specs.declared.rule.Op.TheVariants as operator;
ghost use Rattle.ug_types.specs.declared.verdict.Target.TheVariants as target;
ghost use Rattle.ug_words.specs.Keywords.{IsSpelled, attribute_of, condition_of, is_if, operator_of};
ghost use Rattle.ug_words.specs.declared.keywords.Attr.TheVariants as attr;
ghost use Rattle.ug_words.specs.declared.keywords.CondName.TheVariants as name;
ghost use Rattle.ug_words.specs.WordGrammar.{IsChance, IsId, IsInterface, IsPast, IsSpan, IsTime};
ghost use Rattle.ug_words.specs.Words.{chance_of, four_of, id_of, interface_of, decimal_of, past_of, span_of, time_of, two_of};
ghost use Rattle.ug_words.specs.declared.token.Token.{Token};
ghost use Rattle.ug_words.specs.Lexing.{Fault, tokens_of};
ghost use Rattle.ug_words.specs.Grammar.{Good, Bad, InOrder};

use ug_types::{Id, Iface};

/// Words are read as ids, as interfaces, as times, as spans of the day, as pasts and as probabilities exactly where their
/// parts stand as usbguard-rules.conf(5) writes them.
pub fn words_law()
    ensures ids { (id : Id) (word : List ℕ) → (id_of word ≡ Some id) ↔ IsId id word }
    ensures interfaces { (iface : Iface) (word : List ℕ) → (interface_of word ≡ Some iface)
        ↔ IsInterface iface word }
    ensures times { (most : ℕ) (time : Clock) (word : List ℕ) → (time_of most word ≡ Some time)
        ↔ IsTime most time word }
    ensures spans { (span : DaySpan) (word : List ℕ) → (span_of word ≡ Some span)
        ↔ IsSpan span word }
    ensures pasts { (n : ℕ) (word : List ℕ) → (past_of word ≡ Some n) ↔ IsPast n word }
    ensures probabilities { (n : ℕ) (word : List ℕ) → (chance_of word ≡ Some n) ↔ IsChance n word }
{}

/// What is written in digits is read as that number.
pub fn digits_law()
    ensures two { (n : ℕ) → n < 2 ^ 8 → two_of (hex_two n) ≡ Some n }
    ensures four { (n : ℕ) → n < 2 ^ 16 → four_of (hex_four n) ≡ Some n }
    ensures number { (n : ℕ) → n < 2 ^ 32 → decimal_of (decimal n) ≡ Some n }
{}

/// Each operator has one word.
pub fn operator_words_law()
    ensures all_of { IsSpelled operator_of operator.AllOf (codes "all-of") }
    ensures one_of { IsSpelled operator_of operator.OneOf (codes "one-of") }
    ensures none_of { IsSpelled operator_of operator.NoneOf (codes "none-of") }
    ensures equals { IsSpelled operator_of operator.Equals (codes "equals") }
    ensures equals_ordered { IsSpelled operator_of operator.EqualsOrdered (codes "equals-ordered") }
{}

/// Each attribute has one word.
pub fn attribute_words_law()
    ensures id { IsSpelled attribute_of attr.Id (codes "id") }
    ensures serial { IsSpelled attribute_of attr.Serial (codes "serial") }
    ensures name { IsSpelled attribute_of attr.Name (codes "name") }
    ensures hash { IsSpelled attribute_of attr.Hash (codes "hash") }
    ensures parent_hash { IsSpelled attribute_of attr.ParentHash (codes "parent-hash") }
    ensures via_port { IsSpelled attribute_of attr.ViaPort (codes "via-port") }
    ensures with_interface { IsSpelled attribute_of attr.Interface (codes "with-interface") }
    ensures with_connect_type { IsSpelled attribute_of attr.Connect (codes "with-connect-type") }
    ensures label { IsSpelled attribute_of attr.Label (codes "label") }
{}

/// Conditions stand behind `if`, and each has one word.
pub fn condition_words_law()
    ensures localtime { IsSpelled condition_of name.LocalTime (codes "localtime") }
    ensures allowed_matches { IsSpelled condition_of name.AllowedMatches (codes "allowed-matches") }
    ensures rule_applied { IsSpelled condition_of name.RuleApplied (codes "rule-applied") }
    ensures rule_evaluated { IsSpelled condition_of name.RuleEvaluated (codes "rule-evaluated") }
    ensures random { IsSpelled condition_of name.Random (codes "random") }
    ensures always { IsSpelled condition_of name.True (codes "true") }
    ensures never { IsSpelled condition_of name.False (codes "false") }
    ensures begins { (word : List ℕ) → (is_if word ≡ true) ↔ (word ≡ codes "if") }
{}

/// Each target has one word.
pub fn target_words_law()
    ensures allow { IsSpelled target_of target.Allow (codes "allow") }
    ensures block { IsSpelled target_of target.Block (codes "block") }
    ensures reject { IsSpelled target_of target.Reject (codes "reject") }
{}

/// The reading from the front gives what the cut into blanks, tokens and a comment says.
pub fn reading_is_grammar()
    ensures good { (line : List ℕ) (tokens : List Token) → (tokens_of line ≡ Ok tokens)
        ↔ Good line tokens }
    ensures bad { (line : List ℕ) (fault : Fault) → (tokens_of line ≡ Err fault) ↔ Bad line fault }
{}

/// A line has one list of tokens, or one first fault, and never both.
pub fn one_meaning()
    ensures some { (line : List ℕ) → ((tokens : List Token) × Good line tokens)
        ⊎ ((fault : Fault) × Bad line fault) }
    ensures one_list { (line : List ℕ) (a b : List Token) → Good line a → Good line b → a ≡ b }
    ensures one_fault { (line : List ℕ) (a b : Fault) → Bad line a → Bad line b → a ≡ b }
    ensures not_both { (line : List ℕ) (tokens : List Token) (fault : Fault) → Good line tokens
        → Bad line fault → ⊥ }
{}

/// The spans of a line's tokens are in order, don't overlap and lie in the line.
pub fn spans_in_order()
    ensures order { (line : List ℕ) (tokens : List Token) → tokens_of line ≡ Ok tokens
        → InOrder 0 (length line) tokens }
{}
