// What the definitions of implied queries, of findings and of the rules that remain come to.
ghost use Rattle.std.specs.Prelude.{◌≡◌, ◌⊎◌, ◌↔◌, ℕ, List, Bool, true, false, Option, Some, None, All, IsTrue};
ghost use Rattle.rand_core.specs.Stream.{Stream};
ghost use Rattle.ug_types.specs.Elements.{Has};
ghost use Rattle.ug_types.specs.declared.record.DeviceRecord.{DeviceRecord};
ghost use Rattle.ug_types.specs.declared.rule.Query.{Query};
ghost use Rattle.ug_types.specs.declared.rule.Id.{Id};
ghost use Rattle.ug_types.specs.declared.rule.Iface.{Iface};
ghost use Rattle.ug_types.specs.declared.rule.Op.{Op};
ghost use Rattle.ug_types.specs.declared.rule.Rule as types;
ghost use Rattle.ug_match.specs.Covers.{covers_text};
ghost use Rattle.ug_match.specs.Operators.{holds, IsMatched, MatchesSome};
ghost use Rattle.ug_match.specs.Queries.{query_matches};
ghost use Rattle.ug_cond.specs.declared.context.Context as when;
ghost use Rattle.ug_policy.specs.declared.entry.RuleEntry.{RuleEntry};
ghost use Rattle.ug_policy.specs.Deciding.{rule_holds};
ghost use Rattle.ug_rule.specs.Grammar.{WellFormed};
ghost use Rattle.ug_lint.specs.declared.finding.Finding as tells;
ghost use Rattle.ug_lint.specs.Certain.{always_hold, never_hold};
ghost use Rattle.ug_lint.specs.Covers.{id_covers, interface_covers, number_covers};
ghost use Rattle.ug_lint.specs.Filled.{IsFilled};
ghost use Rattle.ug_lint.specs.Findings.{IsFinding, RiseFrom, findings, found_place};
ghost use Rattle.ug_lint.specs.Implied.{each_covered, each_covers, each_covers_all, query_implied, set_implied, some_covers};
ghost use Rattle.ug_policy.specs.Rules.{rules_in};
ghost use Rattle.ug_lint.specs.NeverDecides.{HasWords, NeverDecides, PrunedAlike};
ghost use Rattle.ug_lint.specs.Remaining.{remaining, remaining_entries};

/// A value covers itself, and a number covers where it is any or is the same. So it is with the numbers of an id; texts and
/// classes are equal.
pub fn values_law()
    ensures number { (number other : Option ℕ) → IsTrue (number_covers number other)
        ↔ ((number ≡ None) ⊎ ((n : ℕ) × (number ≡ Some n) × (other ≡ Some n))) }
    ensures id { (id : Id) → IsTrue (id_covers id id) }
    ensures interface { (interface : Iface) → IsTrue (interface_covers interface interface) }
    ensures text { (text other : List ℕ) → IsTrue (covers_text text other) ↔ (text ≡ other) }
{}

/// What is asked of two sets of values.
pub fn sets_law<T>()
    ensures some_covers { (covers : T → T → Bool) (values others : List T)
        → IsTrue (some_covers covers values others)
        ↔ ((value : T) × Has values value × MatchesSome covers others value) }
    ensures each_covers { (covers : T → T → Bool) (values others : List T)
        → IsTrue (each_covers covers values others)
        ↔ ((value : T) → Has values value → MatchesSome covers others value) }
    ensures each_covered { (covers : T → T → Bool) (values others : List T)
        → IsTrue (each_covered covers values others)
        ↔ ((other : T) → Has others other → IsMatched covers values other) }
    ensures each_covers_all { (covers : T → T → Bool) (values others : List T)
        → IsTrue (each_covers_all covers values others)
        ↔ ((value : T) → Has values value → (other : T) → Has others other
        → IsTrue (covers value other)) }
    ensures itself { (covers : T → T → Bool) → ((value : T) → IsTrue (covers value value))
        → (op : Op) (values : List T) → IsTrue (set_implied covers op values op values) }
{}

/// Where a value that covers another matches whatever that one matches, a set of values that is implied holds of each
/// device of which the other set holds.
pub fn implied_sets_law<T, D>()
    ensures { (covers : T → T → Bool) (matches : T → D → Bool)
        → ((v w : T) (d : D) → IsTrue (covers v w) → IsTrue (matches w d) → IsTrue (matches v d))
        → (op : Op) (values : List T) (other_op : Op) (others : List T) (device : List D)
        → IsTrue (set_implied covers op values other_op others)
        → IsTrue (holds matches other_op others device) → IsTrue (holds matches op values device) }
{}

/// A query that is implied matches each device that the other query matches.
pub fn implied_law()
    ensures { (query other : Query) (device : DeviceRecord) → IsFilled query
        → IsTrue (query_implied query other) → IsTrue (query_matches other device)
        → IsTrue (query_matches query device) }
{}

/// Conditions that always hold, and those that never do, whatever the history, the moment, the second of the day, the allowed
/// devices and the words.
pub fn conditions_law()
    ensures always { (ctx : when.Context) (records : List DeviceRecord) (e : RuleEntry)
        (stream : Stream)
        → HasWords stream → always_hold e.rule.conds ≡ true
        → rule_holds ctx records e stream ≡ true }
    ensures never { (ctx : when.Context) (records : List DeviceRecord) (e : RuleEntry)
        (stream : Stream)
        → HasWords stream → never_hold e.rule.conds ≡ true
        → rule_holds ctx records e stream ≡ false }
{}

/// What is found is what can be said of a place, each once, in the order of the rules.
pub fn findings_law()
    ensures found { (rules : List types.Rule) (finding : tells.Finding)
        → Has (findings rules) finding ↔ IsFinding rules finding }
    ensures rise { (rules : List types.Rule) → RiseFrom 0 (findings rules) }
    ensures never_decides { (rules : List types.Rule) (finding : tells.Finding)
        → All WellFormed rules
        → Has (findings rules) finding → NeverDecides rules (found_place finding) }
{}

/// Without the rules that are covered each device is judged as with them, and the histories of the others are the same after
/// it. None of the others is covered by one of them.
pub fn remaining_law()
    ensures alike { (dev : DeviceRecord) (ctx : when.Context) (records : List DeviceRecord)
        (entries : List RuleEntry) (stream : Stream) → All WellFormed (rules_in entries)
        → HasWords stream
        → PrunedAlike dev ctx records entries stream }
    ensures rules { (entries : List RuleEntry)
        → rules_in (remaining_entries entries) ≡ remaining (rules_in entries) }
    ensures once { (rules : List types.Rule) → remaining (remaining rules) ≡ remaining rules }
{}
