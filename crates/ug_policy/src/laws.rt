// What the definitions of changes and of deciding come to.
ghost use Rattle.std.specs.Prelude.{◌≡◌, ◌⊎◌, ◌↔◌, ℕ, ◌+◌, List, ◌∷◌, ◌++◌, Some, None, IsTrue, false, filter, take, map};
ghost use Rattle.std.specs.List.{list_any};
ghost use Rattle.ug_types.specs.Elements.{Has, AllDistinct};
ghost use Rattle.ug_types.specs.declared.record.DeviceRecord.{DeviceRecord};
ghost use Rattle.ug_types.specs.declared.verdict.Target.{Target};
ghost use Rattle.rand_core.specs.Stream.{Stream};
ghost use Rattle.ug_cond.specs.declared.context.Context as when;
ghost use Rattle.ug_cond.specs.Judgements.{Judgement};
ghost use Rattle.ug_policy.specs.declared.entry.RuleEntry.{RuleEntry};
ghost use Rattle.ug_policy.specs.Marks.{FolderFirst, has_folder};
ghost use Rattle.ug_policy.specs.Rules.{ids, marks};
ghost use Rattle.ug_policy.specs.Edits.{IsThere, aimed, folder_behind, inserted, removed, retargeted};
ghost use Rattle.ug_policy.specs.Asking.{rule_asks};
ghost use Rattle.ug_policy.specs.Deciding.{HasNoDecider, IsDecider, RuleHolds, find_decider, judgement_found, reached, rule_holds};
ghost use Rattle.ug_policy.specs.Kept.{StandsFor};
ghost use Rattle.ug_policy.specs.Matching.{matched};
ghost use Rattle.ug_types.specs.declared.rule.Query.{Query};
ghost use Rattle.ug_match.specs.Queries.{query_matches};
ghost use Rattle.ug_policy.specs.Candidates.{AreCandidates};
ghost use Rattle.ug_policy.specs.Places.{places_of};
ghost use Rattle.ug_policy.specs.Reaches.{IsNarrow, can_match, reach_of, remainder};

use crate::entry::Mark;
use crate::reach::Reach;
use ug_types::After;

/// Where ids are distinct, a change by an id is one at that rule alone, wherever it stands.
pub fn edits_law()
    ensures inserted { (front back : List RuleEntry) (rule added : RuleEntry)
        → AllDistinct (ids (front ++ rule ∷ back))
        → inserted (After.Rule rule.id) added (front ++ rule ∷ back) ≡ front ++ rule ∷ added
        ∷ back }
    ensures removed { (front back : List RuleEntry) (rule : RuleEntry)
        → AllDistinct (ids (front ++ rule ∷ back))
        → removed rule.id (front ++ rule ∷ back) ≡ front ++ back }
    ensures retargeted { (front back : List RuleEntry) (rule : RuleEntry) (target : Target)
        → AllDistinct (ids (front ++ rule ∷ back))
        → retargeted rule.id target (front ++ rule ∷ back) ≡ front ++ aimed target rule ∷ back }
    ensures there { (rules : List RuleEntry) (id : ℕ) → IsThere (After.Rule id) rules
        → (front : List RuleEntry) × (rule : RuleEntry) × (back : List RuleEntry)
        × (rules ≡ front ++ rule ∷ back) × (rule.id ≡ id) }
    ensures not_there { (rules : List RuleEntry) (id : ℕ) → ¬ Has (ids rules) id
        → (removed id rules ≡ rules) × ((target : Target) → retargeted id target rules ≡ rules) }
{}

/// None of the rule file's rules stands before one of the folder's. A permanent rule that is put in front stands behind the last of the
/// folder's; a temporary one stands before all.
pub fn folder_law()
    ensures order { (rules : List RuleEntry) → FolderFirst (marks rules)
        ↔ ((front back : List RuleEntry) (rule other : RuleEntry) → rules ≡ front ++ rule ∷ back
        → rule.mark ≡ Mark.File → Has back other → other.mark ≡ Mark.Folder → ⊥) }
    ensures none { (rules : List RuleEntry) (added : RuleEntry)
        → ((rule : RuleEntry) → Has rules rule → rule.mark ≡ Mark.Folder → ⊥)
        → inserted After.Front added rules ≡ added ∷ rules }
    ensures permanent { (front back : List RuleEntry) (last added : RuleEntry) → last.mark
        ≡ Mark.Folder → ((rule : RuleEntry) → Has back rule → rule.mark ≡ Mark.Folder → ⊥)
        → added.mark ≡ Mark.File
        → inserted After.Front added (front ++ last ∷ back) ≡ front ++ last ∷ added ∷ back }
    ensures temporary { (rules : List RuleEntry) (added : RuleEntry) → added.mark ≡ Mark.Temporary
        → inserted After.Front added rules ≡ added ∷ rules }
    ensures behind { (front back : List RuleEntry) (rule : RuleEntry)
        → AllDistinct (ids (front ++ rule ∷ back))
        → folder_behind rule.id (front ++ rule ∷ back) ≡ has_folder (marks back) }
{}

/// One rule decides by its attributes and its conditions, or none does; what is found is that rule, and what was
/// evaluated are the rules up to it that match. The conditions hold as all judgements since the start say.
pub fn decider_law()
    ensures some { (dev : DeviceRecord) (ctx : when.Context) (records : List DeviceRecord)
        (rules : List RuleEntry) (stream : Stream)
        → ((place : ℕ) × (entry : RuleEntry) × IsDecider dev ctx records rules stream place entry)
        ⊎ HasNoDecider dev ctx records rules stream }
    ensures one { (dev : DeviceRecord) (ctx : when.Context) (records : List DeviceRecord)
        (rules : List RuleEntry) (stream : Stream) (place other : ℕ) (entry another : RuleEntry)
        → IsDecider dev ctx records rules stream place entry
        → IsDecider dev ctx records rules stream other another
        → (place ≡ other) × (entry ≡ another) }
    ensures not_both { (dev : DeviceRecord) (ctx : when.Context) (records : List DeviceRecord)
        (rules : List RuleEntry) (stream : Stream) (place : ℕ) (entry : RuleEntry)
        → IsDecider dev ctx records rules stream place entry
        → HasNoDecider dev ctx records rules stream → ⊥ }
    ensures found { (dev : DeviceRecord) (ctx : when.Context) (records : List DeviceRecord)
        (rules : List RuleEntry) (stream : Stream) (place : ℕ) (entry : RuleEntry)
        → IsDecider dev ctx records rules stream place entry
        → judgement_found dev ctx.moment (find_decider dev ctx records rules stream)
        ≡ record {
          moment = ctx.moment;
          evaluated = ids (filter (matched dev) (take (place + 1) rules));
          applied = Some entry.id;
        } }
    ensures not_found { (dev : DeviceRecord) (ctx : when.Context) (records : List DeviceRecord)
        (rules : List RuleEntry) (stream : Stream) → HasNoDecider dev ctx records rules stream
        → judgement_found dev ctx.moment (find_decider dev ctx records rules stream)
        ≡ record {
          moment = ctx.moment;
          evaluated = ids (filter (matched dev) rules);
          applied = None;
        } }
    ensures judgements { (judgements : List Judgement) (rules : List RuleEntry) (next : ℕ)
        (rule : RuleEntry) (ctx : when.Context) (records : List DeviceRecord) (stream : Stream)
        → StandsFor rules next judgements
        → Has rules rule → (IsTrue (rule_holds ctx records rule stream)
        ↔ RuleHolds judgements ctx records rule stream) }
{}

/// Where none of the rules that are reached matches the device and asks for the devices that are allowed, these make no difference.
pub fn asking_law()
    ensures { (dev : DeviceRecord) (ctx : when.Context) (records others : List DeviceRecord)
        (rules : List RuleEntry) (stream : Stream)
        → list_any (rule_asks dev) (reached (find_decider dev ctx records rules stream)) ≡ false
        → find_decider dev ctx others rules stream ≡ find_decider dev ctx records rules stream }
{}

/// A query is narrow where its id is one item with both numbers, under another operator than none-of, and nowhere else. One that
/// matches a device can match its id. The places by a remainder are the candidates.
pub fn index_law()
    ensures narrow { (query : Query) (vendor product : ℕ) → IsNarrow query vendor product
        → reach_of query ≡ Reach.Narrow (remainder vendor product) }
    ensures only { (query : Query) (r : ℕ) → reach_of query ≡ Reach.Narrow r
        → (vendor : ℕ) × (product : ℕ) × IsNarrow query vendor product
        × (r ≡ remainder vendor product) }
    ensures matches { (query : Query) (device : DeviceRecord) → IsTrue (query_matches query device)
        → IsTrue (can_match query device.vendor device.product) }
    ensures candidates { (queries : List Query) (vendor product : ℕ)
        → AreCandidates queries vendor product
        (places_of (remainder vendor product) (map reach_of queries)) }
{}
