// What the definitions of matching come to.
ghost use Rattle.std.specs.Prelude.{◌≡◌, ◌⊎◌, ◌↔◌, ℕ, List, Bool, Option, IsTrue, length};
ghost use Rattle.std.specs.List.{zip};
ghost use Rattle.ug_types.specs.Elements.{Has};
ghost use Rattle.ug_types.specs.declared.record.DeviceRecord.{DeviceRecord};
ghost use Rattle.ug_types.specs.declared.record.Triple.{Triple};
ghost use Rattle.ug_types.specs.declared.rule.Id.{Id};
ghost use Rattle.ug_types.specs.declared.rule.Iface.{Iface};
ghost use Rattle.ug_types.specs.declared.rule.Query.{Query};
ghost use Rattle.ug_match.specs.declared.covers.DeviceId.{DeviceId};
ghost use Rattle.ug_match.specs.Covers.{covers_number, covers_id, covers_interface, covers_text};
ghost use Rattle.ug_match.specs.Operators.{holds, MatchesSome, IsMatched};
ghost use Rattle.ug_match.specs.Queries.{query_matches};

use ug_types::Op;

/// The operators of usbguard-rules.conf(5), by the values that stand in the rule and those of the device.
pub fn operators_law<T, D>()
    ensures all_of { (covers : T → D → Bool) (rules : List T) (device : List D)
        → IsTrue (holds covers Op.AllOf rules device) ↔
        ((rule : T) → Has rules rule → MatchesSome covers device rule) }
    ensures one_of { (covers : T → D → Bool) (rules : List T) (device : List D)
        → IsTrue (holds covers Op.OneOf rules device) ↔
        ((rule : T) × Has rules rule × MatchesSome covers device rule) }
    ensures none_of { (covers : T → D → Bool) (rules : List T) (device : List D)
        → IsTrue (holds covers Op.NoneOf rules device) ↔
        ((rule : T) → Has rules rule → ¬ MatchesSome covers device rule) }
    ensures equals { (covers : T → D → Bool) (rules : List T) (device : List D)
        → IsTrue (holds covers Op.Equals rules device) ↔
        (((rule : T) → Has rules rule → MatchesSome covers device rule)
        × ((value : D) → Has device value → IsMatched covers rules value)) }
    ensures equals_ordered { (covers : T → D → Bool) (rules : List T) (device : List D)
        → IsTrue (holds covers Op.EqualsOrdered rules device) ↔
        ((length rules ≡ length device)
        × ((pair : T × D) → Has (zip rules device) pair → IsTrue (covers pair.0 pair.1))) }
{}

/// A star matches every value in its place, and all else matches itself.
pub fn values_law()
    ensures number { (given : Option ℕ) (n : ℕ)
        → IsTrue (covers_number given n) ↔ ((given ≡ None) ⊎ (given ≡ Some n)) }
    ensures id { (rule : Id) (device : DeviceId)
        → IsTrue (covers_id rule device) ↔
        (IsTrue (covers_number rule.vendor device.vendor)
        × IsTrue (covers_number rule.product device.product)) }
    ensures interface { (rule : Iface) (device : Triple)
        → IsTrue (covers_interface rule device) ↔
        (((rule.class ≡ device.class) × IsTrue (covers_number rule.subclass device.subclass))
        × IsTrue (covers_number rule.protocol device.protocol)) }
    ensures text { (rule device : List ℕ) → IsTrue (covers_text rule device) ↔ (rule ≡ device) }
{}

/// A label holds of every device, and a query without attributes matches each.
pub fn queries_law()
    ensures label { (query : Query) (device : DeviceRecord) (label : Option (List ℕ))
        → query_matches (record query { label = label }) device ≡ query_matches query device }
    ensures empty { (label : Option (List ℕ)) (device : DeviceRecord)
        → IsTrue (query_matches
        (record {
          id = None;
          serial = None;
          name = None;
          hash = None;
          parent_hash = None;
          via_port = None;
          interface = None;
          connect = None;
          label = label;
        }) device) }
{}
