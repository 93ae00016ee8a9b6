// Names in the order of a sweep, each once.
ghost use Rattle.std.specs.Prelude.{◌≡◌, ◌≤◌, ◌↔◌, ℕ, List, length, vec_capacity};
ghost use Rattle.ug_types.specs.Elements.{Has};
ghost use Rattle.ug_table.specs.Laws.{AreInOrder};

use ug_types::{NodeName, sort_names};

/// Puts the names into sweep order, each once. It takes no memory.
pub fn in_order(names: &mut Vec<NodeName>)
    ensures order { AreInOrder names.new.items }
    ensures same { (name : List ℕ) → Has names.new.items name ↔ Has names.old.items name }
    ensures len { length names.new.items ≤ length names.old.items }
{
    sort_names(names);
    names.dedup();
}
