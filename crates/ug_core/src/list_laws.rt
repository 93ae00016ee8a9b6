// What the list of devices comes to.
ghost use Rattle.std.specs.Prelude.{◌≡◌, ◌↔◌, List};
ghost use Rattle.ug_types.specs.Elements.{Has, AllDistinct};
ghost use Rattle.ug_table.specs.Laws.{numbers_of};
ghost use Rattle.ug_table.specs.declared.standing.Standing.{Standing};
ghost use Rattle.ug_core.specs.DeviceRows.{AreRising, by_number};

use ug_table::Standing;

/// By number stand exactly the same standings. Where no number has two, as in each table, the numbers rise from one to the
/// next, so that each standing has one row; and no other list is so.
pub fn devices_law()
    ensures same { (ss : List Standing) (s : Standing) → Has (by_number ss) s ↔ Has ss s }
    ensures rising { (ss : List Standing) → AllDistinct (numbers_of ss) → AreRising (by_number ss) }
    ensures only { (ss rising : List Standing) → AllDistinct (numbers_of ss) → AreRising rising
        → ((s : Standing) → Has rising s ↔ Has ss s) → rising ≡ by_number ss }
{}
