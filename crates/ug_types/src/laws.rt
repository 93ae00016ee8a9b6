// What the definitions of names and words come to.
ghost use Rattle.std.specs.Prelude.{◌≡◌, ℕ, ◌+◌, List, ◌∷◌, ◌++◌, ◌↔◌, Some, None, codes, decimal};
ghost use Rattle.std.specs.declared.cmp.Ordering.TheVariants.{Less};
ghost use Rattle.ug_types.specs.NodeNames.{IsBus, IsDeviceName, IsNodeName, IsPort, IsRootHub};
ghost use Rattle.ug_types.specs.declared.verdict.Target.{Target};
ghost use Rattle.ug_types.specs.Targets.{target_of, target_word};
ghost use Rattle.ug_types.specs.Names.{depth_of, parent_of, sweep_cmp};
ghost use Rattle.ug_types.specs.Parameters.{inserted_of, inserted_word, parameter_name, parameter_of, parameter_set, parameter_with, value_word};
ghost use Rattle.ug_types.specs.declared.parameter.Inserted.{Inserted};
ghost use Rattle.ug_types.specs.declared.parameter.Parameter.{Parameter};
ghost use Rattle.ug_types.specs.declared.parameter.ParameterName.{ParameterName};

/// A root hub alone has no parent. What hangs on a root hub has that hub, and what hangs on a device has that device.
pub fn parents_law()
    ensures root_hub { (bus : ℕ) → IsBus bus → parent_of (codes "usb" ++ decimal bus) ≡ None }
    ensures on_root_hub { (bus port : ℕ) → IsBus bus → IsPort port
        → parent_of (decimal bus ++ 45 ∷ decimal port) ≡ Some (codes "usb" ++ decimal bus) }
    ensures on_device { (front : List ℕ) (port : ℕ) → IsDeviceName front → IsPort port
        → parent_of (front ++ 46 ∷ decimal port) ≡ Some front }
    ensures only_root_hub { (name : List ℕ) → IsNodeName name → parent_of name ≡ None
        → IsRootHub name }
    ensures named { (name parent : List ℕ) → IsNodeName name → parent_of name ≡ Some parent
        → IsNodeName parent }
    ensures depth_top { (name : List ℕ) → IsNodeName name → parent_of name ≡ None
        → depth_of name ≡ 0 }
    ensures depth_above { (name parent : List ℕ) → IsNodeName name → parent_of name ≡ Some parent
        → depth_of name ≡ depth_of parent + 1 }
    ensures first { (name parent : List ℕ) → IsNodeName name → parent_of name ≡ Some parent
        → sweep_cmp parent name ≡ Less }
{}

/// A word is a target exactly where it is the target's own.
pub fn targets_law()
    ensures { (target : Target) (word : List ℕ) → (target_of word ≡ Some target)
        ↔ (word ≡ target_word target) }
{}

/// A word names a setting exactly where it is the setting's own, and is a value of it exactly where it is that value's.
pub fn parameters_law()
    ensures name { (name : ParameterName) (word : List ℕ) → (parameter_of word ≡ Some name)
        ↔ (word ≡ parameter_name name) }
    ensures value { (name : ParameterName) (set : Parameter) (word : List ℕ)
        → (parameter_with name word ≡ Some set)
        ↔ ((parameter_set set ≡ name) × (word ≡ value_word set)) }
    ensures inserted { (policy : Inserted) (word : List ℕ) → (inserted_of word ≡ Some policy)
        ↔ (word ≡ inserted_word policy) }
{}
