// What a first policy does.
ghost use Rattle.std.specs.Prelude.{◌≡◌, ◌↔◌, ℕ, Bool, List, Option};
ghost use Rattle.ug_types.specs.Elements.{Has};
ghost use Rattle.ug_types.specs.declared.record.Attrs.{Attrs};
ghost use Rattle.ug_types.specs.declared.record.DeviceRecord.{DeviceRecord};
ghost use Rattle.ug_types.specs.declared.record.Judged.TheVariants.{Good};
ghost use Rattle.ug_types.specs.declared.rule.Rule.{Rule};
ghost use Rattle.ug_kernel.specs.Kernel.{Kernel, Live};
ghost use Rattle.ug_kernel.specs.declared.device.Device.{Device};
ghost use Rattle.ug_kernel.specs.Bound.{attrs_of, IsParentRead};
ghost use Rattle.ug_record.specs.Records.{judged_of};
ghost use Rattle.ug_generate.specs.Policies.{judged_in, Admits, IsMadeOf, IsPolicy, policy_rules};

use ug_kernel::Device;
use ug_types::{DeviceRecord, Rule};

/// A first policy admits each live device whose record is good: the first rule that it meets allows
/// it. Each rule is made of such a device, so that none is for a malformed one. The record is the
/// one that the daemon judges, of the device's own files and its parent's. There is one such policy.
pub fn policy_law()
    ensures one { (ds : List Device) (with_port : Bool) (rules : List Rule)
        → (rules ≡ policy_rules ds with_port) ↔ IsPolicy ds with_port rules }
    ensures admits { (ds : List Device) (with_port : Bool) (rules : List Rule) (i : ℕ) (d : Device)
        (device : DeviceRecord) → IsPolicy ds with_port rules → Live ds i d
        → judged_in ds d ≡ Good device → Admits device rules }
    ensures just { (ds : List Device) (with_port : Bool) (rules : List Rule) (rule : Rule)
        → IsPolicy ds with_port rules → Has rules rule → IsMadeOf ds with_port rule }
    ensures record { (k : Kernel) (d : Device) (parent : Option Attrs)
        → IsParentRead k d.parent parent → judged_in k.devices d
        ≡ judged_of d.name (attrs_of d) parent }
{}
