// What the definitions of the simulated kernel mean.
ghost use Rattle.std.specs.Prelude.{◌≡◌, ℕ, ◌++◌, ◌∷◌, [], Bool, true, false, if◌then◌else◌, nat_eq, List, Some, None, set};
ghost use Rattle.ug_kernel.specs.declared.device.Device.{Device};
ghost use Rattle.ug_kernel.specs.Calls.{Call, Answer};
ghost use Rattle.ug_kernel.specs.Kernel.{Kernel, Live, IsSound, IsKernel, Moves};
ghost use Rattle.ug_sysfs.specs.declared.script.Failing.{Failing};
ghost use Rattle.ug_sysfs.specs.declared.script.NewDevice.{NewDevice};
ghost use Rattle.ug_sysfs.specs.Devices.{plugged, unplugged};
ghost use Rattle.ug_sysfs.specs.Birth.{CanBeBorn, IsBorn};
ghost use Rattle.ug_sysfs.specs.Below.{IsFelled};
ghost use Rattle.ug_sysfs.specs.World.{World, Gives, carried, fate, over};
ghost use Rattle.ug_iface.specs.declared.interface.Interface.{Interface};
ghost use Rattle.ug_iface.specs.declared.name.IfaceName.{IfaceName};
ghost use Rattle.ug_iface.specs.Bus.{Bus, IsCalled, IsSoundBus, LiveIface, MovesBus};
ghost use Rattle.ug_sysfs.specs.declared.script.IfaceMove.TheVariants.{Add, Remove};
ghost use Rattle.ug_sysfs.specs.declared.script.NewIface.{NewIface};
ghost use Rattle.ug_sysfs.specs.IfaceBirth.{CanBeAdded, IsntThere};
ghost use Rattle.ug_sysfs.specs.Interfaces.{iface_moved, iface_of};
ghost use Rattle.ug_sysfs.specs.declared.script.Move.{Move};
ghost use Rattle.ug_sysfs.specs.Serving.{bus_in};

/// A device is born wherever it can be, as the newest, and else nothing changes. It is a move, and keeps a kernel sound.
pub fn plug_law()
    ensures born { (d : NewDevice) (ds : List Device) → CanBeBorn d ds
        → IsBorn d ds (plugged d ds) }
    ensures refused { (d : NewDevice) (ds : List Device) → ¬ (CanBeBorn d ds) → plugged d ds ≡ ds }
    ensures moves { (d : NewDevice) (k : Kernel)
        → Moves k (record k { devices = plugged d k.devices }) }
    ensures sound { (d : NewDevice) (k : Kernel) → IsKernel k
        → IsKernel (record k { devices = plugged d k.devices }) }
{}

/// Unplugging takes the live device of the name and what is below it, and nothing else. It is a move, and keeps a
/// kernel sound.
pub fn unplug_law()
    ensures felled { (name : List ℕ) (ds : List Device) (i : ℕ) (d : Device) → IsSound ds
        → Live ds i d → d.name ≡ name → IsFelled i ds (unplugged name ds) }
    ensures nobody { (name : List ℕ) (ds : List Device)
        → ((i : ℕ) (d : Device) → Live ds i d → d.name ≡ name → ⊥) → unplugged name ds ≡ ds }
    ensures moves { (name : List ℕ) (k : Kernel)
        → Moves k (record k { devices = unplugged name k.devices }) }
    ensures sound { (name : List ℕ) (k : Kernel) → IsKernel k
        → IsKernel (record k { devices = unplugged name k.devices }) }
{}

/// A kernel without devices is sound, and stays so at an event's end, where it moves.
pub fn event_law()
    ensures new { IsKernel (record { devices = []; held = []; log = [] }) }
    ensures moves { (w : World) → Moves w.kernel (over w).kernel }
    ensures sound { (w : World) → IsKernel w.kernel → IsKernel (over w).kernel }
{}

/// Whatever the kernel does by itself is a move of devices and interfaces together, and keeps them sound; so is what
/// happens at an event's end. Without devices and interfaces they are sound.
pub fn bus_law()
    ensures new { IsSoundBus (record {
      kernel = record { devices = []; held = []; log = [] };
      interfaces = [];
      files = [];
      log = [];
    }) }
    ensures moves { (m : Move) (w : World) → MovesBus (bus_in w) (bus_in (carried m w)) }
    ensures sound { (m : Move) (w : World) → IsSoundBus (bus_in w)
        → IsSoundBus (bus_in (carried m w)) }
    ensures over_moves { (w : World) → MovesBus (bus_in w) (bus_in (over w)) }
    ensures over_sound { (w : World) → IsSoundBus (bus_in w) → IsSoundBus (bus_in (over w)) }
{}

/// An interface is added to a device wherever it can be, and one that is there goes. Else nothing changes.
pub fn iface_law()
    ensures added { (new : NewIface) (b : Bus) (i : ℕ) → IsSound b.kernel.devices
        → CanBeAdded new b i → iface_moved (Add new) b.kernel.devices b.interfaces
        ≡ b.interfaces ++ iface_of i new ∷ [] }
    ensures refused { (new : NewIface) (b : Bus) → IsSound b.kernel.devices
        → ((i : ℕ) → CanBeAdded new b i → ⊥)
        → iface_moved (Add new) b.kernel.devices b.interfaces ≡ b.interfaces }
    ensures gone { (name : IfaceName) (b : Bus) (j : ℕ) (x : Interface) → IsSoundBus b
        → (l : LiveIface b j x) → IsCalled name l.d x
        → iface_moved (Remove name) b.kernel.devices b.interfaces
        ≡ set b.interfaces j (record x { gone = true }) }
    ensures nobody { (name : IfaceName) (b : Bus) → IsntThere name b
        → iface_moved (Remove name) b.kernel.devices b.interfaces ≡ b.interfaces }
{}

/// A call fails where it is scheduled to. The last word on it counts.
pub fn fate_law()
    ensures none { (n : ℕ) → fate n None [] ≡ None }
    ensures last { (n : ℕ) (fs : List Failing) (f : Failing) → f.call ≡ n
        → fate n None (fs ++ f ∷ []) ≡ Some f.effect }
    ensures other { (n : ℕ) (fs : List Failing) (f : Failing) → ¬ (f.call ≡ n)
        → fate n None (fs ++ f ∷ []) ≡ fate n None fs }
{}

/// A kernel that has run out stays so.
pub fn ran_out_law()
    ensures { (s : World) (call : Call) (a : Answer call) (t : World) → Gives s call a t
        → s.ran_out ≡ true → t.ran_out ≡ true }
{}
