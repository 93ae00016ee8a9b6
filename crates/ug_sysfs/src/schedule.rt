// What a script has in store.
ghost use Rattle.std.specs.Prelude.{◌≡◌, ◌+◌, ◌≤◌, [], IfOk};
ghost use Rattle.ug_kernel.specs.Kernel.{live_count};
ghost use Rattle.ug_sysfs.specs.World.{moved, ifaces_moved, plugs_of, iface_adds_of, happen, happen_all, ifaces_happen, ifaces_happen_all, plugs, iface_adds, one_fault_more};

use crate::beside::move_iface;
use crate::census::Census;
use crate::interfaces::Interfaces;
use crate::parent::plug;
use crate::queue::Queue;
use crate::script::Move;
use ug_types::NoMemory;

/// Makes room for what is scheduled, and for one move more.
#[tactic(auto, using(crate::proofs::Plugs::plugs_le, crate::proofs::Plugs::adds_le))]
pub fn make_room(
    census: &mut Census,
    interfaces: &mut Interfaces,
    moves: &Queue,
    action: &Move,
) -> Result<(), NoMemory>
    requires room { plugs moves.now ≤ census.old.room }
    requires places { iface_adds moves.now ≤ interfaces.old.room }
    ensures devices { census.new.devices ≡ census.old.devices }
    ensures interfaces { interfaces.new.interfaces ≡ interfaces.old.interfaces }
    ensures room { plugs moves.now ≤ census.new.room }
    ensures places { iface_adds moves.now ≤ interfaces.new.room }
    ensures more_room { IfOk result
        (λ done. plugs_of action.now + plugs moves.now ≤ census.new.room) }
    ensures more_places { IfOk result
        (λ done. iface_adds_of action.now + iface_adds moves.now ≤ interfaces.new.room) }
{
    let room = moves.len().saturating_add(1);
    match action {
        Move::Plug(_) => census.reserve(room),
        Move::Unplug(_) => census.reserve(room),
        Move::Iface(_) => interfaces.reserve(room),
    }
}

/// What the kernel does by itself. There is room for what comes.
pub fn carry_out(census: &mut Census, interfaces: &mut Interfaces, action: Move)
    requires room { plugs_of action ≤ census.old.room }
    requires places { iface_adds_of action ≤ interfaces.old.room }
    requires few { live_count census.old.devices ≤ 65536 }
    ensures devices { census.new.devices ≡ moved action census.old.devices }
    ensures interfaces { interfaces.new.interfaces
        ≡ ifaces_moved action census.old.devices interfaces.old.interfaces }
    ensures room { census.old.room ≤ census.new.room + plugs_of action }
    ensures places { interfaces.old.room ≤ interfaces.new.room + iface_adds_of action }
    ensures few { live_count census.new.devices ≤ 65536 }
{
    match action {
        Move::Plug(device) => plug(census, device),
        Move::Unplug(name) => {
            if let Some(i) = census.find(&name) {
                census.unplug(i);
            }
        }
        Move::Iface(change) => move_iface(census, interfaces, change),
    }
}

/// The moves whose turn has come.
pub fn happen(
    census: &mut Census,
    interfaces: &mut Interfaces,
    moves: &mut Queue,
    call: u64,
    after: bool,
)
    requires room { plugs moves.old ≤ census.old.room }
    requires places { iface_adds moves.old ≤ interfaces.old.room }
    requires few { live_count census.old.devices ≤ 65536 }
    ensures happened { (moves.new, census.new.devices)
        ≡ happen call after moves.old census.old.devices }
    ensures interfaces { interfaces.new.interfaces
        ≡ ifaces_happen call after moves.old census.old.devices
        interfaces.old.interfaces }
    ensures room { plugs moves.new ≤ census.new.room }
    ensures places { iface_adds moves.new ≤ interfaces.new.room }
    ensures few { live_count census.new.devices ≤ 65536 }
{
    while moves.is_due(call, after) {
        match moves.pop() {
            Some(next) => carry_out(census, interfaces, next.action),
            None => return,
        }
    }
}

/// All moves that are still to come.
pub fn happen_all(census: &mut Census, interfaces: &mut Interfaces, moves: &mut Queue)
    requires room { plugs moves.old ≤ census.old.room }
    requires places { iface_adds moves.old ≤ interfaces.old.room }
    requires few { live_count census.old.devices ≤ 65536 }
    ensures devices { census.new.devices ≡ happen_all moves.old census.old.devices }
    ensures interfaces { interfaces.new.interfaces
        ≡ ifaces_happen_all moves.old census.old.devices interfaces.old.interfaces }
    ensures moves { moves.new ≡ [] }
    ensures few { live_count census.new.devices ≤ 65536 }
{
    while let Some(next) = moves.pop() {
        carry_out(census, interfaces, next.action);
    }
}

/// One fault more, up to the greatest number.
pub fn one_more(faults: u64) -> u64
    ensures { result ≡ one_fault_more faults }
{
    if faults < u64::MAX {
        faults + 1
    } else {
        faults
    }
}
