// Interfaces of USB devices: their files in sysfs, the rules that switch them off, and the pass that does so.
#![tactic(auto)]

mod calls;
mod ifaces;
mod interface;
mod laws;
mod look;
mod name;
mod rules;
mod settle;

pub use calls::{IfaceHeld, IfaceListing, IfaceOpened, IfaceRead};
pub use ifaces::Ifaces;
pub use interface::Interface;
pub use laws::{iface_lines_law, iface_order_law, iface_rules_law};
pub use name::IfaceName;
pub use rules::{IfaceRule, discard_iface_rules, parse_iface_rule, push_iface_rule};
pub use settle::{IfaceEntry, Passed, settle_ifaces};
