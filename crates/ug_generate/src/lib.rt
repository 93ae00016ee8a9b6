// The rules by which the devices that are plugged in are allowed: `generate-policy` of usbguard(1).
#![tactic(auto)]

mod files;
mod laws;
mod places;
mod policy;
mod text;

pub use laws::policy_law;
pub use policy::generated_rules;
pub use text::generated_text;
