// The conditions of rules: usbguard-rules.conf(5).
#![tactic(auto)]

mod allowed;
mod conditions;
mod context;
mod history;
mod laws;
mod zone;

pub use allowed::Allowed;
pub use conditions::holds;
pub use context::Context;
pub use history::History;
pub use laws::conditions_law;
pub use zone::{FixedZone, LAST_SECOND, Zone};
