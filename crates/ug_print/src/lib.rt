// Rules written as usbguard-rules.conf(5) has them, and rules made of devices.
#![tactic(auto)]

mod conditions;
mod device_lines;
mod generating;
mod items;
pub mod laws;
mod printing;
mod recognizing;
mod rule_texts;
mod sets;

pub use device_lines::{device_line, malformed_line};
pub use generating::generated_rule;
pub use printing::print_rule;
pub use recognizing::is_made_of;
pub use rule_texts::{RulesText, RulesTextFault, rules_text};
