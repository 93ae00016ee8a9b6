// The daemon's rules in order, what changes of them, and the text of the rule file with them.
#![tactic(auto)]

mod asked;
mod edit;
mod file_text;
mod kept_rules;
mod laws;
mod reading_back;
mod rows;
mod rule_list;

pub use edit::Edit;
pub use file_text::list_text;
pub use kept_rules::KeptRules;
pub use laws::made_rule_law;
pub use reading_back::stay_readable;
pub use rows::print_row;
