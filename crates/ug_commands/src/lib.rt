// The commands of one step: what descriptors say, whether a text holds rules, which of these can never decide, and a script of
// random events.
#![tactic(auto)]

mod checking;
mod checking_lines;
mod few_rules;
mod generating;
mod generating_lines;
mod linting;
mod linting_lines;
mod listing;
mod listing_lines;
mod rule_lines;
mod writing;

pub use checking::check_rules;
pub use generating::make_script;
pub use linting::lint_rules;
pub use listing::list_descriptors;
