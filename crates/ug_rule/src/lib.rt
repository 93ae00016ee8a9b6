// Rules read from their text: usbguard-rules.conf(5).
#![tactic(auto)]

mod conditions;
mod fault;
mod files;
mod laws;
mod queries;
mod rules;
mod tokens_left;
mod values;

pub use fault::RuleFault;
pub use files::{count_rules, parse_file, parse_line};
pub use laws::{
    attributes_law, conditions_law, lines_law, one_meaning, rules_law, text_law, text_lines_law,
    values_law,
};
pub use queries::empty_query;
pub use rules::{parse_query, parse_rule};
