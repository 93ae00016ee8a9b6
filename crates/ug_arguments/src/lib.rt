// The words of a command line: usbguard(1).
#![tactic(auto)]

mod arguments;
mod command;
mod command_word;
mod daemon;
mod devices;
mod laws;
mod matches;
mod meaning;
mod requests;
mod rules;
mod sending;
mod settings;
mod simple;
mod values;

pub use arguments::read_command;
pub use command::{Command, WordsFault};
pub use daemon::read_daemon_words;
pub use laws::{
    add_user_lines_law, asking_lines_law, command_lines_law, daemon_lines_law, flag_lines_law,
    list_lines_law, long_options_law,
};
