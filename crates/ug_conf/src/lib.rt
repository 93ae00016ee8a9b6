// Settings of the daemon: usbguard-daemon.conf(5).
#![tactic(auto)]

mod defaults;
mod draft;
mod fault;
mod files;
mod folder_file;
mod keys;
mod laws;
mod mem_files;
mod names;
mod reader;
mod settings;
mod spelled;
mod texts;
mod tree;
mod values;

pub use defaults::default_settings;
pub use fault::FaultKind;
pub use files::{ConfFiles, FileRead, FolderRead};
pub use folder_file::{FolderFile, discard_files, is_rule_file_name};
pub use laws::{
    file_names_law, key_words_law, lines_law, one_meaning, reading_is_grammar, value_words_law,
};
pub use mem_files::MemFiles;
pub use reader::SettingsReader;
pub use settings::{AuthDefault, Present, Settings};
pub use texts::parse_conf;
pub use tree::{MemFile, MemFolder};
pub use ug_types::{Fault, LineFault, Principal};
