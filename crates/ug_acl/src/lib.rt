// Who may do what: usbguard-daemon.conf(5), IPC access control; and the text to which `add-user` of usbguard(1) adds privileges.
#![tactic(auto)]

mod acl;
mod adding;
mod asked;
mod draft;
mod fault;
mod fault_line;
mod grants;
mod laws;
mod lists;
mod print;
mod privileges;
mod texts;
mod united_text;
mod uniting;

pub use acl::Acl;
pub use adding::add_user;
pub use asked::Asked;
pub use fault::FaultKind;
pub use grants::Grants;
pub use laws::{
    access_lines_law, asked_law, lists_law, members_law, one_access_meaning, printing_reads_back,
    reading_is_access_grammar, united_law,
};
pub use lists::{Listed, read_list};
pub use texts::{parse_access, parse_file_name};
pub use ug_types::{Fault, LineFault, Privilege, Section};
