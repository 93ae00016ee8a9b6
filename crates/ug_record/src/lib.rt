// What is known of a device from its files in sysfs.
#![tactic(auto)]

mod descriptors;
mod device;
mod fault;
mod files;
mod interfaces;
mod laws;
mod reading;
mod records;

pub use descriptors::{Config, Descr, IfaceDescr};
pub use fault::DescrFault;
pub use files::text_of;
pub use interfaces::ifaces;
pub use laws::{
    child_hash_by_descriptors, judged_by_descriptors, judged_under_child_hash, one_meaning,
    one_newline_goes, reading_is_grammar,
};
pub use reading::decode;
pub use records::{parent_hash, record_and_hash, record_of};
