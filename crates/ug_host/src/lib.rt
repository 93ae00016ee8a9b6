// The machine's own files, clock and zone behind the daemon's traits.
#![tactic(auto)]

mod auditor;
mod civil_zone;
mod clock;
mod conf_folder;
mod entries;
mod first_byte;
mod folder;
mod known_texts;
mod laws;
mod listing_told;
mod local_zone;
mod names;
mod output;
mod port;
mod refusal;
mod repeats;
mod rule_file;
mod saves_told;
mod seed;
mod standard_files;
mod sysfs;

pub use auditor::WriterAuditor;
pub use civil_zone::CivilZone;
pub use clock::SystemClock;
pub use conf_folder::ConfFolder;
pub use laws::zones_law;
pub use local_zone::LocalZone;
pub use output::JournalOutput;
pub use refusal::{RefusalReader, RefusedPart, StartRefusal};
pub use rule_file::RuleFile;
pub use seed::read_seed;
pub use standard_files::fill_standard_files;
pub use sysfs::SysfsFolder;
