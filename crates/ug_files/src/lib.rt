// Files of this machine: read, trusted, followed through links, and put in the place of others.
#![tactic(auto)]

mod at_once;
mod at_path;
mod file;
mod fresh;
mod linked;
mod opening;
mod same;
mod sentence;
mod stamp;
mod status;
mod trusted;
mod writing;

pub use at_once::put_at_once;
pub use at_path::{read_at, text_of};
pub use file::{
    Content, FileFault, open_to_write, plain, read_content, read_file, read_number, read_piece,
    word_of,
};
pub use fresh::{Fresh, make_fresh};
pub use linked::{folder_of, resolve};
pub use opening::open_plain;
pub use same::has_text;
pub use sentence::{Priority, Teller, tell};
pub use stamp::{FileStamp, stamp_at};
pub use status::check_status;
pub use trusted::{open_trusted, tell_failed};
pub use writing::put_all;
