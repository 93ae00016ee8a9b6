// Unix sockets of this machine: those of the daemon in a folder, with a waiter for them, and a client's link.
#![tactic(auto)]

mod announced;
mod gathering;
mod listener;
mod listening;
mod pace;
mod passed_files;
mod peer;
mod places;
mod reached;
mod readiness;
mod socket_folder;
mod socket_link;
mod socket_waiter;
mod tokens;

pub use reached::Reached;
pub use socket_folder::SocketFolder;
pub use socket_link::SocketLink;
pub use socket_waiter::SocketWaiter;
