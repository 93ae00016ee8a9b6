// The sessions of the daemon: what is accepted, read, handed out, answered and sent.
#![tactic(auto)]

mod accept;
mod answer;
mod laws;
mod read;
mod send;
mod server;
mod session;

pub use accept::{MAX_ACCEPTS, MAX_SESSIONS};
pub use answer::MAX_UNSENT;
pub use laws::{
    accepting_is_counted, accepting_keeps_accounts, accepting_tries_no_other, calls_keep_all,
    calls_keep_tied, closings_are_counted, flushing_keeps_accounts, flushing_keeps_lines,
    flushing_sends_all, handing_keeps_accounts, handing_keeps_lines, handing_out_ends,
    reading_keeps_accounts, reading_keeps_lines, reading_tries_no_other, refusing_keeps_account,
    saying_keeps_account, saying_keeps_accounts, sending_keeps_account, turns_are_counted,
};
pub use read::{MAX_PIECES, PIECE};
pub use server::Server;
pub use session::{Life, Listener, Session, Turn, Why};
