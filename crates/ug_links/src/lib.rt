// The daemon's sockets as calls with their answers, and sockets in memory; a client's connection, a clock and a waiter.
#![tactic(auto)]

mod byte_queue;
mod clock;
mod laws;
mod link;
mod link_call;
mod links;
mod list_clock;
mod list_waiter;
mod mem_calls;
mod mem_link;
mod mem_links;
mod peer;
mod script;
mod scripts;
mod step;
mod waiter;

pub use byte_queue::ByteQueue;
pub use clock::Clock;
pub use laws::what_links_tell;
pub use link::{Dialled, Link};
pub use link_call::{LinkCall, Receipt};
pub use links::{Accepted, LinkRead, LinkWrote, Links, Listening};
pub use list_clock::ListClock;
pub use list_waiter::{ListWaiter, PlannedWait};
pub use mem_link::MemLink;
pub use mem_links::MemLinks;
pub use peer::{Peer, ReadItem, WriteItem};
pub use script::Script;
pub use scripts::{Arrival, ListenItem};
pub use step::{LinkStep, Reading};
pub use ug_types::Principal;
pub use waiter::{LinkId, Ready, Waiter, Woken};
