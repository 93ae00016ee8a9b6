// What comes in the course of a wait.
ghost use Rattle.std.specs.Prelude.{◌≡◌, ◌≤◌, length};

use crate::tokens::{is_patient, ready_of, without_patience};
use libc::net::poll;
use libc::types::pollfd;
use mio::Events;
use ug_links::Ready;

/// How many tokens came so far, and whether one of them calls for a turn at once.
#[derive(Clone, Copy)]
pub struct Gathered {
    pub count: usize,
    pub at_once: bool,
}

fn has(tokens: &[Ready], ready: Ready) -> bool {
    for token in tokens {
        if *token == ready {
            return true;
        }
    }
    false
}

/// Puts what is ready behind so many tokens, but for what is among these.
pub fn gather(events: &Events, into: &mut [Ready], count: usize) -> Gathered
    requires { count ≤ length into.old }
    ensures length { length into.new ≡ length into.old }
    ensures bound { result.count ≤ length into.old }
{
    let mut count = count;
    let mut at_once = false;
    for event in events.iter() {
        at_once = at_once || !is_patient(event.token());
        let ready = ready_of(without_patience(event.token()));
        if count < into.len() && !has(&into[..count], ready) {
            into[count] = ready;
            count += 1;
        }
    }
    Gathered { count, at_once }
}

/// Sleeps so many milliseconds, whatever comes.
pub fn sleep(millis: i32) {
    let mut nothing: [pollfd; 0] = [];
    let _slept = poll(&mut nothing, millis);
}
