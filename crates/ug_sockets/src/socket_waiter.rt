// A waiter for sockets, which looks for what the kernel announces too.
ghost use Rattle.std.specs.Prelude.{◌≡◌, ◌≤◌, length, None, IfOk};
ghost use Rattle.ug_links.specs.Waits.{FitsWait};
ghost use Rattle.ug_files.specs.Untold.{untold};

use crate::announced::Announced;
use crate::gathering::{Gathered, gather, sleep};
use crate::readiness::Readiness;
use mio::{Events, Poll, Registry};
use std::alloc::Global;
use std::io;
use std::net::Net;
use std::rt::Files;
use std::time::Duration;
use ug_links::{Ready, Waiter, Woken};

/// The most tokens that one look gives: half of what a wait has room for.
const TOKENS: usize = 128;

/// How many looks a wait has, with a pause before each.
const LOOKS: u32 = 49;

/// Behind so many looks a wait ends for what can wait.
const PATIENT_LOOKS: u32 = 13;

/// Milliseconds between two looks.
const PAUSE: i32 = 20;

/// Waits for a second at most. It ends as soon as something comes at a socket of the links that were made with it, or the kernel
/// announces any event, which it looks for every 20 milliseconds in a file such as `/sys/kernel/uevent_seqnum`; where that can't be
/// read, it waits for sockets alone. Its first 20 milliseconds pass whatever comes, so that neither sessions nor whoever has the kernel
/// announce events call for more than fifty ends in a second. What the links hold back ends it behind 280 milliseconds. The first
/// wait ends at once. The sockets that are ready are told either way.
///
/// A second wait shows that the daemon has looked at all devices once. From then on it tells a service manager that the daemon is
/// ready, until that takes the message.
#[derive(Drop)]
pub struct SocketWaiter<R> {
    announced: Announced<R>,
    poll: Poll,
    events: Events,
    readiness: Option<Readiness>,
    waited: bool,
    faults: u64,
}

impl<R: Files + Net + Copy> SocketWaiter<R> {
    /// The path is that of the file that counts the kernel's events.
    pub fn new(rt: R, alloc: Global, path: String) -> io::Result<SocketWaiter<R>> {
        Ok(SocketWaiter {
            announced: Announced::new(rt, path),
            poll: Poll::new(&rt)?,
            events: Events::with_capacity(alloc, TOKENS)?,
            readiness: None,
            waited: false,
            faults: 0,
        })
    }

    /// The second and later waits tell the service manager at that socket that the daemon is ready.
    pub fn set_manager(&mut self, socket: &str) {
        self.readiness = Readiness::at(socket.as_bytes());
    }

    /// What it waits for. Whoever has it may add to that.
    pub(crate) fn registry(&self) -> io::Result<Registry> {
        self.poll.registry().try_clone()
    }
}

impl<R: Files> SocketWaiter<R> {
    // Waits for a socket for so many milliseconds, and puts what came behind so many tokens.
    fn look(&mut self, millis: i32, into: &mut [Ready], count: usize) -> io::Result<Gathered>
        requires room { length into.old ≡ 256 }
        requires count { count ≤ 256 }
        ensures length { length into.new ≡ 256 }
        ensures bound { IfOk result (λ gathered. gathered.count ≤ 256) }
        ensures faults { self.new.faults ≡ self.old.faults }
    {
        let time = Duration::from_millis(millis.unsigned_abs() as u64);
        self.poll.poll(&mut self.events, Some(time))?;
        Ok(gather(&self.events, into, count))
    }

    // The same for a pause, in which nothing but what calls for a turn at once ends it, if anything may.
    fn pause(&mut self, blind: bool, into: &mut [Ready], count: usize) -> io::Result<Gathered>
        requires room { length into.old ≡ 256 }
        requires count { count ≤ 256 }
        ensures length { length into.new ≡ 256 }
        ensures bound { IfOk result (λ gathered. gathered.count ≤ 256) }
        ensures faults { self.new.faults ≡ self.old.faults }
    {
        if blind {
            sleep(PAUSE);
            return self.look(0, into, count);
        }
        let gathered = self.look(PAUSE, into, count)?;
        if gathered.count > count && !gathered.at_once {
            sleep(PAUSE);
        }
        Ok(gathered)
    }

    // Tells the manager of a daemon that has waited before.
    fn tell_ready(&mut self)
        ensures faults { self.new.faults ≡ self.old.faults }
    {
        if let Some(readiness) = &self.readiness
            && self.waited
            && readiness.tell()
        {
            self.readiness = None;
        }
    }

    // The first pause is blind, so that turns come at most fifty times in a second, whatever calls for them.
    fn wait_second(&mut self, into: &mut [Ready]) -> Woken
        requires { length into.old ≡ 256 }
        ensures size { FitsWait result }
        ensures faults { self.new.faults ≡ self.old.faults }
    {
        let mut count = 0;
        for look in 0..LOOKS {
            let Ok(gathered) = self.pause(look == 0 || count > 0, into, count) else {
                return Woken::Failed;
            };
            count = gathered.count;
            if gathered.at_once || count > TOKENS {
                return Woken::Got(count);
            }
            if self.announced.is_other() || (count > 0 && look >= PATIENT_LOOKS) {
                break;
            }
        }
        self.wait_no_more(into, count)
    }

    // What has come by now, behind so many tokens.
    fn wait_no_more(&mut self, into: &mut [Ready], count: usize) -> Woken
        requires room { length into.old ≡ 256 }
        requires count { count ≤ 256 }
        ensures size { FitsWait result }
        ensures faults { self.new.faults ≡ self.old.faults }
    {
        match self.look(0, into, count) {
            Ok(gathered) => Woken::Got(gathered.count),
            Err(_) => Woken::Failed,
        }
    }

    // The first wait looks once.
    fn wait_first(&mut self, into: &mut [Ready]) -> Woken
        requires { length into.old ≡ 256 }
        ensures size { FitsWait result }
        ensures faults { self.new.faults ≡ self.old.faults }
    {
        self.waited = true;
        let _first = self.announced.is_other();
        self.wait_no_more(into, 0)
    }
}

impl<R: Files> Waiter for SocketWaiter<R> {
    ghost gives = { λ s waited t. Unit {0} };

    ghost told = { λ s. None };

    ghost faults = { λ s. s.faults };

    ghost tells = { λ s waited t after gives told. untold after told };

    fn wait(&mut self, into: &mut [Ready]) -> Woken {
        self.tell_ready();
        let woken = if self.waited {
            self.wait_second(into)
        } else {
            self.wait_first(into)
        };
        if matches!(woken, Woken::Failed) {
            self.faults = self.faults.saturating_add(1);
        }
        woken
    }

    fn faults(&self) -> u64 {
        self.faults
    }
}
