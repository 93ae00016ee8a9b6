// One session, one listener, and what is counted.
ghost use Rattle.std.specs.Prelude.{◌≡◌};
ghost use Rattle.ug_sessions.specs.Sending.{stays};
ghost use Rattle.ug_sessions.specs.Sessions as sessions;
ghost use Rattle.ug_sessions.specs.Sessions.{closed_for, counted_as, doomed_for, emptied, is_open_session, new_session, none_counted};

use std::alloc::Global;
use ug_links::{ByteQueue, LinkId};
use ug_proto::Framer;
use ug_types::Principal;

/// For what a session is closed.
#[derive(Clone, Copy)]
pub enum Why {
    /// Its link said End, its lines are answered and its bytes are sent.
    Ended,
    /// Its link failed.
    Failed,
    /// More bytes would be unsent than may be.
    Backlog,
    /// Its line was too long, and its bytes are sent.
    TooLong,
    /// Memory was refused.
    Memory,
}

#[derive(Clone, Copy)]
pub enum Life {
    Open,
    /// Closed; its link isn't yet, and it isn't counted.
    Doomed(Why),
    /// Closed, with its link. Lines that came before may still be handed out.
    Closed(Why),
}

#[derive(Drop)]
pub struct Session {
    pub id: LinkId,
    pub principal: Principal,
    pub framer: Framer,
    /// Whether the framer stands at its limit.
    pub overlong: bool,
    /// Whether the last look for a line found none. A read makes it false.
    pub drained: bool,
    /// How many lines were handed out and not answered.
    pub unanswered: u64,
    pub unsent: ByteQueue,
    /// Whether it gets notices.
    pub watch: bool,
    /// Whether its link said End.
    pub ended: bool,
    /// Whether it was told that its line is too long.
    pub refused: bool,
    /// Whether it is to be read though it isn't named.
    pub owed: bool,
    pub life: Life,
}

/// The listener of a principal.
#[derive(Drop)]
pub struct Listener {
    pub number: u32,
    pub principal: Principal,
    /// Whether it is to be tried though it isn't named.
    pub owed: bool,
}

/// How many sessions a call accepted, closed at once since too many were open, and closed for each reason. A count stands
/// still at its greatest number. `failed` and `memory` also count the accepts that answered so.
#[derive(Clone, Copy, PartialEq, Eq)]
pub struct Turn {
    pub accepted: u32,
    pub busy: u32,
    pub ended: u32,
    pub failed: u32,
    pub backlog: u32,
    pub too_long: u32,
    pub memory: u32,
}

/// One more, up to the greatest number.
pub fn counted_up(n: u32) -> u32
    ensures { result ≡ sessions.counted_up n }
{
    n.saturating_add(1)
}

impl Turn {
    pub fn new() -> Turn
        ensures { result ≡ none_counted }
    {
        Turn {
            accepted: 0,
            busy: 0,
            ended: 0,
            failed: 0,
            backlog: 0,
            too_long: 0,
            memory: 0,
        }
    }

    /// Counts one that was closed, or an accept that failed or found no memory.
    pub fn count(&mut self, why: Why)
        ensures { self.new ≡ counted_as why self.old }
    {
        match why {
            Why::Ended => self.ended = counted_up(self.ended),
            Why::Failed => self.failed = counted_up(self.failed),
            Why::Backlog => self.backlog = counted_up(self.backlog),
            Why::TooLong => self.too_long = counted_up(self.too_long),
            Why::Memory => self.memory = counted_up(self.memory),
        }
    }
}

impl Session {
    /// A session that was accepted just now. It takes no memory.
    pub fn new(alloc: Global, id: LinkId, principal: Principal) -> Session
        ensures { result ≡ new_session id principal }
    {
        Session {
            id,
            principal,
            framer: Framer::new(alloc),
            overlong: false,
            drained: true,
            unanswered: 0,
            unsent: ByteQueue::new(alloc),
            watch: false,
            ended: false,
            refused: false,
            owed: true,
            life: Life::Open,
        }
    }

    pub fn is_open(&self) -> bool
        ensures { result ≡ is_open_session self.now }
    {
        match self.life {
            Life::Open => true,
            Life::Doomed(_) => false,
            Life::Closed(_) => false,
        }
    }

    /// Whether it is kept.
    pub fn stays(&self) -> bool
        ensures { result ≡ stays self.now }
    {
        match self.life {
            Life::Open => true,
            Life::Doomed(_) => true,
            Life::Closed(_) => !self.drained,
        }
    }

    /// Forgets what came and what is unsent. It takes no memory.
    pub fn empty(&mut self, alloc: Global)
        ensures { self.new ≡ emptied self.old }
    {
        self.framer = Framer::new(alloc);
        self.overlong = false;
        self.drained = true;
        self.unsent.clear();
    }

    /// Closes it: nothing more of it is handed out or sent. Its link is closed later.
    pub fn doom(&mut self, alloc: Global, why: Why)
        ensures { self.new ≡ doomed_for why self.old }
    {
        self.empty(alloc);
        self.life = Life::Doomed(why);
    }

    /// Closes it, whose link is closed by the caller, and counts it.
    pub fn close(&mut self, why: Why, turn: &mut Turn)
        ensures session { self.new ≡ closed_for why self.old }
        ensures counted { turn.new ≡ counted_as why turn.old }
    {
        self.life = Life::Closed(why);
        turn.count(why);
    }
}
