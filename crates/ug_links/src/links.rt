// The daemon's sockets: listeners, and the sessions that they accept.
ghost use Rattle.std.specs.Prelude.{◌≡◌, ℕ, ◌<◌, List, Option, Some, length};
ghost use Rattle.ug_types.specs.Ends.{IsCounted, Rose};
ghost use Rattle.ug_links.specs.Steps.{reading_given, FitsRead, FitsWrite, TellsStep};
ghost use Rattle.ug_links.specs.declared.step.LinkStep.{LinkStep};
ghost use Rattle.ug_links.specs.declared.step.LinkStep.TheVariants.{Listened, AcceptedAt, ReadFrom, WroteTo, Closed};

use crate::waiter::LinkId;
use std::alloc::Global;
use ug_types::Principal;

#[derive(Clone, Copy)]
pub enum Listening {
    /// The listener has this number.
    Ready(u32),
    Failed,
    Memory,
}

#[derive(Clone, Copy)]
pub enum Accepted {
    Session(LinkId),
    NotYet,
    Failed,
    Memory,
}

#[derive(Clone, Copy, PartialEq, Eq)]
pub enum LinkRead {
    /// So many bytes came.
    Took(usize),
    NotYet,
    /// Nothing more comes.
    End,
    Failed,
}

#[derive(Clone, Copy, PartialEq, Eq)]
pub enum LinkWrote {
    /// So many bytes were sent.
    Sent(usize),
    NotYet,
    Failed,
}

pub trait Links {
    /// What a call may answer, and what it leaves.
    ghost gives: { Self → LinkStep → Self → Type 0 };

    /// The calls so far with their answers, where the links tell them.
    ghost told: { Self → Option (List LinkStep) };

    /// How many calls have failed.
    ghost faults: { Self → ℕ };

    /// Listens for a user or a group. Listeners are numbered from 0.
    fn listen(&mut self, alloc: Global, principal: &Principal) -> Listening
        ensures gives { gives self.old (Listened principal.now result) self.new }
        ensures counted { IsCounted (faults self.old) (faults self.new) }
        ensures cause { result ≡ Listening.Failed → Rose (faults self.old) (faults self.new) };

    /// The next session that came at a listener. Its id is above all ids before.
    fn accept(&mut self, alloc: Global, listener: u32) -> Accepted
        ensures gives { gives self.old (AcceptedAt listener result) self.new }
        ensures counted { IsCounted (faults self.old) (faults self.new) }
        ensures cause { result ≡ Accepted.Failed → Rose (faults self.old) (faults self.new) };

    /// Puts the next bytes of a session at the front.
    fn read(&mut self, id: LinkId, into: &mut [u8]) -> LinkRead
        requires { 0 < length into.old }
        ensures size { FitsRead (length into.old) result }
        ensures gives { gives self.old
            (ReadFrom id (length into.old) (reading_given result into.new)) self.new }
        ensures counted { IsCounted (faults self.old) (faults self.new) }
        ensures cause { result ≡ LinkRead.Failed → Rose (faults self.old) (faults self.new) };

    /// Sends a front of the bytes to a session.
    fn write(&mut self, id: LinkId, bytes: &[u8]) -> LinkWrote
        requires { 0 < length bytes.now }
        ensures size { FitsWrite (length bytes.now) result }
        ensures gives { gives self.old (WroteTo id bytes.now result) self.new }
        ensures counted { IsCounted (faults self.old) (faults self.new) }
        ensures cause { result ≡ LinkWrote.Failed → Rose (faults self.old) (faults self.new) };

    /// Ends a session.
    fn close(&mut self, id: LinkId)
        ensures gives { gives self.old (Closed id) self.new }
        ensures counted { faults self.new ≡ faults self.old };

    /// How many calls have failed.
    fn faults(&self) -> u64
        ensures { result ≡ faults self.now };

    /// Where calls are told after a call, they were told before it, and this call stands behind them, with an answer that it
    /// may have there.
    ghost tells: { (s : Self) (step : LinkStep) (t : Self) (after : List LinkStep)
        → gives s step t → told t ≡ Some after → TellsStep (told s) step after };
}
