// A connection to the daemon, as a client has it.
ghost use Rattle.std.specs.Prelude.{◌≡◌, ℕ, ◌<◌, List, Option, length};
ghost use Rattle.std.specs.Io.KnownBytes.{Keeps};
ghost use Rattle.ug_types.specs.Ends.{Fits, Takes, Puts, IsCounted, Rose};
ghost use Rattle.ug_links.specs.LinkCalls.{TellsCall, receipt_of};
ghost use Rattle.ug_links.specs.declared.link_call.LinkCall.{LinkCall};
ghost use Rattle.ug_links.specs.declared.link_call.LinkCall.TheVariants as call;

use std::alloc::Global;
use ug_types::{Put, Taken};

#[derive(Clone, Copy)]
pub enum Dialled {
    Ready,
    Failed,
    Memory,
}

pub trait Link {
    /// The calls so far with their answers, where the link tells them.
    ghost told: { Self → Option (List LinkCall) };

    /// The bytes that were sent, where the link tells them.
    ghost sent: { Self → Option (List ℕ) };

    /// The bytes that are still to come, where the link tells them.
    ghost left: { Self → Option (List ℕ) };

    /// How many calls have failed.
    ghost faults: { Self → ℕ };

    /// Connects to the socket of that path.
    fn dial(&mut self, alloc: Global, path: &[u8]) -> Dialled
        ensures told { TellsCall (told self.old) (call.Dial path.now result) (told self.new) }
        ensures sent { Keeps (sent self.old) (sent self.new) }
        ensures left { Keeps (left self.old) (left self.new) }
        ensures counted { IsCounted (faults self.old) (faults self.new) }
        ensures cause { result ≡ Dialled.Failed → Rose (faults self.old) (faults self.new) };

    /// Sends the bytes.
    fn send(&mut self, bytes: &[u8]) -> Put
        ensures told { TellsCall (told self.old) (call.Send bytes.now result) (told self.new) }
        ensures sent { Puts (sent self.old) (sent self.new) bytes.now result }
        ensures left { Keeps (left self.old) (left self.new) }
        ensures counted { IsCounted (faults self.old) (faults self.new) }
        ensures cause { result ≡ Put.Failed → Rose (faults self.old) (faults self.new) };

    /// Takes the next bytes.
    fn receive(&mut self, into: &mut [u8]) -> Taken
        requires { 0 < length into.old }
        ensures told { TellsCall (told self.old) (call.Receive (receipt_of result into.new))
            (told self.new) }
        ensures size { Fits (length into.old) result }
        ensures bytes { Takes (left self.old) (left self.new) into.new result }
        ensures sent { Keeps (sent self.old) (sent self.new) }
        ensures counted { IsCounted (faults self.old) (faults self.new) }
        ensures cause { result ≡ Taken.Failed → Rose (faults self.old) (faults self.new) };

    /// How many calls have failed.
    fn faults(&self) -> u64
        ensures { result ≡ faults self.now };
}
