// What the daemon waits by.
ghost use Rattle.std.specs.Prelude.{◌≡◌, ℕ, List, Option, Some, length};
ghost use Rattle.ug_types.specs.Ends.{IsCounted, Rose};
ghost use Rattle.ug_types.specs.Told.{GrowsBy};
ghost use Rattle.ug_links.specs.Waits.{Waited, FitsWait, waited, wait_tokens};
ghost use Rattle.ug_links.specs.declared.waiter.Ready.{Ready};

/// A session's connection.
#[derive(Clone, Copy, PartialEq, Eq)]
pub struct LinkId(pub u64);

/// A socket at which something may have come: a listener by its number, or a session.
#[derive(Clone, Copy, PartialEq, Eq)]
pub enum Ready {
    Listener(u32),
    Session(LinkId),
}

#[derive(Clone, Copy)]
pub enum Woken {
    /// So many tokens came.
    Got(usize),
    Failed,
}

pub trait Waiter {
    /// What a wait may give, and what it leaves.
    ghost gives: { Self → Waited → Self → Type 0 };

    /// The tokens of each wait so far, where the waiter tells them.
    ghost told: { Self → Option (List (List Ready)) };

    /// How many calls have failed.
    ghost faults: { Self → ℕ };

    /// Waits, and puts the tokens that came at the front. They may be false, repeated or incomplete.
    fn wait(&mut self, into: &mut [Ready]) -> Woken
        requires { length into.old ≡ 256 }
        ensures size { FitsWait result }
        ensures gives { gives self.old (waited result into.new) self.new }
        ensures counted { IsCounted (faults self.old) (faults self.new) }
        ensures cause { result ≡ Woken.Failed → Rose (faults self.old) (faults self.new) };

    /// How many calls have failed.
    fn faults(&self) -> u64
        ensures { result ≡ faults self.now };

    /// Where the tokens are told after a wait, they were told before it, and those that it gave stand behind them.
    ghost tells: { (s : Self) (waited : Waited) (t : Self) (after : List (List Ready))
        → gives s waited t → told t ≡ Some after → GrowsBy (told s) (wait_tokens waited) after };
}
