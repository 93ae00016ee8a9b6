// A source of bytes.
ghost use Rattle.std.specs.Prelude.{◌≡◌, ℕ, ◌<◌, List, Option, length};
ghost use Rattle.ug_types.specs.Ends.{Fits, Takes, IsCounted, Rose};

#[derive(Clone, Copy)]
pub enum Taken {
    Bytes(usize),
    End,
    Failed,
}

pub trait Source {
    /// The bytes that are left, where the source tells them.
    ghost left: { Self → Option (List ℕ) };

    /// How many calls have failed.
    ghost faults: { Self → ℕ };

    /// Takes the next bytes.
    fn take(&mut self, into: &mut [u8]) -> Taken
        requires { 0 < length into.old }
        ensures size { Fits (length into.old) result }
        ensures bytes { Takes (left self.old) (left self.new) into.new result }
        ensures counted { IsCounted (faults self.old) (faults self.new) }
        ensures cause { result ≡ Taken.Failed → Rose (faults self.old) (faults self.new) };

    /// How many calls have failed.
    fn faults(&self) -> u64
        ensures { result ≡ faults self.now };
}
