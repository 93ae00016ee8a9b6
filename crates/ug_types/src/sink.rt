// A sink for bytes.
ghost use Rattle.std.specs.Prelude.{◌≡◌, ℕ, List, Option};
ghost use Rattle.ug_types.specs.Ends.{Puts, IsCounted, Rose};

#[derive(Clone, Copy)]
pub enum Put {
    Done,
    Failed,
}

pub trait Sink {
    /// The bytes that were put, where the sink tells them.
    ghost held: { Self → Option (List ℕ) };

    /// How many calls have failed.
    ghost faults: { Self → ℕ };

    /// Appends the bytes.
    fn put(&mut self, bytes: &[u8]) -> Put
        ensures bytes { Puts (held self.old) (held self.new) bytes.now result }
        ensures counted { IsCounted (faults self.old) (faults self.new) }
        ensures cause { result ≡ Put.Failed → Rose (faults self.old) (faults self.new) };

    /// How many calls have failed.
    fn faults(&self) -> u64
        ensures { result ≡ faults self.now };
}
