// A machine whose lines are its text.
ghost use Rattle.std.specs.Prelude.{◌≡◌, ◌≤◌, ℕ, List, Some, None, true, nat_eq, if◌then◌else◌, length, codes};
ghost use Rattle.ug_command_io.specs.Fold.{BadLine, InputTooLong, Writes, Refused};
ghost use Rattle.ug_cases.specs.declared.echo.Echo.{Echo as Echoing};

use std::alloc::Global;
use ug_command_io::{Machine, Ran};
use ug_types::{Put, Sink};

/// Lines of three bytes are bad, and those of four start something too long. The world is the length of the last line.
#[derive(Clone, Copy)]
pub struct Echo {
    pub begun: bool,
}

impl Machine<u64> for Echo {
    ghost State = { Echoing };

    ghost state = { λ m. m };

    ghost step_of = { λ p line. if nat_eq (length line) 3
        then Refused BadLine p else if nat_eq (length line) 4 then Refused InputTooLong p else
        Writes line (record { begun = true }, length line) };

    ghost closing = { λ p. if p.0.begun then Some (codes "done\n") else None };

    ghost keeps = { λ m w. Unit {0} };

    ghost because = { λ p line fault. Unit {0} };

    ghost holds = { λ p line. Unit {0} };

    fn step<K: Sink>(&mut self, _alloc: Global, world: &mut u64, line: &[u8], out: &mut K) -> Ran {
        if line.len() == 3 {
            return Ran::Bad;
        }
        if line.len() == 4 {
            return Ran::TooLong;
        }
        self.begun = true;
        *world = line.len() as u64;
        match out.put(line) {
            Put::Done => Ran::Done,
            Put::Failed => Ran::SinkFailed,
        }
    }

    fn finish<K: Sink>(&self, _alloc: Global, _world: &u64, out: &mut K) -> Ran {
        if !self.begun {
            return Ran::Bad;
        }
        match out.put(b"done\n") {
            Put::Done => Ran::Done,
            Put::Failed => Ran::SinkFailed,
        }
    }
}
