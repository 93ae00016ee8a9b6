// The lines of a stream, as its bytes come.
ghost use Rattle.std.specs.Prelude.{◌≡◌, [], ◌∷◌};
ghost use Rattle.ug_proto.specs.Lines.{Partial};
ghost use Rattle.ug_proto.specs.Frames.{IsGoing, FeedsPiece, HandsOut};

use std::alloc::Global;
use std::collections::VecDeque;
use std::marker::Model;
use ug_types::Text;

const MAX_LINE: usize = 65535;

/// Why a stream is read no further.
#[derive(Clone, Copy)]
pub enum FrameFault {
    /// 65,536 bytes stand without a newline.
    TooLong,
    Memory,
}

/// The whole lines that were not handed out yet, and the line that has begun.
#[derive(Drop)]
pub struct Framer {
    alloc: Global,
    lines: VecDeque<Text>,
    line: Vec<u8>,
    fault: Option<FrameFault>,
}

impl Model for Framer {
    ghost use Rattle.ug_proto.specs.Lines.{Frames};

    ghost Value = { Frames };

    ghost use Rattle.std.specs.Prelude.{length, ◌≤◌};
    ghost use Rattle.ug_proto.specs.Begun.{begun_of};

    ghost view = { λ f. record { lines = f.lines.items; begun = begun_of f.line.items f.fault } };

    ghost invariant = { λ f. length f.line.items ≤ 65535 };
}

impl Framer {
    /// It takes no memory.
    pub fn new(alloc: Global) -> Framer
        ensures lines { result.lines ≡ [] }
        ensures begun { result.begun ≡ Partial [] }
    {
        Framer {
            alloc,
            lines: VecDeque::new(alloc),
            line: Vec::new(alloc),
            fault: None,
        }
    }

    fn end_line(&mut self) -> Result<(), FrameFault>
        requires { IsGoing self.old.begun }
        ensures { FeedsPiece self.old (10 ∷ []) result self.new }
    {
        let line = std::mem::replace(&mut self.line, Vec::new(self.alloc));
        match self.lines.push_back(Text::from_vec(line)) {
            Ok(()) => Ok(()),
            Err(_) => {
                self.fault = Some(FrameFault::Memory);
                Err(FrameFault::Memory)
            }
        }
    }

    fn take(&mut self, byte: u8) -> Result<(), FrameFault>
        requires { IsGoing self.old.begun }
        ensures { FeedsPiece self.old (byte ∷ []) result self.new }
    {
        if byte == b'\n' {
            self.end_line()
        } else if self.line.len() < MAX_LINE {
            match self.line.push(byte) {
                Ok(()) => Ok(()),
                Err(_) => {
                    self.fault = Some(FrameFault::Memory);
                    Err(FrameFault::Memory)
                }
            }
        } else {
            self.fault = Some(FrameFault::TooLong);
            Err(FrameFault::TooLong)
        }
    }

    /// Takes the next piece of the stream. After a fault each later piece is refused in the same way; the
    /// lines that ended before it can still be taken.
    pub fn feed(&mut self, piece: &[u8]) -> Result<(), FrameFault>
        ensures { FeedsPiece self.old piece.now result self.new }
    {
        match self.fault {
            Some(fault) => return Err(fault),
            None => {}
        }
        for byte in piece {
            match self.take(*byte) {
                Ok(()) => {}
                Err(fault) => return Err(fault),
            }
        }
        Ok(())
    }

    /// Hands out the next whole line, without its newline. It takes no memory.
    pub fn next_line(&mut self) -> Option<Text>
        ensures { HandsOut self.old result self.new }
    {
        self.lines.pop_front()
    }
}
