// Faults of texts that are read line by line.
ghost use Rattle.std.specs.Prelude.{◌≡◌, ℕ};
ghost use Rattle.ug_types.specs.TextFaults.{fault_of_kind, file_fault_of};

use crate::no_memory::NoMemory;

/// The first bad line of a text, counted from 1; what is wrong with it; and the byte where that stands, counted from 0 at
/// the line's first.
#[derive(Clone, Copy)]
pub struct TextFault {
    pub line: u64,
    pub kind: u8,
    pub place: u64,
}

/// Why a text wasn't read.
#[derive(Clone, Copy)]
pub enum FileFault {
    Bad(TextFault),
    Memory,
}

/// Kinds of faults, each of which has a number.
pub trait Numbered {
    ghost number_of: { Self → ℕ };

    fn number(self) -> u8
        ensures { result ≡ number_of self };
}

/// What is wrong with a line, and the number of bytes before it.
#[derive(Clone, Copy)]
pub struct Fault<K> {
    pub kind: K,
    pub place: u64,
}

/// Why a line wasn't read.
#[derive(Clone, Copy)]
pub enum LineFault<K> {
    Bad(Fault<K>),
    Memory,
}

impl<K> From<NoMemory> for LineFault<K> {
    ghost use Rattle.std.specs.Prelude.{◌≡◌};
    ghost use Rattle.ug_types.specs.declared.text_fault.LineFault.{LineFault};
    ghost use Rattle.ug_types.specs.declared.text_fault.LineFault.TheVariants.{Memory};

    ghost from_gives = { λ _ fault. fault ≡ Memory };

    fn from(_e: NoMemory) -> LineFault<K> {
        LineFault::Memory
    }
}

impl<K: Numbered> LineFault<K> {
    pub fn at(kind: K, place: u64) -> LineFault<K>
        ensures { result ≡ LineFault.Bad (fault_of_kind kind place) }
    {
        LineFault::Bad(Fault { kind, place })
    }

    /// The fault of a text whose line has that number.
    pub fn in_line(self, line: u64) -> FileFault
        ensures { result ≡ file_fault_of K.number_of line self }
    {
        match self {
            LineFault::Bad(fault) => FileFault::Bad(TextFault {
                line,
                kind: fault.kind.number(),
                place: fault.place,
            }),
            LineFault::Memory => FileFault::Memory,
        }
    }
}
