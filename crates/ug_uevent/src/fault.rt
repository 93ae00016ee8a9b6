// Why a message isn't taken.
ghost use Rattle.std.specs.Prelude.{◌≡◌};
ghost use Rattle.ug_uevent.specs.Faults.{number_of_uevent_kind};
ghost use Rattle.ug_types.specs.TextFaults.{fault_of_kind};

use ug_types::{Fault, Numbered};

/// What is wrong with a message.
#[derive(Clone, Copy)]
pub enum UeventKind {
    /// The first string has no `@`, or begins with it, or is missing.
    NoHeader,
    /// A later string has no `=`, or begins with it.
    BadKey,
    /// ACTION or DEVPATH differs from the header, cut at its first `@`.
    HeaderDiffers,
    /// ACTION, DEVPATH, SUBSYSTEM or SEQNUM stands for the second time.
    Repeated,
    /// SEQNUM isn't a decimal number below 2^64, without a sign or a leading zero.
    BadSeq,
    /// 8,192 bytes stand behind a message's end without the next end.
    TooLong,
}

/// What is wrong with a message, and the number of bytes before the string that has it.
pub type UeventFault = Fault<UeventKind>;

impl Numbered for UeventKind {
    ghost use Rattle.ug_uevent.specs.Faults.{number_of_uevent_kind};

    ghost number_of = { number_of_uevent_kind };

    /// 1 for `NoHeader`, 2 for `BadKey`, 3 for `HeaderDiffers`, 4 for `Repeated`, 5 for `BadSeq`, 6
    /// for `TooLong`.
    fn number(self) -> u8 {
        match self {
            UeventKind::NoHeader => 1,
            UeventKind::BadKey => 2,
            UeventKind::HeaderDiffers => 3,
            UeventKind::Repeated => 4,
            UeventKind::BadSeq => 5,
            UeventKind::TooLong => 6,
        }
    }
}

pub fn fault_at(kind: UeventKind, place: usize) -> UeventFault
    ensures { result ≡ fault_of_kind kind place }
{
    Fault {
        kind,
        place: place as u64,
    }
}
