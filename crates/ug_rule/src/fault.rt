// Why a text is no rule.
ghost use Rattle.std.specs.Prelude.{◌≡◌, Ok};
ghost use Rattle.ug_rule.specs.Faults as faults;
ghost use Rattle.ug_rule.specs.Faults.{kind_number, fault_at, AnswersRead, GivesNumbered};

use thiserror::Error;
use ug_types::NoMemory;

#[derive(Clone, Copy, Debug, Error)]
pub enum RuleFault {
    /// The first fault from the left, and the number of bytes before it. The kinds: 1, a backslash that begins no
    /// escape; 2, a string without end, at its quote; 3, a byte that begins no token; 4, no target; 5, an unknown word
    /// where an attribute or `if` must begin; 6, an attribute or `if` for the second time; 7, no value, or what can't
    /// stand in one; 8, an empty set, at its `}`; 9, a set without end, at its `{`; 10, no condition, or what can't
    /// stand in one; 11, an `if` in a query; 12, another token than a word where an attribute or `if` must begin.
    #[error("Bad")]
    Bad { kind: u8, place: u64 },
    #[error("Memory")]
    Memory,
}

/// What is wrong.
#[derive(Clone, Copy)]
pub enum FaultKind {
    BadEscape,
    OpenString,
    BadByte,
    NoTarget,
    UnknownWord,
    Repeated,
    BadValue,
    EmptySet,
    OpenSet,
    BadCondition,
    ConditionInQuery,
    TrailingToken,
}

impl FaultKind {
    pub fn number(self) -> u8
        ensures { result ≡ kind_number self }
    {
        match self {
            FaultKind::BadEscape => 1,
            FaultKind::OpenString => 2,
            FaultKind::BadByte => 3,
            FaultKind::NoTarget => 4,
            FaultKind::UnknownWord => 5,
            FaultKind::Repeated => 6,
            FaultKind::BadValue => 7,
            FaultKind::EmptySet => 8,
            FaultKind::OpenSet => 9,
            FaultKind::BadCondition => 10,
            FaultKind::ConditionInQuery => 11,
            FaultKind::TrailingToken => 12,
        }
    }
}

/// A fault and the number of bytes before it.
#[derive(Clone, Copy)]
pub struct Fault {
    pub kind: FaultKind,
    pub place: u64,
}

/// Why a reading stopped.
#[derive(Clone, Copy)]
pub enum Stop {
    Bad(Fault),
    Memory,
}

impl From<NoMemory> for Stop {
    ghost use Rattle.std.specs.Prelude.{◌≡◌};
    ghost use Rattle.ug_rule.specs.declared.fault.Stop.{Stop};
    ghost use Rattle.ug_rule.specs.declared.fault.Stop.TheVariants.{Memory};

    ghost from_gives = { λ _ stop. stop ≡ Memory };

    fn from(_e: NoMemory) -> Stop {
        Stop::Memory
    }
}

impl Stop {
    pub fn at(kind: FaultKind, place: u64) -> Stop
        ensures { result ≡ Stop.Bad (fault_at kind place) }
    {
        Stop::Bad(Fault { kind, place })
    }
}

/// Where a line ends too early: its outermost open `{`, if there is one, and its length.
#[derive(Clone, Copy)]
pub struct Ending {
    pub brace: Option<u64>,
    pub length: u64,
}

impl Ending {
    /// What ends too early, and so lacks a token.
    pub fn missing(self, kind: FaultKind) -> Stop
        ensures { result ≡ Stop.Bad (faults.missing kind self) }
    {
        match self.brace {
            Some(brace) => Stop::at(FaultKind::OpenSet, brace),
            None => Stop::at(kind, self.length),
        }
    }

    /// Behind a `{` at that place.
    pub fn within(self, place: u64) -> Ending
        ensures { result ≡ faults.within place self }
    {
        match self.brace {
            Some(_) => self,
            None => Ending {
                brace: Some(place),
                length: self.length,
            },
        }
    }
}

/// What is there, or a fault.
pub fn required<T: Drop>(found: Option<T>, kind: FaultKind, place: u64) -> Result<T, Stop>
    ensures { AnswersRead result (faults.required found kind place) }
{
    match found {
        Some(value) => Ok(value),
        None => Err(Stop::at(kind, place)),
    }
}

/// A value, where nothing speaks against it.
pub fn where_good<T: Drop>(value: T, checked: Result<(), Stop>) -> Result<T, Stop>
    ensures { result ≡ faults.on_ok checked (λ _. Ok value) }
{
    match checked {
        Ok(()) => Ok(value),
        Err(stop) => Err(stop),
    }
}

/// The answer of a public call.
pub fn answer<T: Drop>(read: Result<T, Stop>) -> Result<T, RuleFault>
    ensures { (asked : _) → AnswersRead read asked → GivesNumbered result asked }
{
    match read {
        Ok(value) => Ok(value),
        Err(Stop::Bad(fault)) => Err(RuleFault::Bad {
            kind: fault.kind.number(),
            place: fault.place,
        }),
        Err(Stop::Memory) => Err(RuleFault::Memory),
    }
}
