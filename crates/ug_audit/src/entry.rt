// What the daemon notes of an event.
use ug_kernel::{FailedCall, Held, Write, Wrote};
use ug_types::{Cause, Moment, NodeName, Parameter, Principal, Refusal, Saved, Target};

/// Why a name is unsettled.
#[derive(Clone, Copy)]
pub enum Fault {
    Call(FailedCall),
    Memory,
}

/// What was done with a rule.
#[derive(Clone, Copy)]
pub enum RuleChange {
    Added,
    Removed,
    Changed,
}

/// One line of the journal, behind those of the start.
#[derive(Clone, Copy)]
pub enum Entry {
    /// A sweep begins.
    Event {
        number: u64,
        moment: Moment,
    },
    /// An event with an order of that user or group begins.
    Order {
        number: u64,
        moment: Moment,
        who: Principal,
    },
    /// An event with recorded uevents of the kernel begins.
    Hint {
        number: u64,
        moment: Moment,
    },
    /// After a save. The count of faults isn't printed.
    Save(Saved),
    /// A verdict was set. The held file isn't printed.
    Judged {
        number: u64,
        name: NodeName,
        held: Held,
        verdict: Target,
        cause: Cause,
    },
    /// Before a write.
    Intent {
        number: u64,
        name: NodeName,
        write: Write,
    },
    /// After it.
    Wrote {
        number: u64,
        name: NodeName,
        write: Write,
        outcome: Wrote,
    },
    /// The device of that number has gone; its standing was dropped.
    Gone {
        number: u64,
        name: NodeName,
    },
    /// The device of this name may not have the state that its verdict wants.
    Unsettled {
        name: NodeName,
        fault: Fault,
    },
    /// The listing failed, or memory was short for it.
    UnsettledAll {
        fault: Fault,
    },
    /// A message of the event's uevents was refused: what is wrong with it, and which of its strings it is.
    HintRefused {
        kind: u8,
        place: u64,
    },
    /// The rules changed.
    Rules {
        change: RuleChange,
        id: u64,
    },
    /// A setting was changed.
    Parameter(Parameter),
    /// The answer to the order, without its lines.
    Reply(Result<(), Refusal>),
    /// That auditor is given no more lines.
    Dropped {
        member: u8,
    },
    /// The event ends.
    End {
        number: u64,
    },
}
