// What a line of a script asks for.
use ug_acl::Grants;
use ug_iface::IfaceRule;
use ug_store::Planned;
use ug_sysfs::{Failing, Move, Scheduled};
use ug_types::{Event, NoMemory, Principal, Rule, Text};

/// What a user or a group may do: usbguard-daemon.conf(5), IPC access control.
#[derive(Drop)]
pub struct AccessLine {
    pub who: Principal,
    pub grants: Grants,
}

/// One line more of a file in the folder of rules.
#[derive(Drop)]
pub struct FolderLine {
    pub name: Text,
    pub text: Text,
}

/// A line that stands before all others.
#[derive(Drop)]
pub enum SetupLine {
    /// One more rule behind those before.
    Rule(Rule),
    /// One more rule of a file that stands before those.
    Folder(FolderLine),
    /// A line of settings: usbguard-daemon.conf(5).
    Conf(Text),
    /// A user or a group may do more.
    Access(AccessLine),
    /// The seed of random words.
    Seed([u8; 32]),
    /// How many seconds local clocks are ahead of UTC.
    Zone(i32),
    /// Interfaces that are switched off.
    IfaceRule(IfaceRule),
}

impl SetupLine {
    /// Drops it. A crate that calls this need not prove how its parts are dropped.
    pub fn discard(self) {
        match self {
            SetupLine::Rule(rule) => rule.discard(),
            SetupLine::Folder(line) => drop(line),
            SetupLine::Conf(text) => drop(text),
            SetupLine::Access(line) => drop(line),
            SetupLine::Seed(_) | SetupLine::Zone(_) => {}
            SetupLine::IfaceRule(rule) => rule.discard(),
        }
    }
}

/// What is to come at a call of the next event.
#[derive(Drop)]
pub enum Plan {
    /// A move comes.
    Move(Scheduled),
    /// The call of the kernel fails.
    Fail(Failing),
    /// The call of the disk fails, or the machine stops in it.
    OnDisk(Planned),
}

/// One line's step.
#[derive(Drop)]
pub enum Step {
    /// An empty line or a comment.
    Skip,
    Setup(SetupLine),
    /// A device is plugged in, or unplugged.
    Move(Move),
    Schedule(Plan),
    Event(Event),
    /// A new daemon over the same disk and kernel.
    Restart,
}

impl Step {
    /// Drops it, as `SetupLine::discard`.
    pub fn discard(self) {
        match self {
            Step::Setup(line) => line.discard(),
            Step::Move(action) => action.discard(),
            Step::Schedule(Plan::Move(next)) => next.action.discard(),
            Step::Event(event) => event.discard(),
            Step::Schedule(Plan::Fail(_) | Plan::OnDisk(_)) | Step::Skip | Step::Restart => {}
        }
    }
}

/// Why a line gives no step, or may not stand there.
#[derive(Clone, Copy)]
pub enum StepFault {
    /// The line is none of the grammar.
    Bad,
    /// There was no memory for what it holds.
    Memory,
}

impl From<NoMemory> for StepFault {
    ghost use Rattle.std.specs.Prelude.{◌≡◌};
    ghost use Rattle.ug_steps.specs.declared.step.StepFault.{StepFault};
    ghost use Rattle.ug_steps.specs.declared.step.StepFault.TheVariants.{Memory};

    ghost from_gives = { λ _ fault. fault ≡ Memory };

    fn from(_e: NoMemory) -> StepFault {
        StepFault::Memory
    }
}
