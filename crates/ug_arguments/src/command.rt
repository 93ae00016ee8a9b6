// What a command line asks for.
ghost use Rattle.std.specs.Prelude.{◌≡◌};

use ug_acl::Asked;
use ug_proto::Request;
use ug_rows::Choice;
use ug_types::{NoMemory, Principal, Query, Target, Text};

/// A command of usbguard(1), with what its words say.
#[derive(Drop)]
pub enum Command {
    Replay,
    /// Writes numbers of the journal that `Replay` writes.
    Summarize,
    /// Writes a script of that many events, at least 1 and at most 500,000.
    MakeScript {
        events: u32,
        start: u32,
    },
    ReadDescriptor,
    CheckRules,
    /// Finds the rules that can never decide, or takes out those that earlier ones cover.
    LintRules {
        prune: bool,
    },
    GeneratePolicy,
    /// Adds privileges to the access text of a user or a group.
    AddUser {
        name: Principal,
        asked: Asked,
    },
    /// Asks the daemon that listens at that path. The path and the request hold no newline.
    Ask {
        socket: Text,
        request: Request,
    },
    /// Asks it for its devices, and prints those that are chosen.
    ListChosen {
        socket: Text,
        choice: Choice,
    },
    /// Asks it for its rules, and prints those that have the label.
    ListLabelled {
        socket: Text,
        label: Text,
    },
    /// Asks it for its rules and for its devices, and prints the rules that have the label, or all,
    /// and behind each the devices that it applies to.
    ListRuleDevices {
        socket: Text,
        label: Option<Text>,
    },
    /// Asks it for a setting's value, then sets it, and prints both values.
    ChangeParameter {
        socket: Text,
        name: Text,
        value: Text,
    },
    /// Asks it for its devices, and orders the target for each that the query matches.
    Order {
        socket: Text,
        query: Query,
        target: Target,
        permanent: bool,
    },
    /// Asks it for notices, and prints so many at most.
    Watch {
        socket: Text,
        most: u64,
    },
    /// The same, which waits first until a daemon listens; not `once`, again and again.
    WatchWaiting {
        socket: Text,
        most: u64,
        once: bool,
    },
}

impl Command {
    /// Drops it. A crate that calls this need not prove how its parts are dropped.
    pub fn discard(self) {
        match self {
            Command::Ask { socket, request } => {
                drop(socket);
                request.discard();
            }
            Command::ListChosen { socket, choice } => {
                drop(socket);
                choice.discard();
            }
            Command::ListLabelled { socket, label } => {
                drop(socket);
                drop(label);
            }
            Command::ListRuleDevices { socket, label } => {
                drop(socket);
                drop(label);
            }
            Command::ChangeParameter {
                socket,
                name,
                value,
            } => {
                drop(socket);
                drop(name);
                drop(value);
            }
            Command::Order {
                socket,
                query,
                target: _,
                permanent: _,
            } => {
                drop(socket);
                query.discard();
            }
            Command::Watch { socket, most: _ } => drop(socket),
            Command::WatchWaiting {
                socket,
                most: _,
                once: _,
            } => drop(socket),
            Command::Replay
            | Command::Summarize
            | Command::MakeScript { .. }
            | Command::ReadDescriptor
            | Command::CheckRules
            | Command::LintRules { .. }
            | Command::GeneratePolicy
            | Command::AddUser { .. } => {}
        }
    }
}

/// Why words were not read.
#[derive(Clone, Copy)]
pub enum WordsFault {
    /// They are no command of usbguard(1).
    Bad,
    Memory,
}

impl From<NoMemory> for WordsFault {
    ghost use Rattle.std.specs.Prelude.{◌≡◌};
    ghost use Rattle.ug_arguments.specs.declared.command.WordsFault.{WordsFault};
    ghost use Rattle.ug_arguments.specs.declared.command.WordsFault.TheVariants.{Memory};

    ghost from_gives = { λ _ fault. fault ≡ Memory };

    fn from(_e: NoMemory) -> WordsFault {
        WordsFault::Memory
    }
}
