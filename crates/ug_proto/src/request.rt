// What a user asks for.
ghost use Rattle.std.specs.Prelude.{◌≡◌};
ghost use Rattle.ug_proto.specs.Privileges as privileges;

use ug_types::{After, NoMemory, Privilege, Section, Target, Text};

/// A request of usbguard(1).
#[derive(Drop)]
pub enum Request {
    /// What a setting is. The name has no spaces.
    GetParameter {
        name: Text,
    },
    /// Changes a setting until the daemon ends. Neither text has spaces.
    SetParameter {
        name: Text,
        value: Text,
    },
    /// All devices with their rules.
    ListDevices,
    /// What is done with the device of that number, and whether a rule is to say so from now on.
    Device {
        number: u64,
        target: Target,
        permanent: bool,
    },
    /// All rules.
    ListRules,
    /// A new rule, whose text isn't read here: usbguard-rules.conf(5).
    AppendRule {
        after: After,
        permanent: bool,
        rule: Text,
    },
    RemoveRule {
        id: u64,
    },
    /// Notices from now on.
    Watch,
}

impl Request {
    /// Drops it. A crate that calls this need not prove how its parts are dropped.
    pub fn discard(self) {}
}

/// Why a line wasn't read.
#[derive(Clone, Copy)]
pub enum RequestFault {
    /// It is no request: the first word that doesn't fit begins at that byte, or the line ends there and a word is missing.
    Bad(u64),
    Memory,
}

impl From<NoMemory> for RequestFault {
    ghost use Rattle.std.specs.Prelude.{◌≡◌};
    ghost use Rattle.ug_proto.specs.declared.request.RequestFault.{RequestFault};
    ghost use Rattle.ug_proto.specs.declared.request.RequestFault.TheVariants.{Memory};

    ghost from_gives = { λ _ fault. fault ≡ Memory };

    fn from(_e: NoMemory) -> RequestFault {
        RequestFault::Memory
    }
}

impl Request {
    /// The privileges of which one is needed. Where none is held, a refusal names the first.
    pub fn needs(&self) -> &'static [(Section, Privilege)]
        ensures { result.now ≡ privileges.needs self.now }
    {
        match self {
            Request::GetParameter { name: _ } => &[(Section::Parameters, Privilege::List)],
            Request::SetParameter { name: _, value: _ } => {
                &[(Section::Parameters, Privilege::Modify)]
            }
            Request::ListDevices => &[(Section::Devices, Privilege::List)],
            Request::Device {
                number: _,
                target: _,
                permanent: _,
            } => &[(Section::Devices, Privilege::Modify)],
            Request::ListRules => &[(Section::Policy, Privilege::List)],
            Request::AppendRule {
                after: _,
                permanent: _,
                rule: _,
            } => &[(Section::Policy, Privilege::Modify)],
            Request::RemoveRule { id: _ } => &[(Section::Policy, Privilege::Modify)],
            Request::Watch => &[
                (Section::Devices, Privilege::Listen),
                (Section::Exceptions, Privilege::Listen),
                (Section::Parameters, Privilege::Listen),
            ],
        }
    }
}
