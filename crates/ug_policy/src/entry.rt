// A rule of the list.
ghost use Rattle.std.specs.Prelude.{◌≡◌};
ghost use Rattle.ug_policy.specs.Marks.{is_folder, is_permanent};

use ug_cond::History;
use ug_types::Rule;

/// Where a rule of the list comes from: usbguard-daemon.conf(5), RuleFolder. No rule of the rule file stands before one of the folder.
#[derive(Clone, Copy)]
pub enum Mark {
    /// A file of the folder, which is never written.
    Folder,
    /// The rule file: a permanent rule, which is saved.
    File,
    /// An order: it isn't saved, and goes when the daemon ends. usbguard(1), append-rule.
    Temporary,
}

impl Mark {
    /// Whether rules with this mark are the folder's.
    pub fn is_folder(self) -> bool
        ensures { result ≡ is_folder self }
    {
        match self {
            Mark::Folder => true,
            Mark::File => false,
            Mark::Temporary => false,
        }
    }

    /// Whether rules with this mark are permanent: the rule file has just these.
    pub fn is_permanent(self) -> bool
        ensures { result ≡ is_permanent self }
    {
        match self {
            Mark::Folder => false,
            Mark::File => true,
            Mark::Temporary => false,
        }
    }
}

/// A rule in its list.
#[derive(Drop)]
pub struct RuleEntry {
    pub id: u64,
    pub rule: Rule,
    pub mark: Mark,
    pub history: History,
}

/// No rule has the id.
#[derive(Clone, Copy)]
pub struct NoRule;
