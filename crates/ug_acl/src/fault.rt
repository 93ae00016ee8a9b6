// Why an access file isn't taken.
ghost use Rattle.std.specs.Prelude.{◌≡◌};

use ug_types::Numbered;

/// What is wrong with a line, or with the file's name.
#[derive(Clone, Copy)]
pub enum FaultKind {
    /// The line has no `=`.
    NoEquals,
    /// What stands before the first `=` is no section.
    UnknownSection,
    /// What stands between two commas is no privilege of the section.
    BadPrivilege,
    /// An earlier line has the section.
    Repeated,
    /// The file's name is that of no user or group.
    BadName,
}

impl Numbered for FaultKind {
    ghost use Rattle.ug_acl.specs.Faults.{number_of_kind};

    ghost number_of = { number_of_kind };

    /// 1 for `NoEquals`, 2 for `UnknownSection`, 3 for `BadPrivilege`, 4 for `Repeated`, 5 for `BadName`.
    fn number(self) -> u8 {
        match self {
            FaultKind::NoEquals => 1,
            FaultKind::UnknownSection => 2,
            FaultKind::BadPrivilege => 3,
            FaultKind::Repeated => 4,
            FaultKind::BadName => 5,
        }
    }
}
