// Why a line is no setting.
ghost use Rattle.std.specs.Prelude.{◌≡◌};

use ug_types::Numbered;

/// What is wrong with a line.
#[derive(Clone, Copy)]
pub enum FaultKind {
    /// It has no `=`.
    NoEquals,
    /// What stands before the first `=` is no key.
    UnknownKey,
    /// The key can't have that value.
    BadValue,
    /// The key was set before.
    Repeated,
}

impl Numbered for FaultKind {
    ghost use Rattle.ug_conf.specs.Faults.{setting_fault_number};

    ghost number_of = { setting_fault_number };

    /// 1 for `NoEquals`, 2 for `UnknownKey`, 3 for `BadValue`, 4 for `Repeated`.
    fn number(self) -> u8 {
        match self {
            FaultKind::NoEquals => 1,
            FaultKind::UnknownKey => 2,
            FaultKind::BadValue => 3,
            FaultKind::Repeated => 4,
        }
    }
}
