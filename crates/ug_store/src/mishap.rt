// Which calls of a disk in memory fail.

/// How a call fails.
#[derive(Clone, Copy)]
pub enum Mishap {
    /// It fails and does nothing.
    NoEffect,
    /// It does what it should, and answers that it failed.
    Effect,
}

/// A call that is to fail. Where the machine stops in it, its effect comes only if it is a swap, and all later calls of the event fail and
/// do nothing.
#[derive(Clone, Copy)]
pub struct Planned {
    pub call: u64,
    pub mishap: Mishap,
    pub stops: bool,
}
