// What became of a save.

/// What became of a save of the rule file.
#[derive(Clone, Copy, PartialEq, Eq)]
pub enum Saved {
    Done,
    /// A call failed; the disk's count of faults after it.
    Failed(u64),
    Memory,
}
