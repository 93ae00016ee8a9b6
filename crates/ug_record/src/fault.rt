// Why descriptors are refused.
use thiserror::Error;

#[derive(Clone, Copy, Debug, Error)]
pub enum DescrFault {
    /// The first fault in file order. The kinds, in the order in which they are tried at one descriptor: 1, fewer than
    /// 18 bytes, at the length; 2, a front other than 18 and 1, at 0; and at the descriptor's first byte 3, a length
    /// below 2; 4, a length past the end; 5, a configuration below 9 bytes; 6, an interface below 9 bytes; 7, an
    /// interface before any configuration.
    #[error("Malformed")]
    Malformed { kind: u8, place: u64 },
    #[error("Memory")]
    Memory,
}
