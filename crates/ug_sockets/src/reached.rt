// How far a client's connection came.
use std::io;

/// What became of the connection that was dialled last.
#[derive(Clone, Copy)]
pub enum Reached {
    /// None was dialled.
    Nowhere,
    /// The system made none: its number, as in errno(3), or 0 where it gave none.
    Refused(i32),
    /// It was made, and neither ended nor failed before something came.
    Connected,
    /// It was made, and ended or failed before anything came.
    TurnedAway,
    /// It was made, and a call on it has failed behind what came.
    Broken,
}

/// How far a connection came that the system refused.
pub fn refused(error: &io::Error) -> Reached {
    Reached::Refused(error.raw_os_error().unwrap_or(0))
}
