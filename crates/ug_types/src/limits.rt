// What bounds a text.

/// The most bytes of a text that is read or written whole: a file, an input of a command, the answer to a request. It is 64 MiB.
pub const TEXT_LIMIT: usize = 67_108_864;
