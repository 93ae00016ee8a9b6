// How a call of the client ends.

/// How a request ended. Beside each stands usbguard(1)'s exit status for it.
#[derive(Clone, Copy)]
pub enum Asked {
    /// 0: it was done, and the reply's lines are printed.
    Done,
    /// 7: it was refused, and the refusal's line is printed.
    Refused,
    /// 8: the link gave no whole reply.
    NoReply,
    /// 8: a call of the link failed.
    LinkFailed,
    /// 5: the sink failed. Nothing more was written.
    WriteFault,
    /// 6.
    Memory,
}
