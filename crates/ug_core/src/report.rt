// What was noted of the last event.
use ug_audit::Entries;
use ug_proto::Reply;

#[derive(Drop)]
pub struct Report {
    /// The event's number, or 0 before the first.
    pub event: u64,
    pub entries: Entries,
    /// What is answered to the event's order, if it has one.
    pub reply: Option<Reply>,
    /// Whether the event's order asked for notices, and was answered that it gets them.
    pub watch: bool,
}

impl Report {
    /// Drops it, as `Reply::discard`.
    pub fn discard(self) {
        let Report {
            event: _,
            entries,
            reply,
            watch: _,
        } = self;
        drop(entries);
        if let Some(reply) = reply {
            reply.discard();
        }
    }
}
