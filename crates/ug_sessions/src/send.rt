// What is sent to a session, and when it is closed.
ghost use Rattle.std.specs.Prelude.{◌≡◌, length, filter};
ghost use Rattle.ug_links.specs.Talk.{Talks, upto};
ghost use Rattle.ug_sessions.specs.Sending as sending;
ghost use Rattle.ug_sessions.specs.Sending.{writing_some, finishing, flushing_one, flushing_all, stays};

use crate::read::close_doomed;
use crate::session::{Session, Turn, Why};
use ug_links::{LinkWrote, Links};

/// Writes once, and tells whether there may be more.
#[tactic(auto, unfolding(crate::specs::Sending::writing_some))]
pub fn write_some<N: Links>(session: &mut Session, links: &mut N, turn: &mut Turn) -> bool
    ensures { Talks N.gives links.old (writing_some (session.old, turn.old))
        (result, (session.new, turn.new)) links.new }
{
    if session.unsent.len() == 0 {
        return false;
    }
    match links.write(session.id, session.unsent.bytes()) {
        LinkWrote::Sent(n) => {
            session.unsent.drop_front(n);
            true
        }
        LinkWrote::NotYet => false,
        LinkWrote::Failed => {
            session.unsent.clear();
            links.close(session.id);
            session.close(Why::Failed, turn);
            false
        }
    }
}

/// Writes up to n times.
pub fn write_pieces<N: Links>(n: usize, session: &mut Session, links: &mut N, turn: &mut Turn)
    ensures { Talks N.gives links.old (upto writing_some n (session.old, turn.old))
        (session.new, turn.new) links.new }
{
    for i in 0..n {
        let more = write_some(session, links, turn);
        if !more {
            return;
        }
    }
}

/// Whether nothing more is due to a session whose link said End.
pub fn is_served(session: &Session) -> bool
    ensures { result ≡ sending.is_served session.now }
{
    session.ended && session.drained && session.unanswered == 0
}

/// Closes a session all of whose text is sent, where nothing more is due to it.
#[tactic(auto, unfolding(crate::specs::Sending::finishing))]
pub fn finish<N: Links>(session: &mut Session, links: &mut N, turn: &mut Turn)
    ensures { Talks N.gives links.old (finishing session.old turn.old) (session.new, turn.new)
        links.new }
{
    if session.unsent.len() != 0 {
        return;
    }
    if !session.is_open() {
        return;
    }
    if session.refused {
        links.close(session.id);
        session.close(Why::TooLong, turn);
        return;
    }
    if is_served(session) {
        links.close(session.id);
        session.close(Why::Ended, turn);
    }
}

/// Closes the session's link, or writes what is unsent.
#[tactic(auto, unfolding(crate::specs::Sending::flushing_one), using(ug_links::proofs::Runs::runs_then))]
pub fn flush_one<N: Links>(session: &mut Session, links: &mut N, turn: &mut Turn)
    ensures { Talks N.gives links.old (flushing_one session.old turn.old) (session.new, turn.new)
        links.new }
{
    close_doomed(session, links, turn);
    if session.is_open() {
        write_pieces(session.unsent.len(), session, links, turn);
        finish(session, links, turn);
    }
}

/// All sessions, in the order in which they were accepted.
pub fn flush_all<N: Links>(sessions: &mut [Session], links: &mut N, turn: &mut Turn)
    ensures { Talks N.gives links.old (flushing_all sessions.old turn.old) (sessions.new, turn.new)
        links.new }
{
    for i in 0..sessions.len() {
        let session = &mut sessions[i];
        flush_one(session, links, turn);
    }
}

/// The same over the sessions that are kept.
// (a function of its own, since the loop's proof goes over a slice)
pub fn flush_kept<N: Links>(sessions: &mut Vec<Session>, links: &mut N, turn: &mut Turn)
    ensures { Talks N.gives links.old (flushing_all sessions.old.items turn.old)
        (sessions.new.items, turn.new) links.new }
{
    flush_all(sessions, links, turn);
}

/// Forgets the sessions that are closed and have no line left.
pub fn forget(sessions: &mut Vec<Session>)
    ensures { sessions.new.items ≡ filter stays sessions.old.items }
{
    sessions.retain(|session| session.stays());
}
