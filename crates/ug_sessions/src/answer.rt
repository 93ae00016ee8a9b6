// What is put behind the text of a session, and which line is handed out next.
ghost use Rattle.std.specs.Prelude.{◌≡◌};
ghost use Rattle.ug_sessions.specs.Answering.{Each, PutsBehind, AnswersOne, WatchesOne, GivesUpOne, NoticesOne, HandsOne, HandsNext, RefusesIf, may_listen};
ghost use Rattle.ug_sessions.specs.Answering.{is_due as due_now};

use crate::session::{Session, Why};
use std::alloc::Global;
use ug_acl::Acl;
use ug_links::LinkId;
use ug_types::{Principal, Privilege, Section, Text};

/// At most so many bytes of a session are unsent.
pub const MAX_UNSENT: usize = 1048576;

/// PutsBehind a text behind what is unsent, or closes the session.
pub fn put(alloc: Global, session: &mut Session, text: &[u8])
    ensures { PutsBehind session.old text.now session.new }
{
    if !session.is_open() {
        return;
    }
    if session.refused {
        return;
    }
    let unsent = session.unsent.len();
    if text.len() > MAX_UNSENT || unsent > MAX_UNSENT - text.len() {
        session.doom(alloc, Why::Backlog);
        return;
    }
    match session.unsent.append(text) {
        Ok(()) => {}
        Err(_) => session.doom(alloc, Why::Memory),
    }
}

/// Answers a session's request.
pub fn answer_one(alloc: Global, session: &mut Session, id: LinkId, text: &[u8])
    ensures { AnswersOne id text.now session.old session.new }
{
    if session.id.0 == id.0 {
        session.unanswered = session.unanswered.saturating_sub(1);
        put(alloc, session, text);
    }
}

/// Answers the request of the session of that id.
pub fn answer_all(alloc: Global, sessions: &mut [Session], id: LinkId, text: &[u8])
    ensures { Each (AnswersOne id text.now) sessions.old sessions.new }
{
    for i in 0..sessions.len() {
        let session = &mut sessions[i];
        answer_one(alloc, session, id, text);
    }
}

/// Marks a session as one that gets notices.
pub fn watch_one(session: &mut Session, id: LinkId)
    ensures { WatchesOne id session.old session.new }
{
    if session.id.0 == id.0 {
        session.watch = true;
    }
}

pub fn watch_all(sessions: &mut [Session], id: LinkId)
    ensures { Each (WatchesOne id) sessions.old sessions.new }
{
    for i in 0..sessions.len() {
        let session = &mut sessions[i];
        watch_one(session, id);
    }
}

pub fn give_up_all(alloc: Global, sessions: &mut [Session], id: LinkId)
    ensures { Each (GivesUpOne id) sessions.old sessions.new }
{
    for i in 0..sessions.len() {
        let session = &mut sessions[i];
        give_up_one(alloc, session, id);
    }
}

/// Closes a session as want of memory does.
pub fn give_up_one(alloc: Global, session: &mut Session, id: LinkId)
    ensures { GivesUpOne id session.old session.new }
{
    if session.id.0 == id.0 {
        if session.is_open() {
            session.doom(alloc, Why::Memory);
        }
    }
}

/// PutsBehind a notice behind the text of a session that watches, if its principal may get it.
pub fn notify_one(alloc: Global, session: &mut Session, acl: &Acl, section: Section, text: &[u8])
    ensures { NoticesOne (may_listen acl.now section) text.now session.old session.new }
{
    if session.watch {
        if acl.allows(&session.principal, section, Privilege::Listen) {
            put(alloc, session, text);
        }
    }
}

pub fn notify_all(alloc: Global, sessions: &mut [Session], acl: &Acl, section: Section, text: &[u8])
    ensures { Each (NoticesOne (may_listen acl.now section) text.now) sessions.old sessions.new }
{
    for i in 0..sessions.len() {
        let session = &mut sessions[i];
        notify_one(alloc, session, acl, section, text);
    }
}

/// Whether a session has to be told that its line is too long.
pub fn is_due(session: &Session) -> bool
    ensures { result ≡ due_now session.now }
{
    if !session.is_open() {
        return false;
    }
    if session.refused {
        return false;
    }
    session.overlong
}

/// Tells a session that its line is too long, once.
pub fn refuse(alloc: Global, session: &mut Session)
    ensures { RefusesIf (due_now session.old) session.old session.new }
{
    if is_due(session) {
        put(alloc, session, b"refused 1 bad-request 65536\n");
        session.refused = true;
    }
}

/// The next line of a session. Behind its last line stands the refusal of a line that is too long.
pub fn next_line_of(alloc: Global, session: &mut Session) -> Option<Text>
    ensures { HandsOne session.old result session.new }
{
    match session.framer.next_line() {
        Some(line) => {
            session.unanswered = session.unanswered.saturating_add(1);
            Some(line)
        }
        None => {
            session.drained = true;
            refuse(alloc, session);
            None
        }
    }
}

/// The next line, of the first session that has one.
pub fn next_of(alloc: Global, sessions: &mut [Session]) -> Option<(LinkId, Principal, Text)>
    ensures { HandsNext sessions.old result sessions.new }
{
    for i in 0..sessions.len() {
        let session = &mut sessions[i];
        match next_line_of(alloc, session) {
            Some(line) => return Some((session.id, session.principal, line)),
            None => {}
        }
    }
    None
}
