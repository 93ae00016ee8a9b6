// The sessions of the daemon, all together.
ghost use Rattle.std.specs.Prelude.{◌≡◌, ◌<◌, ◌^◌, List, [], length};
ghost use Rattle.ug_links.specs.declared.step.LinkStep.{LinkStep};
ghost use Rattle.ug_links.specs.Talk.{Makes, Talks};
ghost use Rattle.ug_sessions.specs.Arriving.{CountsTurn};
ghost use Rattle.ug_sessions.specs.Serving.{turning, turning_listeners, flushing};
ghost use Rattle.ug_sessions.specs.Tied.{FlushWrites, TurnTries};
ghost use Rattle.ug_sessions.specs.Answering.{Each, AnswersOne, WatchesOne, GivesUpOne, NoticesOne, HandsNext, may_listen};

use crate::accept::{accept_kept, list_listeners};
use crate::answer::{answer_all, give_up_all, next_of, notify_all, watch_all};
use crate::read::{PIECE, read_kept};
use crate::send::{flush_kept, forget};
use crate::session::{Listener, Session, Turn, Why};
use std::alloc::Global;
use std::marker::Model;
use ug_acl::Acl;
use ug_links::{LinkId, Links, Ready};
use ug_types::{List, NoMemory, Principal, Section, Text};

/// The listeners and the sessions. Listener i is that of the principal at place i.
#[derive(Drop)]
pub struct Server {
    alloc: Global,
    principals: Vec<Principal>,
    listeners: Vec<Listener>,
    sessions: Vec<Session>,
}

impl Model for Server {
    ghost use Rattle.std.specs.Prelude.{length, ◌<◌, ◌^◌};
    ghost use Rattle.ug_sessions.specs.States.{ServerState};

    ghost Value = { ServerState };

    ghost view = { λ s. record {
      principals = s.principals.items;
      listeners = s.listeners.items;
      sessions = s.sessions.items;
    } };

    ghost invariant = { λ s. length s.principals.items < 2 ^ 32 };
}

impl Server {
    /// A server of listeners for these, none of which was tried, and no session. It takes no memory.
    pub fn new(alloc: Global, principals: List<Principal>) -> Server
        requires { length principals < 2 ^ 32 }
        ensures principals { result.principals ≡ principals }
        ensures listeners { result.listeners ≡ [] }
        ensures sessions { result.sessions ≡ [] }
    {
        Server {
            alloc,
            principals: principals.into_vec(),
            listeners: Vec::new(alloc),
            sessions: Vec::new(alloc),
        }
    }

    fn turn_listeners<N: Links>(&mut self, ready: &[Ready], links: &mut N) -> Turn
        ensures { Talks N.gives links.old (turning_listeners ready.now self.old) (self.new, result)
            links.new }
    {
        let mut turn = Turn::new();
        let mut buffer = [0u8; PIECE];
        accept_kept(
            self.alloc,
            ready,
            &mut self.listeners,
            &mut self.sessions,
            links,
            &mut turn,
        );
        read_kept(
            self.alloc,
            ready,
            &mut self.sessions,
            &mut buffer,
            links,
            &mut turn,
        );
        turn
    }

    /// Accepts at the listeners and then reads the sessions that are named or owed a try, and no others. The first turn
    /// makes room for the listeners; where it is refused, nothing is tried and memory is counted.
    pub fn turn<N: Links>(&mut self, ready: &[Ready], links: &mut N) -> Turn
        ensures talks { Talks N.gives links.old (turning ready.now self.old) (self.new, result)
            links.new }
        ensures counted { (steps : List LinkStep) × Makes N.gives links.old steps links.new
            × CountsTurn ready.now self.old steps self.new result
            × TurnTries ready.now self.old steps self.new }
    {
        // (what is counted is proved of what was said, once for all ends of that function)
        self.try_all(ready, links)
    }

    #[tactic(auto, unfolding(crate::specs::Serving::turning))]
    fn try_all<N: Links>(&mut self, ready: &[Ready], links: &mut N) -> Turn
        ensures { Talks N.gives links.old (turning ready.now self.old) (self.new, result)
            links.new }
    {
        if self.listeners.len() < self.principals.len() {
            match list_listeners(self.alloc, self.principals.as_slice()) {
                Ok(listeners) => {
                    self.listeners = listeners;
                    self.turn_listeners(ready, links)
                }
                Err(NoMemory) => {
                    let mut turn = Turn::new();
                    turn.count(Why::Memory);
                    turn
                }
            }
        } else {
            self.turn_listeners(ready, links)
        }
    }

    /// The next line, of the first session that has one, with the session's id and principal.
    pub fn next_request(&mut self) -> Option<(LinkId, Principal, Text)>
        ensures principals { self.new.principals ≡ self.old.principals }
        ensures listeners { self.new.listeners ≡ self.old.listeners }
        ensures hands { HandsNext self.old.sessions result self.new.sessions }
    {
        next_of(self.alloc, &mut self.sessions)
    }

    /// Puts the answer to a session's request behind its unsent bytes.
    pub fn answer(&mut self, id: LinkId, text: &[u8])
        ensures principals { self.new.principals ≡ self.old.principals }
        ensures listeners { self.new.listeners ≡ self.old.listeners }
        ensures answers { Each (AnswersOne id text.now) self.old.sessions self.new.sessions }
    {
        answer_all(self.alloc, &mut self.sessions, id, text);
    }

    /// Marks a session as one that gets notices.
    pub fn watch(&mut self, id: LinkId)
        ensures principals { self.new.principals ≡ self.old.principals }
        ensures listeners { self.new.listeners ≡ self.old.listeners }
        ensures watches { Each (WatchesOne id) self.old.sessions self.new.sessions }
    {
        watch_all(&mut self.sessions, id);
    }

    /// Closes a session as want of memory does.
    pub fn give_up(&mut self, id: LinkId)
        ensures principals { self.new.principals ≡ self.old.principals }
        ensures listeners { self.new.listeners ≡ self.old.listeners }
        ensures closes { Each (GivesUpOne id) self.old.sessions self.new.sessions }
    {
        give_up_all(self.alloc, &mut self.sessions, id);
    }

    /// Puts a notice, with its newline, behind the unsent bytes of each session that watches and whose principal has the
    /// section's `listen`.
    pub fn notify(&mut self, acl: &Acl, section: Section, notice: &[u8])
        ensures principals { self.new.principals ≡ self.old.principals }
        ensures listeners { self.new.listeners ≡ self.old.listeners }
        ensures notices { Each (NoticesOne (may_listen acl.now section) notice.now)
            self.old.sessions self.new.sessions }
    {
        notify_all(self.alloc, &mut self.sessions, acl, section, notice);
    }

    /// Sends each session's unsent bytes, as far as its link takes them, and closes those to which nothing more is due.
    pub fn flush<N: Links>(&mut self, links: &mut N) -> Turn
        ensures talks { Talks N.gives links.old (flushing self.old) (self.new, result) links.new }
        ensures writes { (steps : List LinkStep) × Makes N.gives links.old steps links.new
            × FlushWrites self.old steps self.new result }
    {
        // (what is written is proved of what was said, whatever that function's steps are)
        self.send_all(links)
    }

    fn send_all<N: Links>(&mut self, links: &mut N) -> Turn
        ensures { Talks N.gives links.old (flushing self.old) (self.new, result) links.new }
    {
        let mut turn = Turn::new();
        flush_kept(&mut self.sessions, links, &mut turn);
        forget(&mut self.sessions);
        turn
    }
}
