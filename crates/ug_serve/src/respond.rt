// What is put to the sessions directly after an event.
ghost use Rattle.std.specs.Prelude.{◌≡◌, option_copied};
ghost use Rattle.ug_core.specs.Event.{daemon_of};
ghost use Rattle.ug_serve.specs.Responses.{SendsReply, ChangesSessions, Notifies, NotifiesIf, Responds, WatchesIf};
ghost use Rattle.ug_serve.specs.Responses.{notice_text, notice_section};

use arrayvec::ArrayVec;
use rand_chacha::ChaCha20Rng;
use std::alloc::Global;
use ug_acl::Acl;
use ug_audit::{Entry, line_of};
use ug_cond::Zone;
use ug_core::Daemon;
use ug_links::LinkId;
use ug_proto::{Reply, print_reply};
use ug_sessions::Server;
use ug_types::Section;

/// The section whose `listen` an entry wants, if it is a notice.
fn section_of(entry: &Entry) -> Option<Section>
    ensures { result ≡ notice_section entry.now }
{
    match entry {
        Entry::Judged { .. } | Entry::Wrote { .. } | Entry::Gone { .. } => Some(Section::Devices),
        Entry::Unsettled { .. } | Entry::UnsettledAll { .. } => Some(Section::Exceptions),
        Entry::Parameter(_) => Some(Section::Parameters),
        _ => None,
    }
}

/// An entry as a notice: `! `, its line and a newline.
#[tactic(auto, unfolding(crate::specs::Responses::notice_text))]
fn notice_of(entry: &Entry) -> ArrayVec<u8, 515>
    ensures { result.items ≡ notice_text entry.now }
{
    let line = line_of(entry);
    let mut notice = ArrayVec::new();
    let _mark = notice.try_extend_from_slice(b"! ");
    let _line = notice.try_extend_from_slice(line.bytes());
    let _end = notice.try_extend_from_slice(b"\n");
    notice
}

fn notify_of(server: &mut Server, acl: &Acl, entry: &Entry)
    ensures { ChangesSessions (NotifiesIf (notice_section entry.now) acl.now entry.now) server.old
        server.new }
{
    if let Some(section) = section_of(entry) {
        server.notify(acl, section, notice_of(entry).as_slice());
    }
}

/// Puts the notices among these entries to the sessions that watch and may have them.
fn notify_of_all(server: &mut Server, acl: &Acl, entries: &[Entry])
    ensures { ChangesSessions (Notifies acl.now entries.now) server.old server.new }
{
    for entry in entries {
        notify_of(server, acl, entry);
    }
}

/// Puts the notices of the last event.
pub fn notify_of_event<Z: Zone>(server: &mut Server, daemon: &Daemon<Z, ChaCha20Rng>)
    ensures { ChangesSessions (Notifies (daemon_of daemon.now).access
        daemon.now.report.entries.entries) server.old server.new }
{
    notify_of_all(server, daemon.acl(), daemon.report().entries.as_slice());
}

/// Puts the reply to the session whose order it answers. Where memory is short for its text, the session is given up.
fn answer(alloc: Global, server: &mut Server, id: LinkId, reply: Option<&Reply>)
    ensures { ChangesSessions (SendsReply id (option_copied reply.entry)) server.old server.new }
{
    let Some(reply) = reply else {
        return;
    };
    match print_reply(alloc, reply) {
        Ok(text) => server.answer(id, text.bytes()),
        Err(_) => server.give_up(id),
    }
}

fn watch_if(server: &mut Server, id: LinkId, granted: bool)
    ensures { ChangesSessions (WatchesIf granted id) server.old server.new }
{
    if granted {
        server.watch(id);
    }
}

/// Answers the order of that session, marks the session where it is to get notices, and puts the notices.
pub fn respond<Z: Zone>(
    alloc: Global,
    server: &mut Server,
    id: LinkId,
    daemon: &Daemon<Z, ChaCha20Rng>,
)
    ensures { ChangesSessions (Responds id (daemon_of daemon.now) daemon.now.report.entries.entries)
        server.old server.new }
{
    let report = daemon.report();
    answer(alloc, server, id, report.reply.as_ref());
    watch_if(server, id, report.watch);
    notify_of_all(server, daemon.acl(), report.entries.as_slice());
}
