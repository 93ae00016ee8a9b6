// The listeners of a daemon.
ghost use Rattle.std.specs.Prelude.{◌≡◌, ◌≤◌, Err};
ghost use Rattle.ug_types.specs.Ends.{Rose};
ghost use Rattle.ug_links.specs.Talk.{Talks};
ghost use Rattle.ug_serve.specs.Listening.{listened, listening, listening_status};

use std::alloc::Global;
use ug_links::{Links, Listening};
use ug_types::Principal;

/// Why a daemon can't listen for its users and groups.
#[derive(Clone, Copy)]
pub enum NotListening {
    Failed,
    Memory,
}

impl NotListening {
    /// The daemon's exit status.
    pub fn status(self) -> u8
        ensures { result ≡ listening_status self }
    {
        match self {
            NotListening::Failed => 11,
            NotListening::Memory => 6,
        }
    }
}

fn listener_of(answer: Listening) -> Result<(), NotListening>
    ensures listened { result ≡ listened answer }
    ensures cause { result ≡ Err NotListening.Failed → answer ≡ Listening.Failed }
{
    match answer {
        Listening::Ready(_) => Ok(()),
        Listening::Failed => Err(NotListening::Failed),
        Listening::Memory => Err(NotListening::Memory),
    }
}

/// Listens for each of them, in order, until a listener can't be had.
pub fn listen_for_all<N: Links>(
    alloc: Global,
    principals: &[Principal],
    links: &mut N,
) -> Result<(), NotListening>
    ensures listens { Talks N.gives links.old (listening principals.now) result links.new }
    ensures cause { result ≡ Err NotListening.Failed
        → Rose (N.faults links.old) (N.faults links.new) }
    ensures counted { N.faults links.old ≤ N.faults links.new }
{
    for who in principals {
        listener_of(links.listen(alloc, who))?;
    }
    Ok(())
}
