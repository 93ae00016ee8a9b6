// How far a script has come.
ghost use Rattle.ug_script.specs.Script.{IsPhaseOf};

use crate::session::Session;
use crate::setup::Setup;
use ug_store::Planned;

/// How far a script has come.
#[derive(Drop)]
pub enum Phase {
    /// Lines of setup may still come.
    SettingUp,
    /// None may, and no daemon was started.
    Unstarted,
    /// The first event or restart started one.
    Started(Session),
}

impl Phase {
    /// Drops it, as `Session::discard`.
    pub fn discard(self) {
        match self {
            Phase::Started(session) => session.discard(),
            Phase::SettingUp | Phase::Unstarted => {}
        }
    }
}

/// What the setup lines gave, how far the script has come, and what is planned for calls of the disk in the next event.
#[derive(Drop)]
pub struct Running {
    pub setup: Setup,
    pub phase: Phase,
    pub plan: Vec<Planned>,
    ghost session: { IsPhaseOf setup phase },
}

impl Running {
    /// Drops it, as `Session::discard`.
    pub fn discard(self) {
        self.setup.discard();
        self.phase.discard();
    }
}
