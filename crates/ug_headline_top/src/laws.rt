// The headline of the turns that the daemon makes.
ghost use Rattle.ug_headline_top.specs.Turned.{TurnsAreWarranted};

/// In the turns that `run_daemon` makes, each write that authorises is warranted, by the journal that its auditors were given.
pub fn turns_law()
    ensures { TurnsAreWarranted }
{}
