// The law of the devices that a run was told of.
ghost use Rattle.ug_told_laws.specs.Told.{EventsLeaveOthers, NamesLeaveOthers, RunsKeepTold, RunsStandBehindEach};

use ug_table::Judge;

/// Behind each run, each device that is there and of which an event was told, by a listing that succeeded or by a uevent, stands as
/// judged, or stays named as unsettled.
pub fn told_law()
    ensures { RunsKeepTold }
{}

/// Where each device that is there when an event begins was announced, no event leaves one that is neither as judged nor named.
pub fn announced_law()
    ensures { RunsStandBehindEach }
{}

/// Names are due in the event of a piece alone, which makes no call before it settles them.
pub fn due_law()
    ensures { EventsLeaveOthers }
{}

/// The settling of names leaves each device of another name that stands as judged so.
pub fn others_law<A: Judge>()
    ensures { NamesLeaveOthers A.answer A.later }
{}
