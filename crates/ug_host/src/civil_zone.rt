// The time of day in a zone of jiff.
ghost use Rattle.ug_host.specs.Local.{local_second_at};

use jiff_core::Timestamp;
use jiff_tz::TimeZone;
use ug_cond::{FixedZone, LAST_SECOND, Zone};
use ug_types::Moment;

/// A zone of `jiff`, with its transitions. It may borrow from a table.
#[derive(Drop)]
pub struct CivilZone<'z> {
    pub zone: TimeZone<'z>,
}

impl<'z> Zone for CivilZone<'z> {
    ghost clock = { λ z. local_second_at z.zone };

    fn local_second(&self, moment: Moment) -> u32 {
        let second = moment.0.min(LAST_SECOND);
        let instant = Timestamp {
            nanosecond: second as i128 * 1_000_000_000,
        };
        let ahead = self.zone.to_offset(instant).seconds;
        FixedZone { ahead }.local_second(moment)
    }
}
