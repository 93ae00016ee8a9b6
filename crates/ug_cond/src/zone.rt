// The time of day.
ghost use Rattle.std.specs.Prelude.{◌≡◌, ◌<◌, ℕ, min};
ghost use Rattle.ug_cond.specs.Clocks.{clock_ahead};

use ug_types::Moment;

/// The last second that a calendar has at every offset, in the year 9999.
pub const LAST_SECOND: u64 = 253_402_207_200;

/// A time zone, as the condition localtime asks it for the time of day.
pub trait Zone {
    /// The second of the day that its clocks show, at a second since 1970.
    ghost clock: { Self → ℕ → ℕ };

    /// The second of the day, from 0 to 86,399, that its clocks show at that moment. A moment after the second
    /// 253,402,207,200, in the year 9999, counts as that second: it is the last that a calendar has at every offset.
    fn local_second(&self, moment: Moment) -> u32
        ensures value { result ≡ clock self.now (min moment.0 253402207200) }
        ensures bound { result < 86400 };
}

/// A zone whose clocks are always so many seconds ahead of UTC.
#[derive(Clone, Copy)]
pub struct FixedZone {
    pub ahead: i32,
}

impl FixedZone {
    pub const UTC: FixedZone = FixedZone { ahead: 0 };
}

impl Zone for FixedZone {
    ghost clock = { λ z. clock_ahead z.ahead };

    fn local_second(&self, moment: Moment) -> u32 {
        let second = moment.0.min(LAST_SECOND) as i64 + self.ahead as i64;
        second.rem_euclid(86_400) as u32
    }
}
