// The machine's clock.
ghost use Rattle.std.specs.Prelude.{◌≤◌, None, IfOk};
ghost use Rattle.ug_files.specs.Untold.{untold};

use std::io;
use std::time::{self, SystemTime};
use ug_links::Clock;
use ug_types::Moment;

/// The last moment that there is.
const LAST: u64 = 250_000_000_000;

/// The real time of this machine in whole seconds, as clock_gettime(2) has it. A time before 1970 is moment 0, one past the last moment is
/// that, and where the clock can't be read the moment before counts again.
#[derive(Drop)]
pub struct SystemClock<R> {
    rt: R,
    moment: Moment,
    ghost within: { moment.0 ≤ 250000000000 },
}

impl<R: time::Clock> SystemClock<R> {
    pub fn new(rt: R) -> SystemClock<R> {
        SystemClock {
            rt,
            moment: Moment(0),
        }
    }

    fn read(&self) -> io::Result<Moment>
        ensures { IfOk result (λ moment. moment.0 ≤ 250000000000) }
    {
        let now = SystemTime::now(&self.rt)?;
        match now.duration_since(SystemTime::UNIX_EPOCH) {
            Ok(since) => Ok(Moment(since.as_secs().min(LAST))),
            Err(_) => Ok(Moment(0)),
        }
    }
}

impl<R: time::Clock> Clock for SystemClock<R> {
    ghost gives = { λ s moment t. moment.0 ≤ 250000000000 };

    ghost told = { λ s. None };

    ghost tells = { λ s moment t after gives told. untold after told };

    fn now(&mut self) -> Moment {
        if let Ok(moment) = self.read() {
            self.moment = moment;
        }
        self.moment
    }
}
