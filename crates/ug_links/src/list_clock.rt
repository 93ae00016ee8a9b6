// A clock in memory.
ghost use Rattle.std.specs.Prelude.{◌≡◌};
ghost use Rattle.ug_links.specs.Clocks.{GivesMoment, moment_at, moments_told};
ghost use Rattle.ug_links.specs.Telling.{moments_grow};

use crate::clock::Clock;
use ug_types::Moment;

/// Gives the moments of a list, one after another. Past them it gives the last one again, or 0 where there is none.
#[derive(Drop)]
pub struct ListClock {
    moments: Vec<Moment>,
    calls: u64,
}

impl ListClock {
    pub fn new(moments: Vec<Moment>) -> ListClock
        ensures moments { result.moments ≡ moments }
        ensures calls { result.calls ≡ 0 }
    {
        ListClock { moments, calls: 0 }
    }
}

// The moment of a call.
fn moment_at(moments: &[Moment], calls: u64) -> Moment
    ensures { result ≡ moment_at moments.now calls }
{
    let last = moments.len().saturating_sub(1);
    match moments.get(last.min(calls as usize)) {
        Some(moment) => *moment,
        None => Moment(0),
    }
}

impl Clock for ListClock {
    ghost gives = { GivesMoment };

    ghost told = { λ s. moments_told s.moments.items s.calls };

    ghost tells = { moments_grow };

    fn now(&mut self) -> Moment {
        let moment = moment_at(self.moments.as_slice(), self.calls);
        self.calls = self.calls.saturating_add(1);
        moment
    }
}
