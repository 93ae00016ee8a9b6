// A clock.
ghost use Rattle.std.specs.Prelude.{◌≡◌, [], ◌∷◌, List, Option, Some};
ghost use Rattle.ug_types.specs.Told.{GrowsBy};
ghost use Rattle.ug_types.specs.declared.verdict.Moment.{Moment};

use ug_types::Moment;

pub trait Clock {
    /// The moment that a call may answer, and what it leaves.
    ghost gives: { Self → Moment → Self → Type 0 };

    /// The moments so far, where the clock tells them.
    ghost told: { Self → Option (List Moment) };

    /// The moment of this call.
    fn now(&mut self) -> Moment
        ensures { gives self.old result self.new };

    /// Where the moments are told after a call, they were told before it, and its own stands behind them.
    ghost tells: { (s : Self) (moment : Moment) (t : Self) (after : List Moment)
        → gives s moment t → told t ≡ Some after → GrowsBy (told s) (moment ∷ []) after };
}
