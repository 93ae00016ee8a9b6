// What the clock of a zone with one offset comes to.
ghost use Rattle.std.specs.Prelude.{◌≡◌, ℕ, pos};
ghost use Rattle.jiff_core.specs.declared.Offset.{Offset};
ghost use Rattle.jiff_tz.specs.declared.timezone.TimeZone.TheVariants as zone;
ghost use Rattle.ug_cond.specs.Clocks.{clock_ahead};
ghost use Rattle.ug_host.specs.Local.{local_second_at};

/// Where a zone has one offset, its clock is that far ahead of UTC at every moment.
#[tactic(auto, unfolding(jiff_tz::specs::Zone::offset_at))]
pub fn zones_law()
    ensures fixed { (offset : Offset) (second : ℕ)
        → local_second_at (zone.Fixed offset) second ≡ clock_ahead offset.seconds second }
    ensures utc { (second : ℕ) → local_second_at zone.UTC second ≡ clock_ahead (pos 0) second }
{}
