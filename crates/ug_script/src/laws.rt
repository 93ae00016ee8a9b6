// What a script's words come to.
ghost use Rattle.std.specs.Prelude.{◌≡◌, ℕ, false, List, [], ◌∷◌, codes, true, ◌⊎◌, ◌++◌};
ghost use Rattle.ug_types.specs.declared.verdict.Target.TheVariants as target;
ghost use Rattle.ug_types.specs.declared.verdict.Cause.TheVariants as cause;
ghost use Rattle.ug_kernel.specs.declared.control.Write.TheVariants as write;
ghost use Rattle.ug_kernel.specs.declared.calls.Wrote.TheVariants as wrote;
ghost use Rattle.ug_kernel.specs.Along.{Along, Made};
ghost use Rattle.ug_kernel.specs.Defaults.{HasOnEntries};
ghost use Rattle.ug_kernel.specs.Kernel.{IsKernel, IsSound, Kernel, Moves};
ghost use Rattle.ug_kernel.specs.Tree.{calls, Prog, Runs};
ghost use Rattle.ug_iface.specs.Bus.{IsSoundBus};
ghost use Rattle.ug_sysfs.specs.Serving.{bus_in};
ghost use Rattle.ug_sysfs.specs.World.{World, carried, Gives, IsUnfailing};
ghost use Rattle.ug_audit.specs.declared.entry.Entry.TheVariants as entry;
ghost use Rattle.ug_audit.specs.declared.entry.Fault.TheVariants as fault;
ghost use Rattle.ug_script.specs.Against.{AreRefused};
ghost use Rattle.ug_script.specs.CarriedOn.{StaysCarried};
ghost use Rattle.ug_script.specs.EventCalls.{StaysAtCalls};
ghost use Rattle.ug_script.specs.Example.{first_played, event_at, event_with, plugged_in, replaced, failing, first_with_none, born_later, tenth_fails};
ghost use Rattle.ug_sysfs.specs.declared.script.Move.{Move};
ghost use Rattle.ug_steps.specs.declared.step.Step.TheVariants as step;
ghost use Rattle.ug_steps.specs.LineGrammar.{AsksFor};
ghost use Rattle.ug_steps.specs.LineExamples.{fails};
ghost use Rattle.ug_script.specs.Births.{StaysBorn};
ghost use Rattle.ug_script.specs.Journal.{StaysRecorded};
ghost use Rattle.ug_script.specs.Laws.{StaysLawful};
ghost use Rattle.ug_sysfs.specs.Doing.{DoesIfaces};
ghost use Rattle.ug_script.specs.Schedules.{DoesAtOnce, StaysScheduled};
ghost use Rattle.ug_script.specs.Script.{Script};
ghost use Rattle.ug_audit.specs.declared.entry.Entry.{Entry};
ghost use Rattle.ug_table.specs.State.{State};
ghost use Rattle.ug_table.specs.Sweep.{sweeping};
ghost use Rattle.ug_script.specs.Play.{play, tells_memory, NameNobody};

use ug_table::Judge;

/// A line of a move does it at once.
pub fn moves_law()
    ensures at_once { (line : List ℕ) (action : Move) (s : Script) (w : World)
        → AsksFor line (step.Move action) → IsSound w.kernel.devices → DoesAtOnce line action s w }
    ensures interfaces { (action : Move) (w : World) → IsSoundBus (bus_in w)
        → DoesIfaces action (bus_in w) (carried action w).interfaces }
{}

/// Wherever lines have led, the moves and failures of an event that comes next are those of the lines since the event before, in their
/// order. As long as no daemon was started nothing was written, so that `input too long` stands alone.
pub fn schedule_law()
    ensures { (w : World) → w.moves ≡ [] → w.fails ≡ [] → StaysScheduled w }
{}

/// Wherever lines have led, the moves that they wrote for an event that comes next happen at just the calls that they name.
pub fn calls_law()
    ensures { (w : World) → w.ran_out ≡ false → w.moves ≡ [] → w.fails ≡ []
        → IsSoundBus (bus_in w) → StaysAtCalls w }
{}

/// Wherever lines have led, the kernel's devices are those that the moves of the lines bore, in the order in which these had their turn,
/// with the facts of the lines; and a move that could do nothing did nothing.
pub fn births_law()
    ensures { (w : World) → w.moves ≡ [] → IsSound w.kernel.devices → StaysBorn w }
{}

/// From a sound kernel each event of a script is fair and leaves each device settled or named, the pass behind it is one call of
/// `settle_ifaces` for each device that it goes over, and the journal of all events explains each write. Where the rules of each line can be read again from their texts, each run of the daemon begins with those that were
/// in force, or with these after just one order in progress or in doubt.
pub fn script_law()
    ensures lawful { (w : World) → w.ran_out ≡ false → IsKernel w.kernel → StaysLawful w }
    ensures recorded { (w : World) → w.ran_out ≡ false → IsKernel w.kernel → StaysRecorded w }
    ensures carried { (w : World) → w.ran_out ≡ false → IsKernel w.kernel → StaysCarried w }
{}

/// Each line against which something speaks is refused, and for that fault.
pub fn refusal_law()
    ensures { AreRefused }
{}

/// That a device which was born while its controller's default was off is on only after an On entry holds where there is no device, and
/// each move and each call keeps it. So it holds behind each call of an event that `lawful` speaks of, wherever that is stopped.
pub fn birth_law()
    ensures empty { (k : Kernel) → k.devices ≡ [] → HasOnEntries k }
    ensures moves { (k l : Kernel) → Moves k l → HasOnEntries k → HasOnEntries l }
    ensures behind { (ms : List Made) (k l : Kernel) → Along calls k ms l
        → HasOnEntries k → HasOnEntries l }
{}

/// Events worked by hand. The key is judged and allowed. Where another device takes its place just before the write, the write
/// reaches nobody, and the newcomer is blocked by the next event. Where the write fails, the key is named with the number of that
/// call, and the next event finds it as judged, for the write had its effect.
pub fn worked_law()
    ensures start { (event_at 100 first_played).daemon.sweep.entries
        ≡ entry.Event 1 (record { 0 = 100 })
        ∷ entry.Judged 1 (codes "usb1") (record { 0 = 0 }) target.Allow cause.Keep
        ∷ entry.End 1 ∷ [] }
    ensures allowed { (event_at 101 plugged_in).daemon.sweep.entries
        ≡ entry.Event 2 (record { 0 = 101 })
        ∷ entry.Judged 2 (codes "1-1") (record { 0 = 1 }) target.Allow (cause.Rule 1)
        ∷ entry.Intent 2 (codes "1-1") write.On
        ∷ entry.Wrote 2 (codes "1-1") write.On wrote.Done
        ∷ entry.End 2 ∷ [] }
    ensures written { (event_at 101 plugged_in).world.kernel.log
        ≡ record { device = 1; write = write.On } ∷ [] }
    ensures replaced { (event_with 101 replaced [] plugged_in).daemon.sweep.entries
        ≡ entry.Event 2 (record { 0 = 101 })
        ∷ entry.Judged 2 (codes "1-1") (record { 0 = 1 }) target.Allow (cause.Rule 1)
        ∷ entry.Intent 2 (codes "1-1") write.On
        ∷ entry.Wrote 2 (codes "1-1") write.On wrote.Gone
        ∷ entry.Gone 2 (codes "1-1")
        ∷ entry.End 2 ∷ [] }
    ensures unwritten { (event_with 101 replaced [] plugged_in).world.kernel.log ≡ [] }
    ensures newcomer { (event_at 102 (event_with 101 replaced [] plugged_in)).daemon.sweep.entries
        ≡ entry.Event 3 (record { 0 = 102 })
        ∷ entry.Judged 3 (codes "1-1") (record { 0 = 2 }) target.Block cause.Implicit
        ∷ entry.End 3 ∷ [] }
    ensures failed { (event_with 101 [] failing plugged_in).daemon.sweep.entries
        ≡ entry.Event 2 (record { 0 = 101 })
        ∷ entry.Judged 2 (codes "1-1") (record { 0 = 1 }) target.Allow (cause.Rule 1)
        ∷ entry.Intent 2 (codes "1-1") write.On
        ∷ entry.Wrote 2 (codes "1-1") write.On wrote.Failed
        ∷ entry.Unsettled (codes "1-1") (fault.Call (record { call = 10; count = 1 }))
        ∷ entry.End 2 ∷ [] }
    ensures again { (event_at 102 (event_with 101 [] failing plugged_in)).daemon.sweep.entries
        ≡ entry.Event 3 (record { 0 = 102 }) ∷ entry.End 3 ∷ [] }
{}

/// Events under `AuthorizedDefault=none`, worked by hand. The default of the root hub is switched off, and a device that comes then is
/// born off. Where that write fails, the hub is named, the device is born on, and the next event makes both writes.
pub fn default_law()
    ensures written { (event_at 100 first_with_none).daemon.sweep.entries
        ≡ entry.Event 1 (record { 0 = 100 })
        ∷ entry.Judged 1 (codes "usb1") (record { 0 = 0 }) target.Allow cause.Keep
        ∷ entry.Intent 1 (codes "usb1") write.DefaultOff
        ∷ entry.Wrote 1 (codes "usb1") write.DefaultOff wrote.Done
        ∷ entry.End 1 ∷ [] }
    ensures born_off { (event_at 101
        (born_later (event_at 100 first_with_none))).daemon.sweep.entries
        ≡ entry.Event 2 (record { 0 = 101 })
        ∷ entry.Judged 2 (codes "1-1") (record { 0 = 2 }) target.Block cause.Implicit
        ∷ entry.End 2 ∷ [] }
    ensures failed { (event_with 100 [] tenth_fails first_with_none).daemon.sweep.entries
        ≡ entry.Event 1 (record { 0 = 100 })
        ∷ entry.Judged 1 (codes "usb1") (record { 0 = 0 }) target.Allow cause.Keep
        ∷ entry.Intent 1 (codes "usb1") write.DefaultOff
        ∷ entry.Wrote 1 (codes "usb1") write.DefaultOff wrote.Failed
        ∷ entry.Unsettled (codes "usb1") (fault.Call (record { call = 10; count = 1 }))
        ∷ entry.End 1 ∷ [] }
    ensures born_on { (event_at 101
        (born_later (event_with 100 [] tenth_fails first_with_none))).daemon.sweep.entries
        ≡ entry.Event 2 (record { 0 = 101 })
        ∷ entry.Intent 1 (codes "usb1") write.DefaultOff
        ∷ entry.Wrote 1 (codes "usb1") write.DefaultOff wrote.Done
        ∷ entry.Judged 2 (codes "1-1") (record { 0 = 3 }) target.Block cause.Implicit
        ∷ entry.Intent 2 (codes "1-1") write.Off
        ∷ entry.Wrote 2 (codes "1-1") write.Off wrote.Done
        ∷ entry.End 2 ∷ [] }
{}

/// What a script fixes is one of the program's runs over its kernel, and a kernel that has not run out is told at its
/// end too.
#[tactic(auto, using(crate::proofs::Plays::play_runs, crate::proofs::Plays::play_told))]
pub fn play_law<R>()
    ensures runs { (p : Prog R) (s : World) → Runs Gives s p (play p s).0 (play p s).1 }
    ensures told { (p : Prog R) (s : World) → s.ran_out ≡ false → (play p s).1.ran_out ≡ false }
{}

/// A sweep ends as the script fixes it, or one of its entries tells want of memory, or the kernel has run out.
#[tactic(auto, using(crate::proofs::Sweeps::sweeping_played))]
pub fn sweep_law<A: Judge>()
    ensures { (w : State A.Meaning) (s : World) (v : State A.Meaning) (t : World)
        → Runs Gives s (sweeping A.answer A.later w) v t
        → ((v ≡ (play (sweeping A.answer A.later w) s).0)
        × (t ≡ (play (sweeping A.answer A.later w) s).1))
        ⊎ (((rest : List Entry) × (v.entries ≡ w.entries ++ rest) × (tells_memory rest ≡ true))
        ⊎ (t.ran_out ≡ true)) }
{}

/// A sweep that a script fixes tells no want of memory, whatever moves and whichever calls fail.
#[tactic(auto, using(crate::proofs::Sweeps::sure_sweep))]
pub fn room_law<A: Judge>()
    ensures { (w : State A.Meaning) (s : World) → tells_memory w.entries ≡ false
        → tells_memory (play (sweeping A.answer A.later w) s).0.entries ≡ false }
{}

/// Where no call is to fail, a sweep that the script fixes names nobody as unsettled.
#[tactic(auto, using(crate::proofs::Sweeps::quiet_sweep))]
pub fn quiet_law<A: Judge>()
    ensures { (w : State A.Meaning) (s : World) → s.ran_out ≡ false → IsUnfailing s
        → NameNobody w.entries → NameNobody (play (sweeping A.answer A.later w) s).0.entries }
{}
