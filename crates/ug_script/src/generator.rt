// The machine that makes the rules of a script's devices.
ghost use Rattle.std.specs.Prelude.{◌≡◌, ◌++◌, ℕ, List, Option, Some, None};
ghost use Rattle.ug_types.specs.Ends.{Rose};
ghost use Rattle.ug_command_io.specs.Statuses.{AnswersLines, status_of};
ghost use Rattle.ug_command_io.specs.declared.results.Ended.{Ended};
ghost use Rattle.ug_lines.specs.Lines.{lines_of};
ghost use Rattle.ug_script.specs.Script.{Script};
ghost use Rattle.ug_script.specs.Generating.{IsFirstPolicy, TellsFaultAlone, generate_end, generate_step, generator_state};

use crate::interpreter::Interpreter;
use std::alloc::Global;
use ug_command_io::{Machine, Ran, run};
use ug_sysfs::SimKernel;
use ug_types::{Sink, Source};

/// A machine of `ug_command_io` that takes a script's lines over the kernel that it is lent. It carries out setup lines, `plug` and `unplug`,
/// only reads the others, and writes the rules of the devices that are there at the end.
#[derive(Drop)]
pub struct Generator {
    script: Interpreter,
}

impl Generator {
    pub fn new() -> Generator
        ensures { generator_state result ≡ None }
    {
        Generator {
            script: Interpreter::new(),
        }
    }
}

impl Machine<SimKernel> for Generator {
    ghost State = { Option Script };

    ghost state = { generator_state };

    ghost step_of = { generate_step };

    ghost closing = { generate_end };

    ghost keeps = { λ m w. Unit {0} };

    ghost because = { λ p line fault. Unit {0} };

    ghost holds = { λ p line. Unit {0} };

    fn step<K: Sink>(
        &mut self,
        alloc: Global,
        world: &mut SimKernel,
        line: &[u8],
        _out: &mut K,
    ) -> Ran {
        self.script.skim(alloc, line, world)
    }

    fn finish<K: Sink>(&self, alloc: Global, world: &SimKernel, out: &mut K) -> Ran {
        self.script.write_policy(alloc, world, out)
    }
}

/// Reads a script, and writes a rule for each device that is there at its end: it allows the device, with its port where
/// DeviceRulesWithPort says so. The rules stand in the order of a sweep, and malformed devices have none. Setup lines, `plug` and
/// `unplug` are carried out, and other lines are read alone. The status is 0; 2 where a line isn't in the grammar or a limit is passed;
/// 4 for a read fault; 5 for a write fault; 6 for want of memory.
pub fn generate_policy<S: Source, K: Sink>(
    alloc: Global,
    input: &mut S,
    out: &mut K,
    kernel: &mut SimKernel,
) -> u8
    ensures answers { (all base : List ℕ) → S.left input.old ≡ Some all → K.held out.old ≡ Some base
        → (script : Option Script) × AnswersLines generate_step generate_end (None, kernel.old)
        all base (S.left input.new) (K.held out.new) (script, kernel.new) result }
    ensures policy { (all base : List ℕ) → S.left input.old ≡ Some all → K.held out.old ≡ Some base
        → result ≡ 0 → (text : List ℕ) × (K.held out.new ≡ Some (base ++ text))
        × IsFirstPolicy (lines_of all) kernel.old.kernel.devices text }
    ensures alone { (all base : List ℕ) → S.left input.old ≡ Some all → K.held out.old ≡ Some base
        → TellsFaultAlone base (K.held out.new) result }
    ensures ended { (ended : Ended) × (result ≡ status_of ended) }
    ensures read { result ≡ 4 → Rose (S.faults input.old) (S.faults input.new) }
    ensures written { result ≡ 5 → Rose (K.faults out.old) (K.faults out.new) }
{
    let mut generator = Generator::new();
    let status = run(alloc, input, out, &mut generator, kernel);
    generator.script.discard();
    status
}
