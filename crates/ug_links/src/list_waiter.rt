// A waiter in memory.
ghost use Rattle.std.specs.Prelude.{◌≡◌, length, option_copied};
ghost use Rattle.std.specs.List.{slice_get};
ghost use Rattle.ug_links.specs.Telling.{tokens_grow};
ghost use Rattle.ug_links.specs.Waits.{FitsWait, GivesTokens, tokens_told, waited, waited_by};

use crate::waiter::{Ready, Waiter, Woken};
use ug_types::List;

/// What a wait in memory does.
#[derive(Drop)]
pub enum PlannedWait {
    /// It gives these tokens, of which a wait has room for 256.
    Gives(List<Ready>),
    Fails,
}

/// Does what its list says, wait by wait. Past the list it gives no tokens.
#[derive(Drop)]
pub struct ListWaiter {
    planned: Vec<PlannedWait>,
    calls: u64,
    faults: u64,
}

impl ListWaiter {
    pub fn new(planned: Vec<PlannedWait>) -> ListWaiter
        ensures planned { result.planned ≡ planned }
        ensures calls { result.calls ≡ 0 }
        ensures faults { result.faults ≡ 0 }
    {
        ListWaiter {
            planned,
            calls: 0,
            faults: 0,
        }
    }
}

fn planned_at(planned: &[PlannedWait], calls: u64) -> Option<&PlannedWait>
    ensures { option_copied result ≡ slice_get planned.now calls }
{
    planned.get(calls as usize)
}

fn carry_out(planned: Option<&PlannedWait>, into: &mut [Ready]) -> Woken
    requires { length into.old ≡ 256 }
    ensures size { FitsWait result }
    ensures waited { waited result into.new ≡ waited_by (option_copied planned.entry) }
{
    match planned {
        Some(PlannedWait::Gives(tokens)) => {
            let tokens = tokens.as_slice();
            let n = tokens.len().min(into.len());
            into[..n].copy_from_slice(&tokens[..n]);
            Woken::Got(n)
        }
        Some(PlannedWait::Fails) => Woken::Failed,
        None => Woken::Got(0),
    }
}

impl Waiter for ListWaiter {
    ghost gives = { GivesTokens };

    ghost told = { λ s. tokens_told s.planned.items s.calls };

    ghost faults = { λ s. s.faults };

    ghost tells = { tokens_grow };

    fn wait(&mut self, into: &mut [Ready]) -> Woken {
        let woken = carry_out(planned_at(self.planned.as_slice(), self.calls), into);
        self.calls = self.calls.saturating_add(1);
        if matches!(woken, Woken::Failed) {
            self.faults = self.faults.saturating_add(1);
        }
        woken
    }

    fn faults(&self) -> u64 {
        self.faults
    }
}
