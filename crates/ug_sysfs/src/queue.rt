// Moves in the order in which they are to come.
ghost use Rattle.std.specs.Prelude.{◌≡◌, ◌+◌, ◌∷◌, ◌<◌, ◌≤◌, ◌^◌, [], length, MatchOption, OnOk, OnErr};
ghost use Rattle.ug_sysfs.specs.Queue as queue;
ghost use Rattle.ug_sysfs.specs.Queue.{AreByTurn};
ghost use Rattle.ug_sysfs.specs.World.{first_is_due, iface_adds, iface_adds_of, plugs, plugs_of};

use crate::script::Scheduled;
use std::alloc::Global;
use std::collections::VecDeque;
use std::marker::Model;
use ug_types::NoMemory;

/// Moves, of which none stands before one that has its turn earlier.
#[derive(Drop)]
pub struct Queue {
    moves: VecDeque<Scheduled>,
}

impl Model for Queue {
    ghost use Rattle.std.specs.Prelude.{List};
    ghost use Rattle.ug_sysfs.specs.declared.script.Scheduled.{Scheduled};
    ghost use Rattle.ug_sysfs.specs.Queue.{AreByTurn};

    ghost Value = { List Scheduled };

    ghost view = { λ q. q.moves.items };

    ghost invariant = { λ q. AreByTurn q.moves.items };
}

impl Queue {
    pub fn new(alloc: Global) -> Queue
        ensures { result ≡ [] }
    {
        Queue {
            moves: VecDeque::new(alloc),
        }
    }

    pub fn len(&self) -> usize
        ensures len { result ≡ length self.now }
        ensures small { result < 2 ^ 63 }
    {
        self.moves.len()
    }

    /// Whether the first move has its turn, before the effect of a call or after it.
    pub fn is_due(&self, call: u64, after: bool) -> bool
        ensures { result ≡ first_is_due call after self.now }
    {
        match self.moves.front() {
            Some(next) => next.call < call || next.call == call && (!next.after || after),
            None => false,
        }
    }

    /// Takes the first move out.
    pub fn pop(&mut self) -> Option<Scheduled>
        ensures { MatchOption result ((self.old ≡ []) × (self.new ≡ []))
            (λ first. self.old ≡ first ∷ self.new) }
    {
        self.moves.pop_front()
    }

    /// Puts a move in front of those that come later.
    #[tactic(auto, using(crate::proofs::Plugs::plugs_with, crate::proofs::Plugs::adds_with))]
    pub fn put_in(&mut self, action: Scheduled) -> Result<(), NoMemory>
        ensures ok { OnOk result (self.new ≡ queue.with_move action self.old) }
        ensures room { plugs self.new ≤ plugs_of action.action + plugs self.old }
        ensures places { iface_adds self.new
            ≤ iface_adds_of action.action + iface_adds self.old }
        ensures err { OnErr result (self.new ≡ self.old) }
    {
        let at = place_for(&self.moves, &action);
        match self.moves.insert(at, action) {
            Ok(()) => Ok(()),
            Err(refused) => Err(NoMemory::from(refused)),
        }
    }
}

/// Whether x comes later than a move: at a greater call, or behind the effect of the call that the move comes before.
fn comes_later(x: &Scheduled, action: &Scheduled) -> bool
    ensures { result ≡ queue.comes_later x.now action.now }
{
    action.call < x.call || (action.call == x.call && x.after && !action.after)
}

fn goes_last(moves: &VecDeque<Scheduled>, action: &Scheduled) -> bool
    ensures { result ≡ queue.goes_last action.now moves.now.items }
{
    match moves.get(moves.len().saturating_sub(1)) {
        Some(last) => !comes_later(last, action),
        None => true,
    }
}

// The place of the first that comes later, or the end.
fn first_later(moves: &VecDeque<Scheduled>, action: &Scheduled) -> usize
    requires { AreByTurn moves.now.items }
    ensures bound { result ≤ length moves.now.items }
    ensures place { result ≡ queue.first_later action.now moves.now.items }
{
    moves.partition_point(|x| !comes_later(x, action))
}

fn place_for(moves: &VecDeque<Scheduled>, action: &Scheduled) -> usize
    requires { AreByTurn moves.now.items }
    ensures bound { result ≤ length moves.now.items }
    ensures place { result ≡ queue.queue_place action.now moves.now.items }
{
    if goes_last(moves, action) {
        return moves.len();
    }
    first_later(moves, action)
}
