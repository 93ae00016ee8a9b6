// What is still to come, in order.
ghost use Rattle.std.specs.Prelude.{◌≡◌};
ghost use Rattle.ug_links.specs.Peers.{first_item, other_items};

use std::collections::VecDeque;
use std::marker::Model;

/// Items, seen as their list.
#[derive(Drop)]
pub struct Script<T> {
    items: VecDeque<T>,
}

impl<T> Model for Script<T> {
    ghost use Rattle.std.specs.Prelude.{List};

    ghost Value = { List T };

    ghost view = { λ s. s.items.items };
}

impl<T> Script<T> {
    pub fn new(items: VecDeque<T>) -> Script<T>
        ensures { result ≡ items.items }
    {
        Script { items }
    }

    /// The first item, which is taken away.
    pub fn next(&mut self) -> Option<T>
        ensures item { result ≡ first_item self.old }
        ensures rest { self.new ≡ other_items self.old }
    {
        self.items.pop_front()
    }
}
