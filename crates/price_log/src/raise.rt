// Raises, and a table after a list of raises.
ghost use Rattle.std.specs.Prelude.{◌≡◌, ◌≤◌, length, take, drop};
ghost use Rattle.std.specs.VecDeque.{deque_capacity};
ghost use Rattle.price_log.specs.History.{Rises, raised};

use assign_core::{Object, Price, Prices};
use std::collections::VecDeque;

/// A raise of an object's price.
#[derive(Clone, Copy, PartialEq, Eq)]
pub struct Raise {
    pub object: Object,
    /// The new price.
    pub level: Price,
}

// Moves the first raises into the table. The queue keeps its room.
pub(crate) fn move_raises(raises: &mut VecDeque<Raise>, table: &mut Prices, count: usize)
    requires count { count ≤ length raises.old.items }
    requires rises { Rises table.old raises.old.items }
    ensures table { table.new ≡ raised table.old (take count raises.old.items) }
    ensures rest { raises.new.items ≡ drop count raises.old.items }
    ensures capacity { deque_capacity raises.new ≡ deque_capacity raises.old }
{
    for _ in 0..count {
        if let Some(raise) = raises.pop_front() {
            table.set(raise.object, raise.level);
        }
    }
}

// Applies the raises from place `first` on, from 0, to the table.
pub(crate) fn apply_raises(raises: &VecDeque<Raise>, first: usize, table: &mut Prices)
    requires first { first ≤ length raises.now.items }
    requires rises { Rises table.old (drop first raises.now.items) }
    ensures { table.new ≡ raised table.old (drop first raises.now.items) }
{
    for i in first..raises.len() {
        let raise = raises[i];
        table.set(raise.object, raise.level);
    }
}
