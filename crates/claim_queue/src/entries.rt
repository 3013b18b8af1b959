//! The entries of the rows that wait.
ghost use Rattle.std.specs.Prelude.{◌≡◌};
ghost use Rattle.claim_queue.specs.Waits.{rank};
ghost use Rattle.claim_queue.specs.WaitHeaps.{entry_turn};

use crate::turns::Turn;
use task_types::Priority;

/// A row that waits: the place of its queue, its priority, and the number that it drew.
#[derive(Clone, Copy)]
pub(crate) struct Entry {
    pub(crate) queue: usize,
    pub(crate) priority: Priority,
    pub(crate) number: u64,
}

/// The turn of a row that waits.
pub(crate) fn entry_turn(entry: Entry, row: u32) -> Turn
    ensures { result ≡ entry_turn entry row }
{
    Turn {
        first: rank(entry.priority) as u64,
        second: entry.number,
        row,
    }
}

/// The place of a priority, the highest first.
pub fn rank(priority: Priority) -> u8
    ensures { result ≡ rank priority }
{
    match priority {
        Priority::Highest => 0,
        Priority::VeryHigh => 1,
        Priority::High => 2,
        Priority::Medium => 3,
        Priority::Low => 4,
        Priority::VeryLow => 5,
        Priority::Lowest => 6,
    }
}
