//! Turns of rows, and which of two comes before the other.
ghost use Rattle.std.specs.Prelude.{◌≡◌, ◌+◌, ◌&&◌, ◌||◌, ◌==◌, nat_lt};
ghost use Rattle.claim_queue.specs.Heaps.{comes_before};
ghost use Rattle.claim_queue.specs.WaitHeaps.{top_row};

use crate::steps::Steps;
use std::sync::ledger::Ledger;

/// A row with its turn: it comes by the first number, then by the second, and then by the row.
#[derive(Clone, Copy)]
pub(crate) struct Turn {
    pub(crate) first: u64,
    pub(crate) second: u64,
    pub(crate) row: u32,
}

/// Whether one turn comes before another. It is one step.
#[tactic(auto, unfolding(crate::specs::Heaps::comes_before))]
pub(crate) fn comes_before<L: Ledger>(one: Turn, other: Turn, steps: &mut Steps<L>) -> bool
    ensures first { result ≡ comes_before one other }
    ensures step { steps.new ≡ steps.old + 1 }
{
    steps.tick();
    one.first < other.first || (one.first == other.first && is_less(one, other))
}

fn is_less(one: Turn, other: Turn) -> bool
    ensures { result ≡ (nat_lt one.second other.second || ((one.second == other.second) && nat_lt one.row other.row)) }
{
    one.second < other.second || (one.second == other.second && one.row < other.row)
}

/// The row of the turn at the top of a heap.
pub(crate) fn top_row(heap: &[Turn]) -> Option<u32>
    ensures { result ≡ top_row heap.now }
{
    match heap.first() {
        Some(turn) => Some(turn.row),
        None => None,
    }
}
