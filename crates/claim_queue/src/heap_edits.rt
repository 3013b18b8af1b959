//! Rows that get a turn in a heap, another turn, or none.
ghost use Rattle.std.specs.Prelude.{◌≡◌, ◌+◌, ◌<◌, ◌≤◌, length, vec_capacity};
ghost use Rattle.claim_queue.specs.Heaps.{turn_at, IsOrderedBut, KnowsPlaces, IsKept, HasTurn, HasNoTurn, IsPut, IsTaken};
ghost use Rattle.claim_queue.specs.Counts.{AreFew};

use crate::heap::{exchange, rise, settle};
use crate::steps::Steps;
use crate::turns::Turn;
use std::sync::ledger::Ledger;

/// Gives a row that has none a turn. It takes no memory.
pub(crate) fn insert<L: Ledger>(
    heap: &mut Vec<Turn>,
    places: &mut [usize],
    turn: Turn,
    steps: &mut Steps<L>,
)
    requires room { length heap.old.items < vec_capacity heap.old }
    requires absent { HasNoTurn turn.row heap.old.items × (turn.row < length places.old) }
    requires kept { IsKept heap.old.items places.old }
    ensures kept { IsKept heap.new.items places.new }
    ensures put { IsPut turn heap.old.items heap.new.items places.old places.new }
    ensures more { length heap.new.items ≡ length heap.old.items + 1 }
    ensures room { vec_capacity heap.old ≤ vec_capacity heap.new }
    ensures steps { AreFew (length heap.old.items) steps.old steps.new }
{
    let place = heap.len();
    if heap.push(turn).is_err() {
        unreachable!();
    }
    places[turn.row as usize] = place;
    rise(heap, places, place, steps);
}

/// Gives a row that has a turn another one.
pub(crate) fn replace<L: Ledger>(
    heap: &mut [Turn],
    places: &mut [usize],
    turn: Turn,
    steps: &mut Steps<L>,
)
    requires held { HasTurn turn.row heap.old places.old }
    requires kept { IsKept heap.old places.old }
    ensures kept { IsKept heap.new places.new }
    ensures put { IsPut turn heap.old heap.new places.old places.new }
    ensures steps { AreFew (length heap.old) steps.old steps.new }
{
    let place = places[turn.row as usize];
    heap[place] = turn;
    settle(heap, places, place, steps);
}

/// Takes its turn from a row.
pub(crate) fn remove<L: Ledger>(
    heap: &mut Vec<Turn>,
    places: &mut [usize],
    row: u32,
    steps: &mut Steps<L>,
)
    requires held { HasTurn row heap.old.items places.old }
    requires kept { IsKept heap.old.items places.old }
    ensures kept { IsKept heap.new.items places.new }
    ensures taken { IsTaken row heap.old.items heap.new.items places.old places.new }
    ensures less { length heap.new.items + 1 ≡ length heap.old.items }
    ensures room { vec_capacity heap.old ≤ vec_capacity heap.new }
    ensures steps { AreFew (length heap.old.items) steps.old steps.new }
{
    let place = places[row as usize];
    let last = heap.len() - 1;
    if place == last {
        heap.pop();
        return;
    }
    put_last(heap, places, place, steps);
    settle(heap, places, place, steps);
}

/// Takes the turn at a place, where the last one then stands. It is one step.
fn put_last<L: Ledger>(
    heap: &mut Vec<Turn>,
    places: &mut [usize],
    place: usize,
    steps: &mut Steps<L>,
)
    requires within { place + 1 < length heap.old.items }
    requires kept { IsKept heap.old.items places.old }
    ensures ordered { IsOrderedBut place heap.new.items }
    ensures known { KnowsPlaces heap.new.items places.new }
    ensures taken { IsTaken (turn_at heap.old.items place).row heap.old.items heap.new.items places.old places.new }
    ensures less { length heap.new.items + 1 ≡ length heap.old.items }
    ensures room { vec_capacity heap.old ≤ vec_capacity heap.new }
    ensures step { steps.new ≡ steps.old + 1 }
{
    let last = heap.len() - 1;
    exchange(heap, places, place, last, steps);
    heap.pop();
}
