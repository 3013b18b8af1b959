//! Rows in an array heap (Williams, Algorithm 232: Heapsort, 1964) with their places: what comes first stands first.
ghost use Rattle.std.specs.Prelude.{◌≡◌, ◌≢◌, ℕ, ◌+◌, ◌*◌, ◌^◌, ◌<◌, ◌≤◌, length};
ghost use Rattle.claim_queue.specs.Heaps.{IsBelow, Follows, IsOrdered, IsOrderedBut, LeadsBelow, FollowsAbove, KnowsPlaces, IsExchanged, AreMoved};
ghost use Rattle.claim_queue.specs.Counts.{AreAtMost};

use crate::steps::Steps;
use crate::turns::{Turn, comes_before};
use std::sync::ledger::Ledger;

/// Exchanges two turns, with the places of their rows. It is one step.
pub(crate) fn exchange<L: Ledger>(
    heap: &mut [Turn],
    places: &mut [usize],
    one: usize,
    other: usize,
    steps: &mut Steps<L>,
)
    requires within { (one < length heap.old) × (other < length heap.old) × (one ≢ other) }
    requires known { KnowsPlaces heap.old places.old }
    ensures exchanged { IsExchanged one other heap.old heap.new }
    ensures moved { AreMoved heap.old heap.new places.old places.new }
    ensures step { steps.new ≡ steps.old + 1 }
{
    heap.swap(one, other);
    places[heap[one].row as usize] = one;
    places[heap[other].row as usize] = other;
    steps.tick();
}

/// Moves a turn up as long as it comes before the one above. At most two steps a level.
pub(crate) fn rise<L: Ledger>(
    heap: &mut [Turn],
    places: &mut [usize],
    place: usize,
    steps: &mut Steps<L>,
)
    requires within { place < length heap.old }
    requires ordered { IsOrderedBut place heap.old × LeadsBelow place heap.old }
    requires known { KnowsPlaces heap.old places.old }
    ensures ordered { IsOrdered heap.new }
    ensures moved { AreMoved heap.old heap.new places.old places.new }
    ensures steps { (levels : ℕ) × (2 ^ levels ≤ place + 1) × AreAtMost (2 * levels) steps.old steps.new }
{
    if place == 0 {
        return;
    }
    let parent = (place - 1) / 2;
    if comes_before(heap[place], heap[parent], steps) {
        exchange(heap, places, place, parent, steps);
        rise(heap, places, parent, steps);
    }
}

/// Moves a turn down as long as one below comes before it. At most three steps a level.
fn sink<L: Ledger>(heap: &mut [Turn], places: &mut [usize], place: usize, steps: &mut Steps<L>)
    requires within { place < length heap.old }
    requires ordered { IsOrderedBut place heap.old × FollowsAbove place heap.old }
    requires known { KnowsPlaces heap.old places.old }
    ensures ordered { IsOrdered heap.new }
    ensures moved { AreMoved heap.old heap.new places.old places.new }
    ensures steps { (levels : ℕ) × (2 ^ levels * (place + 1) ≤ length heap.old) × AreAtMost (3 * levels) steps.old steps.new }
{
    if place >= heap.len() / 2 {
        return;
    }
    let child = first_below(heap, place, steps);
    if comes_before(heap[child], heap[place], steps) {
        exchange(heap, places, place, child, steps);
        sink(heap, places, child, steps);
    }
}

/// The first of the turns below a place. At most one step.
fn first_below<L: Ledger>(heap: &[Turn], place: usize, steps: &mut Steps<L>) -> usize
    requires { 2 * place + 1 < length heap.now }
    ensures below { IsBelow place result × (result < length heap.now) }
    ensures first { (other : ℕ) → IsBelow place other → other < length heap.now → Follows heap.now result other }
    ensures steps { AreAtMost 1 steps.old steps.new }
{
    let left = 2 * place + 1;
    let right = left + 1;
    if right < heap.len() && comes_before(heap[right], heap[left], steps) {
        right
    } else {
        left
    }
}

/// Moves a turn that was put at a place up or down. At most one step, and three a level.
pub(crate) fn settle<L: Ledger>(
    heap: &mut [Turn],
    places: &mut [usize],
    place: usize,
    steps: &mut Steps<L>,
)
    requires within { place < length heap.old }
    requires ordered { IsOrderedBut place heap.old }
    requires known { KnowsPlaces heap.old places.old }
    ensures ordered { IsOrdered heap.new }
    ensures moved { AreMoved heap.old heap.new places.old places.new }
    ensures steps { (levels : ℕ) × (2 ^ levels ≤ length heap.old) × AreAtMost (3 * levels + 1) steps.old steps.new }
{
    if place == 0 {
        sink(heap, places, place, steps);
        return;
    }
    let parent = (place - 1) / 2;
    if comes_before(heap[place], heap[parent], steps) {
        exchange(heap, places, place, parent, steps);
        rise(heap, places, parent, steps);
    } else {
        sink(heap, places, place, steps);
    }
}
