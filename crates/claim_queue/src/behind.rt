//! Which turn of a heap comes next behind another: a look that changes nothing.
ghost use Rattle.std.specs.Prelude.{◌≡◌, ℕ, ◌+◌, ◌*◌, List, length};
ghost use Rattle.claim_queue.specs.Heaps.{IsOrdered};
ghost use Rattle.claim_queue.specs.Behind.{is_behind, earlier, IsFirstUnder, AreGivenUnder};
ghost use Rattle.claim_queue.specs.Counts.{AreAtMost};

use crate::steps::Steps;
use crate::turns::{Turn, comes_before};
use std::sync::ledger::Ledger;

/// The first turn at or below a place, of those behind another. It looks below none that comes behind the other: at most three steps for
/// each that does not, and one more.
pub(crate) fn first_under<L: Ledger>(
    heap: &[Turn],
    place: usize,
    last: Option<Turn>,
    steps: &mut Steps<L>,
) -> Option<Turn>
    requires { IsOrdered heap.now }
    ensures first { IsFirstUnder place heap.now last result }
    ensures steps { (given : List ℕ) × AreGivenUnder place heap.now last given × AreAtMost (3 * length given + 1) steps.old steps.new }
{
    if place >= heap.len() {
        return None;
    }
    let turn = heap[place];
    if is_behind(last, turn, steps) {
        return Some(turn);
    }
    let left = first_under(heap, 2 * place + 1, last, steps);
    let right = first_under(heap, 2 * place + 2, last, steps);
    earlier(left, right, steps)
}

/// Whether a turn comes behind another, if one is given. At most one step.
fn is_behind<L: Ledger>(last: Option<Turn>, turn: Turn, steps: &mut Steps<L>) -> bool
    ensures behind { result ≡ is_behind last turn }
    ensures steps { AreAtMost 1 steps.old steps.new }
{
    match last {
        Some(last) => comes_before(last, turn, steps),
        None => true,
    }
}

/// Of two turns the one that comes before the other, if there are two. At most one step.
fn earlier<L: Ledger>(one: Option<Turn>, other: Option<Turn>, steps: &mut Steps<L>) -> Option<Turn>
    ensures earlier { result ≡ earlier one other }
    ensures steps { AreAtMost 1 steps.old steps.new }
{
    match (one, other) {
        (Some(first), Some(second)) if comes_before(second, first, steps) => other,
        (Some(_), _) => one,
        (None, _) => other,
    }
}
