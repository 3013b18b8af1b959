//! The rows of a queue in the order in which they are claimed.
ghost use Rattle.std.specs.Prelude.{◌≡◌, ◌+◌, ◌*◌};
ghost use Rattle.claim_queue.specs.Waits.{best_of};
ghost use Rattle.claim_queue.specs.Walks.{without, given_of};
ghost use Rattle.claim_queue.specs.Behind.{IsPlaceOf};
ghost use Rattle.claim_queue.specs.Counts.{AreAtMost};

use crate::pending::Pending;
use crate::steps::Steps;
use crate::turns::Turn;
use farm_text::Text;
use std::marker::Model;
use std::sync::ledger::Ledger;

/// The rows of a queue in the order in which they are claimed, one after another.
///
/// Contracts see the name of the queue, what waits, and what of it is left without the rows that were given. It takes no memory and changes
/// no row: it knows the turn that it gave last, and looks in the heap for the first one behind it.
#[derive(Drop)]
pub struct Firsts<'a> {
    pending: &'a Pending,
    name: &'a Text,
    queue: Option<usize>,
    last: Option<Turn>,
}

impl<'a> Model for Firsts<'a> {
    ghost use Rattle.claim_queue.specs.Walks.{Walk};

    ghost Value = { Walk };

    ghost use Rattle.claim_queue.specs.Behind.{IsPlaceOf, left_of};

    ghost view = { λ f. record { name = f.name.now; all = f.pending.now; left = left_of f.name.now f.last f.pending.now } };

    ghost invariant = { λ f. IsPlaceOf f.queue f.name.now f.pending.now };
}

impl<'a> Firsts<'a> {
    /// The rows of the queue at a place, if it is there, from the first one on.
    pub(crate) fn new(pending: &'a Pending, name: &'a Text, queue: Option<usize>) -> Firsts<'a>
        requires { IsPlaceOf queue name.now pending.now }
        ensures { result ≡ record { name = name.now; all = pending.now; left = pending.now } }
    {
        Firsts {
            pending,
            name,
            queue,
            last: None,
        }
    }

    /// The row that is claimed next of those that were not given, and none once all were given. At most three steps for each that was given,
    /// and one more.
    pub fn next<L: Ledger>(&mut self, steps: &mut Steps<L>) -> Option<u32>
        ensures row { result ≡ best_of self.old.name self.old.left }
        ensures left { self.new ≡ record self.old { left = without result self.old.left } }
        ensures steps { AreAtMost (3 * given_of self.old + 1) steps.old steps.new }
    {
        let queue = self.queue?;
        let turn = self.pending.next_turn(queue, self.last, steps)?;
        self.last = Some(turn);
        Some(turn.row)
    }
}
