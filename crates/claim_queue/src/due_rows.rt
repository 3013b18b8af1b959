//! Rows that fall due, each at its moment.
ghost use Rattle.std.specs.Prelude.{◌≡◌, ◌≤◌, Some, None, IsSome, slice_get, slice_set, slice_index_or, MatchResult};
ghost use Rattle.claim_queue.specs.Held.{held};
ghost use Rattle.claim_queue.specs.Dues.{no_dues, spare_of, roomier, first_due_of};
ghost use Rattle.claim_queue.specs.DueHeaps.{due_turn, due_by};
ghost use Rattle.claim_queue.specs.Counts.{AreFew};

use crate::heap_edits::{insert, remove, replace};
use crate::room::make_room;
use crate::steps::Steps;
use crate::turns::{Turn, top_row};
use farm_text::Moment;
use std::alloc::{AllocError, Global};
use std::marker::Model;
use std::sync::ledger::Ledger;

/// The rows that a worker has, each until its moment.
pub type Leases = DueRows;

/// The rows that are not resolved, each with its deadline.
pub type Deadlines = DueRows;

/// Rows that fall due, each at its moment.
///
/// Contracts see for how many rows room was made, and of each row its moment, if it is held. The first row stands at the top of an array
/// heap, and of each row the place there is known.
#[derive(Drop)]
pub struct DueRows {
    rows: Vec<Option<Moment>>,
    heap: Vec<Turn>,
    places: Vec<usize>,
    room: usize,
}

impl Model for DueRows {
    ghost use Rattle.std.specs.Prelude.{vec_capacity};
    ghost use Rattle.claim_queue.specs.Dues.{Dues};

    ghost Value = { Dues };

    ghost use Rattle.claim_queue.specs.DueHeaps.{AreDue, HaveRoom};

    ghost view = { λ d. record { room = d.room; rows = d.rows.items } };

    ghost invariant = { λ d. AreDue d.rows.items d.heap.items d.places.items × HaveRoom d.rows.items d.heap.items d.room (vec_capacity d.heap) };
}

impl DueRows {
    /// No rows, and room for none. It takes no memory.
    pub fn new(alloc: Global) -> Self
        ensures { result ≡ no_dues }
    {
        DueRows {
            rows: Vec::new(alloc),
            heap: Vec::new(alloc),
            places: Vec::new(alloc),
            room: 0,
        }
    }

    /// For how many more rows there is room.
    pub fn spare(&self) -> usize
        ensures { result ≡ spare_of self.now }
    {
        self.room - self.heap.len()
    }

    /// The moment of a row, if it is held, and none outside for a row for which no room was made.
    pub fn at(&self, row: u32) -> Option<Option<Moment>>
        ensures { result ≡ slice_get self.now.rows row }
    {
        self.rows.get(row as usize).copied()
    }

    /// Makes room for so many more rows, and for all rows below a number. Where memory runs out, all stays as it was.
    pub fn reserve(&mut self, more: u32, below: u32) -> Result<(), AllocError>
        ensures { MatchResult result (λ _. self.new ≡ roomier more below self.old) (λ _. self.new ≡ self.old) }
    {
        let held = self.heap.len();
        let room = held + more as usize;
        make_room(
            &mut self.heap,
            &mut self.places,
            &mut self.rows,
            room,
            below,
        )?;
        self.room = self.room.max(room);
        Ok(())
    }

    /// Holds a row, which falls due at this moment. It takes no memory.
    pub fn add<L: Ledger>(&mut self, row: u32, at: Moment, steps: &mut Steps<L>)
        requires room { 1 ≤ spare_of self.old }
        requires absent { slice_get self.old.rows row ≡ Some None }
        ensures rows { self.new ≡ record self.old { rows = slice_set self.old.rows row (Some at) } }
        ensures steps { AreFew (held self.old.rows) steps.old steps.new }
    {
        insert(&mut self.heap, &mut self.places, due_turn(row, at), steps);
        self.rows[row as usize] = Some(at);
    }

    /// Lets a row that is held fall due at this moment. It takes no memory.
    pub fn shift<L: Ledger>(&mut self, row: u32, at: Moment, steps: &mut Steps<L>)
        requires { IsSome (slice_index_or self.old.rows row None) }
        ensures rows { self.new ≡ record self.old { rows = slice_set self.old.rows row (Some at) } }
        ensures steps { AreFew (held self.old.rows) steps.old steps.new }
    {
        replace(&mut self.heap, &mut self.places, due_turn(row, at), steps);
        self.rows[row as usize] = Some(at);
    }

    /// Holds a row no longer. It takes no memory.
    pub fn remove<L: Ledger>(&mut self, row: u32, steps: &mut Steps<L>)
        requires { IsSome (slice_index_or self.old.rows row None) }
        ensures rows { self.new ≡ record self.old { rows = slice_set self.old.rows row None } }
        ensures steps { AreFew (held self.old.rows) steps.old steps.new }
    {
        remove(&mut self.heap, &mut self.places, row, steps);
        self.rows[row as usize] = None;
    }

    /// The row that falls due first, of those that do so at this moment or before, with its moment; of several with one moment the least
    /// row. It takes no step.
    pub fn first_due<L: Ledger>(
        &self,
        moment: Moment,
        steps: &mut Steps<L>,
    ) -> Option<(Moment, u32)>
        ensures row { result ≡ first_due_of moment self.now }
        ensures steps { steps.new ≡ steps.old }
    {
        match top_row(&self.heap) {
            Some(row) => due_by(moment, self.rows[row as usize], row),
            None => None,
        }
    }
}

/// A row with its moment, if it is held and falls due by then.
fn due_by(moment: Moment, at: Option<Moment>, row: u32) -> Option<(Moment, u32)>
    ensures { result ≡ due_by moment at row }
{
    match at {
        Some(at) if at <= moment => Some((at, row)),
        _ => None,
    }
}

fn due_turn(row: u32, at: Moment) -> Turn
    ensures { result ≡ due_turn at row }
{
    Turn {
        first: at.millis(),
        second: 0,
        row,
    }
}
