//! Rows that wait for a worker, each in its queue.
ghost use Rattle.std.specs.Prelude.{◌≡◌, ℕ, ◌+◌, ◌*◌, ◌≤◌, ◌<◌, ◌++◌, ◌∷◌, [], false, length, map, Some, None, IsSome, is_some, option_map, slice_get, slice_set, slice_index_or, MatchResult};
ghost use Rattle.std.specs.Str.{bytes_eq};
ghost use Rattle.claim_queue.specs.Held.{up_to};
ghost use Rattle.claim_queue.specs.Waits.{no_waits, spare_in, count_in, queue_of, raised, roomier, best_of};
ghost use Rattle.claim_queue.specs.Places.{name_at};
ghost use Rattle.claim_queue.specs.Counts.{AreAtMost, AreFew};
ghost use Rattle.claim_queue.specs.Behind.{IsNextTurn, given_in};

use crate::behind::first_under;
use crate::entries::{Entry, entry_turn};
use crate::firsts::Firsts;
use crate::heap_edits::{insert, remove};
use crate::names::{Names, note_new, place_of};
use crate::queues::{Queue, raise, room_at};
use crate::room::{make_heap, make_room};
use crate::steps::Steps;
use crate::turns::{Turn, top_row};
use farm_text::Text;
use std::alloc::{AllocError, Global};
use std::collections::BTreeMap;
use std::marker::Model;
use std::sync::ledger::Ledger;
use task_types::Priority;

/// Rows that wait for a worker, each in its queue.
///
/// Contracts see the queues, each with the number of rows for which room was made in it, and of each row where it waits, if it is held.
/// Rows may be held up to the number for which room was made. Each queue is found by its name in an ordered map, and has an array heap,
/// whose best row stands at the top.
#[derive(Drop)]
pub struct Pending {
    queues: Vec<Queue>,
    heaps: Vec<Vec<Turn>>,
    rows: Vec<Option<Entry>>,
    places: Vec<usize>,
    /// The place of each queue by its name.
    names: Names,
}

impl Model for Pending {
    ghost use Rattle.std.specs.Prelude.{◌<◌, ◌^◌, length};
    ghost use Rattle.claim_queue.specs.Waits.{Waits};

    ghost Value = { Waits };

    ghost use Rattle.claim_queue.specs.Places.{told_rows, ArePlaced};
    ghost use Rattle.claim_queue.specs.WaitHeaps.{AreQueued, HaveHeaps};
    ghost use Rattle.claim_queue.specs.Named.{HavePlaces};

    ghost view = { λ p. record { queues = p.queues.items; rows = told_rows p.queues.items p.rows.items } };

    ghost invariant = { λ p. (length p.rows.items < 2 ^ 32) × ArePlaced (length p.queues.items) p.rows.items
        × AreQueued p.rows.items p.heaps.items p.places.items × HaveHeaps p.queues.items p.heaps.items
        × HavePlaces p.queues.items p.names };
}

impl Pending {
    /// No queue and no row, and room for none. It takes no memory.
    pub fn new(alloc: Global) -> Self
        ensures { result ≡ no_waits }
    {
        Pending {
            queues: Vec::new(alloc),
            heaps: Vec::new(alloc),
            rows: Vec::new(alloc),
            places: Vec::new(alloc),
            names: BTreeMap::new(alloc),
        }
    }

    /// How many rows wait in a queue.
    pub fn count(&self, name: &Text) -> usize
        ensures { result ≡ count_in name.now self.now }
    {
        match place_of(&self.queues, &self.names, name) {
            Some(queue) => self.heaps[queue].len(),
            None => 0,
        }
    }

    /// For how many more rows there is room in a queue.
    pub fn spare(&self, name: &Text) -> usize
        ensures { result ≡ spare_in name.now self.now }
    {
        match place_of(&self.queues, &self.names, name) {
            Some(queue) => room_at(&self.queues, queue).saturating_sub(self.heaps[queue].len()),
            None => 0,
        }
    }

    /// Makes room in a queue for so many more rows, and for all rows below a number. Where memory runs out, all stays as it was.
    pub fn reserve(&mut self, name: &Text, more: u32, below: u32) -> Result<(), AllocError>
        ensures { MatchResult result (λ _. self.new ≡ roomier name.now more below self.old) (λ _. self.new ≡ self.old) }
    {
        match place_of(&self.queues, &self.names, name) {
            Some(queue) => {
                let room = self.heaps[queue].len() + more as usize;
                self.make_wider(queue, room, below)
            }
            None => self.make_queue(name, more as usize, below),
        }
    }

    /// Makes room for so many rows in the queue at a place, and for all rows below a number.
    fn make_wider(&mut self, queue: usize, room: usize, below: u32) -> Result<(), AllocError>
        requires { queue < length self.old.queues }
        ensures { let made = map (raised (name_at queue self.old.queues) room) self.old.queues in
            MatchResult result (λ _. self.new ≡ record { queues = made; rows = up_to below self.old.rows }) (λ _. self.new ≡ self.old) }
    {
        make_room(
            &mut self.heaps[queue],
            &mut self.places,
            &mut self.rows,
            room,
            below,
        )?;
        raise(&mut self.queues, queue, room);
        Ok(())
    }

    /// Makes room for so many rows in a queue that comes behind the others, and for all rows below a number.
    fn make_queue(&mut self, name: &Text, room: usize, below: u32) -> Result<(), AllocError>
        requires { (place : ℕ) → place < length self.old.queues → bytes_eq (name_at place self.old.queues) name.now ≡ false }
        ensures { let made = self.old.queues ++ record { name = name.now; room = room } ∷ [] in
            MatchResult result (λ _. self.new ≡ record { queues = made; rows = up_to below self.old.rows }) (λ _. self.new ≡ self.old) }
    {
        let owned = name.clone()?;
        note_new(&self.queues, &mut self.names, name)?;
        let heap = make_heap(
            &mut self.queues,
            &mut self.heaps,
            &mut self.places,
            &mut self.rows,
            room,
            below,
        )?;
        if self.queues.push(Queue { name: owned, room }).is_err() {
            unreachable!();
        }
        if self.heaps.push(heap).is_err() {
            unreachable!();
        }
        Ok(())
    }

    /// Lets a row wait in a queue. It takes no memory.
    pub fn add<L: Ledger>(
        &mut self,
        row: u32,
        name: &Text,
        priority: Priority,
        number: u64,
        steps: &mut Steps<L>,
    )
        requires room { 1 ≤ spare_in name.now self.old }
        requires absent { slice_get self.old.rows row ≡ Some None }
        ensures rows { self.new ≡ record self.old {
          rows = slice_set self.old.rows row (Some (record { queue = name.now; priority = priority; number = number }));
        } }
        ensures steps { AreFew (count_in name.now self.old) steps.old steps.new }
    {
        let Some(queue) = place_of(&self.queues, &self.names, name) else {
            unreachable!();
        };
        let entry = Entry {
            queue,
            priority,
            number,
        };
        let turn = entry_turn(entry, row);
        insert(&mut self.heaps[queue], &mut self.places, turn, steps);
        self.rows[row as usize] = Some(entry);
    }

    /// The row that is claimed next in a queue: of those that wait in it the one of the highest priority, and of these the one with the
    /// least number. It takes no step.
    pub fn best<L: Ledger>(&self, name: &Text, steps: &mut Steps<L>) -> Option<u32>
        ensures row { result ≡ best_of name.now self.now }
        ensures steps { steps.new ≡ steps.old }
    {
        match place_of(&self.queues, &self.names, name) {
            Some(queue) => top_row(&self.heaps[queue]),
            None => None,
        }
    }

    /// The rows of a queue in the order in which they are claimed. It takes no memory.
    pub fn firsts<'a>(&'a self, name: &'a Text) -> Firsts<'a>
        ensures { result ≡ record { name = name.now; all = self.now; left = self.now } }
    {
        Firsts::new(self, name, place_of(&self.queues, &self.names, name))
    }

    /// The first turn in the queue at a place, of those behind another, if one is given. At most three steps for each that is not behind it,
    /// and one more.
    pub(crate) fn next_turn<L: Ledger>(
        &self,
        queue: usize,
        last: Option<Turn>,
        steps: &mut Steps<L>,
    ) -> Option<Turn>
        requires { queue < length self.now.queues }
        ensures next { IsNextTurn (name_at queue self.now.queues) self.now.rows last result }
        ensures steps { AreAtMost (3 * given_in (name_at queue self.now.queues) last self.now + 1) steps.old steps.new }
    {
        first_under(&self.heaps[queue], 0, last, steps)
    }

    /// Whether a row is held, and none for a row for which no room was made.
    pub fn holds(&self, row: u32) -> Option<bool>
        ensures { result ≡ option_map is_some (slice_get self.now.rows row) }
    {
        match self.rows.get(row as usize) {
            Some(entry) => Some(entry.is_some()),
            None => None,
        }
    }

    /// Lets a row wait no longer. It takes no memory.
    pub fn remove<L: Ledger>(&mut self, row: u32, steps: &mut Steps<L>)
        requires { IsSome (slice_index_or self.old.rows row None) }
        ensures rows { self.new ≡ record self.old { rows = slice_set self.old.rows row None } }
        ensures steps { AreFew (count_in (queue_of row self.old) self.old) steps.old steps.new }
    {
        let Some(entry) = self.rows[row as usize] else {
            unreachable!();
        };
        remove(&mut self.heaps[entry.queue], &mut self.places, row, steps);
        self.rows[row as usize] = None;
    }
}
