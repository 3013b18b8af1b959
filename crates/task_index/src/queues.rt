//! The tasks that wait for a worker, by their places, each in its queue: so that the first of them are found, and counted, without a walk
//! over all tasks. What holds a task takes memory in `note` alone.
ghost use Rattle.std.specs.Prelude.{◌≡◌, ◌^◌, ◌≤◌, ◌<◌, ◌↔◌, ◌∷◌, [], ◌++◌, List, Some, IsTrue, IfSome, IfOk, OnOk, length, count_by, slice_get};
ghost use Rattle.run_states.specs.Rows.{Row};
ghost use Rattle.task_index.specs.Contents.{HaveOwnIds};
ghost use Rattle.task_index.specs.Picks.{waits_under, picks, are_picks};
ghost use Rattle.task_index.specs.Queues.{name_of, MayAdd, AreQueues, AreQueuesBut};

mod held;
pub(crate) mod kept;
pub(crate) mod names;
mod walks;

use crate::counts::MOST_TASKS;
use claim_queue::Pending;
use farm_text::Text;
use held::{hold, may_hold};
use names::{is_name_of, name_of};
use run_states::TaskRow;
use std::alloc::{AllocError, Global};
use task_types::{RunName, TaskQueue};
use walks::{are_firsts, firsts};

/// The tasks that wait for a worker, by their places, each in its queue; and of each task the name of its queue.
///
/// In each queue there is room for all its tasks, so that each can begin to wait without memory.
#[derive(Drop)]
pub(crate) struct Queues {
    pending: Pending,
    names: Vec<Text>,
    /// The queue of the task that is to come, where there is room for it.
    next: Option<Text>,
}

impl Queues {
    /// Those of no tasks. They take no memory.
    pub(crate) fn new(alloc: Global) -> Queues
        ensures { AreQueues result [] }
    {
        Queues {
            pending: Pending::new(alloc),
            names: Vec::new(alloc),
            next: None,
        }
    }

    /// Takes the memory for a task of a queue that is to come behind the others, at a place. There is such room for one task at a time.
    pub(crate) fn note(
        &mut self,
        alloc: Global,
        queue: &TaskQueue,
        place: u32,
    ) -> Result<(), AllocError>
        requires few { place ≤ 1_000_000 }
        ensures same { (rows : List Row) → length rows ≡ place → AreQueues self.old rows → AreQueues self.new rows }
        ensures noted { OnOk result (self.new.next ≡ Some (name_of queue.now)) }
    {
        if self.is_noted(queue) {
            return Ok(());
        }
        self.next = None;
        let name = name_of(alloc, queue)?;
        let spare = self.pending.spare(&name).min(MOST_TASKS);
        self.pending.reserve(&name, spare as u32 + 1, place + 1)?;
        self.names.reserve(1)?;
        self.next = Some(name);
        Ok(())
    }

    /// Whether there is room for a task of a queue.
    fn is_noted(&self, queue: &TaskQueue) -> bool
        ensures { IsTrue result → self.now.next ≡ Some (name_of queue.now) }
    {
        match &self.next {
            Some(name) => is_name_of(name, queue),
            None => false,
        }
    }

    /// Adds a task that comes behind the others, at a place, where room for one of its queue was noted. Answers whether it did. It takes no
    /// memory.
    pub(crate) fn add(&mut self, row: &TaskRow, place: u32) -> bool
        ensures added { (rows : List Row) → length rows ≡ place → AreQueues self.old rows → IsTrue result → AreQueues self.new (rows ++ row.now ∷ []) }
        ensures noted { (rows : List Row) → length rows ≡ place → AreQueues self.old rows
            → self.old.next ≡ Some (name_of row.now.definition.queue) → IsTrue result }
    {
        let Some(name) = self.next.take() else {
            return false;
        };
        if !self.may_add(&name, row, place) {
            return false;
        }
        hold(&mut self.pending, place, &name, row);
        if self.names.push(name).is_err() {
            unreachable!();
        }
        true
    }

    /// Whether a task is of the queue of a name, and there is room for it at a place.
    fn may_add(&self, name: &Text, row: &TaskRow, place: u32) -> bool
        ensures { IsTrue result ↔ MayAdd name.now row.now place self.now }
    {
        self.names.len() < self.names.capacity()
            && may_hold(&self.pending, place, name)
            && is_name_of(name, &row.definition().queue)
    }

    /// Holds how the task at a place waits now, or that it waits no longer. It takes no memory.
    pub(crate) fn changed(&mut self, rows: &[TaskRow], place: usize)
        requires within { place < length rows.now }
        requires fits { place < 2 ^ 32 }
        requires others { AreQueuesBut place self.old rows.now }
        ensures all { AreQueues self.new rows.now }
        ensures next { self.new.next ≡ self.old.next }
    {
        hold(
            &mut self.pending,
            place as u32,
            &self.names[place],
            &rows[place],
        );
    }

    /// How many tasks wait in the queue of a name. It takes no memory.
    pub(crate) fn pending(&self, queue: &Text) -> usize
        ensures { (rows : List Row) → AreQueues self.now rows → result ≡ count_by (waits_under queue.now) rows }
    {
        self.pending.count(queue)
    }

    /// The runs that are claimed next in a queue, so many, or all that wait.
    pub(crate) fn picks(
        &self,
        alloc: Global,
        rows: &[TaskRow],
        queue: &TaskQueue,
        most: u8,
    ) -> Result<Vec<RunName>, AllocError>
        requires all { AreQueues self.now rows.now }
        requires own { HaveOwnIds rows.now }
        ensures { IfOk result (λ names. names.items ≡ picks most queue.now rows.now) }
    {
        firsts(alloc, &self.pending, rows, queue, most)
    }

    /// Whether the runs of these names are, each in its turn, the pick of the queue of the task at a place. It takes no memory.
    pub(crate) fn are_picks(&self, rows: &[TaskRow], place: usize, names: &[RunName]) -> bool
        requires within { place < length rows.now }
        requires all { AreQueues self.now rows.now }
        requires own { HaveOwnIds rows.now }
        ensures { IfSome (slice_get rows.now place) (λ row. result ≡ are_picks row.definition.queue names.now rows.now) }
    {
        are_firsts(&self.pending, &self.names[place], rows, names)
    }
}
