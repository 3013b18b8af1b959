//! For how many tasks each still waits, and the rows of those that are ready.
ghost use Rattle.std.specs.Prelude.{◌≡◌, ◌==◌, ℕ, ◌+◌, ◌^◌, ◌<◌, ◌≤◌, [], ◌++◌, ◌∷◌, true, Some, OnOk, length, slice_get, slice_index, slice_set, vec_capacity};
ghost use Rattle.dep_graph.specs.Kept.{HaveOwnRows};
ghost use Rattle.dep_graph.specs.Tables.{IsMoved, MayCount, CountsAgain, lacks, shown};
ghost use Rattle.dep_graph.specs.Trees.{node_at};

use crate::least::Least;
use crate::node::{Node, Progress, Requires};
use crate::tasks::{Tasks, row_serves};
use std::alloc::{AllocError, Global};

/// Of the task at each place, how many of those that it depends on do not meet what it requires, and its row, where it is ready.
#[derive(Drop)]
pub(crate) struct Waits {
    pub(crate) lacking: Vec<usize>,
    pub(crate) ready: Least,
}

/// How far a task had come before, and how far it has come now.
#[derive(Clone, Copy)]
pub(crate) struct Step {
    pub(crate) before: Progress,
    pub(crate) now: Progress,
}

impl Waits {
    /// Nothing is counted. It takes no memory.
    pub(crate) fn new(alloc: Global) -> Self
        ensures lacking { result.lacking.items ≡ [] }
        ensures ready { result.ready ≡ [] }
    {
        Waits {
            lacking: Vec::new(alloc),
            ready: Least::new(alloc),
        }
    }

    /// Takes the memory for one task more than so many.
    pub(crate) fn reserve(&mut self, alloc: Global, tasks: usize) -> Result<(), AllocError>
        ensures same { self.new.lacking.items ≡ self.old.lacking.items }
        ensures kept { (place : ℕ) → node_at self.new.ready place ≡ node_at self.old.ready place }
        ensures more { length self.old.ready ≤ length self.new.ready }
        ensures count { OnOk result (length self.new.lacking.items < vec_capacity self.new.lacking) }
        ensures place { OnOk result (tasks < length self.new.ready) }
    {
        self.lacking.reserve(1)?;
        let Some(places) = tasks.checked_add(1) else {
            return Err(AllocError);
        };
        self.ready.widen(alloc, places)?;
        Ok(())
    }

    /// Counts for a task that is added behind the others, for which there is room.
    pub(crate) fn push(&mut self, task: &Node, lacking: usize)
        requires count { length self.old.lacking.items < vec_capacity self.old.lacking }
        requires place { length self.old.lacking.items < length self.old.ready }
        ensures lacking { self.new.lacking.items ≡ self.old.lacking.items ++ lacking ∷ [] }
        ensures ready { self.new.ready ≡ slice_set self.old.ready (length self.old.lacking.items) (shown task.now lacking) }
    {
        let place = self.lacking.len();
        self.ready.put(place, shown(task, lacking));
        if self.lacking.push(lacking).is_err() {
            unreachable!();
        }
    }

    /// Sees whether the task at this place is ready.
    pub(crate) fn look(&mut self, place: usize, task: &Node)
        requires count { place < length self.old.lacking.items }
        requires place { place < length self.old.ready }
        ensures lacking { self.new.lacking ≡ self.old.lacking }
        ensures ready { self.new.ready ≡ slice_set self.old.ready place (shown task.now (slice_index self.old.lacking.items place)) }
    {
        self.ready.put(place, shown(task, self.lacking[place]));
    }

    /// Counts again for the task at this place, which depends on one that came further.
    fn count(&mut self, place: usize, task: &Node, step: Step)
        requires count { place < length self.old.lacking.items }
        requires place { place < length self.old.ready }
        requires fits { (lacking : ℕ) × (lacking < 2 ^ 63) × IsMoved true task.now.needs step.before step.now (slice_index self.old.lacking.items place) lacking }
        ensures counted { (lacking : ℕ) × IsMoved true task.now.needs step.before step.now (slice_index self.old.lacking.items place) lacking
            × (self.new.lacking.items ≡ slice_set self.old.lacking.items place lacking) × (self.new.ready ≡ slice_set self.old.ready place (shown task.now lacking)) }
        ensures capacity { vec_capacity self.new.lacking ≡ vec_capacity self.old.lacking }
    {
        let lacking = counted(task.needs(), step, self.lacking[place]);
        self.lacking[place] = lacking;
        self.ready.put(place, shown(task, lacking));
    }

    /// Counts again for each of these, which depend on one that came from there to here. Where it serves them as before nothing is counted: a task's
    /// claims and retries cost the same whoever waits for it.
    pub(crate) fn count_each(&mut self, tasks: &Tasks, rows: &[u32], step: Step)
        requires { MayCount tasks.now.tasks rows.now step.before step.now self.old.lacking.items self.old.ready }
        ensures counts { CountsAgain tasks.now.tasks rows.now step.before step.now self.old.lacking.items self.new.lacking.items self.old.ready self.new.ready }
        ensures capacity { vec_capacity self.new.lacking ≡ vec_capacity self.old.lacking }
    {
        if changes_nothing(step) {
            return;
        }
        self.count_all(tasks, rows, step);
    }

    /// Counts again for each of these.
    fn count_all(&mut self, tasks: &Tasks, rows: &[u32], step: Step)
        requires { MayCount tasks.now.tasks rows.now step.before step.now self.old.lacking.items self.old.ready }
        ensures counts { CountsAgain tasks.now.tasks rows.now step.before step.now self.old.lacking.items self.new.lacking.items self.old.ready self.new.ready }
        ensures capacity { vec_capacity self.new.lacking ≡ vec_capacity self.old.lacking }
    {
        for row in rows {
            match tasks.place_of(*row) {
                Some(place) => self.count(place, tasks.at(place), step),
                None => {}
            }
        }
    }
}

/// Whether a task serves those that depend on it as it did before.
fn changes_nothing(step: Step) -> bool
    ensures { result ≡ true → (step.now.was_completed ≡ step.before.was_completed) × (step.now.was_resolved ≡ step.before.was_resolved) }
{
    step.before.was_completed == step.now.was_completed
        && step.before.was_resolved == step.now.was_resolved
}

/// How many do not meet what is required, where so many did not before one of those that are counted came further.
fn counted(needs: Requires, step: Step, lacking: usize) -> usize
    requires { (result : ℕ) × (result < 2 ^ 63) × IsMoved true needs step.before step.now lacking result }
    ensures { IsMoved true needs step.before step.now lacking result }
{
    let was_met = usize::from(needs.is_met(step.before));
    let is_met = usize::from(needs.is_met(step.now));
    let all = lacking + was_met;
    all - is_met
}

/// The row of a task that waits for so many, where it is ready.
fn shown(task: &Node, lacking: usize) -> Option<u32>
    ensures { result ≡ shown task.now lacking }
{
    if task.progress().unscheduled && lacking == 0 {
        Some(task.row())
    } else {
        None
    }
}

/// How many of these tasks do not meet what is required.
pub(crate) fn count_lacking(tasks: &Tasks, needs: Requires, rows: &[u32]) -> usize
    requires { HaveOwnRows tasks.now.tasks }
    ensures lacks { result ≡ lacks tasks.now.tasks needs rows.now }
    ensures few { length rows.now < 2 ^ 63 }
{
    let mut lacking = 0;
    for row in rows {
        lacking += usize::from(!row_serves(tasks, needs, *row));
    }
    lacking
}
