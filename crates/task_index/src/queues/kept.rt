//! The tasks that wait for a worker, where these are kept by their queues: what there is no room for makes them be given up, and then all
//! tasks are walked over.
ghost use Rattle.std.specs.Prelude.{◌≡◌, ◌≤◌, ◌<◌, ◌^◌, ◌∷◌, [], ◌++◌, true, List, IfSome, IfOk, OnOk, is_some, length, count_by, slice_get};
ghost use Rattle.run_states.specs.Rows.{Row};
ghost use Rattle.task_index.specs.Contents.{HaveOwnIds};
ghost use Rattle.task_index.specs.Picks.{waits_under, picks, are_picks};
ghost use Rattle.task_index.specs.Queues.{name_of, MayBeNoted, MayBeQueues, MayBeQueuesBut};

use crate::picks::{are_picks, pending, picks};
use crate::queues::Queues;
use farm_text::Text;
use run_states::TaskRow;
use std::alloc::{AllocError, Global};
use task_types::{RunName, TaskQueue};

/// Takes the memory for a task of a queue that is to come behind the others, at a place. Where memory is wanting, all that is held stays.
pub(crate) fn note_queued(
    queues: &mut Option<Queues>,
    alloc: Global,
    queue: &TaskQueue,
    place: u32,
) -> Result<(), AllocError>
    requires { place ≤ 1_000_000 }
    ensures kept { is_some queues.new ≡ is_some queues.old }
    ensures noted { OnOk result (MayBeNoted (name_of queue.now) queues.new) }
    ensures same { (rows : List Row) → length rows ≡ place → MayBeQueues queues.old rows → MayBeQueues queues.new rows }
{
    match queues {
        Some(queues) => queues.note(alloc, queue, place),
        None => Ok(()),
    }
}

/// Adds a task that comes behind the others, at a place, or gives all up, where no room for one of its queue was noted. It takes no memory.
pub(crate) fn keep_queued(queues: &mut Option<Queues>, row: &TaskRow, place: usize)
    ensures all { (rows : List Row) → length rows ≡ place → MayBeQueues queues.old rows → MayBeQueues queues.new (rows ++ row.now ∷ []) }
    ensures kept { (rows : List Row) → length rows ≡ place → place < 2 ^ 32 → MayBeQueues queues.old rows
        → MayBeNoted (name_of row.now.definition.queue) queues.old → is_some queues.new ≡ is_some queues.old }
{
    if !is_queued(queues, row, place) {
        *queues = None;
    }
}

/// Adds a task that comes behind the others, at a place. Answers whether there was room for it.
fn is_queued(queues: &mut Option<Queues>, row: &TaskRow, place: usize) -> bool
    ensures all { result ≡ true → (rows : List Row) → length rows ≡ place → MayBeQueues queues.old rows → MayBeQueues queues.new (rows ++ row.now ∷ []) }
    ensures noted { (rows : List Row) → length rows ≡ place → place < 2 ^ 32 → MayBeQueues queues.old rows
        → MayBeNoted (name_of row.now.definition.queue) queues.old → result ≡ true }
    ensures same { is_some queues.new ≡ is_some queues.old }
{
    if place > u32::MAX as usize {
        return false;
    }
    match queues {
        Some(queues) => queues.add(row, place as u32),
        None => true,
    }
}

/// Holds how the task at a place waits now, or that it waits no longer. It takes no memory.
pub(crate) fn keep_waiting(queues: &mut Option<Queues>, rows: &[TaskRow], place: usize)
    requires within { place < length rows.now }
    requires others { MayBeQueuesBut place queues.old rows.now }
    ensures all { MayBeQueues queues.new rows.now }
    ensures kept { place < 2 ^ 32 → is_some queues.new ≡ is_some queues.old }
{
    match queues {
        Some(kept) if place <= u32::MAX as usize => kept.changed(rows, place),
        Some(_) => *queues = None,
        None => {}
    }
}

/// How many tasks wait in the queue of a name.
pub(crate) fn pending_in(queues: &Option<Queues>, rows: &[TaskRow], queue: &Text) -> usize
    requires { MayBeQueues queues.now rows.now }
    ensures { result ≡ count_by (waits_under queue.now) rows.now }
{
    match queues {
        Some(queues) => queues.pending(queue),
        None => pending(rows, queue),
    }
}

/// The runs that are claimed next in a queue, so many, or all that wait.
pub(crate) fn picks_in(
    alloc: Global,
    queues: &Option<Queues>,
    rows: &[TaskRow],
    queue: &TaskQueue,
    most: u8,
) -> Result<Vec<RunName>, AllocError>
    requires all { MayBeQueues queues.now rows.now }
    requires own { HaveOwnIds rows.now }
    ensures { IfOk result (λ names. names.items ≡ picks most queue.now rows.now) }
{
    match queues {
        Some(queues) => queues.picks(alloc, rows, queue, most),
        None => picks(alloc, rows, queue, most),
    }
}

/// Whether the runs of these names are, each in its turn, the pick of the queue of the task at a place.
pub(crate) fn are_picks_at(
    queues: &Option<Queues>,
    rows: &[TaskRow],
    place: usize,
    names: &[RunName],
) -> bool
    requires within { place < length rows.now }
    requires all { MayBeQueues queues.now rows.now }
    requires own { HaveOwnIds rows.now }
    ensures { IfSome (slice_get rows.now place) (λ row. result ≡ are_picks row.definition.queue names.now rows.now) }
{
    match queues {
        Some(queues) => queues.are_picks(rows, place, names),
        None => are_picks(rows, &rows[place].definition().queue, names),
    }
}
