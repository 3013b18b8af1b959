//! Which run is claimed next in a queue.
ghost use Rattle.task_index.specs.Changes.{may_keep, are_first};
ghost use Rattle.std.specs.Prelude.{◌≡◌, ◌&&◌, ◌++◌, ◌∷◌, [], nat_le, length, filter, false, Some, bytes_eq, count_by, option_copied, IfOk};
ghost use Rattle.std.specs.Option.{option_map_or, option_to_list};
ghost use Rattle.std.specs.List.{list_any, reduce};
ghost use Rattle.task_index.specs.Picks.{is_same_queue, waits_in, waits_under, goes_before, better, number_of, last_name, names_last, pick, picks, are_picks};
ghost use Rattle.task_index.specs.Left.{left};

use crate::checks::may_keep;
use crate::queues::names::is_name_of;
use crate::rows::Rows;
use claim_queue::rank;
use farm_text::{Moment, SlugId, Text};
use run_states::TaskRow;
use std::alloc::{AllocError, Global};
use task_types::{Claim, RunName, TaskQueue};

/// Whether a worker may take runs: until a moment that is still to come, at most a day later; and they are 1 to 32, the first of their queue.
pub fn may_claim(rows: &Rows<'_>, at: Moment, claim: &Claim) -> bool
    ensures { result ≡ (may_keep at claim.now.taken_until && (nat_le (length claim.now.runs) 32 && are_first claim.now.runs rows.now)) }
{
    may_keep(at, claim.taken_until) && are_first(rows, claim.runs.list())
}

/// Whether the runs of these names are, each in its turn, the pick of the queue of the first one's task.
fn are_first(rows: &Rows<'_>, names: &[RunName]) -> bool
    ensures { result ≡ are_first names.now rows.now }
{
    let Some(first) = names.first() else {
        return false;
    };
    match rows.place(first.id) {
        Some(place) => rows.are_picks(place, names),
        None => false,
    }
}

/// How many tasks wait in the queue of a name.
pub(crate) fn pending(rows: &[TaskRow], queue: &Text) -> usize
    ensures { result ≡ count_by (waits_under queue.now) rows.now }
{
    rows.iter().filter(|row| waits_under(row, queue)).count()
}

/// Whether a task waits for a worker in the queue of a name.
fn waits_under(row: &TaskRow, name: &Text) -> bool
    ensures { result ≡ waits_under name.now row.now }
{
    row.is_pending() && is_name_of(name, &row.definition().queue)
}

/// The runs that are claimed next in a queue, so many, or all that wait.
pub(crate) fn picks(
    alloc: Global,
    rows: &[TaskRow],
    queue: &TaskQueue,
    most: u8,
) -> Result<Vec<RunName>, AllocError>
    ensures { IfOk result (λ names. names.items ≡ picks most queue.now rows.now) }
{
    let mut names = Vec::new(alloc);
    'turns: while names.len() < usize::from(most) {
        match pick(rows, queue, &names) {
            Some(row) => names.push(last_name(row))?,
            None => return Ok(names),
        }
    }
    Ok(names)
}

/// Whether the runs of these names are, each in its turn, the pick of the queue.
pub(crate) fn are_picks(rows: &[TaskRow], queue: &TaskQueue, names: &[RunName]) -> bool
    ensures { result ≡ are_picks queue.now names.now rows.now }
{
    for (number, name) in names.iter().enumerate() {
        if !is_pick(rows, queue, &names[..number], *name) {
            return false;
        }
    }
    true
}

/// Whether a name is that of the run that is picked of the tasks that are left.
fn is_pick(rows: &[TaskRow], queue: &TaskQueue, taken: &[RunName], name: RunName) -> bool
    ensures { result ≡ option_map_or (names_last name) (pick queue.now (left taken.now rows.now)) false }
{
    match pick(rows, queue, taken) {
        Some(row) => names_last(name, row),
        None => false,
    }
}

/// The task whose run is claimed next in a queue, of those of which no run is taken.
fn pick<'a>(rows: &'a [TaskRow], queue: &TaskQueue, taken: &[RunName]) -> Option<&'a TaskRow>
    ensures { option_copied result ≡ pick queue.now (left taken.now rows.now) }
{
    let mut best = None;
    for row in rows {
        best = pick_with(best, row, queue, taken);
    }
    best
}

/// The pick of one that was it before and a task behind it.
fn pick_with<'a>(
    best: Option<&'a TaskRow>,
    row: &'a TaskRow,
    queue: &TaskQueue,
    taken: &[RunName],
) -> Option<&'a TaskRow>
    ensures { option_copied result
        ≡ reduce better (option_to_list (option_copied best.entry) ++ filter (waits_in queue.now) (left taken.now (row.now ∷ []))) }
{
    if waits_in(row, queue) && !is_taken(taken, row.id()) {
        Some(first_of(best, row))
    } else {
        best
    }
}

/// The one that goes before the other, if there are two, and else the first.
fn first_of<'a>(best: Option<&'a TaskRow>, row: &'a TaskRow) -> &'a TaskRow
    ensures { Some result.now ≡ reduce better (option_to_list (option_copied best.entry) ++ row.now ∷ []) }
{
    match best {
        Some(best) if !goes_before(row, best) => best,
        _ => row,
    }
}

/// Whether a run of the task with this id is among these.
fn is_taken(taken: &[RunName], id: SlugId) -> bool
    ensures { result ≡ list_any (λ name. bytes_eq id name.id) taken.now }
{
    taken.iter().any(|name| id == name.id)
}

/// Whether a task waits for a worker in a queue.
fn waits_in(row: &TaskRow, queue: &TaskQueue) -> bool
    ensures { result ≡ waits_in queue.now row.now }
{
    row.is_pending() && is_same_queue(&row.definition().queue, queue)
}

fn is_same_queue(a: &TaskQueue, b: &TaskQueue) -> bool
    ensures { result ≡ is_same_queue a.now b.now }
{
    a.provisioner_id.as_str() == b.provisioner_id.as_str()
        && a.worker_type.as_str() == b.worker_type.as_str()
}

/// Whether one task goes before another: by its priority, and of one priority by the lesser number.
fn goes_before(one: &TaskRow, other: &TaskRow) -> bool
    ensures { result ≡ goes_before one.now other.now }
{
    let (first, second) = (
        rank(one.definition().priority),
        rank(other.definition().priority),
    );
    first < second || (first == second && number_of(one) < number_of(other))
}

/// The number that the last run of a task drew.
pub(crate) fn number_of(row: &TaskRow) -> u64
    ensures { result ≡ number_of row.now }
{
    match row.runs().last() {
        Some(run) => run.number.unwrap_or(0),
        None => 0,
    }
}

/// The last run of a task, by its name.
pub(crate) fn last_name(row: &TaskRow) -> RunName
    ensures { result ≡ last_name row.now }
{
    RunName {
        id: row.id(),
        run: row.runs().len().saturating_sub(1) as u8,
    }
}

/// Whether a name is that of the last run of a task.
pub(crate) fn names_last(name: RunName, row: &TaskRow) -> bool
    ensures { result ≡ names_last name row.now }
{
    row.id() == name.id && row.runs().len() == usize::from(name.run) + 1
}
