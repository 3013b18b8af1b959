//! Which changes may be made of one task.
ghost use Rattle.std.specs.Prelude.{◌≡◌, not, false, option_copied};
ghost use Rattle.run_states.specs.Rows.{is_unscheduled, is_resolved, is_running_at};
ghost use Rattle.run_states.specs.Moves.{may_rerun};
ghost use Rattle.task_index.specs.Changes.{on_row, may_keep, kept_scheduler, may_join};

use crate::rows::Rows;
use farm_text::{Moment, SlugId};
use run_states::{MOST_RUNS, TaskRow};
use task_types::{Creation, Identifier};

/// How long a run is kept at most, in milliseconds: a day.
const LONGEST_CLAIM: u64 = 86_400_000;

/// Whether a run may be kept from one moment until another.
pub fn may_keep(at: Moment, until: Moment) -> bool
    ensures { result ≡ may_keep at until }
{
    at < until && until.millis() <= at.millis() + LONGEST_CLAIM
}

/// Whether the task with this id stands and may be run again.
pub fn may_rerun(rows: &Rows<'_>, id: SlugId, at: Moment) -> bool
    ensures { result ≡ on_row (may_rerun at) id rows.now }
{
    match rows.with(id) {
        Some(row) => row_may_rerun(row, at),
        None => false,
    }
}

fn row_may_rerun(row: &TaskRow, at: Moment) -> bool
    ensures { result ≡ may_rerun at row.now }
{
    row.is_resolved() && at < row.definition().deadline && row.runs().len() < MOST_RUNS
}

/// Whether the task with this id stands and is not resolved.
pub fn may_cancel(rows: &Rows<'_>, id: SlugId) -> bool
    ensures { result ≡ on_row (λ row. not (is_resolved row)) id rows.now }
{
    match rows.with(id) {
        Some(row) => !row.is_resolved(),
        None => false,
    }
}

/// Whether the run of a task is there and running.
pub fn is_running(rows: &Rows<'_>, id: SlugId, run: u8) -> bool
    ensures { result ≡ on_row (is_running_at run) id rows.now }
{
    match rows.with(id) {
        Some(row) => row.is_running_at(run),
        None => false,
    }
}

/// Whether the task with this id stands and is unscheduled.
pub fn may_schedule(rows: &Rows<'_>, id: SlugId) -> bool
    ensures { result ≡ on_row is_unscheduled id rows.now }
{
    match rows.with(id) {
        Some(row) => row.is_unscheduled(),
        None => false,
    }
}

/// Whether a new task has the scheduler of its group, where that has tasks.
pub fn may_join(rows: &Rows<'_>, creation: &Creation) -> bool
    ensures { result ≡ may_join creation.now rows.now }
{
    match kept_scheduler(rows, creation.definition.task_group_id) {
        Some(kept) => kept.as_str() == creation.definition.scheduler_id.as_str(),
        None => true,
    }
}

/// The scheduler that the tasks of a group have, as the first of them has it.
pub fn kept_scheduler<'a>(rows: &Rows<'a>, group: SlugId) -> Option<&'a Identifier>
    ensures { option_copied result ≡ kept_scheduler group rows.now }
{
    match rows.first_of(group) {
        Some(row) => Some(&row.definition().scheduler_id),
        None => None,
    }
}
