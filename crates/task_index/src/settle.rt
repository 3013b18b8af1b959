//! The tasks that are ready become pending. None of it takes memory.
ghost use Rattle.std.specs.Prelude.{◌≡◌, ◌≤◌, ◌<◌, length, count_by, if◌then◌else◌};
ghost use Rattle.std.specs.List.{list_all, position};
ghost use Rattle.run_states.specs.Runs.{change_at};
ghost use Rattle.run_states.specs.Rows.{scheduled};
ghost use Rattle.task_index.specs.Ready.{id_serves, is_ready, started};
ghost use Rattle.task_index.specs.Indexed.{IsIndexOf};

use crate::index::Index;
use crate::rows::Rows;
use farm_text::{Moment, SlugId};
use run_states::TaskRow;
use task_types::Requires;

/// Makes each task pending that is ready, in the order of creation, the first with this number. Answers how many there were.
pub fn settle(rows: &mut [TaskRow], index: &mut Index, at: Moment, first: u64) -> u64
    requires index { IsIndexOf index.old rows.old }
    requires few { length rows.old ≤ 1_000_000 }
    requires drawn { first ≤ 50_000_001 }
    ensures index { IsIndexOf index.new rows.new }
    ensures rows { rows.new ≡ started (is_ready rows.old) first at rows.old }
    ensures drawn { result ≡ count_by (is_ready rows.old) rows.old }
{
    let mut drawn = 0;
    'ready: while let Some(place) = index.first_ready(rows) {
        start_at(rows, index, place, at, first + drawn);
        drawn += 1;
    }
    drawn
}

/// Makes a new task pending, where it is ready among these.
pub fn settle_new(rows: &Rows<'_>, row: &mut TaskRow, at: Moment, number: u64)
    ensures { row.new ≡ (if is_ready rows.now row.old then scheduled number at row.old else row.old) }
{
    if is_ready(rows, row) {
        row.schedule(at, number);
    }
}

/// Makes the task at a place pending, where it is unscheduled.
fn start_at(rows: &mut [TaskRow], index: &mut Index, place: usize, at: Moment, number: u64)
    requires index { IsIndexOf index.old rows.old }
    requires within { place < length rows.old }
    ensures index { IsIndexOf index.new rows.new }
    ensures rows { rows.new ≡ change_at place (scheduled number at) rows.old }
{
    let row = &mut rows[place];
    row.schedule(at, number);
    index.changed(rows, place);
}

/// The place of the first task that is ready, which is looked for among all.
pub(crate) fn ready_place(rows: &Rows<'_>) -> Option<usize>
    ensures { result ≡ position (is_ready rows.now) rows.now }
{
    rows.list().iter().position(|row| is_ready(rows, row))
}

/// Whether a task is ready: it is unscheduled, and each task that it depends on stands and serves it.
pub(crate) fn is_ready(rows: &Rows<'_>, row: &TaskRow) -> bool
    ensures { result ≡ is_ready rows.now row.now }
{
    let definition = row.definition();
    row.is_unscheduled() && all_serve(rows, definition.requires_, definition.dependencies.list())
}

/// Whether each of these tasks stands, and serves one that requires this.
fn all_serve(rows: &Rows<'_>, needs: Requires, ids: &[SlugId]) -> bool
    ensures { result ≡ list_all (id_serves needs rows.now) ids.now }
{
    ids.iter().all(|id| id_serves(rows, needs, *id))
}

/// Whether the task with this id stands, and serves one that requires this.
fn id_serves(rows: &Rows<'_>, needs: Requires, id: SlugId) -> bool
    ensures { result ≡ id_serves needs rows.now id }
{
    match rows.with(id) {
        Some(row) => row.serves(needs),
        None => false,
    }
}
