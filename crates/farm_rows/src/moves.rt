//! What changes of one task, by its id. None of it takes memory.
ghost use Rattle.std.specs.Prelude.{◌≡◌, Some};
ghost use Rattle.run_states.specs.Rows.{scheduled};
ghost use Rattle.run_states.specs.Moves.{run_again, canceled, claimed, reclaimed, resolved};
ghost use Rattle.task_index.specs.Contents.{row_with};
ghost use Rattle.task_index.specs.Due.{draws};
ghost use Rattle.task_index.specs.Changes.{change_row, reason_of};
ghost use Rattle.task_index.specs.Indexed.{IsIndexOf};

use farm_text::{Moment, SlugId};
use run_states::{Claim as RunClaim, ReasonResolved, RunRoom, TaskRow};
use task_index::index::Index;
use task_types::{Reclaim, Report, Resolution};

/// The task becomes pending, where it is unscheduled.
pub(crate) fn schedule(rows: &mut [TaskRow], index: &mut Index, id: SlugId, at: Moment, number: u64)
    requires { IsIndexOf index.old rows.old }
    ensures index { IsIndexOf index.new rows.new }
    ensures rows { rows.new ≡ change_row id (scheduled number at) rows.old }
{
    if let Some(place) = index.place_of(rows, id) {
        let row = &mut rows[place];
        row.schedule(at, number);
        index.changed(rows, place);
    }
}

/// The task is run again, where it may be, in this room.
pub(crate) fn rerun(
    rows: &mut [TaskRow],
    index: &mut Index,
    id: SlugId,
    at: Moment,
    number: u64,
    room: RunRoom,
)
    requires { IsIndexOf index.old rows.old }
    ensures index { IsIndexOf index.new rows.new }
    ensures rows { rows.new ≡ change_row id (run_again number at) rows.old }
{
    if let Some(place) = index.place_of(rows, id) {
        let row = &mut rows[place];
        let _ = row.rerun(at, number, room);
        index.changed(rows, place);
    }
}

/// The task is canceled, where it is not resolved.
pub(crate) fn cancel(rows: &mut [TaskRow], index: &mut Index, id: SlugId, at: Moment)
    requires { IsIndexOf index.old rows.old }
    ensures index { IsIndexOf index.new rows.new }
    ensures rows { rows.new ≡ change_row id (canceled at) rows.old }
{
    if let Some(place) = index.place_of(rows, id) {
        let row = &mut rows[place];
        row.cancel(at);
        index.changed(rows, place);
    }
}

/// A worker takes the pending run of the task.
pub(crate) fn claim(rows: &mut [TaskRow], index: &mut Index, id: SlugId, claim: RunClaim)
    requires { IsIndexOf index.old rows.old }
    ensures index { IsIndexOf index.new rows.new }
    ensures rows { rows.new ≡ change_row id (claimed claim) rows.old }
{
    if let Some(place) = index.place_of(rows, id) {
        let row = &mut rows[place];
        row.claim(claim);
        index.changed(rows, place);
    }
}

/// A worker keeps its run.
pub(crate) fn reclaim(rows: &mut [TaskRow], index: &mut Index, reclaim: Reclaim)
    requires { IsIndexOf index.old rows.old }
    ensures index { IsIndexOf index.new rows.new }
    ensures rows { rows.new ≡ change_row reclaim.id (reclaimed reclaim.run reclaim.taken_until) rows.old }
{
    if let Some(place) = index.place_of(rows, reclaim.id) {
        let row = &mut rows[place];
        let _ = row.reclaim(reclaim.run, reclaim.taken_until);
        index.changed(rows, place);
    }
}

/// The run of a task ends, as its worker reports.
pub(crate) fn resolve(
    rows: &mut [TaskRow],
    index: &mut Index,
    resolution: &Resolution,
    at: Moment,
    number: u64,
)
    requires { IsIndexOf index.old rows.old }
    ensures index { IsIndexOf index.new rows.new }
    ensures rows { let r = resolution.now in rows.new ≡ change_row r.id (resolved r.run (reason_of r.reason) number at) rows.old }
{
    if let Some(place) = index.place_of(rows, resolution.id) {
        let row = &mut rows[place];
        let reason = reason_of(resolution.reason);
        let _ = row.resolve(at, resolution.run, reason, number);
        index.changed(rows, place);
    }
}

/// How many numbers a report draws: one, where a new run follows.
pub(crate) fn drawn(rows: &[TaskRow], index: &Index, resolution: &Resolution) -> u64
    requires { IsIndexOf index.now rows.now }
    ensures { result ≡ draws (reason_of resolution.now.reason) (row_with resolution.now.id rows.now) }
{
    match index.row_with(rows, resolution.id) {
        Some(row) => drawn_of(row, reason_of(resolution.reason)),
        None => 0,
    }
}

fn drawn_of(row: &TaskRow, reason: ReasonResolved) -> u64
    ensures { result ≡ draws reason (Some row.now) }
{
    if reason.retry_after().is_some() && row.retries_left() > 0 {
        1
    } else {
        0
    }
}

/// Why a run ends that is reported so.
pub fn reason_of(report: Report) -> ReasonResolved
    ensures { result ≡ reason_of report }
{
    match report {
        Report::Completed => ReasonResolved::Completed,
        Report::Failed => ReasonResolved::Failed,
        Report::Superseded => ReasonResolved::Superseded,
        Report::WorkerShutdown => ReasonResolved::WorkerShutdown,
        Report::MalformedPayload => ReasonResolved::MalformedPayload,
        Report::ResourceUnavailable => ReasonResolved::ResourceUnavailable,
        Report::InternalError => ReasonResolved::InternalError,
        Report::IntermittentTask => ReasonResolved::IntermittentTask,
    }
}
