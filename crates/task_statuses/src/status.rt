//! The status of a task.
ghost use Rattle.std.specs.Prelude.{◌≡◌, ◌++◌, OnOk};
ghost use Rattle.task_statuses.specs.Parts as parts;
ghost use Rattle.task_statuses.specs.Statuses.{status_of};
ghost use Rattle.task_statuses.specs.Tokens.{tokens_of, tokens_of_members};

use crate::members::{id_member, moment_member, number_member, text_member};
use crate::names::task_state_name;
use crate::runs::write_runs;
use json::Writer;
use run_states::TaskRow;
use std::alloc::{AllocError, Global};
use task_types::{TaskDef, TaskQueue};

/// Writes the status of a task: its deadline, when it expires, its owners, its queue, the retries that it has left, its runs and its state.
pub fn write_status(alloc: Global, row: &TaskRow, out: &mut Writer) -> Result<(), AllocError>
    ensures ok { OnOk result (out.new.tokens ≡ out.old.tokens ++ tokens_of (status_of row.now)) }
    ensures before { out.new.before ≡ out.old.before }
{
    out.begin_object()?;
    write_before_runs(row, out)?;
    out.key("runs")?;
    write_runs(row.runs(), out)?;
    write_behind_runs(alloc, row, out)?;
    out.end_object()
}

/// Writes the members before the runs.
fn write_before_runs(row: &TaskRow, out: &mut Writer) -> Result<(), AllocError>
    ensures ok { OnOk result (out.new.tokens ≡ out.old.tokens ++ tokens_of_members (parts.before_runs row.now)) }
    ensures before { out.new.before ≡ out.old.before }
{
    write_dates(row.definition(), out)?;
    write_owners(row.definition(), out)?;
    number_member("retriesLeft", u64::from(row.retries_left()), out)
}

/// Writes its moments.
fn write_dates(definition: &TaskDef, out: &mut Writer) -> Result<(), AllocError>
    ensures ok { OnOk result (out.new.tokens ≡ out.old.tokens ++ tokens_of_members (parts.dates definition.now)) }
    ensures before { out.new.before ≡ out.old.before }
{
    moment_member("deadline", definition.deadline, out)?;
    moment_member("expires", definition.expires, out)
}

/// Writes whose the task is, and whose workers run it.
fn write_owners(definition: &TaskDef, out: &mut Writer) -> Result<(), AllocError>
    ensures ok { OnOk result (out.new.tokens ≡ out.old.tokens ++ tokens_of_members (parts.owners definition.now)) }
    ensures before { out.new.before ≡ out.old.before }
{
    text_member("projectId", definition.project_id.as_str(), out)?;
    text_member(
        "provisionerId",
        definition.queue.provisioner_id.as_str(),
        out,
    )
}

/// Writes the members behind the runs.
fn write_behind_runs(alloc: Global, row: &TaskRow, out: &mut Writer) -> Result<(), AllocError>
    ensures ok { OnOk result (out.new.tokens ≡ out.old.tokens ++ tokens_of_members (parts.behind_runs row.now)) }
    ensures before { out.new.before ≡ out.old.before }
{
    write_standing(row, out)?;
    write_ids(row, out)?;
    write_place(alloc, &row.definition().queue, out)
}

/// Writes what schedules the task, and its state.
fn write_standing(row: &TaskRow, out: &mut Writer) -> Result<(), AllocError>
    ensures ok { OnOk result (out.new.tokens ≡ out.old.tokens ++ tokens_of_members (parts.standing row.now)) }
    ensures before { out.new.before ≡ out.old.before }
{
    text_member("schedulerId", row.definition().scheduler_id.as_str(), out)?;
    text_member("state", task_state_name(row.state()), out)
}

/// Writes its ids.
fn write_ids(row: &TaskRow, out: &mut Writer) -> Result<(), AllocError>
    ensures ok { OnOk result (out.new.tokens ≡ out.old.tokens ++ tokens_of_members (parts.ids row.now)) }
    ensures before { out.new.before ≡ out.old.before }
{
    id_member("taskGroupId", row.definition().task_group_id, out)?;
    id_member("taskId", row.id(), out)
}

/// Writes where the task waits for a worker.
fn write_place(alloc: Global, queue: &TaskQueue, out: &mut Writer) -> Result<(), AllocError>
    ensures ok { OnOk result (out.new.tokens ≡ out.old.tokens ++ tokens_of_members (parts.place queue.now)) }
    ensures before { out.new.before ≡ out.old.before }
{
    let name = queue.name(alloc)?;
    text_member("taskQueueId", name.as_str(), out)?;
    text_member("workerType", queue.worker_type.as_str(), out)
}
