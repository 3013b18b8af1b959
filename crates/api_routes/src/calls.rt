//! What each route calls.
ghost use Rattle.std.specs.Prelude.{◌≡◌, [], ◌∷◌, IfOk, map, length};
ghost use Rattle.percent_encoding.specs.Percent.{percent_decode};
ghost use Rattle.farm_text.specs.Slug.{slug_of};
ghost use Rattle.task_types.specs.Forms.{queue_name};
ghost use Rattle.api_routes.specs.Arity.{arity};
ghost use Rattle.api_routes.specs.Bodies.{IsReasonBody, IsWorkBody};
ghost use Rattle.api_routes.specs.Calls.{Calls, CallsTask, CallsCreate, CallsRun, CallsQueue, CallsOfQueue, CallsList, CallsHook, Reclaims, Reports, Counts};

use crate::bodies::{definition_call, payload_call, reason_call, work_call};
use crate::parts::{
    Named, decoded, decoded_id, hook_group_id, hook_id, name_in_two, queue_of, run_name,
};
use crate::queries::{PageAsked, page_of};
use call_rules::HookName;
use farm_asks::question::{Call, Parameter};
use route_table::Route;
use std::alloc::{AllocError, Global};
use task_types::{Report, Resolution};

/// The call of a route with these parts of the path for its parameters, percent-encoded, with this query and this body.
pub(crate) fn route_call(
    alloc: Global,
    route: Route,
    parts: &[&[u8]],
    query: &[u8],
    body: &[u8],
) -> Result<Call, AllocError>
    requires { length parts.now ≡ arity route }
    ensures { IfOk result (Calls route (record {
      parts = map percent_decode (map (λ part. part.now) parts.now);
      query = query.now;
      body = body.now;
    })) }
{
    match route {
        Route::Ping => Ok(Call::Ping),
        Route::CreateTask => create_call(alloc, parts[0], body),
        Route::Task => task_call(alloc, parts[0]),
        Route::Status => status_call(alloc, parts[0]),
        Route::ScheduleTask => schedule_call(alloc, parts[0]),
        Route::RerunTask => rerun_call(alloc, parts[0]),
        Route::CancelTask => cancel_call(alloc, parts[0]),
        Route::ClaimWork => claim_call(alloc, parts[0], body),
        Route::ClaimWorkInTwo => claim_in_two(alloc, parts[0], parts[1], body),
        Route::ReclaimTask => reclaim_call(alloc, parts[0], parts[1]),
        Route::ReportCompleted => report_call(alloc, parts[0], parts[1], Report::Completed),
        Route::ReportFailed => report_call(alloc, parts[0], parts[1], Report::Failed),
        Route::ReportException => exception_call(alloc, parts[0], parts[1], body),
        Route::ListTaskGroup => group_call(alloc, parts[0], query),
        Route::ListDependentTasks => dependants_call(alloc, parts[0], query),
        Route::PendingTasks => pending_call(alloc, parts[0]),
        Route::PendingTasksInTwo => pending_in_two(alloc, parts[0], parts[1]),
        Route::TriggerHook => trigger_call(alloc, parts[0], parts[1], body),
    }
}

/// The call to make the task whose id is percent-encoded in a path, with this body.
fn create_call(alloc: Global, id: &[u8], body: &[u8]) -> Result<Call, AllocError>
    ensures { IfOk result (CallsCreate body.now (percent_decode id.now ∷ [])) }
{
    match decoded_id(alloc, id)? {
        Some(id) => definition_call(alloc, id, body),
        None => Ok(Call::BadParameter(Parameter::TaskId)),
    }
}

/// The call of the definition of the task whose id is percent-encoded in a path.
fn task_call(alloc: Global, id: &[u8]) -> Result<Call, AllocError>
    ensures { IfOk result (CallsTask Call.Task (percent_decode id.now ∷ [])) }
{
    match decoded_id(alloc, id)? {
        Some(id) => Ok(Call::Task(id)),
        None => Ok(Call::BadParameter(Parameter::TaskId)),
    }
}

/// The call of its status.
fn status_call(alloc: Global, id: &[u8]) -> Result<Call, AllocError>
    ensures { IfOk result (CallsTask Call.Status (percent_decode id.now ∷ [])) }
{
    match decoded_id(alloc, id)? {
        Some(id) => Ok(Call::Status(id)),
        None => Ok(Call::BadParameter(Parameter::TaskId)),
    }
}

/// The call to schedule it.
fn schedule_call(alloc: Global, id: &[u8]) -> Result<Call, AllocError>
    ensures { IfOk result (CallsTask Call.ScheduleTask (percent_decode id.now ∷ [])) }
{
    match decoded_id(alloc, id)? {
        Some(id) => Ok(Call::ScheduleTask(id)),
        None => Ok(Call::BadParameter(Parameter::TaskId)),
    }
}

/// The call to run it again.
fn rerun_call(alloc: Global, id: &[u8]) -> Result<Call, AllocError>
    ensures { IfOk result (CallsTask Call.RerunTask (percent_decode id.now ∷ [])) }
{
    match decoded_id(alloc, id)? {
        Some(id) => Ok(Call::RerunTask(id)),
        None => Ok(Call::BadParameter(Parameter::TaskId)),
    }
}

/// The call to cancel it.
fn cancel_call(alloc: Global, id: &[u8]) -> Result<Call, AllocError>
    ensures { IfOk result (CallsTask Call.CancelTask (percent_decode id.now ∷ [])) }
{
    match decoded_id(alloc, id)? {
        Some(id) => Ok(Call::CancelTask(id)),
        None => Ok(Call::BadParameter(Parameter::TaskId)),
    }
}

/// The call to keep a run for longer, whose task and number are percent-encoded in a path.
fn reclaim_call(alloc: Global, id: &[u8], run: &[u8]) -> Result<Call, AllocError>
    ensures { IfOk result (CallsRun Reclaims (percent_decode id.now ∷ percent_decode run.now ∷ [])) }
{
    match run_name(alloc, id, run)? {
        Named::Run(name) => Ok(Call::ReclaimTask(name)),
        Named::Bad(parameter) => Ok(Call::BadParameter(parameter)),
    }
}

/// The report that such a run ended so.
fn report_call(alloc: Global, id: &[u8], run: &[u8], reason: Report) -> Result<Call, AllocError>
    ensures { IfOk result (CallsRun (Reports reason) (percent_decode id.now ∷ percent_decode run.now ∷ [])) }
{
    match run_name(alloc, id, run)? {
        Named::Run(name) => Ok(Call::ReportRun(Resolution {
            id: name.id,
            run: name.run,
            reason,
        })),
        Named::Bad(parameter) => Ok(Call::BadParameter(parameter)),
    }
}

/// The report that such a run ended as an exception, for the reason that the body says.
fn exception_call(alloc: Global, id: &[u8], run: &[u8], body: &[u8]) -> Result<Call, AllocError>
    ensures { IfOk result (CallsRun (IsReasonBody body.now) (percent_decode id.now ∷ percent_decode run.now ∷ [])) }
{
    match run_name(alloc, id, run)? {
        Named::Run(name) => reason_call(alloc, name, body),
        Named::Bad(parameter) => Ok(Call::BadParameter(parameter)),
    }
}

/// The call to claim work of the queue whose name is percent-encoded in one part of a path.
fn claim_call(alloc: Global, queue: &[u8], body: &[u8]) -> Result<Call, AllocError>
    ensures { IfOk result (CallsOfQueue (IsWorkBody body.now) (percent_decode queue.now ∷ [])) }
{
    let name = decoded(alloc, queue)?;
    claim_of(alloc, &name, body)
}

/// The same, where the name is two parts.
fn claim_in_two(
    alloc: Global,
    provisioner: &[u8],
    worker: &[u8],
    body: &[u8],
) -> Result<Call, AllocError>
    ensures { IfOk result (CallsOfQueue (IsWorkBody body.now) (percent_decode provisioner.now ∷ percent_decode worker.now ∷ [])) }
{
    let name = name_in_two(alloc, provisioner, worker)?;
    claim_of(alloc, &name, body)
}

/// The call to claim work of the queue of this name.
fn claim_of(alloc: Global, name: &[u8], body: &[u8]) -> Result<Call, AllocError>
    ensures { IfOk result (CallsQueue (IsWorkBody body.now) name.now) }
{
    match queue_of(alloc, name)? {
        Some(queue) => work_call(alloc, queue, body),
        None => Ok(Call::BadParameter(Parameter::Queue)),
    }
}

/// The call of how many tasks wait in the queue whose name is percent-encoded in one part of a path.
fn pending_call(alloc: Global, queue: &[u8]) -> Result<Call, AllocError>
    ensures { IfOk result (CallsOfQueue Counts (percent_decode queue.now ∷ [])) }
{
    let name = decoded(alloc, queue)?;
    pending_of(alloc, &name)
}

/// The same, where the name is two parts.
fn pending_in_two(alloc: Global, provisioner: &[u8], worker: &[u8]) -> Result<Call, AllocError>
    ensures { IfOk result (CallsOfQueue Counts (percent_decode provisioner.now ∷ percent_decode worker.now ∷ [])) }
{
    let name = name_in_two(alloc, provisioner, worker)?;
    pending_of(alloc, &name)
}

/// The call of how many tasks wait in the queue of this name.
fn pending_of(alloc: Global, name: &[u8]) -> Result<Call, AllocError>
    ensures { IfOk result (CallsQueue Counts name.now) }
{
    match queue_of(alloc, name)? {
        Some(queue) => Ok(Call::PendingTasks(queue)),
        None => Ok(Call::BadParameter(Parameter::Queue)),
    }
}

/// The call to list the tasks of the group whose id is percent-encoded in a path, by the page that a query asks for.
fn group_call(alloc: Global, group: &[u8], query: &[u8]) -> Result<Call, AllocError>
    ensures { IfOk result (CallsList Call.ListTaskGroup Parameter.TaskGroupId query.now (percent_decode group.now ∷ [])) }
{
    let group = match decoded_id(alloc, group)? {
        Some(group) => group,
        None => return Ok(Call::BadParameter(Parameter::TaskGroupId)),
    };
    match page_of(alloc, query)? {
        PageAsked::Page(page) => Ok(Call::ListTaskGroup(group, page)),
        PageAsked::Bad(parameter) => Ok(Call::BadParameter(parameter)),
    }
}

/// The same for the tasks that wait for the task of such an id.
fn dependants_call(alloc: Global, id: &[u8], query: &[u8]) -> Result<Call, AllocError>
    ensures { IfOk result (CallsList Call.ListDependentTasks Parameter.TaskId query.now (percent_decode id.now ∷ [])) }
{
    let id = match decoded_id(alloc, id)? {
        Some(id) => id,
        None => return Ok(Call::BadParameter(Parameter::TaskId)),
    };
    match page_of(alloc, query)? {
        PageAsked::Page(page) => Ok(Call::ListDependentTasks(id, page)),
        PageAsked::Bad(parameter) => Ok(Call::BadParameter(parameter)),
    }
}

/// The call to trigger the hook whose group and id are percent-encoded in a path, with this body.
fn trigger_call(alloc: Global, group: &[u8], id: &[u8], body: &[u8]) -> Result<Call, AllocError>
    ensures { IfOk result (CallsHook body.now (percent_decode group.now ∷ percent_decode id.now ∷ [])) }
{
    let Some(group) = hook_group_id(alloc, group)? else {
        return Ok(Call::BadParameter(Parameter::HookGroupId));
    };
    let Some(id) = hook_id(alloc, id)? else {
        return Ok(Call::BadParameter(Parameter::HookId));
    };
    payload_call(alloc, HookName { group, id }, body)
}
