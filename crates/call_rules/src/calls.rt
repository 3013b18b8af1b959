//! The calls, and what each asks.
ghost use Rattle.std.specs.Prelude.{◌≡◌, IfOk};
ghost use Rattle.scope_sets.specs.Expressions.{view, all_of, no_members};
ghost use Rattle.call_rules.specs.Policy.{policy};

use crate::create::create_policy;
use crate::hook_names::HookName;
use crate::hooks::trigger_scope;
use crate::manage::{cancel_scopes, rerun_scopes, schedule_scopes};
use crate::reads::{
    list_dependants_scope, list_group_scope, pending_scope, status_scope, task_scope,
};
use crate::work::{claim_scopes, reclaim_scope, resolve_scope};
use farm_text::SlugId;
use scope_sets::Expr;
use std::alloc::{AllocError, Global};
use task_types::{Identifier, TaskDef, TaskQueue};

/// A call, with what its scopes name.
#[derive(Clone, Copy)]
pub enum Call<'a> {
    /// Whether the farm is there.
    Ping,
    /// The definition of the task with this id.
    Task(SlugId),
    /// The status of the task with this id.
    Status(SlugId),
    /// The tasks of the group with this id.
    ListTaskGroup(SlugId),
    /// The tasks that wait for the task with this id.
    ListDependentTasks(SlugId),
    /// How many tasks wait in this queue.
    PendingTasks(&'a TaskQueue),
    /// To make a task of this definition.
    CreateTask(&'a TaskDef),
    /// To take work of this queue, as the worker of this group and id.
    ClaimWork(&'a TaskQueue, &'a Identifier, &'a Identifier),
    /// To keep the run of this number of the task with this id for longer.
    ReclaimTask(SlugId, u8),
    /// To report how the run of this number of the task with this id ended: reportCompleted, reportFailed and reportException.
    ResolveRun(SlugId, u8),
    /// To schedule the task with this id and definition.
    ScheduleTask(SlugId, &'a TaskDef),
    /// To run the task with this id and definition again.
    RerunTask(SlugId, &'a TaskDef),
    /// To cancel the task with this id and definition.
    CancelTask(SlugId, &'a TaskDef),
    /// To trigger the hook of this name.
    TriggerHook(&'a HookName),
}

/// What the call asks of its caller's scopes.
pub fn expression(alloc: Global, call: Call<'_>) -> Result<Expr, AllocError>
    ensures { IfOk result (λ e. view e ≡ policy call.entry) }
{
    match call {
        Call::Ping => Ok(ping_scopes(alloc)),
        Call::Task(id) => task_scope(alloc, id),
        Call::Status(id) => status_scope(alloc, id),
        Call::ListTaskGroup(group) => list_group_scope(alloc, group),
        Call::ListDependentTasks(id) => list_dependants_scope(alloc, id),
        Call::PendingTasks(queue) => pending_scope(alloc, queue),
        Call::CreateTask(def) => create_policy(alloc, def),
        Call::ClaimWork(queue, group, id) => claim_scopes(alloc, queue, group, id),
        Call::ReclaimTask(id, run) => reclaim_scope(alloc, id, run),
        Call::ResolveRun(id, run) => resolve_scope(alloc, id, run),
        Call::ScheduleTask(id, def) => schedule_scopes(alloc, id, def),
        Call::RerunTask(id, def) => rerun_scopes(alloc, id, def),
        Call::CancelTask(id, def) => cancel_scopes(alloc, id, def),
        Call::TriggerHook(hook) => trigger_scope(alloc, hook),
    }
}

/// A ping asks for nothing.
pub fn ping_scopes(alloc: Global) -> Expr
    ensures { view result ≡ all_of no_members }
{
    Expr::AllOf(Vec::new(alloc))
}
