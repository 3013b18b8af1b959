//! What the calls ask that only read.
ghost use Rattle.std.specs.Prelude.{◌≡◌, IsTrue, IfOk};
ghost use Rattle.scope_sets.specs.Expressions.{view};
ghost use Rattle.call_rules.specs.Policy.{id_policy, task_policy, status_policy, group_policy, dependants_policy, pending_policy};
ghost use Rattle.call_rules.specs.Texts.{are_printable};

use crate::scopes::scope_of;
use crate::work::pair_scope;
use farm_text::SlugId;
use scope_sets::Expr;
use std::alloc::{AllocError, Global};
use task_types::TaskQueue;

/// The scope of a task's definition.
pub fn task_scope(alloc: Global, id: SlugId) -> Result<Expr, AllocError>
    ensures { IfOk result (λ e. view e ≡ task_policy id) }
{
    id_scope(alloc, "queue:get-task:", id)
}

/// The scope of a task's status.
pub fn status_scope(alloc: Global, id: SlugId) -> Result<Expr, AllocError>
    ensures { IfOk result (λ e. view e ≡ status_policy id) }
{
    id_scope(alloc, "queue:status:", id)
}

/// The scope of the tasks of a group.
pub fn list_group_scope(alloc: Global, group: SlugId) -> Result<Expr, AllocError>
    ensures { IfOk result (λ e. view e ≡ group_policy group) }
{
    id_scope(alloc, "queue:list-task-group:", group)
}

/// The scope of the tasks that wait for a task.
pub fn list_dependants_scope(alloc: Global, id: SlugId) -> Result<Expr, AllocError>
    ensures { IfOk result (λ e. view e ≡ dependants_policy id) }
{
    id_scope(alloc, "queue:list-dependent-tasks:", id)
}

/// The scope that begins so and goes on with an id.
fn id_scope(alloc: Global, front: &str, id: SlugId) -> Result<Expr, AllocError>
    requires { IsTrue (are_printable front.now) }
    ensures { IfOk result (λ e. view e ≡ id_policy front.now id) }
{
    // A slugid is printable, since these are the bytes of a version 4 UUID.
    let _uuid = id.uuid();
    let name = id.to_text(alloc)?;
    Ok(Expr::One(scope_of(alloc, front, name.as_str())?))
}

/// The scope of how many tasks wait in a queue.
pub fn pending_scope(alloc: Global, queue: &TaskQueue) -> Result<Expr, AllocError>
    ensures { IfOk result (λ e. view e ≡ pending_policy queue.now) }
{
    let front = "queue:pending-count:";
    let scope = pair_scope(alloc, front, &queue.provisioner_id, &queue.worker_type)?;
    Ok(Expr::One(scope))
}
