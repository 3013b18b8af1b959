//! What scheduling a task, running it again and canceling it ask.
ghost use Rattle.std.specs.Prelude.{◌≡◌, All, string_bytes, IsTrue, IfOk};
ghost use Rattle.scope_sets.specs.Scopes.{IsPrintable};
ghost use Rattle.scope_sets.specs.Expressions.{view};
ghost use Rattle.call_rules.specs.Policy as table;
ghost use Rattle.call_rules.specs.Texts.{are_printable};

use crate::scopes::{joined, scope_of};
use farm_text::SlugId;
use scope_sets::Expr;
use std::alloc::{AllocError, Global};
use task_types::TaskDef;

/// The scopes of scheduleTask, of which one is asked.
pub fn schedule_scopes(alloc: Global, id: SlugId, def: &TaskDef) -> Result<Expr, AllocError>
    ensures { IfOk result (λ e. view e ≡ table.schedule_policy id def.now) }
{
    let task = "queue:schedule-task:";
    manage_scopes(alloc, task, "queue:schedule-task-in-project:", id, def)
}

/// The scopes of rerunTask, of which one is asked.
pub fn rerun_scopes(alloc: Global, id: SlugId, def: &TaskDef) -> Result<Expr, AllocError>
    ensures { IfOk result (λ e. view e ≡ table.rerun_policy id def.now) }
{
    let task = "queue:rerun-task:";
    manage_scopes(alloc, task, "queue:rerun-task-in-project:", id, def)
}

/// The scopes of cancelTask, of which one is asked.
pub fn cancel_scopes(alloc: Global, id: SlugId, def: &TaskDef) -> Result<Expr, AllocError>
    ensures { IfOk result (λ e. view e ≡ table.cancel_policy id def.now) }
{
    let task = "queue:cancel-task:";
    manage_scopes(alloc, task, "queue:cancel-task-in-project:", id, def)
}

/// The scope of a task behind one text, or that of its project behind another.
fn manage_scopes(
    alloc: Global,
    task: &str,
    project: &str,
    id: SlugId,
    def: &TaskDef,
) -> Result<Expr, AllocError>
    requires task { IsTrue (are_printable task.now) }
    requires project { IsTrue (are_printable project.now) }
    ensures { IfOk result (λ e. view e ≡ table.manage_policy task.now project.now id def.now) }
{
    let name = task_name(alloc, id, def)?;
    let task = scope_of(alloc, task, name.as_str())?;
    let project = scope_of(alloc, project, def.project_id.as_str())?;
    let mut members = Vec::new(alloc);
    members.push(Expr::One(task))?;
    members.push(Expr::One(project))?;
    Ok(Expr::AnyOf(members))
}

/// A task as scopes name it.
fn task_name(alloc: Global, id: SlugId, def: &TaskDef) -> Result<String, AllocError>
    ensures name { IfOk result (λ t. string_bytes t ≡ table.task_name id def.now) }
    ensures printable { IfOk result (λ t. All IsPrintable (string_bytes t)) }
{
    // Slugids are printable, since these are the bytes of version 4 UUIDs.
    let _uuid = id.uuid();
    let _group_uuid = def.task_group_id.uuid();
    let task = id.to_text(alloc)?;
    let group = def.task_group_id.to_text(alloc)?;
    let behind = joined(alloc, group.as_str(), task.as_str())?;
    joined(alloc, def.scheduler_id.as_str(), behind.as_str())
}
