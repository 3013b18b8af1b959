//! What createTask asks.
ghost use Rattle.std.specs.Prelude.{◌≡◌, ◌∷◌, ◌++◌, map, codes, All, string_bytes, IfOk, OnOk};
ghost use Rattle.scope_sets.specs.Scopes.{IsPrintable};
ghost use Rattle.scope_sets.specs.Expressions.{view, one, any_of, members_of};
ghost use Rattle.task_types.specs.Choices.{priority_name};
ghost use Rattle.task_types.specs.Forms.{queue_name};
ghost use Rattle.call_rules.specs.Policy as table;

use crate::scopes::scope_of;
use scope_sets::{Expr, Scope};
use std::alloc::{AllocError, Global};
use task_types::{Priority, Route, TaskDef, TaskQueue};

/// What creating a task of this definition asks.
pub fn create_policy(alloc: Global, def: &TaskDef) -> Result<Expr, AllocError>
    ensures { IfOk result (λ e. view e ≡ table.create_policy def.now) }
{
    let mut members = Vec::new(alloc);
    add_scopes(&mut members, def.scopes.list())?;
    add_routes(alloc, &mut members, def.routes.list())?;
    let project = scope_of(alloc, "queue:create-task:project:", def.project_id.as_str())?;
    members.push(Expr::One(project))?;
    let scheduler = scope_of(alloc, "queue:scheduler-id:", def.scheduler_id.as_str())?;
    members.push(Expr::One(scheduler))?;
    members.push(Expr::AnyOf(create_scopes(alloc, def.priority, &def.queue)?))?;
    Ok(Expr::AllOf(members))
}

/// Adds each of the task's scopes.
fn add_scopes(members: &mut Vec<Expr>, scopes: &[Scope]) -> Result<(), AllocError>
    ensures { OnOk result (map view members.new.items ≡ map view members.old.items ++ map one scopes.now) }
{
    for scope in scopes {
        members.push(Expr::One(scope.clone()?))?;
    }
    Ok(())
}

/// Adds the scope of each route.
fn add_routes(alloc: Global, members: &mut Vec<Expr>, routes: &[Route]) -> Result<(), AllocError>
    ensures { OnOk result (map view members.new.items
        ≡ map view members.old.items ++ map (λ route. one (codes "queue:route:" ++ route)) routes.now) }
{
    for route in routes {
        members.push(Expr::One(scope_of(alloc, "queue:route:", route.as_str())?))?;
    }
    Ok(())
}

/// The priorities, the highest first.
const PRIORITIES: [Priority; 7] = [
    Priority::Highest,
    Priority::VeryHigh,
    Priority::High,
    Priority::Medium,
    Priority::Low,
    Priority::VeryLow,
    Priority::Lowest,
];

/// The scopes of which one is asked: those to create tasks in the queue of this priority or a higher one.
fn create_scopes(alloc: Global, least: Priority, queue: &TaskQueue) -> Result<Vec<Expr>, AllocError>
    ensures { IfOk result (λ members. map view members.items
        ≡ map (λ p. one (table.create_scope queue.now p)) (table.from_highest least)) }
{
    let mut members = Vec::new(alloc);
    for priority in &PRIORITIES[..rank(least) + 1] {
        members.push(Expr::One(create_scope(alloc, *priority, queue)?))?;
    }
    Ok(members)
}

/// The place of a priority, from the highest.
fn rank(priority: Priority) -> usize
    ensures { result ≡ table.rank priority }
{
    match priority {
        Priority::Highest => 0,
        Priority::VeryHigh => 1,
        Priority::High => 2,
        Priority::Medium => 3,
        Priority::Low => 4,
        Priority::VeryLow => 5,
        Priority::Lowest => 6,
    }
}

/// The scope to create tasks of this priority in the queue.
fn create_scope(alloc: Global, priority: Priority, queue: &TaskQueue) -> Result<Scope, AllocError>
    ensures { IfOk result (λ s. s ≡ table.create_scope queue.now priority) }
{
    let name = create_name(alloc, priority, queue)?;
    scope_of(alloc, "queue:create-task:", name.as_str())
}

/// A priority and the queue's name, as that scope names them.
fn create_name(alloc: Global, priority: Priority, queue: &TaskQueue) -> Result<String, AllocError>
    ensures name { IfOk result (λ t. string_bytes t
        ≡ priority_name priority ++ 58 ∷ queue_name queue.now.provisioner_id queue.now.worker_type) }
    ensures printable { IfOk result (λ t. All IsPrintable (string_bytes t)) }
{
    let mut name = String::from_str(alloc, priority.name())?;
    name.push_str(":")?;
    name.push_str(queue.provisioner_id.as_str())?;
    name.push_str("/")?;
    name.push_str(queue.worker_type.as_str())?;
    Ok(name)
}
