//! What the calls of workers ask.
ghost use Rattle.std.specs.Prelude.{◌≡◌, ◌∷◌, ◌++◌, All, string_bytes, IsTrue, IfOk};
ghost use Rattle.scope_sets.specs.Scopes.{IsPrintable};
ghost use Rattle.scope_sets.specs.Expressions.{view};
ghost use Rattle.call_rules.specs.Policy as table;
ghost use Rattle.call_rules.specs.Texts.{are_printable};

use crate::scopes::{joined, scope_of};
use farm_text::SlugId;
use itoa::Buffer;
use scope_sets::{Expr, Scope};
use std::alloc::{AllocError, Global};
use task_types::{Identifier, TaskQueue};

/// The scopes of claimWork: to take work of the queue, as the worker of this group and id.
pub fn claim_scopes(
    alloc: Global,
    queue: &TaskQueue,
    group: &Identifier,
    id: &Identifier,
) -> Result<Expr, AllocError>
    ensures { IfOk result (λ e. view e ≡ table.claim_policy queue.now group.now id.now) }
{
    let front = "queue:claim-work:";
    let claim = pair_scope(alloc, front, &queue.provisioner_id, &queue.worker_type)?;
    let worker = pair_scope(alloc, "queue:worker-id:", group, id)?;
    let mut members = Vec::new(alloc);
    members.push(Expr::One(claim))?;
    members.push(Expr::One(worker))?;
    Ok(Expr::AllOf(members))
}

/// The scope that begins so and goes on with two identifiers, with a slash between them.
pub(crate) fn pair_scope(
    alloc: Global,
    front: &str,
    a: &Identifier,
    b: &Identifier,
) -> Result<Scope, AllocError>
    requires { IsTrue (are_printable front.now) }
    ensures { IfOk result (λ s. s ≡ front.now ++ (a.now ++ 47 ∷ b.now)) }
{
    let name = joined(alloc, a.as_str(), b.as_str())?;
    scope_of(alloc, front, name.as_str())
}

/// The scope to keep a run for longer.
pub fn reclaim_scope(alloc: Global, id: SlugId, run: u8) -> Result<Expr, AllocError>
    ensures { IfOk result (λ e. view e ≡ table.reclaim_policy id run) }
{
    let name = run_name(alloc, id, run)?;
    Ok(Expr::One(scope_of(alloc, "queue:reclaim-task:", name.as_str())?))
}

/// The scope to report how a run ended.
pub fn resolve_scope(alloc: Global, id: SlugId, run: u8) -> Result<Expr, AllocError>
    ensures { IfOk result (λ e. view e ≡ table.resolve_policy id run) }
{
    let name = run_name(alloc, id, run)?;
    Ok(Expr::One(scope_of(alloc, "queue:resolve-task:", name.as_str())?))
}

/// A run as scopes and answers name it.
pub fn run_name(alloc: Global, id: SlugId, run: u8) -> Result<String, AllocError>
    ensures name { IfOk result (λ t. string_bytes t ≡ table.run_name id run) }
    ensures printable { IfOk result (λ t. All IsPrintable (string_bytes t)) }
{
    // A slugid is printable, since these are the bytes of a version 4 UUID.
    let _uuid = id.uuid();
    let name = id.to_text(alloc)?;
    let mut buffer = Buffer::new();
    joined(alloc, name.as_str(), buffer.format(run))
}
