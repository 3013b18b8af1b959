//! What hooks ask, and what their tasks start with.
ghost use Rattle.std.specs.Prelude.{◌≡◌, All, string_bytes, IfOk};
ghost use Rattle.scope_sets.specs.Scopes.{IsPrintable};
ghost use Rattle.scope_sets.specs.Expressions.{view};
ghost use Rattle.call_rules.specs.HookNames as names;
ghost use Rattle.call_rules.specs.Policy.{trigger_policy, hook_start};

use crate::hook_names::HookName;
use crate::scopes::{joined, scope_of};
use scope_sets::{Expr, Scope};
use std::alloc::{AllocError, Global};

/// A hook as scopes and answers name it: its group, a slash and its id.
pub fn hook_name(alloc: Global, hook: &HookName) -> Result<String, AllocError>
    ensures name { IfOk result (λ t. string_bytes t ≡ names.hook_name hook.now.group hook.now.id) }
    ensures printable { IfOk result (λ t. All IsPrintable (string_bytes t)) }
{
    joined(alloc, hook.group.as_str(), hook.id.as_str())
}

/// The scope to trigger a hook.
pub fn trigger_scope(alloc: Global, hook: &HookName) -> Result<Expr, AllocError>
    ensures { IfOk result (λ e. view e ≡ trigger_policy hook.now) }
{
    let name = hook_name(alloc, hook)?;
    Ok(Expr::One(scope_of(alloc, "hooks:trigger-hook:", name.as_str())?))
}

/// The scope that what a hook makes starts with.
pub fn hook_scope(alloc: Global, hook: &HookName) -> Result<Scope, AllocError>
    ensures { IfOk result (λ s. s ≡ hook_start hook.now) }
{
    let name = hook_name(alloc, hook)?;
    scope_of(alloc, "assume:hook-id:", name.as_str())
}
