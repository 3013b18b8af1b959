//! What comes of a hook that is triggered.
ghost use Rattle.std.specs.Prelude.{◌≡◌, ◌≢◌, Some, None, IfOk};
ghost use Rattle.scope_sets.specs.Expressions.{missing};
ghost use Rattle.call_rules.specs.Policy.{create_policy as create_expression};
ghost use Rattle.farm_asks.specs.Access.{Access};
ghost use Rattle.farm_machine.specs.Calls.TriggerHook.{hook_at, ComesTo, HookMay, by_access, fault_answer, unless_lacking};
ghost use Rattle.farm_machine.specs.Firings.{outcome_of, fired_by};

use crate::case::Scene;
use call_rules::{HookName, create_policy, hook_scope};
use farm_asks::answers;
use farm_asks::question::{BodyFault, Trigger};
use farm_asks::reply::Answer;
use hook_fire::{FireFault, fire};
use role_expand::ExpandFault;
use scope_sets::{ScopeSet, missing};
use std::alloc::{AllocError, Global};
use task_types::Creation;

/// What comes of a hook that is triggered.
#[derive(Drop)]
pub(crate) enum Firing {
    /// The call is refused with this answer.
    Refuses(Answer),
    /// This task is to be made.
    Makes(Creation),
}

/// What comes of a hook that is triggered: its template is rendered once.
pub(crate) fn firing_of(
    alloc: Global,
    trigger: &Trigger,
    at: &Scene<'_>,
) -> Result<Firing, AllocError>
    requires { hook_at trigger.now.hook at.now ≢ None }
    ensures { IfOk result (λ firing. ComesTo trigger.now at.now (outcome_of firing)) }
{
    let name = &trigger.hook;
    let Some(hook) = at.config.hooks.find(name.group.as_str(), name.id.as_str()) else {
        unreachable!();
    };
    match fire(alloc, hook, trigger.payload.as_doc(), at.moment, at.drawn) {
        Ok(definition) => {
            let id = at.drawn;
            granted(alloc, name, Creation { id, definition }, at)
        }
        Err(fault) => Ok(Firing::Refuses(refusal(alloc, fault)?)),
    }
}

/// What comes of a task that a hook makes: whether the hook's scopes hold what it asks.
fn granted(
    alloc: Global,
    name: &HookName,
    creation: Creation,
    at: &Scene<'_>,
) -> Result<Firing, AllocError>
    ensures { IfOk result (λ firing. (access : Access) × HookMay at.now.state.config name.now access
        × (outcome_of firing ≡ by_access creation access)) }
{
    let refused = match refusal_of_hook(alloc, name, &creation, at) {
        Ok(refused) => refused,
        Err(error) => {
            drop(creation);
            return Err(error);
        }
    };
    match refused {
        Some(answer) => {
            drop(creation);
            Ok(Firing::Refuses(answer))
        }
        None => Ok(Firing::Makes(creation)),
    }
}

/// The answer that refuses a task that a hook makes, if the hook's scopes do not hold what it asks.
fn refusal_of_hook(
    alloc: Global,
    name: &HookName,
    creation: &Creation,
    at: &Scene<'_>,
) -> Result<Option<Answer>, AllocError>
    ensures { IfOk result (λ answer. (access : Access) × HookMay at.now.state.config name.now access
        × (fired_by creation.now answer ≡ by_access creation.now access)) }
{
    let start = hook_scope(alloc, name)?;
    match at.config.roles.roles().expand(alloc, &[start]) {
        Ok(scopes) => refusal_within(alloc, &scopes, creation),
        Err(ExpandFault::TooMany) => Ok(Some(answers::expansion_limit(alloc)?)),
        Err(ExpandFault::NoMemory) => Err(AllocError),
    }
}

/// The answer that refuses a task, if these scopes do not hold what it asks.
fn refusal_within(
    alloc: Global,
    scopes: &ScopeSet,
    creation: &Creation,
) -> Result<Option<Answer>, AllocError>
    ensures { IfOk result (λ answer. fired_by creation.now answer
        ≡ unless_lacking creation.now (missing scopes.now (create_expression creation.now.definition))) }
{
    let asked = create_policy(alloc, &creation.definition)?;
    match missing(alloc, scopes, &asked)? {
        Some(lack) => Ok(Some(answers::hook_insufficient_scopes(alloc, &lack)?)),
        None => Ok(None),
    }
}

/// The answer where a firing makes no definition.
fn refusal(alloc: Global, fault: FireFault) -> Result<Answer, AllocError>
    ensures { IfOk result (λ answer. fault_answer fault ≡ Some answer) }
{
    match fault {
        FireFault::Template(fault) => {
            answers::template_fault(alloc, fault.rule.rule(), fault.path.as_str())
        }
        FireFault::TooMuchWork => answers::too_costly(alloc),
        FireFault::Definition(fault) => answers::bad_body(alloc, &BodyFault::NoDefinition(fault)),
        FireFault::NoMemory => Err(AllocError),
    }
}
