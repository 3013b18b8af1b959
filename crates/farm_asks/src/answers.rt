//! The answers of calls: statuses of HTTP (RFC 9110), and bodies as JSON (RFC 8259).

ghost use Rattle.std.specs.Prelude.{◌≡◌, ◌≢◌, ◌<◌, ◌^◌, [], ◌∷◌, codes, pos, Err, IfOk};
ghost use Rattle.farm_asks.specs.Expressions.{document_of};
ghost use Rattle.farm_asks.specs.Replies.{ok, not_found, input_error, bad_parameter, bad_body, too_late, bad_dependency, pending_body, conflict, other_scheduler, farm_full, status_body, not_authentic, skewed, overstepping, expansion_limit, insufficient_scopes, hook_insufficient_scopes, template_fault, too_costly, error_text};
ghost use Rattle.hawk_auth.specs.Access.{UnlessNoMemory};
ghost use Rattle.farm_asks.specs.Access.{Refused, access_by};
ghost use Rattle.farm_asks.specs.Told.{HasSeconds};
ghost use Rattle.farm_text.specs.Doc.{document};
ghost use Rattle.farm_text.specs.Document.{document_text, members_of, no_members, put, text, whole};
ghost use Rattle.farm_text.specs.Entries.{held};
ghost use Rattle.farm_text.specs.Slug.{slug_text};
ghost use Rattle.call_rules.specs.HookNames.{hook_name as name_of_hook};
ghost use Rattle.call_rules.specs.Policy.{run_name};
ghost use Rattle.scope_sets.specs.Expressions.{view};

use crate::bodies::{conflict_text, status_text};
use crate::expressions::expression_doc;
use crate::question::BodyFault;
use crate::reply::Answer;
use crate::status_code::StatusCode;
use call_rules::{HookName, hook_name, run_name};
use farm_text::{Doc, Entries, SlugId, Text};
use hawk_auth::AuthFault;
use run_states::TaskRow;
use scope_sets::Expr;
use std::alloc::{AllocError, Global};
use task_types::{RunName, TaskQueue};

/// A call is done, with this body.
pub fn ok(body: Text) -> Answer
    ensures { result ≡ ok body }
{
    Answer {
        status: StatusCode::OK,
        body,
    }
}

/// Nothing of this kind has that name.
pub fn not_found(alloc: Global, kind: &str, name: &str) -> Result<Answer, AllocError>
    ensures { IfOk result (λ a. a ≡ not_found kind.now name.now) }
{
    let kinds = with_text(alloc, Entries::new(alloc), "kind", kind)?;
    let details = with_text(alloc, kinds, "name", name)?;
    Ok(Answer {
        status: StatusCode::NOT_FOUND,
        body: error_text(alloc, "ResourceNotFound", details, "nothing has that name")?,
    })
}

/// No task has this id.
pub fn no_task(alloc: Global, id: SlugId) -> Result<Answer, AllocError>
    ensures { IfOk result (λ a. a ≡ not_found (codes "task") (slug_text id)) }
{
    let name = id.to_text(alloc)?;
    not_found(alloc, "task", name.as_str())
}

/// The task has no run of this number.
pub fn no_run(alloc: Global, name: RunName) -> Result<Answer, AllocError>
    ensures { IfOk result (λ a. a ≡ not_found (codes "run") (run_name name.id name.run)) }
{
    let text = run_name(alloc, name.id, name.run)?;
    not_found(alloc, "run", text.as_str())
}

/// No task is of this group.
pub fn no_group(alloc: Global, group: SlugId) -> Result<Answer, AllocError>
    ensures { IfOk result (λ a. a ≡ not_found (codes "group") (slug_text group)) }
{
    let name = group.to_text(alloc)?;
    not_found(alloc, "group", name.as_str())
}

/// No hook has this name.
pub fn no_hook(alloc: Global, hook: &HookName) -> Result<Answer, AllocError>
    ensures { IfOk result (λ a. a ≡ not_found (codes "hook") (name_of_hook hook.now.group hook.now.id)) }
{
    let name = hook_name(alloc, hook)?;
    not_found(alloc, "hook", name.as_str())
}

/// The request breaks a rule, which these details tell.
fn input_error(alloc: Global, details: Entries) -> Result<Answer, AllocError>
    ensures { IfOk result (λ a. a ≡ record {
      status = 400;
      body = error_text (codes "InputError") (held details) (codes "the request breaks a rule");
    }) }
{
    Ok(Answer {
        status: StatusCode::BAD_REQUEST,
        body: error_text(alloc, "InputError", details, "the request breaks a rule")?,
    })
}

/// The request breaks this rule.
fn broken_rule(alloc: Global, rule: u8) -> Result<Answer, AllocError>
    ensures { IfOk result (λ a. a ≡ input_error ((codes "rule", whole (pos rule)) ∷ [])) }
{
    let details = Entries::new(alloc).with(alloc, "rule", Doc::Int(i64::from(rule)))?;
    input_error(alloc, details)
}

/// The request breaks this rule, with the text that is told at this key.
fn broken_with(alloc: Global, key: &str, value: &str, rule: u8) -> Result<Answer, AllocError>
    ensures { IfOk result (λ a. a ≡ record {
      status = 400;
      body = error_text (codes "InputError") (put (codes "rule") (whole (pos rule)) (put key.now (text value.now) no_members)) (codes "the request breaks a rule");
    }) }
{
    let told = with_text(alloc, Entries::new(alloc), key, value)?;
    let details = told.with(alloc, "rule", Doc::Int(i64::from(rule)))?;
    input_error(alloc, details)
}

/// This parameter of the target is off its form.
pub fn bad_parameter(alloc: Global, name: &str) -> Result<Answer, AllocError>
    ensures { IfOk result (λ a. a ≡ bad_parameter name.now) }
{
    broken_with(alloc, "name", name, 22)
}

/// The body is off its form.
pub fn bad_body(alloc: Global, fault: &BodyFault) -> Result<Answer, AllocError>
    ensures { IfOk result (λ a. a ≡ bad_body fault.now) }
{
    match fault {
        BodyFault::NotJson => broken_rule(alloc, 20),
        BodyFault::NotWhole(path) => broken_with(alloc, "path", path.as_str(), 21),
        BodyFault::NoWork => broken_rule(alloc, 23),
        BodyFault::NoReason => broken_rule(alloc, 24),
        BodyFault::NoPayload => broken_rule(alloc, 25),
        BodyFault::NoDefinition(fault) => {
            broken_with(alloc, "key", fault.key.as_str(), fault.rule)
        }
    }
}

/// The template of a hook has the fault of this number, at this place.
pub fn template_fault(alloc: Global, fault: u8, path: &str) -> Result<Answer, AllocError>
    ensures { IfOk result (λ a. a ≡ template_fault fault path.now) }
{
    let details = Entries::new(alloc)
        .with(alloc, "fault", Doc::Int(i64::from(fault)))?
        .with(alloc, "path", Doc::text(alloc, path)?)?
        .with(alloc, "rule", Doc::Int(18))?;
    input_error(alloc, details)
}

/// The template of a hook costs too much.
pub fn too_costly(alloc: Global) -> Result<Answer, AllocError>
    ensures { IfOk result (λ a. a ≡ too_costly) }
{
    broken_rule(alloc, 19)
}

/// The task's deadline is not still to come.
pub fn too_late(alloc: Global) -> Result<Answer, AllocError>
    ensures { IfOk result (λ a. a ≡ too_late) }
{
    broken_rule(alloc, 15)
}

/// This task that a new one waits for breaks this rule.
pub fn bad_dependency(alloc: Global, rule: u8, id: SlugId) -> Result<Answer, AllocError>
    ensures { IfOk result (λ a. a ≡ bad_dependency rule id) }
{
    let name = id.to_text(alloc)?;
    broken_with(alloc, "name", name.as_str(), rule)
}

/// The status of a task is answered.
pub fn status(alloc: Global, row: &TaskRow) -> Result<Answer, AllocError>
    ensures { IfOk result (λ a. a ≡ ok (document_text (status_body row.now))) }
{
    Ok(ok(status_text(alloc, row)?))
}

/// How many tasks wait in a queue, as the body of an answer.
pub fn pending_body(alloc: Global, queue: &TaskQueue, count: u32) -> Result<Doc, AllocError>
    ensures { IfOk result (λ d. document d ≡ pending_body queue.now count) }
{
    let name = queue.name(alloc)?;
    let first = Entries::new(alloc).with(alloc, "taskQueueId", Doc::Text(name))?;
    let second = first.with(alloc, "pendingTasks", Doc::Int(i64::from(count)))?;
    let third = with_text(
        alloc,
        second,
        "provisionerId",
        queue.provisioner_id.as_str(),
    )?;
    let fourth = with_text(alloc, third, "workerType", queue.worker_type.as_str())?;
    Ok(fourth.into_doc())
}

/// The state of this task forbids it, by this rule.
pub fn conflict(alloc: Global, rule: u8, row: &TaskRow) -> Result<Answer, AllocError>
    ensures { IfOk result (λ a. a ≡ conflict rule row.now) }
{
    Ok(Answer {
        status: StatusCode::CONFLICT,
        body: conflict_text(alloc, rule, row)?,
    })
}

/// The tasks of the group have this scheduler, and not the new task's.
pub fn other_scheduler(alloc: Global, kept: &str) -> Result<Answer, AllocError>
    ensures { IfOk result (λ a. a ≡ other_scheduler kept.now) }
{
    let rule = Entries::new(alloc).with(alloc, "rule", Doc::Int(2))?;
    let details = with_text(alloc, rule, "schedulerId", kept)?;
    Ok(Answer {
        status: StatusCode::CONFLICT,
        body: error_text(alloc, "RequestConflict", details, "the state forbids it")?,
    })
}

/// The farm has as many tasks as it takes.
pub fn farm_full(alloc: Global, count: u32) -> Result<Answer, AllocError>
    ensures { IfOk result (λ a. a ≡ farm_full count) }
{
    let details = Entries::new(alloc).with(alloc, "count", Doc::Int(i64::from(count)))?;
    Ok(Answer {
        status: StatusCode::INSUFFICIENT_STORAGE,
        body: error_text(alloc, "FarmFull", details, "the farm is full")?,
    })
}

/// The answer to a caller who is refused so.
pub(crate) fn refused_caller(alloc: Global, fault: &AuthFault) -> Result<Answer, AllocError>
    requires { HasSeconds fault.now }
    ensures answer { IfOk result (λ a. UnlessNoMemory (λ access. access_by access ≡ Refused a) (Err fault.now)) }
    ensures known { IfOk result (λ a. fault.now ≢ AuthFault.NoMemory) }
{
    match fault {
        AuthFault::BadHeader => not_authentic(alloc, "BadHeader"),
        AuthFault::UnknownClient => not_authentic(alloc, "UnknownClient"),
        AuthFault::Disabled => not_authentic(alloc, "Disabled"),
        AuthFault::Expired => not_authentic(alloc, "Expired"),
        AuthFault::Skew { ts, now } => skewed(alloc, *ts, *now),
        AuthFault::BadMac => not_authentic(alloc, "BadMac"),
        AuthFault::BadHash => not_authentic(alloc, "BadHash"),
        AuthFault::BadExt => not_authentic(alloc, "BadExt"),
        AuthFault::Oversteps(lack) => overstepping(alloc, lack),
        AuthFault::TooMany => expansion_limit(alloc),
        AuthFault::NoMemory => Err(AllocError),
    }
}

/// The caller's credentials are not accepted, for this reason.
fn not_authentic(alloc: Global, reason: &str) -> Result<Answer, AllocError>
    ensures { IfOk result (λ a. a ≡ not_authentic reason.now) }
{
    let details = with_text(alloc, Entries::new(alloc), "reason", reason)?;
    authentication_failed(alloc, details)
}

/// The header's seconds are too far from those of the farm.
fn skewed(alloc: Global, ts: u64, now: u64) -> Result<Answer, AllocError>
    requires ts { ts < 2 ^ 63 }
    requires now { now < 2 ^ 63 }
    ensures { IfOk result (λ a. a ≡ skewed ts now) }
{
    let details = Entries::new(alloc)
        .with(alloc, "now", Doc::Int(now as i64))?
        .with(alloc, "reason", Doc::text(alloc, "Skew")?)?
        .with(alloc, "ts", Doc::Int(ts as i64))?;
    authentication_failed(alloc, details)
}

/// The client asks for more than it has, and this is missing.
fn overstepping(alloc: Global, missing: &Expr) -> Result<Answer, AllocError>
    ensures { IfOk result (λ a. a ≡ overstepping (view missing.now)) }
{
    let details = Entries::new(alloc)
        .with(alloc, "missing", expression_doc(alloc, missing)?)?
        .with(alloc, "reason", Doc::text(alloc, "Oversteps")?)?;
    authentication_failed(alloc, details)
}

/// The caller is not who it says, as these details tell.
fn authentication_failed(alloc: Global, details: Entries) -> Result<Answer, AllocError>
    ensures { IfOk result (λ a. a ≡ record {
      status = 401;
      body = error_text (codes "AuthenticationFailed") (held details) (codes "the caller is not who it says");
    }) }
{
    Ok(Answer {
        status: StatusCode::UNAUTHORIZED,
        body: error_text(
            alloc,
            "AuthenticationFailed",
            details,
            "the caller is not who it says",
        )?,
    })
}

/// More scopes are derivable, for the caller or for the hook, than a closure may have.
pub fn expansion_limit(alloc: Global) -> Result<Answer, AllocError>
    ensures { IfOk result (λ a. a ≡ expansion_limit) }
{
    let details = Entries::new(alloc).with(alloc, "limit", Doc::Int(10_000))?;
    Ok(Answer {
        status: StatusCode::FORBIDDEN,
        body: error_text(
            alloc,
            "ExpansionLimit",
            details,
            "too many scopes are derivable",
        )?,
    })
}

/// The caller lacks scopes, and this is missing.
pub fn insufficient_scopes(alloc: Global, missing: &Expr) -> Result<Answer, AllocError>
    ensures { IfOk result (λ a. a ≡ insufficient_scopes (view missing.now)) }
{
    lacking_scopes(alloc, "InsufficientScopes", missing, "scopes are missing")
}

/// The scopes of the hook do not hold what its task asks for, and this is missing.
pub fn hook_insufficient_scopes(alloc: Global, missing: &Expr) -> Result<Answer, AllocError>
    ensures { IfOk result (λ a. a ≡ hook_insufficient_scopes (view missing.now)) }
{
    lacking_scopes(
        alloc,
        "HookInsufficientScopes",
        missing,
        "the hook's scopes are missing",
    )
}

/// These scopes are missing, as this code and this message say.
fn lacking_scopes(
    alloc: Global,
    code: &str,
    missing: &Expr,
    message: &str,
) -> Result<Answer, AllocError>
    ensures { IfOk result (λ a. a ≡ record {
      status = 403;
      body = error_text code.now (members_of ((codes "missing", document_of (view missing.now)) ∷ [])) message.now;
    }) }
{
    let details = Entries::new(alloc).with(alloc, "missing", expression_doc(alloc, missing)?)?;
    Ok(Answer {
        status: StatusCode::FORBIDDEN,
        body: error_text(alloc, code, details, message)?,
    })
}

/// The body of an error.
fn error_text(
    alloc: Global,
    code: &str,
    details: Entries,
    message: &str,
) -> Result<Text, AllocError>
    ensures { IfOk result (λ t. t ≡ error_text code.now (held details) message.now) }
{
    let detailed = Entries::new(alloc).with(alloc, "details", details.into_doc())?;
    let coded = with_text(alloc, detailed, "code", code)?;
    let body = with_text(alloc, coded, "message", message)?.into_doc();
    let text = body.write(alloc);
    drop(body);
    text
}

/// The members with a copy of this text at the key.
fn with_text(alloc: Global, entries: Entries, key: &str, value: &str) -> Result<Entries, AllocError>
    ensures { IfOk result (λ e. held e ≡ put key.now (text value.now) (held entries)) }
{
    match Doc::text(alloc, value) {
        Ok(value) => entries.with(alloc, key, value),
        Err(error) => {
            drop(entries);
            Err(error)
        }
    }
}
