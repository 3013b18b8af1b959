//! What calls ask of their callers' scopes, against expressions that were worked by hand.
use crate::words::{definition, id, identifier, next};
use call_rules::{
    Call, HookGroupId, HookId, HookName, cancel_scopes, claim_scopes, expression, reclaim_scope,
    rerun_scopes, resolve_scope, schedule_scopes,
};
use farm_text::{SlugId, Text};
use scope_sets::Expr;
use std::alloc::{AllocError, Global};
use task_types::{Identifier, TaskDef};

/// A task of priority high with a scope and a route.
const SCOPED: &str =
    r#"{"created":"2024-01-01T00:00:00.000Z","deadline":"2024-01-02T00:00:00.000Z","metadata":{"description":"d","name":"n","owner":"o@example.com","source":"https://example.com/"},"payload":{},"priority":"high","routes":["r.one"],"scopes":["a:b"],"taskQueueId":"prov/wt"}"#;

/// A task of scheduler `s` and project `p`, in the group of another task.
const GROUPED: &str =
    r#"{"created":"2024-01-01T00:00:00.000Z","deadline":"2024-01-02T00:00:00.000Z","metadata":{"description":"d","name":"n","owner":"o@example.com","source":"https://example.com/"},"payload":{},"projectId":"p","schedulerId":"s","taskGroupId":"AAAAAAAAQACAAAAAAAAAAQ","taskQueueId":"prov/wt"}"#;

/// A call, and what it asks of the first of these tasks: a scope, or all or any of some.
const ASKED: &str = "trigger hooks:trigger-hook:g/h
create all a:b queue:route:r.one queue:create-task:project:none queue:scheduler-id:- any queue:create-task:highest:prov/wt queue:create-task:very-high:prov/wt queue:create-task:high:prov/wt
status queue:status:AAAAAAAAQACAAAAAAAAAAA
task queue:get-task:AAAAAAAAQACAAAAAAAAAAA
group queue:list-task-group:AAAAAAAAQACAAAAAAAAAAA
dependents queue:list-dependent-tasks:AAAAAAAAQACAAAAAAAAAAA
pending queue:pending-count:prov/wt
claim all queue:claim-work:prov/wt queue:worker-id:w/w";

/// The same of the second, by the function of each call.
const ASKED_OF_GROUPED: &str = "claim-scopes all queue:claim-work:prov/wt queue:worker-id:g/w
reclaim queue:reclaim-task:AAAAAAAAQACAAAAAAAAAAA/0
resolve queue:resolve-task:AAAAAAAAQACAAAAAAAAAAA/49
schedule any queue:schedule-task:s/AAAAAAAAQACAAAAAAAAAAQ/AAAAAAAAQACAAAAAAAAAAA queue:schedule-task-in-project:p
rerun any queue:rerun-task:s/AAAAAAAAQACAAAAAAAAAAQ/AAAAAAAAQACAAAAAAAAAAA queue:rerun-task-in-project:p
cancel any queue:cancel-task:s/AAAAAAAAQACAAAAAAAAAAQ/AAAAAAAAQACAAAAAAAAAAA queue:cancel-task-in-project:p";

/// The worker `w`, the group `g`, and the hook `h` of it.
#[derive(Drop)]
struct CallNames {
    worker: Identifier,
    group: Identifier,
    hook: HookName,
}

fn names(alloc: Global) -> Option<CallNames> {
    let worker = identifier(alloc, "w")?;
    let group = identifier(alloc, "g")?;
    match hook_name(alloc) {
        Some(hook) => Some(CallNames {
            worker,
            group,
            hook,
        }),
        None => None,
    }
}

fn hook_name(alloc: Global) -> Option<HookName> {
    match (Text::from_str(alloc, "g"), Text::from_str(alloc, "h")) {
        (Ok(group), Ok(id)) => hook_of(group, id),
        _ => None,
    }
}

fn hook_of(group: Text, id: Text) -> Option<HookName> {
    let group = HookGroupId::new(group)?;
    let id = HookId::new(id)?;
    Some(HookName { group, id })
}

/// The first row of some that a task's calls do not ask, or `none`. Here alone a definition and names are owned.
fn first_other<'a>(alloc: Global, body: &str, rows: &'a str) -> &'a str {
    match id(0) {
        Some(id) => other_of(alloc, id, body, rows),
        None => "no id",
    }
}

fn other_of<'a>(alloc: Global, id: SlugId, body: &str, rows: &'a str) -> &'a str {
    match definition(alloc, body, id) {
        Some(def) => {
            let other = other_in(alloc, id, &def, rows);
            drop(def);
            other
        }
        None => "no definition",
    }
}

fn other_in<'a>(alloc: Global, id: SlugId, def: &TaskDef, rows: &'a str) -> &'a str {
    match names(alloc) {
        Some(names) => other_with(alloc, id, def, &names, rows),
        None => "no names",
    }
}

fn other_with<'a>(
    alloc: Global,
    id: SlugId,
    def: &TaskDef,
    names: &CallNames,
    rows: &'a str,
) -> &'a str {
    for row in rows.lines() {
        if !is_row(alloc, id, def, names, row) {
            return row;
        }
    }
    "none"
}

/// Whether the call of a row asks what stands behind it.
fn is_row(alloc: Global, id: SlugId, def: &TaskDef, names: &CallNames, row: &str) -> bool {
    let (call, wanted) = next(row);
    let asked = asked(alloc, id, def, names, call);
    let is_so = is_asked(&asked, wanted);
    drop(asked);
    is_so
}

/// What a call asks.
fn asked(
    alloc: Global,
    id: SlugId,
    def: &TaskDef,
    names: &CallNames,
    call: &str,
) -> Result<Expr, AllocError> {
    match call {
        "claim-scopes" => claim_scopes(alloc, &def.queue, &names.group, &names.worker),
        "reclaim" => reclaim_scope(alloc, id, 0),
        "resolve" => resolve_scope(alloc, id, 49),
        "schedule" => schedule_scopes(alloc, id, def),
        "rerun" => rerun_scopes(alloc, id, def),
        "cancel" => cancel_scopes(alloc, id, def),
        _ => expression(alloc, call_of(id, def, names, call)),
    }
}

fn call_of<'a>(id: SlugId, def: &'a TaskDef, names: &'a CallNames, call: &str) -> Call<'a> {
    match call {
        "trigger" => Call::TriggerHook(&names.hook),
        "create" => Call::CreateTask(def),
        "status" => Call::Status(id),
        "task" => Call::Task(id),
        "group" => Call::ListTaskGroup(id),
        "dependents" => Call::ListDependentTasks(id),
        "pending" => Call::PendingTasks(&def.queue),
        "claim" => Call::ClaimWork(&def.queue, &names.worker, &names.worker),
        _ => Call::Ping,
    }
}

/// Whether this is asked, in words: a scope, or `all` or `any` and scopes. The last of all may be any of some.
fn is_asked(asked: &Result<Expr, AllocError>, wanted: &str) -> bool {
    match asked {
        Ok(Expr::One(scope)) => scope.as_str() == wanted,
        Ok(Expr::AllOf(members)) => match wanted.strip_prefix("all ") {
            Some(words) => are_all(members, words),
            None => false,
        },
        Ok(Expr::AnyOf(members)) => is_any(members, wanted),
        Err(_) => false,
    }
}

/// Whether these are the scopes of some words, and then any of those behind an `any`.
fn are_all(members: &[Expr], words: &str) -> bool {
    let mut rest = words;
    let mut all = true;
    for member in members {
        if let Expr::AnyOf(scopes) = member {
            all &= is_any(scopes, rest);
            rest = "";
        } else {
            let (word, behind) = next(rest);
            all &= is_one(member, word);
            rest = behind;
        }
    }
    all && rest.is_empty()
}

/// Whether these are the scopes of the words behind an `any`.
fn is_any(members: &[Expr], words: &str) -> bool {
    let mut rest = words.strip_prefix("any ").unwrap_or("none");
    let mut all = true;
    for member in members {
        let (word, behind) = next(rest);
        all &= is_one(member, word);
        rest = behind;
    }
    all && rest.is_empty()
}

fn is_one(member: &Expr, word: &str) -> bool {
    matches!(member, Expr::One(scope) if scope.as_str() == word)
}

#[test]
fn what_calls_ask(rt: HostRuntime) {
    let others = [
        first_other(rt.alloc(), SCOPED, ASKED),
        first_other(rt.alloc(), GROUPED, ASKED_OF_GROUPED),
    ];
    assert_eq!(rt; others, ["none"; 2]);
}
