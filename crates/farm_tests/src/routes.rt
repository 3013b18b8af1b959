//! Messages and the calls that they make, by the queue service's reference, and a head by HTTP/1.1.
use api_routes::{call_of, caller_of, own_reply, reply_head};
use call_rules::HookName;
use farm_asks::question::{BodyFault, Call, Caller, PageRequest};
use farm_asks::reply::Reply;
use farm_rows::reason_of;
use farm_text::SlugId;
use http_wire::{Message, Wire};
use octets::Bytes;
use route_table::Table;
use std::alloc::{AllocError, Global};
use std::test::Fail;
use task_types::{RunName, TaskQueue};

mod bodies;
mod targets;

/// Copies of the method, the target and the body of a message.
fn parts(
    alloc: Global,
    method: &[u8],
    target: &[u8],
    body: &[u8],
) -> Result<(Vec<u8>, Vec<u8>, Vec<u8>), AllocError> {
    let method = Vec::from_slice(alloc, method)?;
    let target = Vec::from_slice(alloc, target)?;
    let body = Vec::from_slice(alloc, body)?;
    Ok((method, target, body))
}

/// A message of this method and target, with this body and this Authorization field.
fn message(
    alloc: Global,
    authorization: Option<Bytes>,
    method: &[u8],
    target: &[u8],
    body: &[u8],
) -> Result<Message, AllocError> {
    match parts(alloc, method, target, body) {
        Ok((method, target, body)) => Ok(Message {
            method: Bytes::from(method),
            target: Bytes::from(target),
            authorization,
            authorizations: 0,
            content_type: None,
            body: Bytes::from(body),
            closes: false,
        }),
        Err(AllocError) => {
            drop(authorization);
            Err(AllocError)
        }
    }
}

/// A fault of a body, as a word.
fn fault_of<'a>(fault: &'a BodyFault) -> &'a str {
    match fault {
        BodyFault::NotJson => "no JSON",
        BodyFault::NotWhole(path) => path.as_str(),
        BodyFault::NoDefinition(fault) => fault.key.as_str(),
        BodyFault::NoWork => "no work",
        BodyFault::NoReason => "no reason",
        BodyFault::NoPayload => "no payload",
    }
}

/// A call of a task, in words.
fn task_told(alloc: Global, word: &str, id: SlugId) -> Result<String, AllocError> {
    let name = id.to_text(alloc)?;
    format!(in alloc; "{word} {}", name.as_str())
}

/// A call of a list, in words: what it is of, how many tasks a page has, and the token.
fn list_told(
    alloc: Global,
    word: &str,
    id: SlugId,
    page: &PageRequest,
) -> Result<String, AllocError> {
    let name = id.to_text(alloc)?;
    let limit = page.limit;
    match page.after {
        Some(after) => {
            let token = after.to_text(alloc)?;
            format!(in alloc; "{word} {} {limit} {}", name.as_str(), token.as_str())
        }
        None => format!(in alloc; "{word} {} {limit}", name.as_str()),
    }
}

/// A call of a queue, in words.
fn queue_told(alloc: Global, word: &str, queue: &TaskQueue) -> Result<String, AllocError> {
    let name = queue.name(alloc)?;
    format!(in alloc; "{word} {}", name.as_str())
}

/// A call of a run, in words.
fn run_told(alloc: Global, word: &str, run: u8) -> Result<String, AllocError> {
    format!(in alloc; "{word} {run}")
}

/// A call of a hook, in words.
fn hook_told(alloc: Global, hook: &HookName) -> Result<String, AllocError> {
    format!(in alloc; "trigger {} of {}", hook.id.as_str(), hook.group.as_str())
}

/// A call, in words.
fn told(alloc: Global, call: &Call) -> Result<String, AllocError> {
    match call {
        Call::NoRoute(name) => format!(in alloc; "no route {}", name.as_str()),
        Call::BadParameter(parameter) => format!(in alloc; "bad {}", parameter.name()),
        Call::BadBody(fault) => String::from_str(alloc, fault_of(fault)),
        Call::Ping => String::from_str(alloc, "ping"),
        Call::Task(id) => task_told(alloc, "task", *id),
        Call::Status(id) => task_told(alloc, "status", *id),
        Call::ListTaskGroup(id, page) => list_told(alloc, "group", *id, page),
        Call::ListDependentTasks(id, page) => list_told(alloc, "dependents", *id, page),
        Call::PendingTasks(queue) => queue_told(alloc, "pending", queue),
        Call::CreateTask(creation) => task_told(alloc, "create", creation.id),
        Call::ClaimWork(work) => run_told(alloc, work.worker_id.as_str(), work.tasks),
        Call::ReclaimTask(RunName { run, .. }) => run_told(alloc, "reclaim", *run),
        Call::ReportRun(report) => run_told(alloc, reason_of(report.reason).name(), report.run),
        Call::ScheduleTask(id) => task_told(alloc, "schedule", *id),
        Call::RerunTask(id) => task_told(alloc, "rerun", *id),
        Call::CancelTask(id) => task_told(alloc, "cancel", *id),
        Call::TriggerHook(trigger) => hook_told(alloc, &trigger.hook),
    }
}

/// What a message calls, in words.
fn call_told(alloc: Global, table: &Table, asked: &Message) -> Result<String, AllocError> {
    match call_of(alloc, table, asked) {
        Ok(call) => {
            let words = told(alloc, &call);
            drop(call);
            words
        }
        Err(AllocError) => Err(AllocError),
    }
}

/// The same of the message of this method, target and body.
fn words_of(
    alloc: Global,
    table: &Table,
    method: &str,
    target: &str,
    body: &str,
) -> Result<String, AllocError> {
    let asked = message(
        alloc,
        None,
        method.as_bytes(),
        target.as_bytes(),
        body.as_bytes(),
    )?;
    let words = call_told(alloc, table, &asked);
    drop(asked);
    words
}

/// Whether the message of a row, a method, a target and a body, calls what the row ends with.
fn calls(alloc: Global, table: &Table, row: &str) -> Result<bool, Fail> {
    let (method, rest) = row.split_once(' ').ok_or("a method")?;
    let (target, rest) = rest.split_once('|').ok_or("a target")?;
    let (body, wanted) = rest.split_once('|').ok_or("a body")?;
    let words = words_of(alloc, table, method, target, body)?;
    Ok(words.as_str() == wanted)
}

/// The first of these rows whose message calls something else, or `none`.
fn first_other_in<'a>(alloc: Global, table: &Table, rows: &'a str) -> Result<&'a str, Fail> {
    for row in rows.split('\n') {
        if !calls(alloc, table, row)? {
            return Ok(row);
        }
    }
    Ok("none")
}

/// The same with a table of its own.
fn first_other(alloc: Global, rows: &str) -> Result<&str, Fail> {
    let table = Table::new(alloc)?;
    let other = first_other_in(alloc, &table, rows);
    drop(table);
    other
}

/// Whether a caller gives credentials.
fn is_signed(caller: &Caller) -> bool {
    match caller {
        Caller::Anonymous => false,
        Caller::Signed(_) => true,
    }
}

/// Whether whoever sends a message with this field does.
fn signs(alloc: Global, field: Option<Bytes>) -> Result<bool, AllocError> {
    match message(alloc, field, b"GET", b"/", b"") {
        Ok(asked) => {
            let caller = caller_of(asked);
            let is_so = is_signed(&caller);
            drop(caller);
            Ok(is_so)
        }
        Err(AllocError) => Err(AllocError),
    }
}

#[test]
fn a_field_tells_who_calls(rt: HostRuntime) -> Result<(), Fail> {
    let field = Bytes::from(Vec::from_slice(rt.alloc(), b"x")?);
    let told = [signs(rt.alloc(), Some(field))?, signs(rt.alloc(), None)?];
    assert_eq!(rt; told, [true, false]);
    Ok(())
}

#[test]
fn heads_are_those_of_http(rt: HostRuntime) {
    let head = reply_head(&Reply::OutOfMemory, true);
    let wanted =
        b"HTTP/1.1 503 Service Unavailable\r\nConnection: close\r\nContent-Length: 57\r\nContent-Type: application/json\r\n\r\n".as_slice();
    let told = [head.as_slice() == wanted, own_reply(Wire::End).is_empty()];
    assert_eq!(rt; told, [true; 2]);
}
