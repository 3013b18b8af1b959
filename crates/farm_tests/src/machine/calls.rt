//! Calls, by words.
ghost use Rattle.std.specs.Prelude.{IfOk};
ghost use Rattle.farm_asks.specs.Questions.{IsSaidCall};

use farm_asks::question::{Call, WorkRequest};
use farm_text::{Doc, SlugId, Text};
use std::alloc::Global;
use std::test::Fail;
use task_defs::read_task;
use task_types::{Creation, Identifier, Report, Resolution, RunName, TaskQueue};

/// The smallest definition, with a deadline a day after its making.
const PLAIN: &str =
    r#"{"created":"2024-01-01T00:00:00.000Z","deadline":"2024-01-02T00:00:00.000Z","metadata":{"description":"d","name":"n","owner":"o@example.com","source":"https://example.com/"},"payload":{},"taskQueueId":"prov/wt"}"#;

fn identifier(alloc: Global, text: &str) -> Result<Identifier, Fail> {
    Ok(Identifier::new(Text::from_str(alloc, text)?).ok_or("an identifier")?)
}

/// The queue `prov/wt`.
fn queue(alloc: Global) -> Result<TaskQueue, Fail> {
    let provisioner_id = identifier(alloc, "prov")?;
    Ok(TaskQueue {
        provisioner_id,
        worker_type: identifier(alloc, "wt")?,
    })
}

/// Worker `w` of group `g` asks for a run of `prov/wt`.
fn work(alloc: Global) -> Result<WorkRequest, Fail> {
    let worker_group = identifier(alloc, "g")?;
    let worker_id = identifier(alloc, "w")?;
    let queue = queue(alloc)?;
    Ok(WorkRequest {
        queue,
        worker_group,
        worker_id,
        tasks: 1,
    })
}

/// The call that makes a task of this definition.
fn creation_of(alloc: Global, text: &str, id: SlugId) -> Result<Call, Fail>
    ensures { IfOk result IsSaidCall }
{
    let doc = Doc::read(alloc, text.as_bytes()).ok().ok_or("a document")?;
    let read = read_task(alloc, &doc, id);
    drop(doc);
    match read {
        Ok(definition) => Ok(Call::CreateTask(Creation { id, definition })),
        Err(_) => Err(Fail::from("a definition")),
    }
}

/// A report that this run, a number, ended so.
fn report(id: SlugId, run: &str, reason: Report) -> Result<Call, Fail>
    ensures { IfOk result IsSaidCall }
{
    let run = run.parse().ok().ok_or("a run")?;
    Ok(Call::ReportRun(Resolution { id, run, reason }))
}

/// A call that keeps this run, a number, for longer.
fn reclaim(id: SlugId, run: &str) -> Result<Call, Fail>
    ensures { IfOk result IsSaidCall }
{
    let run = run.parse().ok().ok_or("a run")?;
    Ok(Call::ReclaimTask(RunName { id, run }))
}

/// The call of these words, of which the first says what is called: about the task that is written `AAAAAAAAQACAAAAAAAAAAA`, or nothing.
pub(crate) fn call_of(alloc: Global, words: &str) -> Result<Call, Fail>
    ensures { IfOk result IsSaidCall }
{
    let id = SlugId::read(b"AAAAAAAAQACAAAAAAAAAAA").ok_or("a slugid")?;
    let (word, rest) = words.split_once(' ').unwrap_or((words, ""));
    match word {
        "create" => creation_of(alloc, PLAIN, id),
        "claim" => Ok(Call::ClaimWork(work(alloc)?)),
        "reclaim" => reclaim(id, rest),
        "completed" => report(id, rest, Report::Completed),
        "rerun" => Ok(Call::RerunTask(id)),
        "cancel" => Ok(Call::CancelTask(id)),
        "status" => Ok(Call::Status(id)),
        "ping" => Ok(Call::Ping),
        _ => Err(Fail::from("a call")),
    }
}
