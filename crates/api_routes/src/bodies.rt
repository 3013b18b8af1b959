//! The call that the body of a message says.
ghost use Rattle.std.specs.Prelude.{◌≡◌, ℕ, List, IfOk, MatchOption};
ghost use Rattle.farm_text.specs.Doc.{document};
ghost use Rattle.farm_asks.specs.declared.question.WorkRequest.{WorkRequest as Request};
ghost use Rattle.task_types.specs.Forms.{IsIdentifier};
ghost use Rattle.api_routes.specs.Bodies.{IsTaskBody, IsWorkBody, SaysWork, IsReasonBody, IsTriggerBody};
ghost use Rattle.api_routes.specs.Said.{IsSaid};

use crate::requests::{asked_of, reason_of};
use call_rules::HookName;
use farm_asks::question::{BodyFault, Call, Trigger, WorkRequest};
use farm_text::{Doc, ReadFault, SlugId, Text};
use std::alloc::{AllocError, Global};
use task_defs::{DefError, read_task};
use task_types::{Creation, Identifier, Object, Resolution, RunName, TaskQueue};

/// What a body is: a document, or none for this reason.
#[derive(Drop)]
pub(crate) enum Said {
    Document(Doc),
    Fault(BodyFault),
}

/// Reads a body.
fn read(alloc: Global, body: &[u8]) -> Result<Said, AllocError>
    ensures { IfOk result (IsSaid body.now) }
{
    match Doc::read(alloc, body) {
        Ok(doc) => Ok(Said::Document(doc)),
        Err(ReadFault::NotJson) => Ok(Said::Fault(BodyFault::NotJson)),
        Err(ReadFault::NotWhole(path)) => Ok(Said::Fault(BodyFault::NotWhole(path))),
        Err(ReadFault::NoMemory) => Err(AllocError),
    }
}

/// The call to make the task of this id that the body defines, or the body's fault.
pub(crate) fn definition_call(alloc: Global, id: SlugId, body: &[u8]) -> Result<Call, AllocError>
    ensures { IfOk result (IsTaskBody body.now id) }
{
    let doc = match read(alloc, body)? {
        Said::Document(doc) => doc,
        Said::Fault(fault) => return Ok(Call::BadBody(fault)),
    };
    let read = read_task(alloc, &doc, id);
    drop(doc);
    match read {
        Ok(definition) => Ok(Call::CreateTask(Creation { id, definition })),
        Err(DefError::Fault(fault)) => Ok(Call::BadBody(BodyFault::NoDefinition(fault))),
        Err(DefError::NoMemory) => Err(AllocError),
    }
}

/// The call of a worker who asks for work of this queue, or the body's fault.
pub(crate) fn work_call(alloc: Global, queue: TaskQueue, body: &[u8]) -> Result<Call, AllocError>
    ensures { IfOk result (IsWorkBody body.now queue) }
{
    let doc = match read(alloc, body)? {
        Said::Document(doc) => doc,
        Said::Fault(fault) => return Ok(Call::BadBody(fault)),
    };
    match work_of(alloc, queue, &doc)? {
        Some(work) => Ok(Call::ClaimWork(work)),
        None => Ok(Call::BadBody(BodyFault::NoWork)),
    }
}

/// The request for work of a queue that a document says, if it says one.
fn work_of(alloc: Global, queue: TaskQueue, doc: &Doc) -> Result<Option<WorkRequest>, AllocError>
    ensures { IfOk result (λ found. MatchOption found ((work : Request) → ¬ SaysWork (document doc.now) work)
        (λ work. (work.queue ≡ queue) × SaysWork (document doc.now) work)) }
{
    let Some(asked) = asked_of(doc) else {
        return Ok(None);
    };
    let Some(worker_group) = identifier(alloc, asked.worker_group)? else {
        return Ok(None);
    };
    let Some(worker_id) = identifier(alloc, asked.worker_id)? else {
        return Ok(None);
    };
    Ok(Some(WorkRequest {
        queue,
        worker_group,
        worker_id,
        tasks: asked.tasks,
    }))
}

/// The identifier of a text, if it is one.
fn identifier(alloc: Global, text: &str) -> Result<Option<Identifier>, AllocError>
    ensures { IfOk result (λ found. MatchOption found (¬ IsIdentifier text.now) (λ i. IsIdentifier text.now × (i ≡ text.now))) }
{
    Ok(Identifier::new(Text::from_str(alloc, text)?))
}

/// The report that a run ended as an exception, for the reason that the body says, or the body's fault.
pub(crate) fn reason_call(alloc: Global, name: RunName, body: &[u8]) -> Result<Call, AllocError>
    ensures { IfOk result (IsReasonBody body.now name) }
{
    let doc = match read(alloc, body)? {
        Said::Document(doc) => doc,
        Said::Fault(fault) => return Ok(Call::BadBody(fault)),
    };
    match reason_of(&doc) {
        Some(reason) => Ok(Call::ReportRun(Resolution {
            id: name.id,
            run: name.run,
            reason,
        })),
        None => Ok(Call::BadBody(BodyFault::NoReason)),
    }
}

/// The call to trigger this hook with the object that the body is, or the body's fault.
pub(crate) fn payload_call(alloc: Global, hook: HookName, body: &[u8]) -> Result<Call, AllocError>
    ensures { IfOk result (IsTriggerBody body.now hook.group hook.id) }
{
    let doc = match read(alloc, body)? {
        Said::Document(doc) => doc,
        Said::Fault(fault) => return Ok(Call::BadBody(fault)),
    };
    match Object::from_doc(doc) {
        Some(payload) => Ok(Call::TriggerHook(Trigger { hook, payload })),
        None => Ok(Call::BadBody(BodyFault::NoPayload)),
    }
}
