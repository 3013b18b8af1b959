//! The queue of a definition, which is named in one of three ways.
ghost use Rattle.std.specs.Prelude.{◌≡◌, ℕ, List, Some, None, codes, IfOk, MatchBool, MatchOption, MatchResult};
ghost use Rattle.farm_text.specs.Document.{text as plain_text, get};
ghost use Rattle.farm_text.specs.Doc.{document};
ghost use Rattle.task_types.specs.Forms.{IsIdentifier, queue_name};
ghost use Rattle.task_defs.specs.Documents.{seen};
ghost use Rattle.task_defs.specs.Values.{IsTextOf, Ill, IsQueue};
ghost use Rattle.task_defs.specs.Faults.{Holds, Breaks};
ghost use Rattle.task_defs.specs.Keys.{KeyBreaks};
ghost use Rattle.task_defs.specs.Rules.{PartsBreak, QueueBreaks};
ghost use Rattle.task_defs.specs.Parts.{Everything, Nothing};
ghost use Rattle.task_defs.specs.Definitions.{IsQueueOf};

use crate::documents::as_text;
use crate::fault::DefError;
use crate::keys::{has, value};
use farm_text::{Doc, Text};
use std::alloc::{AllocError, Global};
use task_types::{Identifier, TaskQueue, is_identifier};

/// A queue's name, cut at its first slash.
fn cut(name: &str) -> Option<(&str, &str)>
    ensures { MatchOption result ((p w : List ℕ) → IsIdentifier p → ¬ (name.now ≡ queue_name p w))
        (λ x. (name.now ≡ queue_name x.0.now x.1.now) × ((p w : List ℕ) → IsIdentifier p → name.now ≡ queue_name p w → (x.0.now ≡ p) × (x.1.now ≡ w))) }
{
    name.split_once('/')
}

/// The two identifiers of a queue's name, or `None` where it is no such name.
fn parts_of(name: &str) -> Option<(&str, &str)>
    ensures { MatchOption result (¬ IsQueue name.now)
        (λ x. IsIdentifier x.0.now × IsIdentifier x.1.now × (name.now ≡ queue_name x.0.now x.1.now)) }
{
    match cut(name) {
        Some((provisioner, worker)) => {
            if is_identifier(provisioner.as_bytes()) && is_identifier(worker.as_bytes()) {
                Some((provisioner, worker))
            } else {
                None
            }
        }
        None => None,
    }
}

/// The identifier that a value is, or `None` where it is none.
fn identifier(value: &Doc) -> Option<&str>
    ensures { MatchOption result (¬ IsTextOf IsIdentifier (document value.now)) (λ p. (document value.now ≡ plain_text p.now) × IsIdentifier p.now) }
{
    match as_text(value) {
        Some(text) if is_identifier(text.as_bytes()) => Some(text),
        _ => None,
    }
}

/// The parts of the queue that a value names, or `None` where it names none.
fn queue_parts(value: &Doc) -> Option<(&str, &str)>
    ensures { MatchOption result (¬ IsTextOf IsQueue (document value.now))
        (λ x. (document value.now ≡ plain_text (queue_name x.0.now x.1.now)) × IsIdentifier x.0.now × IsIdentifier x.1.now) }
{
    match as_text(value) {
        Some(text) => parts_of(text),
        None => None,
    }
}

/// The queue of these two parts.
fn queue_of(alloc: Global, provisioner: &str, worker: &str) -> Result<TaskQueue, AllocError>
    requires provisioner { IsIdentifier provisioner.now }
    requires worker { IsIdentifier worker.now }
    ensures { IfOk result (λ q. q ≡ record { provisioner_id = provisioner.now; worker_type = worker.now }) }
{
    Ok(TaskQueue {
        provisioner_id: Identifier::from_identifier(Text::from_str(alloc, provisioner)?),
        worker_type: Identifier::from_identifier(Text::from_str(alloc, worker)?),
    })
}

/// The queue of this name, if it is one.
pub fn queue_from_name(alloc: Global, name: &str) -> Result<Option<TaskQueue>, AllocError>
    ensures { IfOk result (λ found. MatchOption found (¬ IsQueue name.now)
        (λ q. IsIdentifier q.provisioner_id × IsIdentifier q.worker_type × (name.now ≡ queue_name q.provisioner_id q.worker_type))) }
{
    match parts_of(name) {
        Some((provisioner, worker)) => Ok(Some(queue_of(alloc, provisioner, worker)?)),
        None => Ok(None),
    }
}

/// The parts of the queue that is named, if one is; `None` where the value names none.
fn name_parts(name: Option<&Doc>) -> Option<Option<(&str, &str)>>
    ensures { MatchOption result (Ill (IsTextOf IsQueue) (seen name.entry))
        (λ found. MatchOption found (seen name.entry ≡ None)
        (λ x. (seen name.entry ≡ Some (plain_text (queue_name x.0.now x.1.now))) × IsIdentifier x.0.now × IsIdentifier x.1.now)) }
{
    match name {
        None => Some(None),
        Some(name) => match queue_parts(name) {
            Some(parts) => Some(Some(parts)),
            None => None,
        },
    }
}

/// Whether the queue that is named, if one is, has these parts.
fn agrees(named: Option<(&str, &str)>, provisioner: &str, worker: &str) -> bool
    ensures { MatchBool result
        (MatchOption named.entry Everything (λ x. (x.0.now ≡ provisioner.now) × (x.1.now ≡ worker.now)))
        (MatchOption named.entry Nothing (λ x. ¬ ((x.0.now ≡ provisioner.now) × (x.1.now ≡ worker.now)))) }
{
    match named {
        None => true,
        Some((first, second)) => first == provisioner && second == worker,
    }
}

/// The queue of a document that has both its parts.
fn both_parts(
    alloc: Global,
    provisioner: &Doc,
    name: Option<&Doc>,
    worker: &Doc,
) -> Result<TaskQueue, DefError>
    ensures { MatchResult result
        (λ q. Holds (PartsBreak (Some (document provisioner.now)) (seen name.entry) (Some (document worker.now)))
        × IsQueueOf (Some (document provisioner.now)) (seen name.entry) (Some (document worker.now)) q)
        (Breaks 2 (PartsBreak (Some (document provisioner.now)) (seen name.entry) (Some (document worker.now)))) }
{
    let first = match identifier(provisioner) {
        Some(first) => first,
        None => return Err(DefError::at(alloc, 2, "provisionerId")),
    };
    let named = match name_parts(name) {
        Some(named) => named,
        None => return Err(DefError::at(alloc, 2, "taskQueueId")),
    };
    let second = match identifier(worker) {
        Some(second) => second,
        None => return Err(DefError::at(alloc, 2, "workerType")),
    };
    if !agrees(named, first, second) {
        return Err(DefError::at(alloc, 2, "taskQueueId"));
    }
    Ok(queue_of(alloc, first, second)?)
}

/// The queue of a document that names it whole.
fn whole_queue(alloc: Global, name: &Doc) -> Result<TaskQueue, DefError>
    ensures { MatchResult result
        (λ q. Holds (PartsBreak None (Some (document name.now)) None) × IsQueueOf None (Some (document name.now)) None q)
        (Breaks 2 (PartsBreak None (Some (document name.now)) None)) }
{
    match queue_parts(name) {
        Some((provisioner, worker)) => Ok(queue_of(alloc, provisioner, worker)?),
        None => Err(DefError::at(alloc, 2, "taskQueueId")),
    }
}

/// The task's queue.
pub(crate) fn queue(alloc: Global, doc: &Doc) -> Result<TaskQueue, DefError>
    requires { Holds (KeyBreaks (document doc.now)) }
    ensures { MatchResult result
        (λ q. Holds (QueueBreaks (document doc.now))
        × IsQueueOf (get (codes "provisionerId") (document doc.now)) (get (codes "taskQueueId") (document doc.now)) (get (codes "workerType") (document doc.now)) q)
        (Breaks 2 (QueueBreaks (document doc.now))) }
{
    if has(doc, "provisionerId") {
        let provisioner = value(doc, "provisionerId");
        let worker = value(doc, "workerType");
        both_parts(alloc, provisioner, doc.get("taskQueueId"), worker)
    } else {
        whole_queue(alloc, value(doc, "taskQueueId"))
    }
}
