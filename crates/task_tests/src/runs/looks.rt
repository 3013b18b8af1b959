//! What is asked of a task.
use crate::words::{is_run, moment, next, stands, truth};
use json::Writer;
use run_states::{Run, TaskRow};
use std::alloc::{AllocError, Global};
use task_statuses::{write_definition, write_status};
use task_types::Requires;

/// Whether a task is so.
pub(super) fn is_so(alloc: Global, row: &TaskRow, word: &str, parts: &str) -> Option<bool> {
    match word {
        "stands" => Some(stands(row, parts)),
        "serves" => Some(serves(row, parts)),
        "told" => is_told(alloc, row, parts),
        "is" => Some(is_thus(alloc, row, parts)),
        _ => {
            let (number, parts) = next(parts);
            Some(is_of_run(row, number.parse::<usize>().ok()?, word, parts))
        }
    }
}

/// Whether a task is pending, unscheduled, or of the plain definition; or falls due, has its deadline or its id so.
fn is_thus(alloc: Global, row: &TaskRow, parts: &str) -> bool {
    let (word, parts) = next(parts);
    match word {
        "pending" => row.is_pending(),
        "unscheduled" => row.is_unscheduled(),
        "plain" => is_defined(alloc, row),
        "due" => row.claim_due() == moment(parts),
        "until" => Some(row.definition().deadline) == moment(parts),
        _ => has_id(row, parts),
    }
}

fn has_id(row: &TaskRow, id: &str) -> bool {
    row.id().text().as_slice() == id.as_bytes()
}

/// Whether the run of a number was made and ended so, or is taken until a moment.
fn is_of_run(row: &TaskRow, number: usize, word: &str, parts: &str) -> bool {
    match row.runs().get(number) {
        Some(run) => match word {
            "run" => is_run(run, parts),
            _ => is_taken(run, parts),
        },
        None => false,
    }
}

/// Whether a run is taken by worker `w` of group `g` since 00:00:10.000, and until this moment.
fn is_taken(run: &Run, until: &str) -> bool {
    match &run.claim {
        Some(claim) => {
            claim.worker_group.as_str() == "g"
                && claim.worker_id.as_str() == "w"
                && Some(claim.started) == moment("2024-01-01T00:00:10.000Z")
                && Some(claim.taken_until) == moment(until)
        }
        None => false,
    }
}

/// Whether a task serves those that require that it is completed, and those that require that it is resolved.
fn serves(row: &TaskRow, parts: &str) -> bool {
    let (completed, resolved) = next(parts);
    truth(row.was_completed()) == completed
        && truth(row.was_resolved()) == resolved
        && truth(row.serves(Requires::AllCompleted)) == completed
        && truth(row.serves(Requires::AllResolved)) == resolved
}

/// The plain definition in full form, for the first task.
const IN_FULL: &str =
    r#"{"created":"2024-01-01T00:00:00.000Z","deadline":"2024-01-02T00:00:00.000Z","dependencies":[],"expires":"2025-01-01T00:00:00.000Z","extra":{},"metadata":{"description":"d","name":"n","owner":"o@example.com","source":"https://example.com/"},"payload":{},"priority":"lowest","projectId":"none","provisionerId":"prov","requires":"all-completed","retries":5,"routes":[],"schedulerId":"-","scopes":[],"tags":{},"taskGroupId":"AAAAAAAAQACAAAAAAAAAAA","taskQueueId":"prov/wt","workerType":"wt"}"#;

/// The status of the plain task: what stands before its retries, before its runs, before its state and behind it.
const BEFORE: &str =
    r#"{"deadline":"2024-01-02T00:00:00.000Z","expires":"2025-01-01T00:00:00.000Z","projectId":"none","provisionerId":"prov","retriesLeft":"#;

const RUNS: &str = r#","runs":["#;

const STATE: &str = r#"],"schedulerId":"-","state":""#;

const BEHIND: &str =
    r#"","taskGroupId":"AAAAAAAAQACAAAAAAAAAAA","taskId":"AAAAAAAAQACAAAAAAAAAAA","taskQueueId":"prov/wt","workerType":"wt"}"#;

/// Whether the status of the plain task has these retries, runs and state, which bars cut.
fn is_told(alloc: Global, row: &TaskRow, parts: &str) -> Option<bool> {
    let (retries, rest) = parts.split_once('|')?;
    let (runs, state) = rest.split_once('|')?;
    let status = [BEFORE, retries, RUNS, runs, STATE, state, BEHIND];
    Some(has_status(alloc, row, status.as_slice()))
}

/// Whether the text of a task's status is these parts, one behind the other.
fn has_status(alloc: Global, row: &TaskRow, parts: &[&str]) -> bool {
    match status_text(alloc, row) {
        Ok(text) => is_joined(text.as_slice(), parts),
        Err(_) => false,
    }
}

/// The text of a task's status.
fn status_text(alloc: Global, row: &TaskRow) -> Result<Vec<u8>, AllocError> {
    let mut out = Writer::new(Vec::with_capacity(alloc, 512)?);
    write_status(alloc, row, &mut out)?;
    Ok(out.into_inner())
}

/// Whether a task's definition is the plain one in full form.
fn is_defined(alloc: Global, row: &TaskRow) -> bool {
    match definition_text(alloc, row) {
        Ok(text) => is_joined(text.as_slice(), &[IN_FULL]),
        Err(_) => false,
    }
}

/// The text of a task's definition.
fn definition_text(alloc: Global, row: &TaskRow) -> Result<Vec<u8>, AllocError> {
    let mut out = Writer::new(Vec::with_capacity(alloc, 512)?);
    write_definition(alloc, row.definition(), &mut out)?;
    Ok(out.into_inner())
}

/// Whether a text is these parts, one behind the other.
fn is_joined(text: &[u8], parts: &[&str]) -> bool {
    let mut rest = text;
    for part in parts {
        match rest.strip_prefix(part.as_bytes()) {
            Some(after) => rest = after,
            None => return false,
        }
    }
    rest.is_empty()
}
