//! What the words of rows stand for. Here and below `None` is want of memory, or a row that is off its form.
use farm_text::{Doc, Moment, SlugId, Text, read_moment};
use run_states::{Outcome, Run, TaskRow};
use std::alloc::Global;
use task_defs::read_task;
use task_types::{Identifier, Report, TaskDef};

/// The first word of a text, and what stands behind it.
pub(crate) fn next(text: &str) -> (&str, &str) {
    match text.split_once(' ') {
        Some(parts) => parts,
        None => (text, ""),
    }
}

/// A step whose `#` is this number.
pub(crate) fn numbered(alloc: Global, step: &str, number: u8) -> Option<String> {
    match step.split_once('#') {
        Some((before, behind)) => format!(in alloc; "{before}{number}{behind}").ok(),
        None => String::from_str(alloc, step).ok(),
    }
}

/// The word for this truth.
pub(crate) fn truth(is_so: bool) -> &'static str {
    if is_so { "yes" } else { "no" }
}

/// The moment of a text of RFC 3339.
pub(crate) fn moment(text: &str) -> Option<Moment> {
    read_moment(text.as_bytes())
}

/// The id of this number.
pub(crate) fn id(number: u8) -> Option<SlugId> {
    SlugId::of_uuid([0, 0, 0, 0, 0, 0, 0x40, 0, 0x80, 0, 0, 0, 0, 0, 0, number])
}

/// The id of the number that a word is.
pub(crate) fn id_of(word: &str) -> Option<SlugId> {
    match word.parse::<u8>() {
        Ok(number) => id(number),
        Err(_) => None,
    }
}

pub(crate) fn identifier(alloc: Global, text: &str) -> Option<Identifier> {
    match Text::from_str(alloc, text) {
        Ok(text) => Identifier::new(text),
        Err(_) => None,
    }
}

/// The definition that a body reads as, for this task.
pub(crate) fn definition(alloc: Global, body: &str, id: SlugId) -> Option<TaskDef> {
    match Doc::read(alloc, body.as_bytes()) {
        Ok(doc) => {
            let read = read_task(alloc, &doc, id);
            drop(doc);
            read.ok()
        }
        Err(_) => None,
    }
}

/// The report of this name, which is that of the reason that it gives.
pub(crate) fn report(name: &str) -> Option<Report> {
    match name {
        "completed" => Some(Report::Completed),
        "failed" => Some(Report::Failed),
        "superseded" => Some(Report::Superseded),
        "worker-shutdown" => Some(Report::WorkerShutdown),
        "malformed-payload" => Some(Report::MalformedPayload),
        "resource-unavailable" => Some(Report::ResourceUnavailable),
        "internal-error" => Some(Report::InternalError),
        "intermittent-task" => Some(Report::IntermittentTask),
        _ => None,
    }
}

/// Whether a run ended for the reason and at the moment that stand around an `@`; or has not, where a `-` stands.
pub(crate) fn is_outcome(outcome: Option<Outcome>, wanted: &str) -> bool {
    match outcome {
        Some(outcome) => is_end(outcome, wanted),
        None => wanted == "-",
    }
}

fn is_end(outcome: Outcome, wanted: &str) -> bool {
    match wanted.split_once('@') {
        Some((reason, at)) => outcome.reason.name() == reason && moment(at) == Some(outcome.at),
        None => false,
    }
}

/// Whether a run was made for this reason and at this moment, drew this number, or none where `none` stands, and ended so.
pub(crate) fn is_run(run: &Run, wanted: &str) -> bool {
    let (created, rest) = next(wanted);
    let (at, rest) = next(rest);
    let (drawn, end) = next(rest);
    run.created.name() == created
        && moment(at) == Some(run.scheduled)
        && is_drawn(run.number, drawn)
        && is_outcome(run.outcome, end)
}

fn is_drawn(number: Option<u64>, wanted: &str) -> bool {
    match number {
        Some(number) => wanted.parse::<u64>().ok() == Some(number),
        None => wanted == "none",
    }
}

/// Whether a task has this state, so many runs, and so many retries left.
pub(crate) fn stands(row: &TaskRow, wanted: &str) -> bool {
    let (state, rest) = next(wanted);
    let (runs, retries) = next(rest);
    state_of(row) == state
        && runs.parse::<usize>().ok() == Some(row.runs().len())
        && retries.parse::<u8>().ok() == Some(row.retries_left())
}

fn state_of(row: &TaskRow) -> &'static str {
    match row.state() {
        Some(state) => state.name(),
        None => "unscheduled",
    }
}
