//! What happens to a task, step by step, against rows that were worked by hand.
//!
//! A step is what it comes to, a word for what is done or asked, and its parts. A change has its moment, and the number that a run draws then
//! or that of the run it is of; `resolve` has both, and a reason behind them. The steps behind a number and a colon are gone through with
//! each number below it, which is `#` in them, and those behind `copied:` with a copy of the row.
mod looks;
mod scripts;

use crate::words::{definition, identifier, moment, next, numbered, truth};
use farm_text::{Moment, SlugId};
use run_states::{Claim, ReasonResolved, Refusal, RunRoom, TaskRow};
use std::alloc::Global;

/// The plain definition, with five retries, which are the default; and the same with other numbers of retries.
const PLAIN: &str =
    r#"{"created":"2024-01-01T00:00:00.000Z","deadline":"2024-01-02T00:00:00.000Z","metadata":{"description":"d","name":"n","owner":"o@example.com","source":"https://example.com/"},"payload":{},"taskQueueId":"prov/wt"}"#;

const NO_RETRY: &str =
    r#"{"created":"2024-01-01T00:00:00.000Z","deadline":"2024-01-02T00:00:00.000Z","metadata":{"description":"d","name":"n","owner":"o@example.com","source":"https://example.com/"},"payload":{},"retries":0,"taskQueueId":"prov/wt"}"#;

const ONE_RETRY: &str =
    r#"{"created":"2024-01-01T00:00:00.000Z","deadline":"2024-01-02T00:00:00.000Z","metadata":{"description":"d","name":"n","owner":"o@example.com","source":"https://example.com/"},"payload":{},"retries":1,"taskQueueId":"prov/wt"}"#;

const ALL_RETRIES: &str =
    r#"{"created":"2024-01-01T00:00:00.000Z","deadline":"2024-01-02T00:00:00.000Z","metadata":{"description":"d","name":"n","owner":"o@example.com","source":"https://example.com/"},"payload":{},"retries":49,"taskQueueId":"prov/wt"}"#;

fn body(name: &str) -> &'static str {
    match name {
        "no-retry" => NO_RETRY,
        "one-retry" => ONE_RETRY,
        "all-retries" => ALL_RETRIES,
        _ => PLAIN,
    }
}

/// The first step of some scripts, between empty lines, that comes to something else than it says, or `none`.
fn other_script<'a>(alloc: Global, scripts: &'a str) -> &'a str {
    for script in scripts.split("\n\n") {
        let other = first_other(alloc, script);
        if other != "none" {
            return other;
        }
    }
    "none"
}

/// The first step of a script that comes to something else than it says, or `none`.
fn first_other<'a>(alloc: Global, script: &'a str) -> &'a str {
    match script.split_once('\n') {
        Some((name, steps)) => other_of(alloc, body(name), steps),
        None => script,
    }
}

/// The same of the row of a definition, as it is created. Here alone, and in `copy_goes`, a row is owned.
fn other_of<'a>(alloc: Global, body: &str, steps: &'a str) -> &'a str {
    match new_row(alloc, body) {
        Some(mut row) => {
            let other = other_in(alloc, &mut row, steps);
            drop(row);
            other
        }
        None => "no row",
    }
}

fn new_row(alloc: Global, body: &str) -> Option<TaskRow> {
    let id = SlugId::read(b"AAAAAAAAQACAAAAAAAAAAA")?;
    match definition(alloc, body, id) {
        Some(definition) => TaskRow::make(alloc, id, definition).ok(),
        None => None,
    }
}

fn other_in<'a>(alloc: Global, row: &mut TaskRow, steps: &'a str) -> &'a str {
    for step in steps.lines() {
        if !goes(alloc, row, step) {
            return step;
        }
    }
    "none"
}

fn goes(alloc: Global, row: &mut TaskRow, step: &str) -> bool {
    match step.split_once(": ") {
        Some(("copied", steps)) => copy_goes(alloc, row, steps),
        Some((count, steps)) => each_goes(alloc, row, count, steps),
        None => comes_so(alloc, row, step),
    }
}

/// Whether the steps between semicolons go so with a copy of the row, which they leave as it is.
fn copy_goes(alloc: Global, row: &TaskRow, steps: &str) -> bool {
    match row.copy(alloc) {
        Ok(mut copy) => {
            let all = all_go(alloc, &mut copy, steps, 0);
            drop(copy);
            all
        }
        Err(_) => false,
    }
}

/// Whether they go so with each of so many numbers.
fn each_goes(alloc: Global, row: &mut TaskRow, count: &str, steps: &str) -> bool {
    let Ok(count) = count.parse::<u8>() else {
        return false;
    };
    let mut all = true;
    for number in 0..count {
        all &= all_go(alloc, row, steps, number);
    }
    all
}

fn all_go(alloc: Global, row: &mut TaskRow, steps: &str, number: u8) -> bool {
    let mut all = true;
    for step in steps.split(';') {
        all &= goes_with(alloc, row, step, number);
    }
    all
}

fn goes_with(alloc: Global, row: &mut TaskRow, step: &str, number: u8) -> bool {
    match numbered(alloc, step, number) {
        Some(step) => comes_so(alloc, row, step.as_str()),
        None => false,
    }
}

/// Whether a step comes to what it begins with.
fn comes_so(alloc: Global, row: &mut TaskRow, step: &str) -> bool {
    let (wanted, rest) = next(step);
    let (word, parts) = next(rest);
    match outcome(alloc, row, word, parts) {
        Some(outcome) => outcome == wanted,
        None => false,
    }
}

/// What a step comes to.
fn outcome(alloc: Global, row: &mut TaskRow, word: &str, parts: &str) -> Option<&'static str> {
    match word {
        "take" => Some(truth(take(alloc, row))),
        "run" | "taken" | "stands" | "is" | "serves" | "told" => {
            Some(truth(looks::is_so(alloc, row, word, parts)?))
        }
        _ => change(alloc, row, word, parts),
    }
}

/// Worker `w` of group `g` takes the pending run at 00:00:10.000 for twenty minutes. Tells whether there is one.
fn take(alloc: Global, row: &mut TaskRow) -> bool {
    match claim(alloc) {
        Some(claim) => row.claim(claim),
        None => false,
    }
}

fn claim(alloc: Global) -> Option<Claim> {
    let started = moment("2024-01-01T00:00:10.000Z")?;
    let taken_until = moment("2024-01-01T00:20:10.000Z")?;
    let worker_group = identifier(alloc, "g")?;
    match identifier(alloc, "w") {
        Some(worker_id) => Some(Claim {
            worker_group,
            worker_id,
            started,
            taken_until,
        }),
        None => None,
    }
}

/// Makes a change, and tells what it answers.
fn change(alloc: Global, row: &mut TaskRow, word: &str, parts: &str) -> Option<&'static str> {
    let (at, rest) = next(parts);
    let (number, rest) = next(rest);
    let at = moment(at)?;
    match word {
        "exceed" => Some(truth(row.exceed(at))),
        "cancel" => Some(truth(row.cancel(at))),
        "reclaim" => Some(answer(row.reclaim(number.parse::<u8>().ok()?, at))),
        _ => draw(alloc, row, at, number.parse::<u64>().ok()?, word, rest),
    }
}

/// Makes a change by which a run may draw this number.
fn draw(
    alloc: Global,
    row: &mut TaskRow,
    at: Moment,
    drawn: u64,
    word: &str,
    parts: &str,
) -> Option<&'static str> {
    match word {
        "schedule" => Some(truth(row.schedule(at, drawn))),
        "expire" => Some(truth(row.expire(at, drawn))),
        "rerun" => Some(answer(row.rerun(at, drawn, RunRoom::make(alloc).ok()?))),
        _ => resolve(row, at, drawn, parts),
    }
}

/// Resolves a run for a reason.
fn resolve(row: &mut TaskRow, at: Moment, drawn: u64, parts: &str) -> Option<&'static str> {
    let (run, reason) = next(parts);
    let run = run.parse::<u8>().ok()?;
    Some(answer(row.resolve(at, run, reason_of(reason)?, drawn)))
}

/// The reason of this name, of those that are reported.
fn reason_of(name: &str) -> Option<ReasonResolved> {
    match name {
        "completed" => Some(ReasonResolved::Completed),
        "failed" => Some(ReasonResolved::Failed),
        "superseded" => Some(ReasonResolved::Superseded),
        "worker-shutdown" => Some(ReasonResolved::WorkerShutdown),
        "malformed-payload" => Some(ReasonResolved::MalformedPayload),
        "resource-unavailable" => Some(ReasonResolved::ResourceUnavailable),
        "internal-error" => Some(ReasonResolved::InternalError),
        "intermittent-task" => Some(ReasonResolved::IntermittentTask),
        _ => None,
    }
}

fn answer(answer: Result<bool, Refusal>) -> &'static str {
    match answer {
        Ok(is_so) => truth(is_so),
        Err(Refusal::NoRun) => "no-run",
        Err(Refusal::NotRunning) => "not-running",
        Err(Refusal::Unscheduled) => "unscheduled",
        Err(Refusal::DeadlineCame) => "deadline-came",
        Err(Refusal::FiftyRuns) => "fifty-runs",
    }
}
