//! The members of the bodies of workers' calls.
ghost use Rattle.std.specs.Prelude.{◌≡◌, ◌↔◌, ◌≤◌, ℕ, pos, List, [], ◌∷◌, IsTrue, Option, Some, None, codes, map, option_map, option_and_then, MatchOption};
ghost use Rattle.farm_text.specs.Doc.{document, entries_of};
ghost use Rattle.farm_text.specs.Document.{get, object, members_of, text as plain_text};
ghost use Rattle.task_defs.specs.Documents.{text_of};
ghost use Rattle.task_types.specs.declared.change.Report.{Report as Reported};
ghost use Rattle.api_routes.specs.Bodies.{AsksFor, SaysReason};
ghost use Rattle.api_routes.specs.Said.{wanted_of, request_members, exception_of};

use farm_text::Doc;
use std::collections::BTreeMap;
use task_types::Report;

/// What is to stand at a key.
#[derive(Clone, Copy)]
pub(crate) enum Wanted<'a> {
    Int(u8),
    Text(&'a str),
}

/// Whether a document is this value.
fn is_wanted(value: &Doc, wanted: &Wanted<'_>) -> bool
    ensures { IsTrue result ↔ (document value.now ≡ wanted_of wanted.now) }
{
    match (value, wanted) {
        (Doc::Int(own), Wanted::Int(number)) => *own == i64::from(*number),
        (Doc::Text(own), Wanted::Text(text)) => own.as_str() == *text,
        _ => false,
    }
}

/// Whether a map has these values at these keys, in their order, and no member more.
fn has_members(members: &BTreeMap<String, Doc>, wanted: &[(&str, Wanted<'_>)]) -> bool
    ensures { IsTrue result ↔ (members_of (entries_of members.now.entries) ≡ members_of (map (λ w. (w.0.now, wanted_of w.1)) wanted.now)) }
{
    let mut others = wanted.iter();
    for (key, value) in members.iter() {
        match others.next() {
            Some((name, wanted)) if key.as_str() == *name && is_wanted(value, wanted) => {}
            _ => return false,
        }
    }
    others.next().is_none()
}

/// Whether a document is a map of these values at these keys, in their order, and no member more.
fn is_map_of(doc: &Doc, wanted: &[(&str, Wanted<'_>)]) -> bool
    ensures { IsTrue result ↔ (document doc.now ≡ object (members_of (map (λ w. (w.0.now, wanted_of w.1)) wanted.now))) }
{
    match doc {
        Doc::Map(members) => has_members(members, wanted),
        _ => false,
    }
}

/// The text at a key, if one stands there.
fn text_at<'a>(doc: &'a Doc, key: &str) -> Option<&'a str>
    ensures { option_map (λ t. t.now) result ≡ option_and_then text_of (get key.now (document doc.now)) }
{
    match doc.get(key) {
        Some(Doc::Text(text)) => Some(text.as_str()),
        _ => None,
    }
}

/// A request for work: how many runs, and the worker.
#[derive(Clone, Copy)]
pub(crate) struct Asked<'a> {
    pub(crate) tasks: u8,
    pub(crate) worker_group: &'a str,
    pub(crate) worker_id: &'a str,
}

/// The request of this worker for so many runs, where the document is it.
fn full_request<'a>(
    doc: &Doc,
    tasks: u8,
    worker_group: &'a str,
    worker_id: &'a str,
) -> Option<Asked<'a>>
    ensures { MatchOption result (¬ (document doc.now ≡ object (members_of (request_members (Some tasks) worker_group.now worker_id.now))))
        (λ asked. (asked.tasks ≡ tasks) × (asked.worker_group.now ≡ worker_group.now) × (asked.worker_id.now ≡ worker_id.now)
        × (document doc.now ≡ object (members_of (request_members (Some tasks) worker_group.now worker_id.now)))) }
{
    let wanted = [
        ("tasks", Wanted::Int(tasks)),
        ("workerGroup", Wanted::Text(worker_group)),
        ("workerId", Wanted::Text(worker_id)),
    ];
    if is_map_of(doc, wanted.as_slice()) {
        Some(Asked {
            tasks,
            worker_group,
            worker_id,
        })
    } else {
        None
    }
}

/// The request of this worker for one run, where the document is it.
fn short_request<'a>(doc: &Doc, worker_group: &'a str, worker_id: &'a str) -> Option<Asked<'a>>
    ensures { MatchOption result (¬ (document doc.now ≡ object (members_of (request_members None worker_group.now worker_id.now))))
        (λ asked. (asked.tasks ≡ 1) × (asked.worker_group.now ≡ worker_group.now) × (asked.worker_id.now ≡ worker_id.now)
        × (document doc.now ≡ object (members_of (request_members None worker_group.now worker_id.now)))) }
{
    let wanted = [
        ("workerGroup", Wanted::Text(worker_group)),
        ("workerId", Wanted::Text(worker_id)),
    ];
    if is_map_of(doc, wanted.as_slice()) {
        Some(Asked {
            tasks: 1,
            worker_group,
            worker_id,
        })
    } else {
        None
    }
}

/// The request for work that a document says, if it says one.
pub(crate) fn asked_of(doc: &Doc) -> Option<Asked<'_>>
    ensures { MatchOption result ((n : ℕ) (group id : List ℕ) → ¬ AsksFor n group id (document doc.now))
        (λ asked. AsksFor asked.tasks asked.worker_group.now asked.worker_id.now (document doc.now)) }
{
    let worker_group = text_at(doc, "workerGroup")?;
    let worker_id = text_at(doc, "workerId")?;
    match doc.get("tasks") {
        None => short_request(doc, worker_group, worker_id),
        Some(Doc::Int(tasks)) if 1 <= *tasks && *tasks <= 32 => {
            full_request(doc, *tasks as u8, worker_group, worker_id)
        }
        Some(_) => None,
    }
}

/// The exception of this name.
fn exception(name: &str) -> Option<Report>
    ensures { result ≡ exception_of name.now }
{
    match name {
        "superseded" => Some(Report::Superseded),
        "worker-shutdown" => Some(Report::WorkerShutdown),
        "malformed-payload" => Some(Report::MalformedPayload),
        "resource-unavailable" => Some(Report::ResourceUnavailable),
        "internal-error" => Some(Report::InternalError),
        "intermittent-task" => Some(Report::IntermittentTask),
        _ => None,
    }
}

/// The reason that a document says, if it says one.
pub(crate) fn reason_of(doc: &Doc) -> Option<Report>
    ensures { MatchOption result ((report : Reported) → ¬ SaysReason (document doc.now) report) (SaysReason (document doc.now)) }
{
    let name = text_at(doc, "reason")?;
    let report = exception(name)?;
    if is_map_of(doc, [("reason", Wanted::Text(name))].as_slice()) {
        Some(report)
    } else {
        None
    }
}
