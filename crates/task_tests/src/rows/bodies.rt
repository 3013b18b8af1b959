//! The definitions of the tasks of the rows.
use crate::words::{definition, id};
use farm_text::SlugId;
use std::alloc::Global;
use task_types::{Creation, Kind};

/// The smallest definition.
const PLAIN: &str =
    r#"{"created":"2024-01-01T00:00:00.000Z","deadline":"2024-01-02T00:00:00.000Z","metadata":{"description":"d","name":"n","owner":"o@example.com","source":"https://example.com/"},"payload":{},"taskQueueId":"prov/wt"}"#;

/// The same, but due at noon, and with two retries.
const DUE_AT_NOON: &str =
    r#"{"created":"2024-01-01T00:00:00.000Z","deadline":"2024-01-01T12:00:00.000Z","metadata":{"description":"d","name":"n","owner":"o@example.com","source":"https://example.com/"},"payload":{},"retries":2,"taskQueueId":"prov/wt"}"#;

/// The plain definition without retries.
const NO_RETRY: &str =
    r#"{"created":"2024-01-01T00:00:00.000Z","deadline":"2024-01-02T00:00:00.000Z","metadata":{"description":"d","name":"n","owner":"o@example.com","source":"https://example.com/"},"payload":{},"retries":0,"taskQueueId":"prov/wt"}"#;

/// With one retry.
const ONE_RETRY: &str =
    r#"{"created":"2024-01-01T00:00:00.000Z","deadline":"2024-01-02T00:00:00.000Z","metadata":{"description":"d","name":"n","owner":"o@example.com","source":"https://example.com/"},"payload":{},"retries":1,"taskQueueId":"prov/wt"}"#;

/// Due as the claim of a worker ends.
const DUE_WITH_CLAIM: &str =
    r#"{"created":"2024-01-01T00:00:00.000Z","deadline":"2024-01-01T00:20:10.000Z","metadata":{"description":"d","name":"n","owner":"o@example.com","source":"https://example.com/"},"payload":{},"taskQueueId":"prov/wt"}"#;

/// Of a higher priority.
const HIGH: &str =
    r#"{"created":"2024-01-01T00:00:00.000Z","deadline":"2024-01-02T00:00:00.000Z","metadata":{"description":"d","name":"n","owner":"o@example.com","source":"https://example.com/"},"payload":{},"priority":"high","taskQueueId":"prov/wt"}"#;

/// Of the first task's group, and it waits for that one.
const AFTER_FIRST: &str =
    r#"{"created":"2024-01-01T00:00:00.000Z","deadline":"2024-01-02T00:00:00.000Z","dependencies":["AAAAAAAAQACAAAAAAAAAAQ"],"metadata":{"description":"d","name":"n","owner":"o@example.com","source":"https://example.com/"},"payload":{},"taskGroupId":"AAAAAAAAQACAAAAAAAAAAQ","taskQueueId":"prov/wt"}"#;

/// It waits for the second and the third.
const AFTER_BOTH: &str =
    r#"{"created":"2024-01-01T00:00:00.000Z","deadline":"2024-01-02T00:00:00.000Z","dependencies":["AAAAAAAAQACAAAAAAAAAAg","AAAAAAAAQACAAAAAAAAAAw"],"metadata":{"description":"d","name":"n","owner":"o@example.com","source":"https://example.com/"},"payload":{},"taskQueueId":"prov/wt"}"#;

/// It waits until the first one is resolved.
const ONCE_RESOLVED: &str =
    r#"{"created":"2024-01-01T00:00:00.000Z","deadline":"2024-01-02T00:00:00.000Z","dependencies":["AAAAAAAAQACAAAAAAAAAAQ"],"metadata":{"description":"d","name":"n","owner":"o@example.com","source":"https://example.com/"},"payload":{},"requires":"all-resolved","taskQueueId":"prov/wt"}"#;

/// In the first task's group, with another scheduler.
const OTHER_SCHEDULER: &str =
    r#"{"created":"2024-01-01T00:00:00.000Z","deadline":"2024-01-02T00:00:00.000Z","metadata":{"description":"d","name":"n","owner":"o@example.com","source":"https://example.com/"},"payload":{},"schedulerId":"s","taskGroupId":"AAAAAAAAQACAAAAAAAAAAQ","taskQueueId":"prov/wt"}"#;

/// Due at noon, and forgotten at 18:00.
const SOON_FORGOTTEN: &str =
    r#"{"created":"2024-01-01T00:00:00.000Z","deadline":"2024-01-01T12:00:00.000Z","expires":"2024-01-01T18:00:00.000Z","metadata":{"description":"d","name":"n","owner":"o@example.com","source":"https://example.com/"},"payload":{},"taskQueueId":"prov/wt"}"#;

/// The plain definition up to its last bracket.
const OPEN: &str =
    r#"{"created":"2024-01-01T00:00:00.000Z","deadline":"2024-01-02T00:00:00.000Z","metadata":{"description":"d","name":"n","owner":"o@example.com","source":"https://example.com/"},"payload":{},"taskQueueId":"prov/wt""#;

/// The definition of this name.
fn body(name: &str) -> Option<&'static str> {
    match name {
        "plain" => Some(PLAIN),
        "due-at-noon" => Some(DUE_AT_NOON),
        "no-retry" => Some(NO_RETRY),
        "one-retry" => Some(ONE_RETRY),
        "due-with-claim" => Some(DUE_WITH_CLAIM),
        "high" => Some(HIGH),
        "after-first" => Some(AFTER_FIRST),
        "after-both" => Some(AFTER_BOTH),
        "once-resolved" => Some(ONCE_RESOLVED),
        "other-scheduler" => Some(OTHER_SCHEDULER),
        "soon-forgotten" => Some(SOON_FORGOTTEN),
        _ => None,
    }
}

/// The creation of a task with the definition of this name; of a link of a chain, which waits for the task of the number before its own.
pub(super) fn creation(alloc: Global, id: SlugId, task: &str, name: &str) -> Option<Kind> {
    match name {
        "link" => link(alloc, id, task),
        _ => kind(named(alloc, id, name)),
    }
}

fn kind(creation: Option<Creation>) -> Option<Kind> {
    match creation {
        Some(creation) => Some(Kind::Create(creation)),
        None => None,
    }
}

/// The creation of a task with this definition.
fn created(alloc: Global, id: SlugId, body: &str) -> Option<Creation> {
    match definition(alloc, body, id) {
        Some(definition) => Some(Creation { id, definition }),
        None => None,
    }
}

/// The creation of the task of the definition of this name.
pub(super) fn named(alloc: Global, id: SlugId, name: &str) -> Option<Creation> {
    created(alloc, id, body(name)?)
}

fn link(alloc: Global, own: SlugId, task: &str) -> Option<Kind> {
    let number = task.parse::<u8>().ok()?;
    let before = id(number.checked_sub(1)?)?;
    match link_body(alloc, before) {
        Some(body) => kind(created(alloc, own, body.as_str())),
        None => None,
    }
}

/// The definition of a task that waits for this one.
fn link_body(alloc: Global, before: SlugId) -> Option<String> {
    match before.to_text(alloc) {
        Ok(name) => format!(in alloc; "{OPEN},\"dependencies\":[\"{}\"]}}", name.as_str()).ok(),
        Err(_) => None,
    }
}
