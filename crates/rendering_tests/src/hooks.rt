//! Firings that were worked by hand.
use farm_text::{Doc, Moment, SlugId, Text};
use hook_book::Hook;
use hook_fire::{FireFault, fire};
use std::alloc::{AllocError, Global};
use task_defs::full_text_of;
use task_types::TaskDef;

const DRAWN: &[u8] = b"AAAAAAAAQACAAAAAAAAAAg";

/// 2024-01-01T00:00:00.000Z.
const NEW_YEAR: u64 = 1_704_067_200_000;

const SENT: &str = r#"{"x":"one"}"#;

/// A template that has all that a definition needs but its queue, a payload, `created` and `deadline`, without its last brace.
const FRONT: &str = r#"{"metadata":{"description":"d","name":"n","owner":"o","source":"s"}"#;

/// The text of a template: the front and what follows it, or the text itself where it does not begin with a comma.
fn whole(alloc: Global, template: &str) -> Result<String, AllocError> {
    if template.starts_with(',') {
        format!(in alloc; "{FRONT}{template}}}")
    } else {
        String::from_str(alloc, template)
    }
}

/// The hook `h` of group `g` with a template. Here and below `None` is want of memory, or a text that is no JSON.
fn hook(alloc: Global, template: &str) -> Option<Hook> {
    match whole(alloc, template) {
        Ok(text) => hook_of(alloc, text.as_str()),
        Err(_) => None,
    }
}

fn hook_of(alloc: Global, template: &str) -> Option<Hook> {
    let group = Text::from_str(alloc, "g").ok()?;
    let id = Text::from_str(alloc, "h").ok()?;
    match Doc::read(alloc, template.as_bytes()) {
        Ok(template) => Some(Hook {
            group,
            id,
            template,
        }),
        Err(_) => None,
    }
}

/// Whether the full form of a definition has this text in it.
fn has_part(alloc: Global, def: &TaskDef, part: &str) -> bool {
    match full_text_of(alloc, &def) {
        Ok(text) => text.as_str().contains(part),
        Err(_) => false,
    }
}

fn words(alloc: Global, fault: &FireFault) -> Result<String, AllocError> {
    match fault {
        FireFault::Template(fault) => {
            format!(in alloc; "fault {} {}", fault.rule.rule(), fault.path.as_str())
        }
        FireFault::TooMuchWork => String::from_str(alloc, "too much"),
        FireFault::Definition(fault) => {
            format!(in alloc; "rule {} {}", fault.rule, fault.key.as_str())
        }
        FireFault::NoMemory => String::from_str(alloc, "no memory"),
    }
}

fn has_words(alloc: Global, fault: &FireFault, wanted: &str) -> bool {
    match words(alloc, fault) {
        Ok(words) => words.as_str().trim_end() == wanted,
        Err(_) => false,
    }
}

/// Whether a firing gave a definition whose full form has this text in it, or this fault.
fn is_told(alloc: Global, fired: &Result<TaskDef, FireFault>, wanted: &str) -> bool {
    match fired {
        Ok(def) => has_part(alloc, def, wanted),
        Err(fault) => has_words(alloc, fault, wanted),
    }
}

/// A payload, the moment and the id of a firing, and what it gives.
#[derive(Clone, Copy)]
struct Firing<'a> {
    payload: &'a str,
    moment: Moment,
    drawn: SlugId,
    wanted: &'a str,
}

/// Whether a hook gives this. Here alone a definition is owned, so that the proofs of the tests are short.
fn tells(alloc: Global, hook: &Hook, payload: &Doc, firing: &Firing) -> bool {
    let fired = fire(alloc, hook, payload, firing.moment, firing.drawn);
    let is_so = is_told(alloc, &fired, firing.wanted);
    drop(fired);
    is_so
}

fn fires(alloc: Global, hook: &Hook, firing: &Firing) -> bool {
    match Doc::read(alloc, firing.payload.as_bytes()) {
        Ok(payload) => {
            let is_so = tells(alloc, hook, &payload, firing);
            drop(payload);
            is_so
        }
        Err(_) => false,
    }
}

fn hook_fires(alloc: Global, template: &str, firing: &Firing) -> bool {
    match hook(alloc, template) {
        Some(hook) => {
            let is_so = fires(alloc, &hook, firing);
            drop(hook);
            is_so
        }
        None => false,
    }
}

/// Whether the hook of a template gives this, fired at this moment with this payload.
fn gives(alloc: Global, template: &str, payload: &str, millis: u64, wanted: &str) -> bool {
    match (Moment::from_millis(millis), SlugId::read(DRAWN)) {
        (Some(moment), Some(drawn)) => {
            let firing = Firing {
                payload,
                moment,
                drawn,
                wanted,
            };
            hook_fires(alloc, template, &firing)
        }
        _ => false,
    }
}

/// Whether the template of a row, fired at the new year, gives what stands behind it.
fn row_gives(alloc: Global, payload: &str, row: &str) -> bool {
    match row.split_once(" ~ ") {
        Some((template, wanted)) => gives(alloc, template, payload, NEW_YEAR, wanted),
        None => false,
    }
}

/// The same at the moment of so many milliseconds, with which the row begins.
fn row_gives_at(alloc: Global, row: &str) -> bool {
    match row.split_once(" ~ ") {
        Some((millis, row)) => match (millis.parse::<u64>(), row.split_once(" ~ ")) {
            (Ok(millis), Some((template, wanted))) => gives(alloc, template, SENT, millis, wanted),
            _ => false,
        },
        None => false,
    }
}

/// A template whose route is of the payload, where that has no such member.
const UNROUTED: &str =
    r#","payload":{},"routes":["r.${payload.x}"],"taskQueueId":"prov/wt" ~ fault 6 /routes/0"#;

/// Templates, and what they give: one whose route is of the payload, others, and some without what need not be said.
const TEMPLATES: &str =
    r#","payload":{},"routes":["r.${payload.x}"],"taskQueueId":"prov/wt" ~ {"created":"2024-01-01T00:00:00.000Z","deadline":"2024-01-02T00:00:00.000Z","dependencies":[],"expires":"2025-01-01T00:00:00.000Z","extra":{},"metadata":{"description":"d","name":"n","owner":"o","source":"s"},"payload":{},"priority":"lowest","projectId":"none","provisionerId":"prov","requires":"all-completed","retries":5,"routes":["r.one"],"schedulerId":"-","scopes":[],"tags":{},"taskGroupId":"AAAAAAAAQACAAAAAAAAAAg","taskQueueId":"prov/wt","workerType":"wt"}
,"payload":{"by":{"$eval":"firedBy"},"id":{"$eval":"taskId"},"now":{"$eval":"now"},"sent":{"$eval":"payload"}},"taskQueueId":"prov/wt" ~ "payload":{"by":"triggerHook","id":"AAAAAAAAQACAAAAAAAAAAg","now":"2024-01-01T00:00:00.000Z","sent":{"x":"one"}}
,"payload":{"other":"${hookId}"},"taskQueueId":"prov/wt" ~ fault 2 /payload/other
,"payload":{},"routes":["r.${payload.x}"],"taskQueueId":"prov" ~ rule 2 taskQueueId
,"payload":{},"taskQueueId":{"$if":"false","then":"prov/wt"} ~ rule 1 taskQueueId
{"$eval":"len(range(0,2000000))"} ~ too much
{"a":{"$eval":"7/2"}} ~ fault 5 /a
[{"created":"2024-01-01T00:00:00.000Z"}] ~ rule 1
"text" ~ rule 1
7 ~ rule 1
{"$if":"false","then":{}} ~ rule 1
{} ~ rule 1 metadata
,"created":"2023-12-31T12:00:00.000Z","payload":{},"taskQueueId":"prov/wt" ~ {"created":"2023-12-31T12:00:00.000Z","deadline":"2024-01-02T00:00:00.000Z",
,"deadline":"2024-01-01T06:00:00.000Z","payload":{},"taskQueueId":"prov/wt" ~ {"created":"2024-01-01T00:00:00.000Z","deadline":"2024-01-01T06:00:00.000Z",
,"created":"2024-01-02T00:00:00.000Z","deadline":{"$fromNow":"2 days"},"payload":{},"taskQueueId":"prov/wt" ~ {"created":"2024-01-02T00:00:00.000Z","deadline":"2024-01-03T00:00:00.000Z",
,"created":{"$if":"false","then":"x"},"payload":{},"taskQueueId":"prov/wt" ~ {"created":"2024-01-01T00:00:00.000Z","deadline":"2024-01-02T00:00:00.000Z",
,"created":null,"payload":{},"taskQueueId":"prov/wt" ~ rule 1 created
,"deadline":"soon","payload":{},"taskQueueId":"prov/wt" ~ rule 10 deadline
,"created":"2023-12-27T23:59:59.999Z","payload":{},"taskQueueId":"prov/wt" ~ rule 11 deadline
,"created":"2023-12-28T00:00:00.000Z","payload":{},"taskQueueId":"prov/wt" ~ {"created":"2023-12-28T00:00:00.000Z","deadline":"2024-01-02T00:00:00.000Z",
,"deadline":"2024-01-01T00:00:00.000Z","payload":{},"taskQueueId":"prov/wt" ~ rule 11 deadline"#;

#[test]
fn what_templates_give(rt: HostRuntime) {
    assert!(rt; row_gives(rt.alloc(), "{}", UNROUTED));
    for row in TEMPLATES.lines() {
        assert!(rt; row_gives(rt.alloc(), SENT, row), "{row}");
    }
}

/// Deadlines past the last moment that is read, 9998-12-31T23:59:59.999Z (253370764799999): the moment of the firing, a template, and what
/// it gives.
const LATE: &str =
    r#"253370678399998 ~ ,"payload":{},"taskQueueId":"prov/wt" ~ "deadline":"9998-12-31T23:59:59.998Z"
253370678399999 ~ ,"payload":{},"taskQueueId":"prov/wt" ~ rule 12 expires
253370678400000 ~ ,"payload":{},"taskQueueId":"prov/wt" ~ rule 10 deadline
253370764799999 ~ ,"payload":{},"taskQueueId":"prov/wt" ~ rule 10 deadline
253370764800000 ~ ,"payload":{},"taskQueueId":"prov/wt" ~ rule 10 created
253402300799999 ~ ,"payload":{},"taskQueueId":"prov/wt" ~ rule 10 created
253370764799999 ~ ,"created":"x","payload":{},"taskQueueId":"prov/wt" ~ rule 10 created
253370764799999 ~ ,"payload":{},"taskQueueId":"prov" ~ rule 2 taskQueueId
253370764799999 ~ ,"payload":{},"retries":50,"taskQueueId":"prov/wt" ~ rule 9 retries
253370764799999 ~ ,"payload":{},"scopes":[""],"taskQueueId":"prov/wt" ~ rule 10 deadline"#;

#[test]
fn deadlines_past_the_last_moment(rt: HostRuntime) {
    for row in LATE.lines() {
        assert!(rt; row_gives_at(rt.alloc(), row), "{row}");
    }
}
