//! Definitions that were worked by hand, in full form or with the first rule that they break.
use farm_text::{Doc, SlugId};
use std::alloc::{AllocError, Global};
use task_defs::{DefError, full_text_of, read_task};
use task_types::{TaskDef, same};

mod limits;

const FIRST_TASK: &[u8] = b"AAAAAAAAQACAAAAAAAAAAA";

/// The smallest definition, without its last brace.
const PLAIN: &str =
    r#"{"created":"2024-01-01T00:00:00.000Z","deadline":"2024-01-02T00:00:00.000Z","metadata":{"description":"d","name":"n","owner":"o@example.com","source":"https://example.com/"},"payload":{},"taskQueueId":"prov/wt""#;

/// The same in full form, for the first task.
const PLAIN_IN_FULL: &str =
    r#"{"created":"2024-01-01T00:00:00.000Z","deadline":"2024-01-02T00:00:00.000Z","dependencies":[],"expires":"2025-01-01T00:00:00.000Z","extra":{},"metadata":{"description":"d","name":"n","owner":"o@example.com","source":"https://example.com/"},"payload":{},"priority":"lowest","projectId":"none","provisionerId":"prov","requires":"all-completed","retries":5,"routes":[],"schedulerId":"-","scopes":[],"tags":{},"taskGroupId":"AAAAAAAAQACAAAAAAAAAAA","taskQueueId":"prov/wt","workerType":"wt"}"#;

/// A row's definition: the smallest one with these members more, or the text itself where it does not begin with a comma.
fn whole(alloc: Global, row: &str) -> Result<String, AllocError> {
    if row.is_empty() || row.starts_with(',') {
        format!(in alloc; "{PLAIN}{row}}}")
    } else {
        String::from_str(alloc, row)
    }
}

/// The document of a row.
fn row_doc(alloc: Global, row: &str) -> Option<Doc> {
    let text = whole(alloc, row).ok()?;
    Doc::read(alloc, text.as_str().as_bytes()).ok()
}

/// The rule that is broken and the key that shows it, with a space between them, or `ok`.
fn outcome(alloc: Global, read: &Result<TaskDef, DefError>) -> Result<String, AllocError> {
    match read {
        Ok(_) => String::from_str(alloc, "ok"),
        Err(DefError::Fault(fault)) => {
            format!(in alloc; "{} {}", fault.rule, fault.key.as_str())
        }
        Err(DefError::NoMemory) => String::from_str(alloc, "no memory"),
    }
}

/// Whether this is the outcome.
fn is_outcome(alloc: Global, read: &Result<TaskDef, DefError>, wanted: &str) -> bool {
    match outcome(alloc, read) {
        Ok(found) => found.as_str() == wanted,
        Err(_) => false,
    }
}

/// What a test asks of the reading of a document.
#[derive(Clone, Copy)]
enum Check<'a> {
    HasOutcome(&'a str),
    HasWords(&'a str),
    SaysPart(&'a str),
    SaysTheSame(&'a Doc),
}

/// Whether it holds of the document for the first task. Here alone, and in `says_it`, a definition is owned, so that the proofs of the tests are short.
fn reads_so(alloc: Global, doc: &Doc, id: SlugId, check: Check) -> bool {
    let read = read_task(alloc, doc, id);
    let is_so = passes(alloc, &read, id, check);
    drop(read);
    is_so
}

fn passes(alloc: Global, read: &Result<TaskDef, DefError>, id: SlugId, check: Check) -> bool {
    match check {
        Check::HasOutcome(wanted) => is_outcome(alloc, read, wanted),
        Check::HasWords(wanted) => are_words(alloc, read, wanted),
        Check::SaysPart(part) => matches!(read, Ok(def) if has_part(alloc, def, part)),
        Check::SaysTheSame(other) => matches!(read, Ok(def) if says_it(alloc, def, other, id)),
    }
}

/// Whether it holds of a document.
fn holds_of(alloc: Global, doc: &Doc, check: Check) -> bool {
    match SlugId::read(FIRST_TASK) {
        Some(id) => reads_so(alloc, doc, id, check),
        None => false,
    }
}

/// Whether it holds of a row, if that is a document.
fn holds(alloc: Global, row: &str, check: Check) -> Option<bool> {
    let doc = row_doc(alloc, row)?;
    let is_so = holds_of(alloc, &doc, check);
    drop(doc);
    Some(is_so)
}

/// Whether a document has this outcome.
fn tells(alloc: Global, doc: &Doc, wanted: &str) -> bool {
    holds_of(alloc, doc, Check::HasOutcome(wanted))
}

/// Whether a row has this outcome.
fn has_outcome(alloc: Global, wanted: &str, row: &str) -> bool {
    holds(alloc, row, Check::HasOutcome(wanted)) == Some(true)
}

/// The first of some rows whose outcome is not the one that it begins with, or `none`.
fn first_other(alloc: Global, rows: &str) -> &str {
    for row in rows.split('\n') {
        match row.split_once('|') {
            Some((wanted, members)) if has_outcome(alloc, wanted, members) => {}
            _ => return row,
        }
    }
    "none"
}

/// The rule and key, and the document that is refused for them.
const DOCUMENTS: &str = r#"1 |[]
1 |null
1 created|{}
1 created|{"zzz":1}
1 aaa|{"aaa":1}
1 deadline|{"created":"","metadata":{},"payload":{}}
1 metadata|{"created":"","deadline":"","payload":{}}
1 payload|{"created":"","deadline":"","metadata":{}}
1 taskQueueId|{"created":"","deadline":"","metadata":{},"payload":{}}"#;

/// The rule and key, and the members that the smallest definition gains for them: the first four rules.
const NAMES: &str = r#"1 aaa|,"aaa":1,"zzz":1
1 Extra|,"Extra":{}
1 retries|,"retries":"5"
1 tags|,"tags":null
1 payload|,"payload":[]
1 workerType|,"provisionerId":"prov"
1 provisionerId|,"workerType":"wt"
1 zzz|,"zzz":1,"taskQueueId":"x"
2 taskQueueId|,"taskQueueId":"prov"
2 taskQueueId|,"taskQueueId":"prov/"
2 taskQueueId|,"taskQueueId":"a/b/c"
2 taskQueueId|,"taskQueueId":"p/123456789012345678901234567890123456789"
2 provisionerId|,"provisionerId":"p!","workerType":"w!"
2 workerType|,"provisionerId":"prov","workerType":"w!"
2 taskQueueId|,"provisionerId":"prov","workerType":"other"
2 taskQueueId|,"provisionerId":"prov","taskQueueId":"x","workerType":"w!"
2 taskQueueId|,"taskQueueId":"x","projectId":""
3 projectId|,"projectId":"a b"
3 schedulerId|,"schedulerId":"a.b"
3 projectId|,"projectId":"","schedulerId":""
3 schedulerId|,"schedulerId":"","taskGroupId":"x"
4 taskGroupId|,"taskGroupId":"AAAAAAAAQACAAAAAAAAAAB"
4 taskGroupId|,"taskGroupId":"x","dependencies":[1]
1 extra|,"extra":null
1 taskGroupId|,"taskGroupId":1,"taskQueueId":"x""#;

/// The same for rules 5 to 9.
const TERMS: &str = r#"5 dependencies|,"dependencies":["x"]
5 dependencies|,"dependencies":["AAAAAAAAQACAAAAAAAAAAw","AAAAAAAAQACAAAAAAAAAAw"]
5 dependencies|,"dependencies":[1],"requires":""
6 requires|,"requires":"all"
6 requires|,"requires":"all","routes":[""]
7 routes|,"routes":[""]
7 routes|,"routes":["a","a"]
7 routes|,"routes":["\u007f"]
7 routes|,"routes":[1],"priority":""
8 priority|,"priority":"High"
8 priority|,"priority":"High","retries":50
9 retries|,"retries":50
9 retries|,"retries":-1
9 retries|,"retries":50,"created":"""#;

/// The same for rules 10 to 14.
const MOMENTS_AND_LABELS: &str = r#"10 created|,"created":"","deadline":""
10 deadline|,"deadline":"2024-01-02"
10 expires|,"deadline":"2024-01-01T00:00:00Z","expires":"never"
11 deadline|,"deadline":"2024-01-01T00:00:00Z"
11 deadline|,"deadline":"2024-01-06T00:00:00.001Z"
11 deadline|,"deadline":"2024-01-01T00:00:00Z","expires":"2023-01-01T00:00:00Z"
12 expires|,"expires":"2024-01-02T00:00:00.000Z"
12 expires|,"created":"9998-12-31T00:00:00Z","deadline":"9998-12-31T23:59:59.999Z"
12 expires|,"expires":"2024-01-02T00:00:00.000Z","scopes":[""]
13 scopes|,"scopes":["a**"]
13 scopes|,"scopes":["é"]
13 scopes|,"scopes":["a","a"]
13 scopes|,"scopes":[1],"metadata":{}
14 metadata|,"metadata":{"description":"d","name":"n","owner":"o"}
14 metadata|,"metadata":{"a":"","description":"d","name":"n","owner":"o","source":"s"}
14 metadata|,"metadata":{},"tags":{"a":1}
14 tags|,"tags":{"a":"b","c":1}
11 deadline|,"created":"2024-01-02T00:00:00Z"
11 deadline|,"created":"2023-12-27T23:59:59.999Z"
14 tags|,"tags":{"a":null}"#;

/// The tables of what is refused.
const REFUSED: &[&str] = &[DOCUMENTS, NAMES, TERMS, MOMENTS_AND_LABELS];

/// The first row of all of them whose outcome is not the one that it begins with, or `none`.
fn first_of_all(alloc: Global) -> &'static str {
    for rows in REFUSED {
        let other = first_other(alloc, rows);
        if other != "none" {
            return other;
        }
    }
    "none"
}

#[test]
fn what_is_refused(rt: HostRuntime) {
    let other = first_of_all(rt.alloc());
    assert!(rt; other == "none", "{other}");
}

/// What is said of a definition that is refused.
fn words(alloc: Global, read: &Result<TaskDef, DefError>) -> Result<String, AllocError> {
    match read {
        Err(DefError::Fault(fault)) => format!(in alloc; "{fault}"),
        _ => String::from_str(alloc, "no fault"),
    }
}

/// Whether this is said.
fn are_words(alloc: Global, read: &Result<TaskDef, DefError>, wanted: &str) -> bool {
    match words(alloc, read) {
        Ok(found) => found.as_str() == wanted,
        Err(_) => false,
    }
}

/// Whether this is said of a row, if that is a document.
fn has_words(alloc: Global, row: &str, wanted: &str) -> bool {
    holds(alloc, row, Check::HasWords(wanted)) == Some(true)
}

#[test]
fn what_is_said_of_faults(rt: HostRuntime) {
    let retries = "retries: it is 0 to 49 (rule 9)";
    let told = [
        has_words(rt.alloc(), ",\"retries\":50", retries),
        has_words(rt.alloc(), ",\"retries\":49", retries),
    ];
    assert_eq!(rt; told, [true, false]);
    let whole =
        "the definition: a definition is a map of known keys, each of its kind, none of those missing that have to stand, that nests at most 127 deep (rule 1)";
    assert!(rt; has_words(rt.alloc(), "[]", whole));
}

/// Whether the full form of a definition has this text in it.
fn has_part(alloc: Global, def: &TaskDef, part: &str) -> bool {
    match full_text_of(alloc, &def) {
        Ok(text) => text.as_str().contains(part),
        Err(_) => false,
    }
}

/// Whether the full form of what a row says has this text in it, if that is a document.
fn says(alloc: Global, row: &str, part: &str) -> bool {
    holds(alloc, row, Check::SaysPart(part)) == Some(true)
}

#[test]
fn the_plain_definition_in_full_form(rt: HostRuntime) {
    let told = [
        says(rt.alloc(), "", PLAIN_IN_FULL),
        says(rt.alloc(), PLAIN_IN_FULL, PLAIN_IN_FULL),
    ];
    assert_eq!(rt; told, [true; 2]);
}

/// A member of the full form, and the members that the smallest definition gains for it.
const SAID: &str = r#""priority":"lowest"|,"priority":"normal"
"priority":"very-high"|,"priority":"very-high"
"requires":"all-resolved"|,"requires":"all-resolved"
"retries":0|,"retries":0
"retries":49|,"retries":49
"extra":{"a":{},"b":[1]}|,"extra":{"b":[1],"a":{}}
"tags":{"os":"linux"}|,"tags":{"os":"linux"}
"routes":["b","a b"]|,"routes":["b","a b"]
"scopes":["b:*","a"]|,"scopes":["b:*","a"]
"projectId":"a.b/c"|,"projectId":"a.b/c"
"schedulerId":"s_1-"|,"schedulerId":"s_1-"
"dependencies":["AAAAAAAAQACAAAAAAAAAAw"]|,"dependencies":["AAAAAAAAQACAAAAAAAAAAw"]
"taskGroupId":"AAAAAAAAQACAAAAAAAAAAQ"|,"taskGroupId":"AAAAAAAAQACAAAAAAAAAAQ"
"taskQueueId":"prov/wt"|,"provisionerId":"prov","workerType":"wt"
"created":"2024-01-01T00:00:00.000Z"|,"created":"2024-01-01T01:00:00.0009+01:00"
"expires":"2025-01-05T00:00:00.000Z"|,"deadline":"2024-01-06T00:00:00Z"
"expires":"2024-01-02T00:00:00.001Z"|,"expires":"2024-01-02T00:00:00.001Z"
"expires":"9998-12-31T23:59:59.999Z"|,"created":"9998-06-01T00:00:00Z","deadline":"9998-06-02T00:00:00Z"
"retries":7|,"retries":3,"retries":7
"created":"2023-12-28T00:00:00.000Z"|,"created":"2023-12-28T00:00:00Z"
"created":"2024-01-01T23:00:00.000Z"|,"created":"2024-01-01T18:00:00-05:00""#;

/// Whether the row says what stands before its bar.
fn says_its_part(alloc: Global, row: &str) -> bool {
    match row.split_once('|') {
        Some((part, members)) => says(alloc, members, part),
        None => false,
    }
}

#[test]
fn what_members_say(rt: HostRuntime) {
    for row in SAID.split('\n') {
        assert!(rt; says_its_part(rt.alloc(), row), "{row}");
    }
    assert!(rt; !says_its_part(rt.alloc(), "\"retries\":7|,\"retries\":6"));
}

/// One member more or another value, and the definition is another.
const OTHERS: &str = r#","tags":{"a":"b"}
,"extra":{"a":1}
,"payload":{"a":1}
,"priority":"high"
,"retries":4
,"requires":"all-resolved"
,"routes":["r"]
,"scopes":["s"]
,"projectId":"p"
,"schedulerId":"s"
,"taskQueueId":"prov/other"
,"taskGroupId":"AAAAAAAAQACAAAAAAAAAAQ"
,"dependencies":["AAAAAAAAQACAAAAAAAAAAw"]
,"created":"2024-01-01T00:00:00.001Z"
,"deadline":"2024-01-02T00:00:00.001Z","expires":"2025-01-01T00:00:00.000Z"
,"expires":"2024-12-31T23:59:59.999Z"
,"metadata":{"description":"d","name":"n","owner":"o@example.com","source":"x"}"#;

/// Whether a document says this definition.
fn says_it(alloc: Global, def: &TaskDef, doc: &Doc, id: SlugId) -> bool {
    let read = read_task(alloc, doc, id);
    let is_so = is_same(def, &read);
    drop(read);
    is_so
}

fn is_same(def: &TaskDef, read: &Result<TaskDef, DefError>) -> bool {
    matches!(read, Ok(other) if same(def, other))
}

/// Whether two rows say the same definition.
fn alike(alloc: Global, first: &str, second: &str) -> Option<bool> {
    let other = row_doc(alloc, second)?;
    let is_so = holds(alloc, first, Check::SaysTheSame(&other));
    drop(other);
    is_so
}

/// Whether the smallest definition with these members is another than the smallest one, and the same as itself.
fn differs(alloc: Global, members: &str) -> bool {
    alike(alloc, "", members) == Some(false) && alike(alloc, members, members) == Some(true)
}

#[test]
fn definitions_that_differ(rt: HostRuntime) {
    for members in OTHERS.split('\n') {
        assert!(rt; differs(rt.alloc(), members), "{members}");
    }
    let defaults = ",\"retries\":5,\"tags\":{},\"priority\":\"normal\"";
    assert!(rt; alike(rt.alloc(), "", defaults) == Some(true));
}
