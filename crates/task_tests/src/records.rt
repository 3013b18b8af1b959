//! Records against tables that were worked by hand.
use crate::words::{definition, id, identifier, moment, report};
use farm_record::{read_record, tick_record, write_record};
use farm_text::{Moment, SlugId};
use std::alloc::{AllocError, Global};
use task_types::{Change, Claim, Creation, Kind, Reclaim, Resolution, RunName, RunNames};

/// The digits of a table, two a byte; all else is left out.
fn digit(c: u8) -> Option<u8> {
    match c {
        b'0'..=b'9' => Some(c - b'0'),
        b'a'..=b'f' => Some(c - b'a' + 10),
        _ => None,
    }
}

fn add_bytes(bytes: &mut Vec<u8>, hex: &str) -> Result<(), AllocError> {
    let mut high = None;
    for c in hex.bytes() {
        if let Some(low) = digit(c) {
            match high {
                None => high = Some(low),
                Some(first) => {
                    bytes.push(first << 4 | low)?;
                    high = None;
                }
            }
        }
    }
    Ok(())
}

/// The bytes of digits, and the text behind their bar.
fn bytes_of(alloc: Global, row: &str) -> Result<Vec<u8>, AllocError> {
    let (hex, text) = row.split_once('|').unwrap_or((row, ""));
    let mut bytes = Vec::new(alloc);
    add_bytes(&mut bytes, hex)?;
    bytes.extend_from_slice(text.as_bytes())?;
    Ok(bytes)
}

/// 2024-01-01T00:00:00.000Z.
fn start() -> Moment {
    moment("2024-01-01T00:00:00.000Z").unwrap_or(Moment::FIRST)
}

/// 20 minutes later.
fn later() -> Moment {
    moment("2024-01-01T00:20:00.000Z").unwrap_or(Moment::FIRST)
}

/// Whether these bytes are what is written of the change.
fn is_written(alloc: Global, change: &Change, record: &[u8]) -> bool {
    match write_record(alloc, change) {
        Ok(written) => written.as_slice() == record,
        Err(_) => false,
    }
}

/// Whether a change is read of these bytes, and they are what is written of it; or they are no record, where they are not to be one.
fn reads_so(alloc: Global, record: &[u8], is_good: bool) -> bool {
    let read = read_record(alloc, record);
    let is_so = if is_good {
        is_written_again(alloc, &read, record)
    } else {
        matches!(&read, Ok(None))
    };
    drop(read);
    is_so
}

fn is_written_again(
    alloc: Global,
    read: &Result<Option<Change>, AllocError>,
    record: &[u8],
) -> bool {
    match read {
        Ok(Some(change)) => is_written(alloc, change, record),
        _ => false,
    }
}

/// Whether the change has the record of a row, and a change with this record is read from it.
fn is_record(alloc: Global, change: &Change, row: &str) -> bool {
    match bytes_of(alloc, row) {
        Ok(record) => is_written(alloc, change, &record) && reads_so(alloc, &record, true),
        Err(_) => false,
    }
}

/// Whether the change that a word stands for has the record of a row.
fn has_record(alloc: Global, row: &str) -> bool {
    match row.split_once('|') {
        Some((word, record)) => match id(0) {
            Some(id) => is_so_written(alloc, id, word, record),
            None => false,
        },
        None => false,
    }
}

/// The same of the first task at the start. Here alone a change is owned that is not read.
fn is_so_written(alloc: Global, id: SlugId, word: &str, record: &str) -> bool {
    match kind(alloc, id, word, record) {
        Some(kind) => is_of(alloc, Change { at: start(), kind }, record),
        None => false,
    }
}

fn is_of(alloc: Global, change: Change, record: &str) -> bool {
    let is_so = is_record(alloc, &change, record);
    drop(change);
    is_so
}

/// What changes: what is asked of a task; a claim of its run 0; its run 49, which is kept; a report of its run 1; or its creation, with the
/// definition behind the record's digits.
fn kind(alloc: Global, id: SlugId, word: &str, record: &str) -> Option<Kind> {
    match word {
        "tick" => Some(Kind::Tick),
        "schedule" => Some(Kind::Schedule(id)),
        "rerun" => Some(Kind::Rerun(id)),
        "cancel" => Some(Kind::Cancel(id)),
        "claim" => claim(alloc, id),
        "reclaim" => Some(Kind::Reclaim(Reclaim {
            id,
            run: 49,
            taken_until: later(),
        })),
        "create" => create(alloc, id, record),
        _ => Some(Kind::Resolve(Resolution {
            id,
            run: 1,
            reason: report(word)?,
        })),
    }
}

/// A claim of run 0 by the worker w of the group g.
fn claim(alloc: Global, id: SlugId) -> Option<Kind> {
    let worker_group = identifier(alloc, "g")?;
    let worker_id = identifier(alloc, "w")?;
    let runs = first_run(alloc, id)?;
    Some(Kind::Claim(Claim {
        taken_until: later(),
        worker_group,
        worker_id,
        runs,
    }))
}

fn first_run(alloc: Global, id: SlugId) -> Option<RunNames> {
    match Vec::from_array(alloc, [RunName { id, run: 0 }]) {
        Ok(names) => RunNames::from_list(names),
        Err(_) => None,
    }
}

fn create(alloc: Global, id: SlugId, record: &str) -> Option<Kind> {
    let (_, body) = record.split_once('|')?;
    match definition(alloc, body, id) {
        Some(definition) => Some(Kind::Create(Creation { id, definition })),
        None => None,
    }
}

/// What changes at the start, and its record: digits, and the text of a definition in full form.
const RECORDS: &str = r#"tick|01 0000018cc251f400|
schedule|03 0000018cc251f400 00000000000040008000000000000000|
rerun|04 0000018cc251f400 00000000000040008000000000000000|
cancel|05 0000018cc251f400 00000000000040008000000000000000|
claim|06 0000018cc251f400 0000018cc2644380 00000001 67 00000001 77 00000001 00000000000040008000000000000000 00|
reclaim|07 0000018cc251f400 00000000000040008000000000000000 31 0000018cc2644380|
completed|08 0000018cc251f400 00000000000040008000000000000000 01 01|
failed|08 0000018cc251f400 00000000000040008000000000000000 01 02|
superseded|08 0000018cc251f400 00000000000040008000000000000000 01 03|
worker-shutdown|08 0000018cc251f400 00000000000040008000000000000000 01 04|
malformed-payload|08 0000018cc251f400 00000000000040008000000000000000 01 05|
resource-unavailable|08 0000018cc251f400 00000000000040008000000000000000 01 06|
internal-error|08 0000018cc251f400 00000000000040008000000000000000 01 07|
intermittent-task|08 0000018cc251f400 00000000000040008000000000000000 01 08|
create|02 0000018cc251f400 00000000000040008000000000000000 000001e7|{"created":"2024-01-01T00:00:00.000Z","deadline":"2024-01-02T00:00:00.000Z","dependencies":[],"expires":"2025-01-01T00:00:00.000Z","extra":{},"metadata":{"description":"d","name":"n","owner":"o@example.com","source":"https://example.com/"},"payload":{},"priority":"lowest","projectId":"none","provisionerId":"prov","requires":"all-completed","retries":5,"routes":[],"schedulerId":"-","scopes":[],"tags":{},"taskGroupId":"AAAAAAAAQACAAAAAAAAAAA","taskQueueId":"prov/wt","workerType":"wt"}"#;

#[test]
fn changes_have_their_records(rt: HostRuntime) {
    for row in RECORDS.lines() {
        assert!(rt; has_record(rt.alloc(), row), "{row}");
    }
    assert!(rt;
        tick_record(start()).as_slice() == b"\x01\x00\x00\x01\x8c\xc2\x51\xf4\x00".as_slice()
    );
}

/// Whether the bytes of a row are no record.
fn is_none(alloc: Global, row: &str) -> bool {
    match bytes_of(alloc, row) {
        Ok(record) => reads_so(alloc, &record, false),
        Err(_) => false,
    }
}

/// Bytes that are no record, a line each: no kind, no such kind, a moment cut short, a byte behind a tick, a moment past the last one,
/// an id of version 1, one of another variant, a report of no number, one past the last, a byte behind a report, a claim of no run,
/// a group that is empty, a worker that is no identifier, one that is not UTF-8, and a run cut short; and creations: with a space in their
/// definition, without a key whose default is the same, with a length that is one too many, with no JSON, no whole number and no definition.
const NO_RECORDS: &str = r#"-|
00 0000018cc251f400|
09 0000018cc251f400|
01 0000018cc251f4|
01 0000018cc251f400 00|
01 0000e677d21fdc00|
03 0000018cc251f400 00000000000010008000000000000000|
03 0000018cc251f400 0000000000004000c000000000000000|
08 0000018cc251f400 00000000000040008000000000000000 01 00|
08 0000018cc251f400 00000000000040008000000000000000 01 09|
08 0000018cc251f400 00000000000040008000000000000000 01 01 00|
06 0000018cc251f400 0000018cc2644380 00000001 67 00000001 77 00000000|
06 0000018cc251f400 0000018cc2644380 00000000 00000001 77 00000001 00000000000040008000000000000000 00|
06 0000018cc251f400 0000018cc2644380 00000001 67 00000001 2f 00000001 00000000000040008000000000000000 00|
06 0000018cc251f400 0000018cc2644380 00000001 67 00000001 ff 00000001 00000000000040008000000000000000 00|
06 0000018cc251f400 0000018cc2644380 00000001 67 00000001 77 00000001 00000000000040008000000000000000|
02 0000018cc251f400 00000000000040008000000000000000 000001e8|{"created":"2024-01-01T00:00:00.000Z","deadline":"2024-01-02T00:00:00.000Z","dependencies":[],"expires":"2025-01-01T00:00:00.000Z","extra":{ },"metadata":{"description":"d","name":"n","owner":"o@example.com","source":"https://example.com/"},"payload":{},"priority":"lowest","projectId":"none","provisionerId":"prov","requires":"all-completed","retries":5,"routes":[],"schedulerId":"-","scopes":[],"tags":{},"taskGroupId":"AAAAAAAAQACAAAAAAAAAAA","taskQueueId":"prov/wt","workerType":"wt"}
02 0000018cc251f400 00000000000040008000000000000000 000001dc|{"created":"2024-01-01T00:00:00.000Z","deadline":"2024-01-02T00:00:00.000Z","dependencies":[],"expires":"2025-01-01T00:00:00.000Z","metadata":{"description":"d","name":"n","owner":"o@example.com","source":"https://example.com/"},"payload":{},"priority":"lowest","projectId":"none","provisionerId":"prov","requires":"all-completed","retries":5,"routes":[],"schedulerId":"-","scopes":[],"tags":{},"taskGroupId":"AAAAAAAAQACAAAAAAAAAAA","taskQueueId":"prov/wt","workerType":"wt"}
02 0000018cc251f400 00000000000040008000000000000000 000001e8|{"created":"2024-01-01T00:00:00.000Z","deadline":"2024-01-02T00:00:00.000Z","dependencies":[],"expires":"2025-01-01T00:00:00.000Z","extra":{},"metadata":{"description":"d","name":"n","owner":"o@example.com","source":"https://example.com/"},"payload":{},"priority":"lowest","projectId":"none","provisionerId":"prov","requires":"all-completed","retries":5,"routes":[],"schedulerId":"-","scopes":[],"tags":{},"taskGroupId":"AAAAAAAAQACAAAAAAAAAAA","taskQueueId":"prov/wt","workerType":"wt"}
02 0000018cc251f400 00000000000040008000000000000000 00000001|{
02 0000018cc251f400 00000000000040008000000000000000 00000003|1.5
02 0000018cc251f400 00000000000040008000000000000000 00000002|{}"#;

#[test]
fn what_is_no_record(rt: HostRuntime) {
    for row in NO_RECORDS.lines() {
        assert!(rt; is_none(rt.alloc(), row), "{row}");
    }
}

/// The record of a claim of so many runs, each run 0 of the first task.
fn claim_of(alloc: Global, number: &str, runs: u32) -> Result<Vec<u8>, AllocError> {
    let mut record = Vec::new(alloc);
    add_bytes(
        &mut record,
        "06 0000018cc251f400 0000018cc2644380 00000001 67 00000001 77",
    )?;
    add_bytes(&mut record, number)?;
    for _ in 0..runs {
        add_bytes(&mut record, "00000000000040008000000000000000 00")?;
    }
    Ok(record)
}

/// Whether a claim of so many runs is read, or refused.
fn may_claim(alloc: Global, number: &str, runs: u32, is_good: bool) -> bool {
    match claim_of(alloc, number, runs) {
        Ok(record) => reads_so(alloc, &record, is_good),
        Err(_) => false,
    }
}

#[test]
fn claims_of_many_runs(rt: HostRuntime) {
    let told = [
        may_claim(rt.alloc(), "00000020", 32, true),
        may_claim(rt.alloc(), "00000021", 33, false),
    ];
    assert_eq!(rt; told, [true; 2]);
}
