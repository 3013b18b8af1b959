//! A diamond and a chain of tasks, over connections in memory. The replies were written by hand after the queue service's reference, and by a model of it.
use super::rows::{Talk, all_answered, asked, reply_text};
use super::tasks::{ALL, PLAIN, farm};
use super::*;

/// Four tasks of a group: two wait for the first, and the last for both. The last is pending once both are completed.
const DIAMOND: &str =
    r#"0|PUT /api/queue/v1/task/AAAAAAAAQACAAAAAAAAAAA|{"created":"2024-01-01T00:00:00.000Z","deadline":"2024-01-02T00:00:00.000Z","metadata":{"description":"d","name":"n","owner":"o@example.com","source":"https://example.com/"},"payload":{},"taskQueueId":"prov/wt"}|200 OK|{"status":{"deadline":"2024-01-02T00:00:00.000Z","expires":"2025-01-01T00:00:00.000Z","projectId":"none","provisionerId":"prov","retriesLeft":5,"runs":[{"reasonCreated":"scheduled","runId":0,"scheduled":"2024-01-01T00:00:00.000Z","state":"pending"}],"schedulerId":"-","state":"pending","taskGroupId":"AAAAAAAAQACAAAAAAAAAAA","taskId":"AAAAAAAAQACAAAAAAAAAAA","taskQueueId":"prov/wt","workerType":"wt"}}
0|PUT /api/queue/v1/task/AAAAAAAAQACAAAAAAAAAAQ|{"created":"2024-01-01T00:00:00.000Z","deadline":"2024-01-02T00:00:00.000Z","dependencies":["AAAAAAAAQACAAAAAAAAAAA"],"metadata":{"description":"d","name":"n","owner":"o@example.com","source":"https://example.com/"},"payload":{},"taskGroupId":"AAAAAAAAQACAAAAAAAAAAA","taskQueueId":"prov/wt"}|200 OK|{"status":{"deadline":"2024-01-02T00:00:00.000Z","expires":"2025-01-01T00:00:00.000Z","projectId":"none","provisionerId":"prov","retriesLeft":5,"runs":[],"schedulerId":"-","state":"unscheduled","taskGroupId":"AAAAAAAAQACAAAAAAAAAAA","taskId":"AAAAAAAAQACAAAAAAAAAAQ","taskQueueId":"prov/wt","workerType":"wt"}}
0|PUT /api/queue/v1/task/AAAAAAAAQACAAAAAAAAAAg|{"created":"2024-01-01T00:00:00.000Z","deadline":"2024-01-02T00:00:00.000Z","dependencies":["AAAAAAAAQACAAAAAAAAAAA"],"metadata":{"description":"d","name":"n","owner":"o@example.com","source":"https://example.com/"},"payload":{},"requires":"all-resolved","taskGroupId":"AAAAAAAAQACAAAAAAAAAAA","taskQueueId":"prov/wt"}|200 OK|{"status":{"deadline":"2024-01-02T00:00:00.000Z","expires":"2025-01-01T00:00:00.000Z","projectId":"none","provisionerId":"prov","retriesLeft":5,"runs":[],"schedulerId":"-","state":"unscheduled","taskGroupId":"AAAAAAAAQACAAAAAAAAAAA","taskId":"AAAAAAAAQACAAAAAAAAAAg","taskQueueId":"prov/wt","workerType":"wt"}}
0|PUT /api/queue/v1/task/AAAAAAAAQACAAAAAAAAAAw|{"created":"2024-01-01T00:00:00.000Z","deadline":"2024-01-02T00:00:00.000Z","dependencies":["AAAAAAAAQACAAAAAAAAAAQ","AAAAAAAAQACAAAAAAAAAAg"],"metadata":{"description":"d","name":"n","owner":"o@example.com","source":"https://example.com/"},"payload":{},"taskGroupId":"AAAAAAAAQACAAAAAAAAAAA","taskQueueId":"prov/wt"}|200 OK|{"status":{"deadline":"2024-01-02T00:00:00.000Z","expires":"2025-01-01T00:00:00.000Z","projectId":"none","provisionerId":"prov","retriesLeft":5,"runs":[],"schedulerId":"-","state":"unscheduled","taskGroupId":"AAAAAAAAQACAAAAAAAAAAA","taskId":"AAAAAAAAQACAAAAAAAAAAw","taskQueueId":"prov/wt","workerType":"wt"}}
1000|POST /api/queue/v1/claim-work/prov%2Fwt|{"tasks":32,"workerGroup":"g","workerId":"a"}|200 OK|{"tasks":[{"runId":0,"status":{"deadline":"2024-01-02T00:00:00.000Z","expires":"2025-01-01T00:00:00.000Z","projectId":"none","provisionerId":"prov","retriesLeft":5,"runs":[{"reasonCreated":"scheduled","runId":0,"scheduled":"2024-01-01T00:00:00.000Z","started":"2024-01-01T00:00:01.000Z","state":"running","takenUntil":"2024-01-01T00:20:01.000Z","workerGroup":"g","workerId":"a"}],"schedulerId":"-","state":"running","taskGroupId":"AAAAAAAAQACAAAAAAAAAAA","taskId":"AAAAAAAAQACAAAAAAAAAAA","taskQueueId":"prov/wt","workerType":"wt"},"takenUntil":"2024-01-01T00:20:01.000Z","task":{"created":"2024-01-01T00:00:00.000Z","deadline":"2024-01-02T00:00:00.000Z","dependencies":[],"expires":"2025-01-01T00:00:00.000Z","extra":{},"metadata":{"description":"d","name":"n","owner":"o@example.com","source":"https://example.com/"},"payload":{},"priority":"lowest","projectId":"none","provisionerId":"prov","requires":"all-completed","retries":5,"routes":[],"schedulerId":"-","scopes":[],"tags":{},"taskGroupId":"AAAAAAAAQACAAAAAAAAAAA","taskQueueId":"prov/wt","workerType":"wt"},"workerGroup":"g","workerId":"a"}]}
2000|POST /api/queue/v1/task/AAAAAAAAQACAAAAAAAAAAA/runs/0/completed||200 OK|{"status":{"deadline":"2024-01-02T00:00:00.000Z","expires":"2025-01-01T00:00:00.000Z","projectId":"none","provisionerId":"prov","retriesLeft":5,"runs":[{"reasonCreated":"scheduled","reasonResolved":"completed","resolved":"2024-01-01T00:00:02.000Z","runId":0,"scheduled":"2024-01-01T00:00:00.000Z","started":"2024-01-01T00:00:01.000Z","state":"completed","takenUntil":"2024-01-01T00:20:01.000Z","workerGroup":"g","workerId":"a"}],"schedulerId":"-","state":"completed","taskGroupId":"AAAAAAAAQACAAAAAAAAAAA","taskId":"AAAAAAAAQACAAAAAAAAAAA","taskQueueId":"prov/wt","workerType":"wt"}}
3000|POST /api/queue/v1/claim-work/prov%2Fwt|{"tasks":32,"workerGroup":"g","workerId":"a"}|200 OK|{"tasks":[{"runId":0,"status":{"deadline":"2024-01-02T00:00:00.000Z","expires":"2025-01-01T00:00:00.000Z","projectId":"none","provisionerId":"prov","retriesLeft":5,"runs":[{"reasonCreated":"scheduled","runId":0,"scheduled":"2024-01-01T00:00:02.000Z","started":"2024-01-01T00:00:03.000Z","state":"running","takenUntil":"2024-01-01T00:20:03.000Z","workerGroup":"g","workerId":"a"}],"schedulerId":"-","state":"running","taskGroupId":"AAAAAAAAQACAAAAAAAAAAA","taskId":"AAAAAAAAQACAAAAAAAAAAQ","taskQueueId":"prov/wt","workerType":"wt"},"takenUntil":"2024-01-01T00:20:03.000Z","task":{"created":"2024-01-01T00:00:00.000Z","deadline":"2024-01-02T00:00:00.000Z","dependencies":["AAAAAAAAQACAAAAAAAAAAA"],"expires":"2025-01-01T00:00:00.000Z","extra":{},"metadata":{"description":"d","name":"n","owner":"o@example.com","source":"https://example.com/"},"payload":{},"priority":"lowest","projectId":"none","provisionerId":"prov","requires":"all-completed","retries":5,"routes":[],"schedulerId":"-","scopes":[],"tags":{},"taskGroupId":"AAAAAAAAQACAAAAAAAAAAA","taskQueueId":"prov/wt","workerType":"wt"},"workerGroup":"g","workerId":"a"},{"runId":0,"status":{"deadline":"2024-01-02T00:00:00.000Z","expires":"2025-01-01T00:00:00.000Z","projectId":"none","provisionerId":"prov","retriesLeft":5,"runs":[{"reasonCreated":"scheduled","runId":0,"scheduled":"2024-01-01T00:00:02.000Z","started":"2024-01-01T00:00:03.000Z","state":"running","takenUntil":"2024-01-01T00:20:03.000Z","workerGroup":"g","workerId":"a"}],"schedulerId":"-","state":"running","taskGroupId":"AAAAAAAAQACAAAAAAAAAAA","taskId":"AAAAAAAAQACAAAAAAAAAAg","taskQueueId":"prov/wt","workerType":"wt"},"takenUntil":"2024-01-01T00:20:03.000Z","task":{"created":"2024-01-01T00:00:00.000Z","deadline":"2024-01-02T00:00:00.000Z","dependencies":["AAAAAAAAQACAAAAAAAAAAA"],"expires":"2025-01-01T00:00:00.000Z","extra":{},"metadata":{"description":"d","name":"n","owner":"o@example.com","source":"https://example.com/"},"payload":{},"priority":"lowest","projectId":"none","provisionerId":"prov","requires":"all-resolved","retries":5,"routes":[],"schedulerId":"-","scopes":[],"tags":{},"taskGroupId":"AAAAAAAAQACAAAAAAAAAAA","taskQueueId":"prov/wt","workerType":"wt"},"workerGroup":"g","workerId":"a"}]}
4000|POST /api/queue/v1/task/AAAAAAAAQACAAAAAAAAAAQ/runs/0/completed||200 OK|{"status":{"deadline":"2024-01-02T00:00:00.000Z","expires":"2025-01-01T00:00:00.000Z","projectId":"none","provisionerId":"prov","retriesLeft":5,"runs":[{"reasonCreated":"scheduled","reasonResolved":"completed","resolved":"2024-01-01T00:00:04.000Z","runId":0,"scheduled":"2024-01-01T00:00:02.000Z","started":"2024-01-01T00:00:03.000Z","state":"completed","takenUntil":"2024-01-01T00:20:03.000Z","workerGroup":"g","workerId":"a"}],"schedulerId":"-","state":"completed","taskGroupId":"AAAAAAAAQACAAAAAAAAAAA","taskId":"AAAAAAAAQACAAAAAAAAAAQ","taskQueueId":"prov/wt","workerType":"wt"}}
4000|GET /api/queue/v1/task/AAAAAAAAQACAAAAAAAAAAw/status||200 OK|{"status":{"deadline":"2024-01-02T00:00:00.000Z","expires":"2025-01-01T00:00:00.000Z","projectId":"none","provisionerId":"prov","retriesLeft":5,"runs":[],"schedulerId":"-","state":"unscheduled","taskGroupId":"AAAAAAAAQACAAAAAAAAAAA","taskId":"AAAAAAAAQACAAAAAAAAAAw","taskQueueId":"prov/wt","workerType":"wt"}}
5000|POST /api/queue/v1/task/AAAAAAAAQACAAAAAAAAAAg/runs/0/completed||200 OK|{"status":{"deadline":"2024-01-02T00:00:00.000Z","expires":"2025-01-01T00:00:00.000Z","projectId":"none","provisionerId":"prov","retriesLeft":5,"runs":[{"reasonCreated":"scheduled","reasonResolved":"completed","resolved":"2024-01-01T00:00:05.000Z","runId":0,"scheduled":"2024-01-01T00:00:02.000Z","started":"2024-01-01T00:00:03.000Z","state":"completed","takenUntil":"2024-01-01T00:20:03.000Z","workerGroup":"g","workerId":"a"}],"schedulerId":"-","state":"completed","taskGroupId":"AAAAAAAAQACAAAAAAAAAAA","taskId":"AAAAAAAAQACAAAAAAAAAAg","taskQueueId":"prov/wt","workerType":"wt"}}
5000|GET /api/queue/v1/task/AAAAAAAAQACAAAAAAAAAAw/status||200 OK|{"status":{"deadline":"2024-01-02T00:00:00.000Z","expires":"2025-01-01T00:00:00.000Z","projectId":"none","provisionerId":"prov","retriesLeft":5,"runs":[{"reasonCreated":"scheduled","runId":0,"scheduled":"2024-01-01T00:00:05.000Z","state":"pending"}],"schedulerId":"-","state":"pending","taskGroupId":"AAAAAAAAQACAAAAAAAAAAA","taskId":"AAAAAAAAQACAAAAAAAAAAw","taskQueueId":"prov/wt","workerType":"wt"}}
6000|POST /api/queue/v1/claim-work/prov%2Fwt|{"workerGroup":"g","workerId":"b"}|200 OK|{"tasks":[{"runId":0,"status":{"deadline":"2024-01-02T00:00:00.000Z","expires":"2025-01-01T00:00:00.000Z","projectId":"none","provisionerId":"prov","retriesLeft":5,"runs":[{"reasonCreated":"scheduled","runId":0,"scheduled":"2024-01-01T00:00:05.000Z","started":"2024-01-01T00:00:06.000Z","state":"running","takenUntil":"2024-01-01T00:20:06.000Z","workerGroup":"g","workerId":"b"}],"schedulerId":"-","state":"running","taskGroupId":"AAAAAAAAQACAAAAAAAAAAA","taskId":"AAAAAAAAQACAAAAAAAAAAw","taskQueueId":"prov/wt","workerType":"wt"},"takenUntil":"2024-01-01T00:20:06.000Z","task":{"created":"2024-01-01T00:00:00.000Z","deadline":"2024-01-02T00:00:00.000Z","dependencies":["AAAAAAAAQACAAAAAAAAAAQ","AAAAAAAAQACAAAAAAAAAAg"],"expires":"2025-01-01T00:00:00.000Z","extra":{},"metadata":{"description":"d","name":"n","owner":"o@example.com","source":"https://example.com/"},"payload":{},"priority":"lowest","projectId":"none","provisionerId":"prov","requires":"all-completed","retries":5,"routes":[],"schedulerId":"-","scopes":[],"tags":{},"taskGroupId":"AAAAAAAAQACAAAAAAAAAAA","taskQueueId":"prov/wt","workerType":"wt"},"workerGroup":"g","workerId":"b"}]}
7000|POST /api/queue/v1/task/AAAAAAAAQACAAAAAAAAAAw/runs/0/failed||200 OK|{"status":{"deadline":"2024-01-02T00:00:00.000Z","expires":"2025-01-01T00:00:00.000Z","projectId":"none","provisionerId":"prov","retriesLeft":5,"runs":[{"reasonCreated":"scheduled","reasonResolved":"failed","resolved":"2024-01-01T00:00:07.000Z","runId":0,"scheduled":"2024-01-01T00:00:05.000Z","started":"2024-01-01T00:00:06.000Z","state":"failed","takenUntil":"2024-01-01T00:20:06.000Z","workerGroup":"g","workerId":"b"}],"schedulerId":"-","state":"failed","taskGroupId":"AAAAAAAAQACAAAAAAAAAAA","taskId":"AAAAAAAAQACAAAAAAAAAAw","taskQueueId":"prov/wt","workerType":"wt"}}
7000|PUT /api/queue/v1/task/AAAAAAAAQACAAAAAAAAAAw|{"created":"2024-01-01T00:00:00.000Z","deadline":"2024-01-02T00:00:00.000Z","dependencies":["AAAAAAAAQACAAAAAAAAAAQ","AAAAAAAAQACAAAAAAAAAAg"],"metadata":{"description":"d","name":"n","owner":"o@example.com","source":"https://example.com/"},"payload":{},"taskGroupId":"AAAAAAAAQACAAAAAAAAAAA","taskQueueId":"prov/wt"}|200 OK|{"status":{"deadline":"2024-01-02T00:00:00.000Z","expires":"2025-01-01T00:00:00.000Z","projectId":"none","provisionerId":"prov","retriesLeft":5,"runs":[{"reasonCreated":"scheduled","reasonResolved":"failed","resolved":"2024-01-01T00:00:07.000Z","runId":0,"scheduled":"2024-01-01T00:00:05.000Z","started":"2024-01-01T00:00:06.000Z","state":"failed","takenUntil":"2024-01-01T00:20:06.000Z","workerGroup":"g","workerId":"b"}],"schedulerId":"-","state":"failed","taskGroupId":"AAAAAAAAQACAAAAAAAAAAA","taskId":"AAAAAAAAQACAAAAAAAAAAw","taskQueueId":"prov/wt","workerType":"wt"}}"#;

#[test]
fn four_tasks_of_a_diamond_run_in_turn(rt: HostRuntime) -> Result<(), Fail> {
    all_answered(rt.alloc(), &[Talk::of(DIAMOND)])
}

/// The smallest definition of a task that waits for another, as far as the id of that one.
const WAITING: &str =
    r#"{"created":"2024-01-01T00:00:00.000Z","deadline":"2024-01-02T00:00:00.000Z","metadata":{"description":"d","name":"n","owner":"o@example.com","source":"https://example.com/"},"payload":{},"taskQueueId":"prov/wt","dependencies":[""#;

/// The status of a completed task, as far as its group's id.
const COMPLETED: &str =
    r#"{"status":{"deadline":"2024-01-02T00:00:00.000Z","expires":"2025-01-01T00:00:00.000Z","projectId":"none","provisionerId":"prov","retriesLeft":5,"runs":[{"reasonCreated":"scheduled","reasonResolved":"completed","resolved":"2024-01-01T00:00:00.000Z","runId":0,"scheduled":"2024-01-01T00:00:00.000Z","started":"2024-01-01T00:00:00.000Z","state":"completed","takenUntil":"2024-01-01T00:20:00.000Z","workerGroup":"g","workerId":"w"}],"schedulerId":"-","state":"completed","taskGroupId":""#;

/// The id of the task at a place of the chain, below 100.
fn chained(alloc: Global, place: u64) -> Result<String, AllocError> {
    let tens = place / 10;
    let ones = place % 10;
    format!(in alloc; "AAAAAA{tens}{ones}QACAAAAAAAAAAA")
}

/// The definition of the task at a place of the chain: it waits for the one before it, and the first one for none.
fn chained_body(alloc: Global, place: u64) -> Result<String, AllocError> {
    match place.checked_sub(1) {
        Some(before) => {
            let before = chained(alloc, before)?;
            format!(in alloc; "{WAITING}{before}\"]}}")
        }
        None => format!(in alloc; "{PLAIN}}}"),
    }
}

/// Makes that task.
fn make_chained(alloc: Global, desk: &mut Solo<Bare>, place: u64) -> Result<(), Fail> {
    let id = chained(alloc, place)?;
    let request = format!(in alloc; "PUT /api/queue/v1/task/{id}")?;
    let body = chained_body(alloc, place)?;
    let _written = asked(alloc, desk, request.as_str(), body.as_str())?;
    Ok(())
}

/// The reply that the task of this id is completed.
fn completed_reply(alloc: Global, id: &str) -> Result<String, AllocError> {
    let body = format!(in alloc;
        "{COMPLETED}{id}\",\"taskId\":\"{id}\",\"taskQueueId\":\"prov/wt\",\"workerType\":\"wt\"}}}}"
    )?;
    reply_text(alloc, "200 OK", body.as_str())
}

/// Whether a worker that takes one run can report the task at a place of the chain as completed.
fn runs_chained(alloc: Global, desk: &mut Solo<Bare>, place: u64) -> Result<bool, Fail> {
    let id = chained(alloc, place)?;
    let worker = r#"{"workerGroup":"g","workerId":"w"}"#;
    let _taken = asked(alloc, desk, "POST /api/queue/v1/claim-work/prov/wt", worker)?;
    let request = format!(in alloc; "POST /api/queue/v1/task/{id}/runs/0/completed")?;
    let written = asked(alloc, desk, request.as_str(), "")?;
    let wanted = completed_reply(alloc, id.as_str())?;
    Ok(written.as_slice() == wanted.as_str().as_bytes())
}

/// How many of a hundred tasks of a chain run in turn at a desk.
fn chained_at(alloc: Global, desk: &mut Solo<Bare>) -> Result<u64, Fail> {
    for place in 0..100 {
        make_chained(alloc, desk, place)?;
    }
    for place in 0..100 {
        if !runs_chained(alloc, desk, place)? {
            return Ok(place);
        }
    }
    Ok(100)
}

/// The same of a new farm.
fn chained_runs(alloc: Global) -> Result<u64, Fail> {
    let mut desk = farm(alloc, ALL, 100)?;
    let runs = chained_at(alloc, &mut desk);
    drop(desk);
    runs
}

#[test]
fn a_hundred_tasks_of_a_chain_run_in_turn(rt: HostRuntime) -> Result<(), Fail> {
    assert_eq!(rt; chained_runs(rt.alloc())?, 100);
    Ok(())
}
