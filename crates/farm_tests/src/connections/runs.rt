//! The runs of one task over connections in memory. The replies were written by hand after the queue service's reference, and by a model of it.
use super::rows::{Talk, all_answered, asked, reply_text};
use super::tasks::{ALL, farm};
use super::*;

/// A worker takes the task, and then it is made again.
const AGAIN: &str =
    r#"0|PUT /api/queue/v1/task/AAAAAAAAQACAAAAAAAAAAA|{"created":"2024-01-01T00:00:00.000Z","deadline":"2024-01-02T00:00:00.000Z","metadata":{"description":"d","name":"n","owner":"o@example.com","source":"https://example.com/"},"payload":{},"taskQueueId":"prov/wt"}|200 OK|{"status":{"deadline":"2024-01-02T00:00:00.000Z","expires":"2025-01-01T00:00:00.000Z","projectId":"none","provisionerId":"prov","retriesLeft":5,"runs":[{"reasonCreated":"scheduled","runId":0,"scheduled":"2024-01-01T00:00:00.000Z","state":"pending"}],"schedulerId":"-","state":"pending","taskGroupId":"AAAAAAAAQACAAAAAAAAAAA","taskId":"AAAAAAAAQACAAAAAAAAAAA","taskQueueId":"prov/wt","workerType":"wt"}}
10000|POST /api/queue/v1/claim-work/prov%2Fwt|{"workerGroup":"g","workerId":"w"}|200 OK|{"tasks":[{"runId":0,"status":{"deadline":"2024-01-02T00:00:00.000Z","expires":"2025-01-01T00:00:00.000Z","projectId":"none","provisionerId":"prov","retriesLeft":5,"runs":[{"reasonCreated":"scheduled","runId":0,"scheduled":"2024-01-01T00:00:00.000Z","started":"2024-01-01T00:00:10.000Z","state":"running","takenUntil":"2024-01-01T00:20:10.000Z","workerGroup":"g","workerId":"w"}],"schedulerId":"-","state":"running","taskGroupId":"AAAAAAAAQACAAAAAAAAAAA","taskId":"AAAAAAAAQACAAAAAAAAAAA","taskQueueId":"prov/wt","workerType":"wt"},"takenUntil":"2024-01-01T00:20:10.000Z","task":{"created":"2024-01-01T00:00:00.000Z","deadline":"2024-01-02T00:00:00.000Z","dependencies":[],"expires":"2025-01-01T00:00:00.000Z","extra":{},"metadata":{"description":"d","name":"n","owner":"o@example.com","source":"https://example.com/"},"payload":{},"priority":"lowest","projectId":"none","provisionerId":"prov","requires":"all-completed","retries":5,"routes":[],"schedulerId":"-","scopes":[],"tags":{},"taskGroupId":"AAAAAAAAQACAAAAAAAAAAA","taskQueueId":"prov/wt","workerType":"wt"},"workerGroup":"g","workerId":"w"}]}
11000|PUT /api/queue/v1/task/AAAAAAAAQACAAAAAAAAAAA|{"created":"2024-01-01T00:00:00.000Z","deadline":"2024-01-02T00:00:00.000Z","metadata":{"description":"d","name":"n","owner":"o@example.com","source":"https://example.com/"},"payload":{},"taskQueueId":"prov/wt"}|200 OK|{"status":{"deadline":"2024-01-02T00:00:00.000Z","expires":"2025-01-01T00:00:00.000Z","projectId":"none","provisionerId":"prov","retriesLeft":5,"runs":[{"reasonCreated":"scheduled","runId":0,"scheduled":"2024-01-01T00:00:00.000Z","started":"2024-01-01T00:00:10.000Z","state":"running","takenUntil":"2024-01-01T00:20:10.000Z","workerGroup":"g","workerId":"w"}],"schedulerId":"-","state":"running","taskGroupId":"AAAAAAAAQACAAAAAAAAAAA","taskId":"AAAAAAAAQACAAAAAAAAAAA","taskQueueId":"prov/wt","workerType":"wt"}}"#;

/// A claim is kept and lapses at its end; then the clock goes back.
const LAPSE: &str =
    r#"0|PUT /api/queue/v1/task/AAAAAAAAQACAAAAAAAAAAA|{"created":"2024-01-01T00:00:00.000Z","deadline":"2024-01-02T00:00:00.000Z","metadata":{"description":"d","name":"n","owner":"o@example.com","source":"https://example.com/"},"payload":{},"taskQueueId":"prov/wt"}|200 OK|{"status":{"deadline":"2024-01-02T00:00:00.000Z","expires":"2025-01-01T00:00:00.000Z","projectId":"none","provisionerId":"prov","retriesLeft":5,"runs":[{"reasonCreated":"scheduled","runId":0,"scheduled":"2024-01-01T00:00:00.000Z","state":"pending"}],"schedulerId":"-","state":"pending","taskGroupId":"AAAAAAAAQACAAAAAAAAAAA","taskId":"AAAAAAAAQACAAAAAAAAAAA","taskQueueId":"prov/wt","workerType":"wt"}}
10000|POST /api/queue/v1/claim-work/prov%2Fwt|{"workerGroup":"g","workerId":"w"}|200 OK|{"tasks":[{"runId":0,"status":{"deadline":"2024-01-02T00:00:00.000Z","expires":"2025-01-01T00:00:00.000Z","projectId":"none","provisionerId":"prov","retriesLeft":5,"runs":[{"reasonCreated":"scheduled","runId":0,"scheduled":"2024-01-01T00:00:00.000Z","started":"2024-01-01T00:00:10.000Z","state":"running","takenUntil":"2024-01-01T00:20:10.000Z","workerGroup":"g","workerId":"w"}],"schedulerId":"-","state":"running","taskGroupId":"AAAAAAAAQACAAAAAAAAAAA","taskId":"AAAAAAAAQACAAAAAAAAAAA","taskQueueId":"prov/wt","workerType":"wt"},"takenUntil":"2024-01-01T00:20:10.000Z","task":{"created":"2024-01-01T00:00:00.000Z","deadline":"2024-01-02T00:00:00.000Z","dependencies":[],"expires":"2025-01-01T00:00:00.000Z","extra":{},"metadata":{"description":"d","name":"n","owner":"o@example.com","source":"https://example.com/"},"payload":{},"priority":"lowest","projectId":"none","provisionerId":"prov","requires":"all-completed","retries":5,"routes":[],"schedulerId":"-","scopes":[],"tags":{},"taskGroupId":"AAAAAAAAQACAAAAAAAAAAA","taskQueueId":"prov/wt","workerType":"wt"},"workerGroup":"g","workerId":"w"}]}
1209999|POST /api/queue/v1/task/AAAAAAAAQACAAAAAAAAAAA/runs/0/reclaim||200 OK|{"runId":0,"status":{"deadline":"2024-01-02T00:00:00.000Z","expires":"2025-01-01T00:00:00.000Z","projectId":"none","provisionerId":"prov","retriesLeft":5,"runs":[{"reasonCreated":"scheduled","runId":0,"scheduled":"2024-01-01T00:00:00.000Z","started":"2024-01-01T00:00:10.000Z","state":"running","takenUntil":"2024-01-01T00:40:09.999Z","workerGroup":"g","workerId":"w"}],"schedulerId":"-","state":"running","taskGroupId":"AAAAAAAAQACAAAAAAAAAAA","taskId":"AAAAAAAAQACAAAAAAAAAAA","taskQueueId":"prov/wt","workerType":"wt"},"takenUntil":"2024-01-01T00:40:09.999Z","workerGroup":"g","workerId":"w"}
2409999|POST /api/queue/v1/task/AAAAAAAAQACAAAAAAAAAAA/runs/0/completed||409 Conflict|{"code":"RequestConflict","details":{"rule":3,"status":{"deadline":"2024-01-02T00:00:00.000Z","expires":"2025-01-01T00:00:00.000Z","projectId":"none","provisionerId":"prov","retriesLeft":4,"runs":[{"reasonCreated":"scheduled","reasonResolved":"claim-expired","resolved":"2024-01-01T00:40:09.999Z","runId":0,"scheduled":"2024-01-01T00:00:00.000Z","started":"2024-01-01T00:00:10.000Z","state":"exception","takenUntil":"2024-01-01T00:40:09.999Z","workerGroup":"g","workerId":"w"},{"reasonCreated":"retry","runId":1,"scheduled":"2024-01-01T00:40:09.999Z","state":"pending"}],"schedulerId":"-","state":"pending","taskGroupId":"AAAAAAAAQACAAAAAAAAAAA","taskId":"AAAAAAAAQACAAAAAAAAAAA","taskQueueId":"prov/wt","workerType":"wt"}},"message":"the state forbids it"}
0|GET /api/queue/v1/task/AAAAAAAAQACAAAAAAAAAAA/status||200 OK|{"status":{"deadline":"2024-01-02T00:00:00.000Z","expires":"2025-01-01T00:00:00.000Z","projectId":"none","provisionerId":"prov","retriesLeft":4,"runs":[{"reasonCreated":"scheduled","reasonResolved":"claim-expired","resolved":"2024-01-01T00:40:09.999Z","runId":0,"scheduled":"2024-01-01T00:00:00.000Z","started":"2024-01-01T00:00:10.000Z","state":"exception","takenUntil":"2024-01-01T00:40:09.999Z","workerGroup":"g","workerId":"w"},{"reasonCreated":"retry","runId":1,"scheduled":"2024-01-01T00:40:09.999Z","state":"pending"}],"schedulerId":"-","state":"pending","taskGroupId":"AAAAAAAAQACAAAAAAAAAAA","taskId":"AAAAAAAAQACAAAAAAAAAAA","taskQueueId":"prov/wt","workerType":"wt"}}"#;

/// A claim lapses, and no retry is left.
const LAST: &str =
    r#"0|PUT /api/queue/v1/task/AAAAAAAAQACAAAAAAAAAAA|{"created":"2024-01-01T00:00:00.000Z","deadline":"2024-01-02T00:00:00.000Z","metadata":{"description":"d","name":"n","owner":"o@example.com","source":"https://example.com/"},"payload":{},"retries":0,"taskQueueId":"prov/wt"}|200 OK|{"status":{"deadline":"2024-01-02T00:00:00.000Z","expires":"2025-01-01T00:00:00.000Z","projectId":"none","provisionerId":"prov","retriesLeft":0,"runs":[{"reasonCreated":"scheduled","runId":0,"scheduled":"2024-01-01T00:00:00.000Z","state":"pending"}],"schedulerId":"-","state":"pending","taskGroupId":"AAAAAAAAQACAAAAAAAAAAA","taskId":"AAAAAAAAQACAAAAAAAAAAA","taskQueueId":"prov/wt","workerType":"wt"}}
10000|POST /api/queue/v1/claim-work/prov%2Fwt|{"workerGroup":"g","workerId":"w"}|200 OK|{"tasks":[{"runId":0,"status":{"deadline":"2024-01-02T00:00:00.000Z","expires":"2025-01-01T00:00:00.000Z","projectId":"none","provisionerId":"prov","retriesLeft":0,"runs":[{"reasonCreated":"scheduled","runId":0,"scheduled":"2024-01-01T00:00:00.000Z","started":"2024-01-01T00:00:10.000Z","state":"running","takenUntil":"2024-01-01T00:20:10.000Z","workerGroup":"g","workerId":"w"}],"schedulerId":"-","state":"running","taskGroupId":"AAAAAAAAQACAAAAAAAAAAA","taskId":"AAAAAAAAQACAAAAAAAAAAA","taskQueueId":"prov/wt","workerType":"wt"},"takenUntil":"2024-01-01T00:20:10.000Z","task":{"created":"2024-01-01T00:00:00.000Z","deadline":"2024-01-02T00:00:00.000Z","dependencies":[],"expires":"2025-01-01T00:00:00.000Z","extra":{},"metadata":{"description":"d","name":"n","owner":"o@example.com","source":"https://example.com/"},"payload":{},"priority":"lowest","projectId":"none","provisionerId":"prov","requires":"all-completed","retries":0,"routes":[],"schedulerId":"-","scopes":[],"tags":{},"taskGroupId":"AAAAAAAAQACAAAAAAAAAAA","taskQueueId":"prov/wt","workerType":"wt"},"workerGroup":"g","workerId":"w"}]}
1210000|GET /api/queue/v1/task/AAAAAAAAQACAAAAAAAAAAA/status||200 OK|{"status":{"deadline":"2024-01-02T00:00:00.000Z","expires":"2025-01-01T00:00:00.000Z","projectId":"none","provisionerId":"prov","retriesLeft":0,"runs":[{"reasonCreated":"scheduled","reasonResolved":"claim-expired","resolved":"2024-01-01T00:20:10.000Z","runId":0,"scheduled":"2024-01-01T00:00:00.000Z","started":"2024-01-01T00:00:10.000Z","state":"exception","takenUntil":"2024-01-01T00:20:10.000Z","workerGroup":"g","workerId":"w"}],"schedulerId":"-","state":"exception","taskGroupId":"AAAAAAAAQACAAAAAAAAAAA","taskId":"AAAAAAAAQACAAAAAAAAAAA","taskQueueId":"prov/wt","workerType":"wt"}}"#;

/// A claim and the deadline end together.
const DEADLINE_FIRST: &str =
    r#"0|PUT /api/queue/v1/task/AAAAAAAAQACAAAAAAAAAAA|{"created":"2024-01-01T00:00:00.000Z","deadline":"2024-01-01T00:20:10.000Z","metadata":{"description":"d","name":"n","owner":"o@example.com","source":"https://example.com/"},"payload":{},"taskQueueId":"prov/wt"}|200 OK|{"status":{"deadline":"2024-01-01T00:20:10.000Z","expires":"2024-12-31T00:20:10.000Z","projectId":"none","provisionerId":"prov","retriesLeft":5,"runs":[{"reasonCreated":"scheduled","runId":0,"scheduled":"2024-01-01T00:00:00.000Z","state":"pending"}],"schedulerId":"-","state":"pending","taskGroupId":"AAAAAAAAQACAAAAAAAAAAA","taskId":"AAAAAAAAQACAAAAAAAAAAA","taskQueueId":"prov/wt","workerType":"wt"}}
10000|POST /api/queue/v1/claim-work/prov%2Fwt|{"workerGroup":"g","workerId":"w"}|200 OK|{"tasks":[{"runId":0,"status":{"deadline":"2024-01-01T00:20:10.000Z","expires":"2024-12-31T00:20:10.000Z","projectId":"none","provisionerId":"prov","retriesLeft":5,"runs":[{"reasonCreated":"scheduled","runId":0,"scheduled":"2024-01-01T00:00:00.000Z","started":"2024-01-01T00:00:10.000Z","state":"running","takenUntil":"2024-01-01T00:20:10.000Z","workerGroup":"g","workerId":"w"}],"schedulerId":"-","state":"running","taskGroupId":"AAAAAAAAQACAAAAAAAAAAA","taskId":"AAAAAAAAQACAAAAAAAAAAA","taskQueueId":"prov/wt","workerType":"wt"},"takenUntil":"2024-01-01T00:20:10.000Z","task":{"created":"2024-01-01T00:00:00.000Z","deadline":"2024-01-01T00:20:10.000Z","dependencies":[],"expires":"2024-12-31T00:20:10.000Z","extra":{},"metadata":{"description":"d","name":"n","owner":"o@example.com","source":"https://example.com/"},"payload":{},"priority":"lowest","projectId":"none","provisionerId":"prov","requires":"all-completed","retries":5,"routes":[],"schedulerId":"-","scopes":[],"tags":{},"taskGroupId":"AAAAAAAAQACAAAAAAAAAAA","taskQueueId":"prov/wt","workerType":"wt"},"workerGroup":"g","workerId":"w"}]}
1210000|GET /api/queue/v1/task/AAAAAAAAQACAAAAAAAAAAA/status||200 OK|{"status":{"deadline":"2024-01-01T00:20:10.000Z","expires":"2024-12-31T00:20:10.000Z","projectId":"none","provisionerId":"prov","retriesLeft":5,"runs":[{"reasonCreated":"scheduled","reasonResolved":"deadline-exceeded","resolved":"2024-01-01T00:20:10.000Z","runId":0,"scheduled":"2024-01-01T00:00:00.000Z","started":"2024-01-01T00:00:10.000Z","state":"exception","takenUntil":"2024-01-01T00:20:10.000Z","workerGroup":"g","workerId":"w"}],"schedulerId":"-","state":"exception","taskGroupId":"AAAAAAAAQACAAAAAAAAAAA","taskId":"AAAAAAAAQACAAAAAAAAAAA","taskQueueId":"prov/wt","workerType":"wt"}}"#;

/// A task has one retry, and fails twice so that it may be run again.
const RETRY: &str =
    r#"0|PUT /api/queue/v1/task/AAAAAAAAQACAAAAAAAAAAA|{"created":"2024-01-01T00:00:00.000Z","deadline":"2024-01-02T00:00:00.000Z","metadata":{"description":"d","name":"n","owner":"o@example.com","source":"https://example.com/"},"payload":{},"retries":1,"taskQueueId":"prov/wt"}|200 OK|{"status":{"deadline":"2024-01-02T00:00:00.000Z","expires":"2025-01-01T00:00:00.000Z","projectId":"none","provisionerId":"prov","retriesLeft":1,"runs":[{"reasonCreated":"scheduled","runId":0,"scheduled":"2024-01-01T00:00:00.000Z","state":"pending"}],"schedulerId":"-","state":"pending","taskGroupId":"AAAAAAAAQACAAAAAAAAAAA","taskId":"AAAAAAAAQACAAAAAAAAAAA","taskQueueId":"prov/wt","workerType":"wt"}}
10000|POST /api/queue/v1/claim-work/prov%2Fwt|{"workerGroup":"g","workerId":"w"}|200 OK|{"tasks":[{"runId":0,"status":{"deadline":"2024-01-02T00:00:00.000Z","expires":"2025-01-01T00:00:00.000Z","projectId":"none","provisionerId":"prov","retriesLeft":1,"runs":[{"reasonCreated":"scheduled","runId":0,"scheduled":"2024-01-01T00:00:00.000Z","started":"2024-01-01T00:00:10.000Z","state":"running","takenUntil":"2024-01-01T00:20:10.000Z","workerGroup":"g","workerId":"w"}],"schedulerId":"-","state":"running","taskGroupId":"AAAAAAAAQACAAAAAAAAAAA","taskId":"AAAAAAAAQACAAAAAAAAAAA","taskQueueId":"prov/wt","workerType":"wt"},"takenUntil":"2024-01-01T00:20:10.000Z","task":{"created":"2024-01-01T00:00:00.000Z","deadline":"2024-01-02T00:00:00.000Z","dependencies":[],"expires":"2025-01-01T00:00:00.000Z","extra":{},"metadata":{"description":"d","name":"n","owner":"o@example.com","source":"https://example.com/"},"payload":{},"priority":"lowest","projectId":"none","provisionerId":"prov","requires":"all-completed","retries":1,"routes":[],"schedulerId":"-","scopes":[],"tags":{},"taskGroupId":"AAAAAAAAQACAAAAAAAAAAA","taskQueueId":"prov/wt","workerType":"wt"},"workerGroup":"g","workerId":"w"}]}
11000|POST /api/queue/v1/task/AAAAAAAAQACAAAAAAAAAAA/runs/0/exception|{"reason":"intermittent-task"}|200 OK|{"status":{"deadline":"2024-01-02T00:00:00.000Z","expires":"2025-01-01T00:00:00.000Z","projectId":"none","provisionerId":"prov","retriesLeft":0,"runs":[{"reasonCreated":"scheduled","reasonResolved":"intermittent-task","resolved":"2024-01-01T00:00:11.000Z","runId":0,"scheduled":"2024-01-01T00:00:00.000Z","started":"2024-01-01T00:00:10.000Z","state":"exception","takenUntil":"2024-01-01T00:20:10.000Z","workerGroup":"g","workerId":"w"},{"reasonCreated":"task-retry","runId":1,"scheduled":"2024-01-01T00:00:11.000Z","state":"pending"}],"schedulerId":"-","state":"pending","taskGroupId":"AAAAAAAAQACAAAAAAAAAAA","taskId":"AAAAAAAAQACAAAAAAAAAAA","taskQueueId":"prov/wt","workerType":"wt"}}
12000|POST /api/queue/v1/claim-work/prov%2Fwt|{"workerGroup":"g","workerId":"w"}|200 OK|{"tasks":[{"runId":1,"status":{"deadline":"2024-01-02T00:00:00.000Z","expires":"2025-01-01T00:00:00.000Z","projectId":"none","provisionerId":"prov","retriesLeft":0,"runs":[{"reasonCreated":"scheduled","reasonResolved":"intermittent-task","resolved":"2024-01-01T00:00:11.000Z","runId":0,"scheduled":"2024-01-01T00:00:00.000Z","started":"2024-01-01T00:00:10.000Z","state":"exception","takenUntil":"2024-01-01T00:20:10.000Z","workerGroup":"g","workerId":"w"},{"reasonCreated":"task-retry","runId":1,"scheduled":"2024-01-01T00:00:11.000Z","started":"2024-01-01T00:00:12.000Z","state":"running","takenUntil":"2024-01-01T00:20:12.000Z","workerGroup":"g","workerId":"w"}],"schedulerId":"-","state":"running","taskGroupId":"AAAAAAAAQACAAAAAAAAAAA","taskId":"AAAAAAAAQACAAAAAAAAAAA","taskQueueId":"prov/wt","workerType":"wt"},"takenUntil":"2024-01-01T00:20:12.000Z","task":{"created":"2024-01-01T00:00:00.000Z","deadline":"2024-01-02T00:00:00.000Z","dependencies":[],"expires":"2025-01-01T00:00:00.000Z","extra":{},"metadata":{"description":"d","name":"n","owner":"o@example.com","source":"https://example.com/"},"payload":{},"priority":"lowest","projectId":"none","provisionerId":"prov","requires":"all-completed","retries":1,"routes":[],"schedulerId":"-","scopes":[],"tags":{},"taskGroupId":"AAAAAAAAQACAAAAAAAAAAA","taskQueueId":"prov/wt","workerType":"wt"},"workerGroup":"g","workerId":"w"}]}
13000|POST /api/queue/v1/task/AAAAAAAAQACAAAAAAAAAAA/runs/1/exception|{"reason":"intermittent-task"}|200 OK|{"status":{"deadline":"2024-01-02T00:00:00.000Z","expires":"2025-01-01T00:00:00.000Z","projectId":"none","provisionerId":"prov","retriesLeft":0,"runs":[{"reasonCreated":"scheduled","reasonResolved":"intermittent-task","resolved":"2024-01-01T00:00:11.000Z","runId":0,"scheduled":"2024-01-01T00:00:00.000Z","started":"2024-01-01T00:00:10.000Z","state":"exception","takenUntil":"2024-01-01T00:20:10.000Z","workerGroup":"g","workerId":"w"},{"reasonCreated":"task-retry","reasonResolved":"intermittent-task","resolved":"2024-01-01T00:00:13.000Z","runId":1,"scheduled":"2024-01-01T00:00:11.000Z","started":"2024-01-01T00:00:12.000Z","state":"exception","takenUntil":"2024-01-01T00:20:12.000Z","workerGroup":"g","workerId":"w"}],"schedulerId":"-","state":"exception","taskGroupId":"AAAAAAAAQACAAAAAAAAAAA","taskId":"AAAAAAAAQACAAAAAAAAAAA","taskQueueId":"prov/wt","workerType":"wt"}}"#;

/// A task without retries.
const ONCE: &str =
    r#"{"created":"2024-01-01T00:00:00.000Z","deadline":"2024-01-02T00:00:00.000Z","metadata":{"description":"d","name":"n","owner":"o@example.com","source":"https://example.com/"},"payload":{},"retries":0,"taskQueueId":"prov/wt"}"#;

const MAKE: &str = "PUT /api/queue/v1/task/AAAAAAAAQACAAAAAAAAAAA";

const CLAIM: &str = "POST /api/queue/v1/claim-work/prov/wt";

const RERUN: &str = "POST /api/queue/v1/task/AAAAAAAAQACAAAAAAAAAAA/rerun";

const WORKER: &str = r#"{"workerGroup":"g","workerId":"w"}"#;

const DONE: &[u8] = b"HTTP/1.1 200 OK\r\n";

/// Whether a request is answered with success.
fn is_done(alloc: Global, desk: &mut Solo<Bare>, request: &str, body: &str) -> Result<bool, Fail> {
    let written = asked(alloc, desk, request, body)?;
    Ok(written.as_slice().starts_with(DONE))
}

/// The report that a run failed.
fn report_of(alloc: Global, run: u32) -> Result<String, AllocError> {
    format!(in alloc; "POST /api/queue/v1/task/AAAAAAAAQACAAAAAAAAAAA/runs/{run}/failed")
}

/// Whether a worker may take the pending run, of this number, and tell that it failed.
fn fails(alloc: Global, desk: &mut Solo<Bare>, run: u32) -> Result<bool, Fail> {
    if !is_done(alloc, desk, CLAIM, WORKER)? {
        return Ok(false);
    }
    let report = report_of(alloc, run)?;
    is_done(alloc, desk, report.as_str(), "")
}

/// A run that failed.
fn failed_run(alloc: Global, reason: &str, run: u32) -> Result<String, AllocError> {
    format!(in alloc;
        r#"{{"reasonCreated":"{reason}","reasonResolved":"failed","resolved":"2024-01-01T00:00:00.000Z","runId":{run},"scheduled":"2024-01-01T00:00:00.000Z","started":"2024-01-01T00:00:00.000Z","state":"failed","takenUntil":"2024-01-01T00:20:00.000Z","workerGroup":"g","workerId":"w"}}"#
    )
}

/// Fifty of them.
fn fifty_runs(alloc: Global) -> Result<String, AllocError> {
    let mut text = failed_run(alloc, "scheduled", 0)?;
    for run in 1..50_u32 {
        let one = failed_run(alloc, "rerun", run)?;
        text.push_str(",")?;
        text.push_str(one.as_str())?;
    }
    Ok(text)
}

/// The reply of this status whose body has the task's status between these texts, once it ran fifty times.
fn fifty_told(alloc: Global, status: &str, front: &str, back: &str) -> Result<String, AllocError> {
    let runs = fifty_runs(alloc)?;
    let body = format!(in alloc;
        r#"{front}{{"deadline":"2024-01-02T00:00:00.000Z","expires":"2025-01-01T00:00:00.000Z","projectId":"none","provisionerId":"prov","retriesLeft":0,"runs":[{runs}],"schedulerId":"-","state":"failed","taskGroupId":"AAAAAAAAQACAAAAAAAAAAA","taskId":"AAAAAAAAQACAAAAAAAAAAA","taskQueueId":"prov/wt","workerType":"wt"}}{back}"#
    )?;
    reply_text(alloc, status, body.as_str())
}

/// How many of the fifty runs of the task that was made fail, with a rerun after each but the last.
fn rounds(alloc: Global, desk: &mut Solo<Bare>) -> Result<u32, Fail> {
    for run in 0..50_u32 {
        if !fails(alloc, desk, run)? {
            return Ok(run);
        }
        if run < 49 && !is_done(alloc, desk, RERUN, "")? {
            return Ok(run);
        }
    }
    Ok(50)
}

/// What a desk writes to a request once a task ran fifty times there.
fn fifty_and(alloc: Global, desk: &mut Solo<Bare>, request: &str) -> Result<Vec<u8>, Fail> {
    if !is_done(alloc, desk, MAKE, ONCE)? {
        return Err(Fail::from("the task is not made"));
    }
    if rounds(alloc, desk)? != 50 {
        return Err(Fail::from("it did not run fifty times"));
    }
    asked(alloc, desk, request, "")
}

/// The same of a new farm.
fn after_fifty(alloc: Global, request: &str) -> Result<Vec<u8>, Fail> {
    let mut desk = farm(alloc, ALL, 1_000_000)?;
    let written = fifty_and(alloc, &mut desk, request);
    drop(desk);
    written
}

/// Whether a request is answered so once the task ran fifty times.
fn is_told(alloc: Global, request: &str, wanted: &str) -> Result<bool, Fail> {
    let told = after_fifty(alloc, request)?;
    Ok(told.as_slice() == wanted.as_bytes())
}

/// The same of a reply of this status whose body has the task's status between these texts.
fn status_is_told(
    alloc: Global,
    request: &str,
    status: &str,
    front: &str,
    back: &str,
) -> Result<bool, Fail> {
    let wanted = fifty_told(alloc, status, front, back)?;
    is_told(alloc, request, wanted.as_str())
}

/// The same of a success with this body.
fn body_is_told(alloc: Global, request: &str, body: &str) -> Result<bool, Fail> {
    let wanted = reply_text(alloc, "200 OK", body)?;
    is_told(alloc, request, wanted.as_str())
}

/// A rerun is refused then, and the last report repeated.
#[test]
fn a_task_runs_fifty_times_at_most(rt: HostRuntime) -> Result<(), Fail> {
    let told = [
        status_is_told(
            rt.alloc(),
            RERUN,
            "409 Conflict",
            r#"{"code":"RequestConflict","details":{"rule":6,"status":"#,
            r#"},"message":"the state forbids it"}"#,
        )?,
        status_is_told(
            rt.alloc(),
            "POST /api/queue/v1/task/AAAAAAAAQACAAAAAAAAAAA/runs/49/failed",
            "200 OK",
            r#"{"status":"#,
            "}",
        )?,
    ];
    assert_eq!(rt; told, [true; 2]);
    Ok(())
}

/// The task in full form.
const FULL: &str =
    r#"{"created":"2024-01-01T00:00:00.000Z","deadline":"2024-01-02T00:00:00.000Z","dependencies":[],"expires":"2025-01-01T00:00:00.000Z","extra":{},"metadata":{"description":"d","name":"n","owner":"o@example.com","source":"https://example.com/"},"payload":{},"priority":"lowest","projectId":"none","provisionerId":"prov","requires":"all-completed","retries":0,"routes":[],"schedulerId":"-","scopes":[],"tags":{},"taskGroupId":"AAAAAAAAQACAAAAAAAAAAA","taskQueueId":"prov/wt","workerType":"wt"}"#;

/// Whether the list of the task's group has it with its fifty runs.
fn is_listed(alloc: Global) -> Result<bool, Fail> {
    let back = format!(in alloc; r#","task":{FULL}}}]}}"#)?;
    status_is_told(
        alloc,
        "GET /api/queue/v1/task-group/AAAAAAAAQACAAAAAAAAAAA/list",
        "200 OK",
        r#"{"taskGroupId":"AAAAAAAAQACAAAAAAAAAAA","tasks":[{"status":"#,
        back.as_str(),
    )
}

#[test]
fn fifty_runs_are_listed(rt: HostRuntime) -> Result<(), Fail> {
    let told = [
        is_listed(rt.alloc())?,
        body_is_told(
            rt.alloc(),
            "GET /api/queue/v1/task/AAAAAAAAQACAAAAAAAAAAA/dependents",
            r#"{"taskId":"AAAAAAAAQACAAAAAAAAAAA","tasks":[]}"#,
        )?,
        body_is_told(
            rt.alloc(),
            "GET /api/queue/v1/task/AAAAAAAAQACAAAAAAAAAAA",
            FULL,
        )?,
        body_is_told(
            rt.alloc(),
            "GET /api/queue/v1/pending/prov/wt",
            r#"{"pendingTasks":0,"provisionerId":"prov","taskQueueId":"prov/wt","workerType":"wt"}"#,
        )?,
    ];
    assert_eq!(rt; told, [true; 4]);
    Ok(())
}

#[test]
fn runs_lapse_and_are_retried(rt: HostRuntime) -> Result<(), Fail> {
    let talks = [
        Talk::of(AGAIN),
        Talk::of(LAPSE),
        Talk::of(LAST),
        Talk::of(DEADLINE_FIRST),
        Talk::of(RETRY),
    ];
    all_answered(rt.alloc(), &talks)
}
