//! Tasks that are made and asked for over connections in memory, with replies worked out by hand.
use super::rows::{Talk, all_answered};
use super::*;
use crate::configs::granting;

/// 2024-01-01T00:00:00.000Z.
pub(super) const CREATED: u64 = 1_704_067_200_000;

/// The smallest definition, without its last brace.
pub(super) const PLAIN: &str =
    r#"{"created":"2024-01-01T00:00:00.000Z","deadline":"2024-01-02T00:00:00.000Z","metadata":{"description":"d","name":"n","owner":"o@example.com","source":"https://example.com/"},"payload":{},"taskQueueId":"prov/wt""#;

/// The status of the first task while it is pending.
pub(super) const STATUS: &str =
    r#"{"deadline":"2024-01-02T00:00:00.000Z","expires":"2025-01-01T00:00:00.000Z","projectId":"none","provisionerId":"prov","retriesLeft":5,"runs":[{"reasonCreated":"scheduled","runId":0,"scheduled":"2024-01-01T00:00:00.000Z","state":"pending"}],"schedulerId":"-","state":"pending","taskGroupId":"AAAAAAAAQACAAAAAAAAAAA","taskId":"AAAAAAAAQACAAAAAAAAAAA","taskQueueId":"prov/wt","workerType":"wt"}"#;

/// The three scopes that creating the smallest definition asks for, as a farm file lists them.
const THREE_SCOPES: &str =
    r#"["queue:create-task:project:none", "queue:scheduler-id:-", "queue:create-task:lowest:prov/wt"]"#;

/// All scopes, as a farm file lists them.
pub(super) const ALL: &str = r#"["*"]"#;

/// A farm that takes so many tasks, where whoever gives no credentials has these scopes, as a farm file lists them.
pub(super) fn farm(alloc: Global, scopes: &str, max_tasks: u32) -> Result<Solo<Bare>, Fail> {
    let config = granting(alloc, scopes, max_tasks)?;
    Ok(Solo::new(Bare::new(alloc, config)))
}

/// The id that is drawn for the task of a hook.
const DRAWN: &[u8] = b"AAAAAAAAQACAAAAAAAAAAg";

/// What a desk writes where these bytes come at this moment. A task of a hook has the id `DRAWN`.
pub(super) fn written_at(
    alloc: Global,
    desk: &mut Solo<Bare>,
    bytes: &[u8],
    at: Moment,
) -> Result<Vec<u8>, Fail> {
    if desk.left() < 1_000 {
        return Err(Fail::from("no asks are left"));
    }
    let moments = vec![in alloc; at]?;
    let ids = vec![in alloc; SlugId::read(DRAWN).ok_or("an id")?]?;
    let mut link = link_of(alloc, &Input::of(bytes))?;
    let mut clock = ListClock::new(moments);
    let mut draws = ListDraws::new(ids);
    let _ = serve_connection(alloc, &mut link, desk, &mut clock, &mut draws, &mut NoGate);
    drop(draws);
    drop(clock);
    Ok(written_to(alloc, link)?)
}

/// A task is made once, whatever the order of its keys; another definition under its id, a priority that nobody may ask for and a number that is
/// not whole are refused.
const ONCE: &str = r#"0|PUT /api/queue/v1/task/AAAAAAAAQACAAAAAAAAAAA|~}|200 OK|{"status":~}
0|PUT /api/queue/v1/task/AAAAAAAAQACAAAAAAAAAAQ|~,"priority":"high"}|403 Forbidden|{"code":"InsufficientScopes","details":{"missing":{"AllOf":[{"AnyOf":["queue:create-task:highest:prov/wt","queue:create-task:very-high:prov/wt","queue:create-task:high:prov/wt"]}]}},"message":"scopes are missing"}
0|PUT /api/queue/v1/task/AAAAAAAAQACAAAAAAAAAAA|{"taskQueueId":"prov/wt","retries":5,"payload":{},"metadata":{"source":"https://example.com/","owner":"o@example.com","name":"n","description":"d"},"deadline":"2024-01-02T00:00:00.000Z","created":"2024-01-01T00:00:00.000Z"}|200 OK|{"status":~}
0|PUT /api/queue/v1/task/AAAAAAAAQACAAAAAAAAAAA|~,"payload":{"a":1}}|409 Conflict|{"code":"RequestConflict","details":{"rule":1,"status":~},"message":"the state forbids it"}
0|PUT /api/queue/v1/task/AAAAAAAAQACAAAAAAAAAAA|~,"payload":{"a":1.5}}|400 Bad Request|{"code":"InputError","details":{"path":"/payload/a","rule":21},"message":"the request breaks a rule"}"#;

/// A status a millisecond before the deadline, some after it, and at 1970, to which the clock goes back.
const DUE: &str = r#"0|PUT /api/queue/v1/task/AAAAAAAAQACAAAAAAAAAAA|~}|200 OK|{"status":~}
0|PUT /api/queue/v1/task/AAAAAAAAQACAAAAAAAAAAQ|~,"priority":"high"}|200 OK|{"status":{"deadline":"2024-01-02T00:00:00.000Z","expires":"2025-01-01T00:00:00.000Z","projectId":"none","provisionerId":"prov","retriesLeft":5,"runs":[{"reasonCreated":"scheduled","runId":0,"scheduled":"2024-01-01T00:00:00.000Z","state":"pending"}],"schedulerId":"-","state":"pending","taskGroupId":"AAAAAAAAQACAAAAAAAAAAQ","taskId":"AAAAAAAAQACAAAAAAAAAAQ","taskQueueId":"prov/wt","workerType":"wt"}}
86399999|GET /api/queue/v1/task/AAAAAAAAQACAAAAAAAAAAA/status||200 OK|{"status":~}
86400007|GET /api/queue/v1/task/AAAAAAAAQACAAAAAAAAAAA/status||200 OK|{"status":{"deadline":"2024-01-02T00:00:00.000Z","expires":"2025-01-01T00:00:00.000Z","projectId":"none","provisionerId":"prov","retriesLeft":5,"runs":[{"reasonCreated":"scheduled","reasonResolved":"deadline-exceeded","resolved":"2024-01-02T00:00:00.000Z","runId":0,"scheduled":"2024-01-01T00:00:00.000Z","state":"exception"}],"schedulerId":"-","state":"exception","taskGroupId":"AAAAAAAAQACAAAAAAAAAAA","taskId":"AAAAAAAAQACAAAAAAAAAAA","taskQueueId":"prov/wt","workerType":"wt"}}
=0|GET /api/queue/v1/task/AAAAAAAAQACAAAAAAAAAAA/status||200 OK|{"status":{"deadline":"2024-01-02T00:00:00.000Z","expires":"2025-01-01T00:00:00.000Z","projectId":"none","provisionerId":"prov","retriesLeft":5,"runs":[{"reasonCreated":"scheduled","reasonResolved":"deadline-exceeded","resolved":"2024-01-02T00:00:00.000Z","runId":0,"scheduled":"2024-01-01T00:00:00.000Z","state":"exception"}],"schedulerId":"-","state":"exception","taskGroupId":"AAAAAAAAQACAAAAAAAAAAA","taskId":"AAAAAAAAQACAAAAAAAAAAA","taskQueueId":"prov/wt","workerType":"wt"}}
0|PUT /api/queue/v1/task/AAAAAAAAQACAAAAAAAAAAA|~}|200 OK|{"status":{"deadline":"2024-01-02T00:00:00.000Z","expires":"2025-01-01T00:00:00.000Z","projectId":"none","provisionerId":"prov","retriesLeft":5,"runs":[{"reasonCreated":"scheduled","reasonResolved":"deadline-exceeded","resolved":"2024-01-02T00:00:00.000Z","runId":0,"scheduled":"2024-01-01T00:00:00.000Z","state":"exception"}],"schedulerId":"-","state":"exception","taskGroupId":"AAAAAAAAQACAAAAAAAAAAA","taskId":"AAAAAAAAQACAAAAAAAAAAA","taskQueueId":"prov/wt","workerType":"wt"}}"#;

/// A farm of one task.
const FULL: &str = r#"0|PUT /api/queue/v1/task/AAAAAAAAQACAAAAAAAAAAA|~}|200 OK|{"status":~}
0|PUT /api/queue/v1/task/AAAAAAAAQACAAAAAAAAAAQ|~}|507 Insufficient Storage|{"code":"FarmFull","details":{"count":1},"message":"the farm is full"}
0|PUT /api/queue/v1/task/AAAAAAAAQACAAAAAAAAAAA|~}|200 OK|{"status":~}
86400000|PUT /api/queue/v1/task/AAAAAAAAQACAAAAAAAAAAQ|~}|400 Bad Request|{"code":"InputError","details":{"rule":15},"message":"the request breaks a rule"}"#;

/// No body, a front of one, and an empty object.
const BODIES: &str =
    r#"0|PUT /api/queue/v1/task/AAAAAAAAQACAAAAAAAAAAA||400 Bad Request|{"code":"InputError","details":{"rule":20},"message":"the request breaks a rule"}
0|PUT /api/queue/v1/task/AAAAAAAAQACAAAAAAAAAAA|{"created":|400 Bad Request|{"code":"InputError","details":{"rule":20},"message":"the request breaks a rule"}
0|PUT /api/queue/v1/task/AAAAAAAAQACAAAAAAAAAAA|{}|400 Bad Request|{"code":"InputError","details":{"key":"created","rule":1},"message":"the request breaks a rule"}"#;

#[test]
fn tasks_are_made_and_fall_due(rt: HostRuntime) -> Result<(), Fail> {
    let once = Talk {
        scopes: THREE_SCOPES,
        ..Talk::of(ONCE)
    };
    let full = Talk {
        max_tasks: 1,
        ..Talk::of(FULL)
    };
    let bodies = Talk {
        max_tasks: 1,
        ..Talk::of(BODIES)
    };
    all_answered(rt.alloc(), &[once, Talk::of(DUE), full, bodies])
}
