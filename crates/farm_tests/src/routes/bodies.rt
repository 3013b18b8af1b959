//! Bodies: those that calls have, and others.
use super::*;

/// A definition makes a task.
const TASKS: &str =
    r#"PUT /api/queue/v1/task/AAAAAAAAQACAAAAAAAAAAA|{"created":"2024-01-01T00:00:00.000Z","deadline":"2024-01-02T00:00:00.000Z","metadata":{"description":"d","name":"n","owner":"o@example.com","source":"https://example.com/"},"payload":{},"taskQueueId":"prov/wt"}|create AAAAAAAAQACAAAAAAAAAAA
PUT /api/queue/v1/task/AAAAAAAAQACAAAAAAAAAAA||no JSON
PUT /api/queue/v1/task/AAAAAAAAQACAAAAAAAAAAA|{"payload":{"a":1.5}}|/payload/a
PUT /api/queue/v1/task/AAAAAAAAQACAAAAAAAAAAA|{}|created
PUT /api/queue/v1/task/x||bad taskId
PUT /api/queue/v1/task/|{}|no route /api/queue/v1/task/"#;

/// Workers ask for work.
const WORK: &str = r#"POST /api/queue/v1/claim-work/prov/wt|{"workerGroup":"g","workerId":"w"}|w 1
POST /api/queue/v1/claim-work/prov%2Fwt|{"workerGroup":"g","workerId":"w"}|w 1
POST /api/queue/v1/claim-work/%70rov%2fwt?a|{"workerGroup":"g","workerId":"w"}|w 1
POST /api/queue/v1/claim-work/prov/wt|{"tasks":32,"workerId":"w","workerGroup":"g"}|w 32
POST /api/queue/v1/claim-work/prov/wt|{"tasks":40,"tasks":2,"workerGroup":"g","workerId":"w"}|w 2
POST /api/queue/v1/claim-work/prov/wt|{"tasks":0,"workerGroup":"g","workerId":"w"}|no work
POST /api/queue/v1/claim-work/prov/wt|{"tasks":33,"workerGroup":"g","workerId":"w"}|no work
POST /api/queue/v1/claim-work/prov/wt|{"workerGroup":"g","workerId":"w","x":1}|no work
POST /api/queue/v1/claim-work/prov/wt|{"workerGroup":"g/","workerId":"w"}|no work
POST /api/queue/v1/claim-work/prov/wt|[]|no work
POST /api/queue/v1/claim-work/prov/wt|{"tasks":1.5}|/tasks
POST /api/queue/v1/claim-work/prov/wt|{|no JSON
POST /api/queue/v1/claim-work/prov%2Fwt/x|{|bad queue
POST /api/queue/v1/claim-work/prov|{|bad queue
POST /api/queue/v1/claim-work/prov/|{}|no route /api/queue/v1/claim-work/prov/"#;

/// They tell why a run ended.
const REASONS: &str =
    r#"POST /api/queue/v1/task/AAAAAAAAQACAAAAAAAAAAA/runs/1/exception|{"reason":"worker-shutdown"}|worker-shutdown 1
POST /api/queue/v1/task/AAAAAAAAQACAAAAAAAAAAA/runs/1/exception|{"reason":"completed"}|no reason
POST /api/queue/v1/task/AAAAAAAAQACAAAAAAAAAAA/runs/1/exception|{"reason":"superseded","x":1}|no reason
POST /api/queue/v1/task/AAAAAAAAQACAAAAAAAAAAA/runs/1/exception||no JSON
POST /api/queue/v1/task/AAAAAAAAQACAAAAAAAAAAA/runs/x/exception||bad runId
POST /api/queue/v1/task/x/runs/x/exception||bad taskId"#;

/// Hooks are triggered with objects.
const PAYLOADS: &str = r#"POST /api/hooks/v1/hooks/g/h/trigger|{"x":[]}|trigger h of g
POST /api/hooks/v1/hooks/%67_1/h%2Fi/trigger?a|{}|trigger h/i of g_1
POST /api/hooks/v1/hooks/g/h/trigger|[]|no payload
POST /api/hooks/v1/hooks/g/h/trigger|null|no payload
POST /api/hooks/v1/hooks/g/h/trigger||no JSON
POST /api/hooks/v1/hooks/g/h/trigger|{"x":1.5}|/x
POST /api/hooks/v1/hooks/g%2Fg/h.i/trigger||bad hookGroupId
POST /api/hooks/v1/hooks/g/h.i/trigger||bad hookId
POST /api/hooks/v1/hooks/g/%ff/trigger|{}|bad hookId
POST /api/hooks/v1/hooks//h/trigger|{}|no route /api/hooks/v1/hooks//h/trigger"#;

#[test]
fn bodies_are_those_of_their_calls(rt: HostRuntime) -> Result<(), Fail> {
    let told = [
        first_other(rt.alloc(), TASKS)?,
        first_other(rt.alloc(), WORK)?,
        first_other(rt.alloc(), REASONS)?,
        first_other(rt.alloc(), PAYLOADS)?,
    ];
    assert_eq!(rt; told, ["none"; 4]);
    Ok(())
}
