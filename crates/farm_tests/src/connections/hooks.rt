//! Hooks that are triggered over connections in memory, with replies worked out by hand.
use super::answers::numbered;
use super::rows::first_other_of;
use super::*;

/// The template of hook `g/h`, up to its queue.
const TEMPLATE: &str =
    r#"{"metadata":{"description":"d","name":"n","owner":"o","source":"s"},"payload":{},"routes":["r.${payload.x}"],"taskQueueId":"#;

/// What creating a task without routes at `prov/wt` asks.
const THREE: &str =
    "'queue:create-task:project:none', 'queue:scheduler-id:-', 'queue:create-task:lowest:prov/wt'";

/// The same, and each route that begins with `r.`
const FOUR: &str =
    "'queue:create-task:project:none', 'queue:scheduler-id:-', 'queue:create-task:lowest:prov/wt', 'queue:route:r.*'";

/// The roles of a farm in which anyone may trigger the hooks: of these, `g/h` has these scopes, and `g/wide` as many as one may have beside its
/// own.
fn roles(alloc: Global, scopes: &str) -> Result<String, AllocError> {
    let wide = numbered(alloc, 10_000)?;
    format!(in alloc;
        "role = [{{ id = 'anonymous', scopes = ['hooks:trigger-hook:g/*'] }}, {{ id = 'hook-id:g/h', scopes = [{scopes}] }}, {{ id = 'hook-id:g/wide', scopes = [{wide}] }}]\n"
    )
}

/// Its file, with hooks `g/h`, `g/dear` and `g/wide`: the tasks of the first and the last go to this queue, and the template of the second
/// costs more than may be paid.
fn file(alloc: Global, scopes: &str, queue: &str) -> Result<String, AllocError> {
    let task = format!(in alloc; "{TEMPLATE}\"{queue}\"}}")?;
    let roles = roles(alloc, scopes)?;
    format!(in alloc;
        "{roles}hook = [{{ group = 'g', id = 'h', task = '{task}' }}, {{ group = 'g', id = 'dear', task = '{{\"$eval\":\"len(range(0,2000000))\"}}' }}, {{ group = 'g', id = 'wide', task = '{task}' }}]\n"
    )
}

/// The first line that a farm answers otherwise whose hook `g/h` has these scopes, and makes tasks of this queue; or `none`.
fn first_other<'a>(
    alloc: Global,
    scopes: &str,
    queue: &str,
    talk: &'a str,
) -> Result<&'a str, Fail> {
    let file = file(alloc, scopes, queue)?;
    first_other_of(alloc, file.as_str(), talk)
}

/// The route is not among the scopes of the hook.
const REFUSED: &str =
    r#"0|POST /api/hooks/v1/hooks/g/h/trigger|{"x":"one"}|403 Forbidden|{"code":"HookInsufficientScopes","details":{"missing":{"AllOf":["queue:route:r.one"]}},"message":"the hook's scopes are missing"}
0|POST /api/hooks/v1/hooks/g/h/trigger|{"w":"0123456789012345678901234567890123456789012345678901234567890123456789012345678901234567890123456789","x":"one"}|403 Forbidden|{"code":"HookInsufficientScopes","details":{"missing":{"AllOf":["queue:route:r.one"]}},"message":"the hook's scopes are missing"}
0|POST /api/hooks/v1/hooks/g/dear/trigger|{}|400 Bad Request|{"code":"InputError","details":{"rule":19},"message":"the request breaks a rule"}
0|POST /api/hooks/v1/hooks/g/wide/trigger|{"x":"one"}|403 Forbidden|{"code":"ExpansionLimit","details":{"limit":10000},"message":"too many scopes are derivable"}
0|POST /api/hooks/v1/hooks/g/h/trigger|{}|400 Bad Request|{"code":"InputError","details":{"fault":6,"path":"/routes/0","rule":18},"message":"the request breaks a rule"}
0|POST /api/hooks/v1/hooks/g/h/trigger|[]|400 Bad Request|{"code":"InputError","details":{"rule":25},"message":"the request breaks a rule"}
0|POST /api/hooks/v1/hooks/g/i/trigger|{}|404 Not Found|{"code":"ResourceNotFound","details":{"kind":"hook","name":"g/i"},"message":"nothing has that name"}"#;

/// It is among them, and the task has the id that is drawn.
const GRANTED: &str =
    r#"0|POST /api/hooks/v1/hooks/g/h/trigger|{"x":"one"}|200 OK|{"status":{"deadline":"2024-01-02T00:00:00.000Z","expires":"2025-01-01T00:00:00.000Z","projectId":"none","provisionerId":"prov","retriesLeft":5,"runs":[{"reasonCreated":"scheduled","runId":0,"scheduled":"2024-01-01T00:00:00.000Z","state":"pending"}],"schedulerId":"-","state":"pending","taskGroupId":"AAAAAAAAQACAAAAAAAAAAg","taskId":"AAAAAAAAQACAAAAAAAAAAg","taskQueueId":"prov/wt","workerType":"wt"}}"#;

/// It is among them, and the queue is none.
const NO_QUEUE: &str =
    r#"0|POST /api/hooks/v1/hooks/g/h/trigger|{"x":"one"}|400 Bad Request|{"code":"InputError","details":{"key":"taskQueueId","rule":2},"message":"the request breaks a rule"}"#;

#[test]
fn a_hook_has_its_own_scopes_and_what_it_renders_is_judged(rt: HostRuntime) -> Result<(), Fail> {
    let others = [
        first_other(rt.alloc(), THREE, "prov/wt", REFUSED)?,
        first_other(rt.alloc(), FOUR, "prov/wt", GRANTED)?,
        first_other(rt.alloc(), FOUR, "prov", NO_QUEUE)?,
    ];
    assert_eq!(rt; others, ["none"; 3]);
    Ok(())
}
