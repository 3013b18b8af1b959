//! The routes of the Taskcluster reference, "queue" and "hooks", and paths that none has.
use route_table::{Found, Table};
use std::alloc::{AllocError, Global};
use std::test::Fail;

/// A method and a path, with the route that they have and the parts that stand for its parameters. A parameter may look like a word of a
/// route.
const ROUTES: &str = "GET /api/queue/v1/ping|Ping
PUT /api/queue/v1/task/a|CreateTask a
GET /api/queue/v1/task/a|Task a
GET /api/queue/v1/task/a/status|Status a
POST /api/queue/v1/task/a/schedule|ScheduleTask a
POST /api/queue/v1/task/a/rerun|RerunTask a
POST /api/queue/v1/task/a/cancel|CancelTask a
POST /api/queue/v1/claim-work/p%2Fw|ClaimWork p%2Fw
POST /api/queue/v1/claim-work/p/w|ClaimWorkInTwo p w
POST /api/queue/v1/task/a/runs/0/reclaim|ReclaimTask a 0
POST /api/queue/v1/task/a/runs/0/completed|ReportCompleted a 0
POST /api/queue/v1/task/a/runs/0/failed|ReportFailed a 0
POST /api/queue/v1/task/a/runs/0/exception|ReportException a 0
GET /api/queue/v1/task-group/g/list|ListTaskGroup g
GET /api/queue/v1/task/a/dependents|ListDependentTasks a
GET /api/queue/v1/pending/p%2Fw|PendingTasks p%2Fw
GET /api/queue/v1/pending/p/w|PendingTasksInTwo p w
POST /api/hooks/v1/hooks/g/h%2Fi/trigger|TriggerHook g h%2Fi
GET /api/queue/v1/task/status|Task status
GET /api/queue/v1/task/ping/status|Status ping
POST /api/queue/v1/task/runs/runs/runs/reclaim|ReclaimTask runs runs
GET /api/queue/v1/task/%|Task %
GET /api/queue/v1/task/{id}|Task {id}";

/// Methods and paths that have no route.
const NONE: &str = "HEAD /api/queue/v1/ping|none
get /api/queue/v1/ping|none
POST /api/queue/v1/ping|none
PUT /api/queue/v1/task/a/status|none
POST /api/queue/v1/task/a|none
GET |none
GET /|none
GET *|none
GET /api/queue/v1/ping/|none
GET //api/queue/v1/ping|none
GET /api/queue/v1|none
GET /api/queue/v1/pin|none
GET /api/queue/v1/pings|none
GET /api/queue/v2/ping|none
GET /api/hooks/v1/ping|none
GET /api/queue/v1/task|none
GET /api/queue/v1/task/|none
GET /api/queue/v1/task//status|none
GET /api/queue/v1/task/a/|none
GET /api/queue/v1/task/a/status/|none
GET /api/queue/v1/task/a/b/status|none
GET /api/queue/v1/task/a/Status|none
POST /api/queue/v1/claim-work/|none
POST /api/queue/v1/claim-work/p/|none
POST /api/queue/v1/claim-work//w|none
POST /api/queue/v1/claim-work/p/w/x|none
POST /api/queue/v1/task/a/runs//reclaim|none
POST /api/queue/v1/task/a/runs/0|none
POST /api/queue/v1/hooks/g/h/trigger|none
POST /api/hooks/v1/hooks/g/trigger|none
POST /api/hooks/v1/hooks/g/h/i/trigger|none";

/// A route and the parts that stand for its parameters, each behind a space.
fn found_told(alloc: Global, found: &Found<'_>) -> Result<Vec<u8>, AllocError> {
    let route = format!(in alloc; "{:?}", found.route)?;
    let mut told = Vec::from_slice(alloc, route.as_bytes())?;
    for part in &found.parameters {
        told.push(b' ')?;
        told.extend_from_slice(part)?;
    }
    Ok(told)
}

/// The same of the route that a table finds, or `none`.
fn told(alloc: Global, table: &Table, method: &[u8], path: &[u8]) -> Result<Vec<u8>, AllocError> {
    match table.route(alloc, method, path)? {
        Some(found) => found_told(alloc, &found),
        None => Vec::from_slice(alloc, b"none"),
    }
}

/// Whether a table of its own finds this.
fn is_told(alloc: Global, method: &[u8], path: &[u8], wanted: &[u8]) -> Result<bool, AllocError> {
    let table = Table::new(alloc)?;
    let found = told(alloc, &table, method, path);
    drop(table);
    Ok(found?.as_slice() == wanted)
}

/// Whether a table finds what a row says.
fn finds(alloc: Global, table: &Table, row: &str) -> Result<bool, Fail> {
    let (method, rest) = row.split_once(' ').ok_or("a method")?;
    let (path, wanted) = rest.split_once('|').ok_or("a path")?;
    let found = told(alloc, table, method.as_bytes(), path.as_bytes())?;
    Ok(found.as_slice() == wanted.as_bytes())
}

/// The first of these rows for which a table finds something else, or `none`.
fn first_other_in<'a>(alloc: Global, table: &Table, rows: &'a str) -> Result<&'a str, Fail> {
    for row in rows.split('\n') {
        if !finds(alloc, table, row)? {
            return Ok(row);
        }
    }
    Ok("none")
}

/// The same of a table of its own.
fn first_other(alloc: Global, rows: &str) -> Result<&str, Fail> {
    let table = Table::new(alloc)?;
    let other = first_other_in(alloc, &table, rows);
    drop(table);
    other
}

#[test]
fn each_route_is_found_and_no_other(rt: HostRuntime) -> Result<(), Fail> {
    let told = [
        first_other(rt.alloc(), ROUTES)?,
        first_other(rt.alloc(), NONE)?,
    ];
    assert_eq!(rt; told, ["none"; 2]);
    Ok(())
}

#[test]
fn bytes_that_are_no_text_stay_in_their_part(rt: HostRuntime) -> Result<(), Fail> {
    let path = b"/api/queue/v1/task/\xff\xfe/status";
    let told = [
        is_told(rt.alloc(), b"GET", path, b"Status \xff\xfe")?,
        is_told(rt.alloc(), b"GET", b"/api/queue/v1/pin\xe9", b"none")?,
        is_told(rt.alloc(), b"G\xcaT", b"/api/queue/v1/ping", b"none")?,
    ];
    assert_eq!(rt; told, [true; 3]);
    Ok(())
}
