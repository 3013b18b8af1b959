//! Targets: each route, and each of its parameters off its form.
use super::*;

/// Routes, and targets that have none.
const ROUTES: &str = r#"GET /api/queue/v1/ping||ping
GET /api/queue/v1/ping?a=/b||ping
GET /api/queue/v1/ping|{|ping
POST /api/queue/v1/ping||no route /api/queue/v1/ping
HEAD /api/queue/v1/ping||no route /api/queue/v1/ping
get /api/queue/v1/ping||no route /api/queue/v1/ping
GET /api/queue/v1/ping/||no route /api/queue/v1/ping/
GET /api/queue/v1/task/AAAAAAAAQACAAAAAAAAAAA||task AAAAAAAAQACAAAAAAAAAAA
GET /api/queue/v1/task/%41AAAAAAAQACAAAAAAAAAAA?limit=0||task AAAAAAAAQACAAAAAAAAAAA
GET /api/queue/v1/task/x||bad taskId
GET /api/queue/v1/task/||no route /api/queue/v1/task/
GET /api/queue/v1/task/AAAAAAAAQACAAAAAAAAAAA/status||status AAAAAAAAQACAAAAAAAAAAA
GET /api/queue/v1/task/%41AAAAAAAQACAAAAAAAAAAA/status||status AAAAAAAAQACAAAAAAAAAAA
GET /api/queue/v1/task/x/status||bad taskId
GET /api/queue/v1/task//status||no route /api/queue/v1/task//status
GET /api/queue/v1/task/é/status||bad taskId
GET /é||no route -
GET http://localhost/api/queue/v1/ping||no route http://localhost/api/queue/v1/ping
POST /api/queue/v1/task/AAAAAAAAQACAAAAAAAAAAA/schedule||schedule AAAAAAAAQACAAAAAAAAAAA
POST /api/queue/v1/task/AAAAAAAAQACAAAAAAAAAAA/rerun|{|rerun AAAAAAAAQACAAAAAAAAAAA
POST /api/queue/v1/task/AAAAAAAAQACAAAAAAAAAAA/cancel||cancel AAAAAAAAQACAAAAAAAAAAA
POST /api/queue/v1/task/x/schedule||bad taskId
POST /api/queue/v1/task/x/rerun||bad taskId
POST /api/queue/v1/task/%ff/cancel||bad taskId
GET /api/queue/v1/task/AAAAAAAAQACAAAAAAAAAAA/cancel||no route /api/queue/v1/task/AAAAAAAAQACAAAAAAAAAAA/cancel
POST /api/queue/v1/task//cancel||no route /api/queue/v1/task//cancel
POST /api/queue/v1/task/AAAAAAAAQACAAAAAAAAAAA/runs/0/reclaim||reclaim 0
POST /api/queue/v1/task/AAAAAAAAQACAAAAAAAAAAA/runs/%349/completed|{|completed 49
POST /api/queue/v1/task/AAAAAAAAQACAAAAAAAAAAA/runs/7/failed||failed 7
POST /api/queue/v1/task/x/runs/50/reclaim||bad taskId
POST /api/queue/v1/task/AAAAAAAAQACAAAAAAAAAAA/runs/-1/reclaim||bad runId
POST /api/queue/v1/task/x/runs/0/completed||bad taskId
POST /api/queue/v1/task/AAAAAAAAQACAAAAAAAAAAA/runs/00/completed||bad runId
POST /api/queue/v1/task/AAAAAAAAQACAAAAAAAAAAA/runs/50/failed||bad runId
POST /api/queue/v1/task/AAAAAAAAQACAAAAAAAAAAA/runs/07/failed||bad runId
POST /api/queue/v1/task/x/runs/50/failed||bad taskId
POST /api/queue/v1/task/x/runs//failed||no route /api/queue/v1/task/x/runs//failed
GET /api/queue/v1/pending/prov/wt||pending prov/wt
GET /api/queue/v1/pending/prov%2Fwt||pending prov/wt
GET /api/queue/v1/pending/%70rov%2fwt?limit=0||pending prov/wt
GET /api/queue/v1/pending/prov||bad queue
GET /api/queue/v1/pending/prov%2Fwt/x||bad queue
GET /api/queue/v1/pending/prov/w.t||bad queue
GET /api/queue/v1/pending/prov/wt/||no route /api/queue/v1/pending/prov/wt/
POST /api/hooks/v1/hooks/g/h/trigger|{}|trigger h of g
GET /api/hooks/v1/hooks/g/h/trigger||no route /api/hooks/v1/hooks/g/h/trigger
POST /api/hooks/v1/hooks/g/h/i/trigger|{}|no route /api/hooks/v1/hooks/g/h/i/trigger
POST /api/queue/v1/hooks/g/h/trigger|{}|no route /api/queue/v1/hooks/g/h/trigger"#;

/// Lists, of which a query tells a page.
const LISTS: &str =
    r#"GET /api/queue/v1/task-group/AAAAAAAAQACAAAAAAAAAAA/list||group AAAAAAAAQACAAAAAAAAAAA 1000
GET /api/queue/v1/task-group/AAAAAAAAQACAAAAAAAAAAA/list?||group AAAAAAAAQACAAAAAAAAAAA 1000
GET /api/queue/v1/task-group/AAAAAAAAQACAAAAAAAAAAA/list?limit=1000||group AAAAAAAAQACAAAAAAAAAAA 1000
GET /api/queue/v1/task-group/AAAAAAAAQACAAAAAAAAAAA/list?a=b&limit=1&c||group AAAAAAAAQACAAAAAAAAAAA 1
GET /api/queue/v1/task-group/AAAAAAAAQACAAAAAAAAAAA/list?continuationToken=AAAAAAAAQACAAAAAAAAAAQ&limit=30||group AAAAAAAAQACAAAAAAAAAAA 30 AAAAAAAAQACAAAAAAAAAAQ
GET /api/queue/v1/task-group/AAAAAAAAQACAAAAAAAAAAA/list?limi%74=0&Limit=0||group AAAAAAAAQACAAAAAAAAAAA 1000
GET /api/queue/v1/task-group/AAAAAAAAQACAAAAAAAAAAA/list?limit||bad limit
GET /api/queue/v1/task-group/AAAAAAAAQACAAAAAAAAAAA/list?limit=||bad limit
GET /api/queue/v1/task-group/AAAAAAAAQACAAAAAAAAAAA/list?limit=0||bad limit
GET /api/queue/v1/task-group/AAAAAAAAQACAAAAAAAAAAA/list?limit=1001||bad limit
GET /api/queue/v1/task-group/AAAAAAAAQACAAAAAAAAAAA/list?limit=007||bad limit
GET /api/queue/v1/task-group/AAAAAAAAQACAAAAAAAAAAA/list?limit=+7||bad limit
GET /api/queue/v1/task-group/AAAAAAAAQACAAAAAAAAAAA/list?limit=%37||bad limit
GET /api/queue/v1/task-group/AAAAAAAAQACAAAAAAAAAAA/list?limit=1=1||bad limit
GET /api/queue/v1/task-group/AAAAAAAAQACAAAAAAAAAAA/list?limit=1&limit=1||bad limit
GET /api/queue/v1/task-group/AAAAAAAAQACAAAAAAAAAAA/list?continuationToken=x&limit=0||bad limit
GET /api/queue/v1/task-group/AAAAAAAAQACAAAAAAAAAAA/list?continuationToken=x||bad continuationToken
GET /api/queue/v1/task-group/AAAAAAAAQACAAAAAAAAAAA/list?continuationToken||bad continuationToken
GET /api/queue/v1/task-group/AAAAAAAAQACAAAAAAAAAAA/list?continuationToken=AAAAAAAAQACAAAAAAAAAAQ&continuationToken=AAAAAAAAQACAAAAAAAAAAQ||bad continuationToken
GET /api/queue/v1/task-group/x/list?limit=0||bad taskGroupId
GET /api/queue/v1/task-group//list||no route /api/queue/v1/task-group//list
GET /api/queue/v1/task/AAAAAAAAQACAAAAAAAAAAA/dependents?limit=2||dependents AAAAAAAAQACAAAAAAAAAAA 2
GET /api/queue/v1/task/AAAAAAAAQACAAAAAAAAAAA/dependents?limit=x||bad limit
GET /api/queue/v1/task/AAAAAAAAQACAAAAAAAAAAA/dependents?continuationToken=x||bad continuationToken
GET /api/queue/v1/task/x/dependents?limit=x||bad taskId"#;

#[test]
fn each_route_is_its_own_and_a_query_tells_of_a_page(rt: HostRuntime) -> Result<(), Fail> {
    let told = [
        first_other(rt.alloc(), ROUTES)?,
        first_other(rt.alloc(), LISTS)?,
    ];
    assert_eq!(rt; told, ["none"; 2]);
    Ok(())
}
