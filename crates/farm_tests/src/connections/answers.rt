//! Whoever gives credentials that are none, or derives many scopes, over connections in memory: a bad parameter and a bad body are told first.
use super::rows::first_other_of;
use super::*;

/// So many scopes of a farm file, each of which has its number in its name.
pub(super) fn numbered(alloc: Global, count: u32) -> Result<String, AllocError> {
    let mut scopes = String::new(alloc);
    for number in 0..count {
        let scope = format!(in alloc; "'s{number}',")?;
        scopes.push_str(&scope)?;
    }
    Ok(scopes)
}

/// The file of a farm with one client, in which `anonymous` has so many scopes beside `*`.
fn file_with(alloc: Global, count: u32) -> Result<String, AllocError> {
    let scopes = numbered(alloc, count)?;
    format!(in alloc;
        "role = [{{ id = 'anonymous', scopes = ['*',{scopes}] }}]\nclient = [{{ id = 'one', token = '0123456789012345678901', scopes = [], expires = '1970-01-01T00:00:00Z' }}]\n"
    )
}

/// The first line that the farm of that file answers otherwise, or `none`.
fn first_other_with<'a>(alloc: Global, count: u32, talk: &'a str) -> Result<&'a str, Fail> {
    let file = file_with(alloc, count)?;
    first_other_of(alloc, file.as_str(), talk)
}

/// A bad parameter is told before bad credentials.
const ROWS: &str =
    r#"=0|POST /api/queue/v1/task/AAAAAAAAQACAAAAAAAAAAA/runs/50/completed||400 Bad Request|{"code":"InputError","details":{"name":"runId","rule":22},"message":"the request breaks a rule"}
=0|POST /api/queue/v1/claim-work/prov|{"workerGroup":"g","workerId":"w"}|400 Bad Request|{"code":"InputError","details":{"name":"queue","rule":22},"message":"the request breaks a rule"}
=0|POST /api/queue/v1/claim-work/prov/wt|{"workerGroup":"g"}|400 Bad Request|{"code":"InputError","details":{"rule":23},"message":"the request breaks a rule"}
=0|POST /api/queue/v1/task/AAAAAAAAQACAAAAAAAAAAA/runs/0/exception|{"reason":"completed"}|400 Bad Request|{"code":"InputError","details":{"rule":24},"message":"the request breaks a rule"}
=0|GET /api/queue/v1/ping||200 OK|{"alive":true}
=0|GET /api/queue/v1/task/AAAAAAAAQACAAAAAAAAAAA/status||404 Not Found|{"code":"ResourceNotFound","details":{"kind":"task","name":"AAAAAAAAQACAAAAAAAAAAA"},"message":"nothing has that name"}
=0|GET /a"b||404 Not Found|{"code":"ResourceNotFound","details":{"kind":"route","name":"/a\"b"},"message":"nothing has that name"}
=0|GET /api/queue/v1/task/x/status # x||400 Bad Request|{"code":"InputError","details":{"name":"taskId","rule":22},"message":"the request breaks a rule"}
=0|PUT /api/queue/v1/task/AAAAAAAAQACAAAAAAAAAAA # x|{|400 Bad Request|{"code":"InputError","details":{"rule":20},"message":"the request breaks a rule"}
=0|GET /api/queue/v1/task/AAAAAAAAQACAAAAAAAAAAA/status # x||401 Unauthorized|{"code":"AuthenticationFailed","details":{"reason":"BadHeader"},"message":"the caller is not who it says"}
=0|GET /api/queue/v1/ping # Hawk id="one", ts="1", nonce="n", mac="m"||401 Unauthorized|{"code":"AuthenticationFailed","details":{"reason":"Expired"},"message":"the caller is not who it says"}"#;

/// Too many scopes are told behind a bad parameter.
const TOO_MANY: &str =
    r#"=0|GET /api/queue/v1/task/AAAAAAAAQACAAAAAAAAAAA/status||403 Forbidden|{"code":"ExpansionLimit","details":{"limit":10000},"message":"too many scopes are derivable"}
=0|GET /api/queue/v1/task/x/status # x||400 Bad Request|{"code":"InputError","details":{"name":"taskId","rule":22},"message":"the request breaks a rule"}"#;

#[test]
fn replies_are_those_of_the_reference(rt: HostRuntime) -> Result<(), Fail> {
    let told = [
        first_other_with(rt.alloc(), 9_998, ROWS)?,
        first_other_with(rt.alloc(), 9_999, TOO_MANY)?,
    ];
    assert_eq!(rt; told, ["none"; 2]);
    Ok(())
}
