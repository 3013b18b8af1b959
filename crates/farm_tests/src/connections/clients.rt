//! Calls that clients sign, over connections in memory. The MACs and the hash were made by Python's hmac and hashlib.
//!
//! A line begins with the client's id, the attributes of the header that may be left out, and the MAC; the rest of it is a row.
use super::rows::{Row, body_of, cut, replies, row_of};
use super::*;

/// What a client says of itself.
#[derive(Clone, Copy)]
struct Signature<'a> {
    id: &'a str,
    /// The attributes of the header that may be left out.
    more: &'a str,
    mac: &'a str,
}

/// The signature of a line, and its row.
fn signed(line: &str) -> (Signature<'_>, Row<'_>) {
    let (id, rest) = cut(line);
    let (more, rest) = cut(rest);
    let (mac, rest) = cut(rest);
    (Signature { id, more, mac }, row_of(rest))
}

/// The bytes of a request that is signed so.
fn request_of(alloc: Global, by: &Signature, row: &Row) -> Result<String, AllocError> {
    let body = body_of(alloc, row)?;
    let length = body.len();
    format!(in alloc;
        "{} HTTP/1.1\r\nAuthorization: hawk id=\"{}\", ts=\"1704067200\", nonce=\"n1\"{}, mac=\"{}\"\r\nContent-Type: Application/JSON; charset=utf-8\r\nContent-Length: {length}\r\n\r\n{body}",
        row.request, by.id, by.more, by.mac
    )
}

/// The file of a farm with clients: one that makes tasks, one with the scope `a` alone, one that is over, one that is disabled, and one whose
/// role, of which the scopes are missing here, gives too much. All have one token, so that a MAC is good for any of them.
const CLIENTS: &str = r#"
[farm]
host = "Farm.Example"

[[client]]
id = "maker"
token = "0123456789012345678901234567"
scopes = ["queue:create-task:project:none", "queue:scheduler-id:-", "queue:create-task:lowest:prov/wt"]
expires = "2024-01-01T00:00:00.001Z"

[[client]]
id = "limited"
token = "0123456789012345678901234567"
scopes = ["a"]
expires = "2024-01-01T00:15:01.001Z"

[[client]]
id = "old"
token = "0123456789012345678901234567"
scopes = ["*"]
expires = "2024-01-01T00:00:00Z"

[[client]]
id = "off"
token = "0123456789012345678901234567"
scopes = ["*"]
expires = "2024-01-01T00:00:00.001Z"
disabled = true

[[client]]
id = "many"
token = "0123456789012345678901234567"
scopes = []
expires = "2024-01-01T00:00:00.001Z"

[[role]]
id = "client-id:many"
scopes = ["#;

/// The same with the scopes of that role, ten thousand.
fn file(alloc: Global) -> Result<String, AllocError> {
    let mut file = String::from_str(alloc, CLIENTS)?;
    for place in 0..10_000u32 {
        let scope = format!(in alloc; "\"s{place}\", ")?;
        file.push_str(scope.as_str())?;
    }
    file.push_str("]")?;
    Ok(file)
}

/// A farm of this file.
fn farm(alloc: Global) -> Result<Solo<Bare>, Fail> {
    let file = file(alloc)?;
    let config = config_of(alloc, file.as_str())?;
    Ok(Solo::new(Bare::new(alloc, config)))
}

/// Whether a desk gives the reply of a line to its call.
fn is_answered(alloc: Global, desk: &mut Solo<Bare>, line: &str) -> Result<bool, Fail> {
    let (by, row) = signed(line);
    let request = request_of(alloc, &by, &row)?;
    replies(alloc, desk, &row, request.as_str())
}

/// The first line that a desk answers otherwise, or `none`.
fn first_other_at<'a>(
    alloc: Global,
    desk: &mut Solo<Bare>,
    calls: &'a str,
) -> Result<&'a str, Fail> {
    for line in calls.split('\n') {
        if !is_answered(alloc, desk, line)? {
            return Ok(line);
        }
    }
    Ok("none")
}

/// The same of a new farm with the clients.
fn first_other<'a>(alloc: Global, calls: &'a str) -> Result<&'a str, Fail> {
    let mut desk = farm(alloc)?;
    let other = first_other_at(alloc, &mut desk, calls);
    drop(desk);
    other
}

/// A createTask that is signed with its hash, and with another body; a call of the client whose role gives too much, and one of the client with
/// the scope `a` alone, which it does not suffice for; pings of that client up to the last moment of its header and one behind it; and since
/// the last moment does not fall, the last ping is as late as the one before.
const LET_IN: &str =
    r#"maker|, hash="yfjHG7pFXsPAyOH5n9pKTpqyBJaub+9k4+m1GfE+m8g="|bSpuHhdIGhwDPwSDDeJ5WCadSRC3j/iisGIjY6OHSHE=|0|PUT /api/queue/v1/task/AAAAAAAAQACAAAAAAAAAAA|~}|200 OK|{"status":~}
maker|, hash="yfjHG7pFXsPAyOH5n9pKTpqyBJaub+9k4+m1GfE+m8g="|bSpuHhdIGhwDPwSDDeJ5WCadSRC3j/iisGIjY6OHSHE=|0|PUT /api/queue/v1/task/AAAAAAAAQACAAAAAAAAAAA|~,"payload":{"a":1}}|401 Unauthorized|{"code":"AuthenticationFailed","details":{"reason":"BadHash"},"message":"the caller is not who it says"}
many||MiMK5w0yxc5JmrQZNMwVTN9Ag9h+ltyrchYGizZ1MxA=|0|GET /api/queue/v1/ping||403 Forbidden|{"code":"ExpansionLimit","details":{"limit":10000},"message":"too many scopes are derivable"}
limited||hDam0VJ1lyBJE65jiq2mfJEzPUeJDbsRbaGUe66d3gs=|0|GET /api/queue/v1/task/AAAAAAAAQACAAAAAAAAAAA/status||403 Forbidden|{"code":"InsufficientScopes","details":{"missing":"queue:status:AAAAAAAAQACAAAAAAAAAAA"},"message":"scopes are missing"}
limited||MiMK5w0yxc5JmrQZNMwVTN9Ag9h+ltyrchYGizZ1MxA=|0|GET /api/queue/v1/ping||200 OK|{"alive":true}
limited||MiMK5w0yxc5JmrQZNMwVTN9Ag9h+ltyrchYGizZ1MxA=|900999|GET /api/queue/v1/ping||200 OK|{"alive":true}
limited||MiMK5w0yxc5JmrQZNMwVTN9Ag9h+ltyrchYGizZ1MxA=|901000|GET /api/queue/v1/ping||401 Unauthorized|{"code":"AuthenticationFailed","details":{"now":1704068101,"reason":"Skew","ts":1704067200},"message":"the caller is not who it says"}
limited||MiMK5w0yxc5JmrQZNMwVTN9Ag9h+ltyrchYGizZ1MxA=|0|GET /api/queue/v1/ping||401 Unauthorized|{"code":"AuthenticationFailed","details":{"now":1704068101,"reason":"Skew","ts":1704067200},"message":"the caller is not who it says"}"#;

/// A client that nobody knows, one that is disabled, one that is over, a MAC of another call, an ext that is no JSON in base64, and one that
/// asks for all scopes: `{"authorizedScopes":["*"]}`.
const REFUSED: &str =
    r#"nobody||MiMK5w0yxc5JmrQZNMwVTN9Ag9h+ltyrchYGizZ1MxA=|0|GET /api/queue/v1/ping||401 Unauthorized|{"code":"AuthenticationFailed","details":{"reason":"UnknownClient"},"message":"the caller is not who it says"}
off||MiMK5w0yxc5JmrQZNMwVTN9Ag9h+ltyrchYGizZ1MxA=|0|GET /api/queue/v1/ping||401 Unauthorized|{"code":"AuthenticationFailed","details":{"reason":"Disabled"},"message":"the caller is not who it says"}
old||MiMK5w0yxc5JmrQZNMwVTN9Ag9h+ltyrchYGizZ1MxA=|0|GET /api/queue/v1/ping||401 Unauthorized|{"code":"AuthenticationFailed","details":{"reason":"Expired"},"message":"the caller is not who it says"}
limited||bSpuHhdIGhwDPwSDDeJ5WCadSRC3j/iisGIjY6OHSHE=|0|GET /api/queue/v1/ping||401 Unauthorized|{"code":"AuthenticationFailed","details":{"reason":"BadMac"},"message":"the caller is not who it says"}
limited|, ext="some-app-ext-data"|ZtLk8cG8z3r5Ne5FgR58ikk8grxxfKUyZL0XYC1paDk=|0|GET /api/queue/v1/ping||401 Unauthorized|{"code":"AuthenticationFailed","details":{"reason":"BadExt"},"message":"the caller is not who it says"}
limited|, ext="eyJhdXRob3JpemVkU2NvcGVzIjpbIioiXX0="|oo5G0ru6JYtmVZ1s0ikUysreEC9x4tgk/4wsaYjpm8Y=|0|GET /api/queue/v1/ping||401 Unauthorized|{"code":"AuthenticationFailed","details":{"missing":{"AllOf":["*"]},"reason":"Oversteps"},"message":"the caller is not who it says"}"#;

#[test]
fn clients_are_let_in_by_their_signatures_or_refused_for_a_reason(
    rt: HostRuntime,
) -> Result<(), Fail> {
    let told = [
        first_other(rt.alloc(), LET_IN)?,
        first_other(rt.alloc(), REFUSED)?,
    ];
    assert_eq!(rt; told, ["none"; 2]);
    Ok(())
}
