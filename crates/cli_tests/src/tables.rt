//! Runs over houses in memory: what is written, what is noted, and the status. A row has the words, the farm file, the input, what fails, the
//! status, the output and the notes, cut by bars; `*` is any text, but not the empty one.

use crate::rows::first_other;
use std::test::Fail;

/// Commands over farm files. The line of `bulk` is a worked row; `bench/bulk_model.py` prints it, too.
const COMMANDS: &str =
    r#"answer farm.toml||GET /api/queue/v1/ping HTTP/1.1\r\n\r\nGET /api/queue/v1/task/AAAAAAAAQACAAAAAAAAAAA/status HTTP/1.1\r\n\r\n|-|0|HTTP/1.1 200 OK\r\nContent-Length: 14\r\nContent-Type: application/json\r\n\r\n{"alive":true}HTTP/1.1 404 Not Found\r\nContent-Length: 119\r\nContent-Type: application/json\r\n\r\n{"code":"ResourceNotFound","details":{"kind":"task","name":"AAAAAAAAQACAAAAAAAAAAA"},"message":"nothing has that name"}|
answer farm.toml||\r\n|-|0||
answer farm.toml|[[role]]\nid = 'anonymous'\nscopes = ['hooks:trigger-hook:g/h']\n[[role]]\nid = 'hook-id:g/h'\nscopes = ['queue:create-task:project:none', 'queue:scheduler-id:-', 'queue:create-task:lowest:prov/wt']\n[[hook]]\ngroup = 'g'\nid = 'h'\ntask = '{"metadata":{"description":"d","name":"n","owner":"o","source":"s"},"payload":{},"routes":["r.${payload.x}"],"taskQueueId":"prov/wt"}'\n|POST /api/hooks/v1/hooks/g/h/trigger HTTP/1.1\r\nContent-Length: 11\r\n\r\n{"x":"one"}|-|0|HTTP/1.1 403 Forbidden\r\nContent-Length: 129\r\nContent-Type: application/json\r\n\r\n{"code":"HookInsufficientScopes","details":{"missing":{"AllOf":["queue:route:r.one"]}},"message":"the hook's scopes are missing"}|
check farm.toml|[[role]]\nid = 'anonymous'\nscopes = ['hooks:trigger-hook:g/h']\n[[role]]\nid = 'hook-id:g/h'\nscopes = ['queue:create-task:project:none', 'queue:scheduler-id:-', 'queue:create-task:lowest:prov/wt']\n[[hook]]\ngroup = 'g'\nid = 'h'\ntask = '{"metadata":{"description":"d","name":"n","owner":"o","source":"s"},"payload":{},"routes":["r.${payload.x}"],"taskQueueId":"prov/wt"}'\n||-|0|ok roles=2 clients=0 hooks=1\n|
expand farm.toml||b\na\nb\n|-|0|a\nb\n|
expand farm.toml|||-|0||
expand farm.toml|role = [{ id = 'a', scopes = ['one'] }, { id = 'ab', scopes = ['two'] }, { id = 'a*', scopes = ['three:<..>'] }]\n|assume:a*|-|0|assume:a*\none\nthree:*\ntwo\n|
expand farm.toml|[[role]]\nid = 'p:*'\nscopes = ['x:<..>:y']\n|assume:p:q*\n|-|0|assume:p:q*\nx:q*\n|
expand farm.toml|[[role]]\nid = 'p:*'\nscopes = ['x:<..>:y']\n|assume:p:q\n|-|0|assume:p:q\nx:q:y\n|
expand farm.toml|[[role]]\nid = 'p:*'\nscopes = ['x:<..>:y']\n|*\n|-|0|*\nx:*\n|
check farm.toml|role = [{ id = 'a', scopes = ['one'] }, { id = 'ab', scopes = ['two'] }, { id = 'a*', scopes = ['three:<..>'] }]\n||-|0|ok roles=3 clients=0 hooks=0\n|
bulk --seed 0 --tasks 3|||-|0|tasks=3 completed=2 failed=1 exception=0 unscheduled=0 runs=4\n|"#;

/// `sign`. The lines are of Hawk's documentation ("Protocol Example", "Payload Validation"), but for the last, which Python's hmac made.
const SIGNED: &str =
    r#"sign --id dh37fgj492je --token werxhqb98rpaxn39848xrunpaw3489ruxnpa98w4rxn --method GET --target /resource/1?b=1&a=2 --host example.com --port 8000 --ts 1353832234 --nonce j4h3g2 --ext some-app-ext-data||GET /api/queue/v1/ping HTTP/1.1\r\n\r\n|-|0|Hawk id="dh37fgj492je", ts="1353832234", nonce="j4h3g2", ext="some-app-ext-data", mac="6R4rV5iE+NPoym+WwjeHzjAGXUtLNIxmo1vpMofpLAE="\n|
sign --id dh37fgj492je --token werxhqb98rpaxn39848xrunpaw3489ruxnpa98w4rxn --method post --target /resource/1?b=1&a=2 --host example.com --port 8000 --ts 1353832234 --nonce j4h3g2 --ext=some-app-ext-data --type=text/plain||Thank you for flying Hawk|-|0|Hawk id="dh37fgj492je", ts="1353832234", nonce="j4h3g2", hash="Yi9LfIIFRtBEPt74PVmbTF/xVAwPn7ub15ePICfgnuY=", ext="some-app-ext-data", mac="aSe1DERmZuRl3pI36/9BdZmnErTw3sNzOOAUlfeKjVw="\n|
sign --id dh37fgj492je --token werxhqb98rpaxn39848xrunpaw3489ruxnpa98w4rxn --method GET --target /resource/1?b=1&a=2 --host example.com --port 8000 --ts 1353832234 --nonce j4h3g2 --ext=|||-|0|Hawk id="dh37fgj492je", ts="1353832234", nonce="j4h3g2", mac="nfp3t5BVkMvjhU3PrD0ftTp7NcVpETEX2HEi/Fo4S2g="\n|"#;

/// What is refused, and what fails.
const REFUSED: &str =
    r#"answer farm.toml|[farm]\nport = 70000\n|GET /api/queue/v1/ping HTTP/1.1\r\n\r\n|-|3||the farm file is refused: farm.toml: [farm] port = 70000: a port is 1 to 65535\n
check farm.toml|role = [{ id = 'a*', scopes = ['assume:aa<..>'] }]\n|GET /api/queue/v1/ping HTTP/1.1\r\n\r\n|-|3||the farm file is refused: farm.toml: [[role]] row 1 (id "a*"): the parameters of roles go in a cycle: "a*" -> "a*"\n
answer other\e[31m\n.toml||GET /api/queue/v1/ping HTTP/1.1\r\n\r\n|-|4||the farm file cannot be opened: other\\x1b[31m\\x0a.toml: entity not found\n
answer other.toml||GET /api/queue/v1/ping HTTP/1.1\r\n\r\n|-|4||the farm file cannot be opened: other.toml: entity not found\n
answer farm.toml||GET /api/queue/v1/ping HTTP/1.1\r\n\r\n|farm|5||a read failed: the farm file farm.toml\n
answer farm.toml||GET /api/queue/v1/ping HT|-|8||the input is refused: it ends inside a request\n
answer farm.toml||nonsense\r\n\r\n|-|8|*|the input is refused: what came is no request\n
answer farm.toml||POST / HTTP/1.1\r\nTransfer-Encoding: chunked\r\n\r\n|-|8|*|the input is refused: a request has a Transfer-Encoding, where a Content-Length is needed\n
answer farm.toml||POST / HTTP/1.1\r\nContent-Length: 1048577\r\n\r\n|-|8|*|the input is refused: a request's body has more than 1048576 bytes\n
expand farm.toml||a\n\nb\r\n|-|3||the input is refused: line 3: it ends with a carriage return, and a scope is printable ASCII\n
expand farm.toml||a\tb\n|-|3||the input is refused: line 1: a scope is printable ASCII\n
expand farm.toml||a\nb**\n|-|3||the input is refused: line 2: a scope does not end with **\n
expand farm.toml||a\nb\n\f|-|3||the input is refused: line 3: a scope is printable ASCII\n
answer farm.toml||GET /api/queue/v1/ping HTTP/1.1\r\n\r\n|read|5||a read failed: standard input\n
expand farm.toml||a\n|read|5||a read failed: standard input\n
answer farm.toml||GET /api/queue/v1/ping HTTP/1.1\r\n\r\n|write|6||a write failed: standard output\n
check farm.toml||GET /api/queue/v1/ping HTTP/1.1\r\n\r\n|write|6||a write failed: standard output\n
bulk --seed 0 --tasks 0|||write|6||a write failed: standard output\n"#;

/// Words that have no reading.
const UNTAKEN: &str = r#"||GET /api/queue/v1/ping HTTP/1.1\r\n\r\n|-|2||*
answer||GET /api/queue/v1/ping HTTP/1.1\r\n\r\n|-|2||*
answer a b||GET /api/queue/v1/ping HTTP/1.1\r\n\r\n|-|2||*
--help||GET /api/queue/v1/ping HTTP/1.1\r\n\r\n|-|2||*
sign --id dh37fgj492je --token werxhqb98rpaxn39848xrunpaw3489ruxnpa98w4rxn --method GET --target /resource/1?b=1&a=2 --host example.com --port 8000 --ts 1353832234||GET /api/queue/v1/ping HTTP/1.1\r\n\r\n|-|2||*
bulk --seed 0 --tasks 100001||GET /api/queue/v1/ping HTTP/1.1\r\n\r\n|-|2||*"#;

#[test]
fn commands_do_what_they_say_or_tell_why_not(rt: HostRuntime) -> Result<(), Fail> {
    let told = [
        first_other(&rt, rt.alloc(), COMMANDS)?,
        first_other(&rt, rt.alloc(), SIGNED)?,
        first_other(&rt, rt.alloc(), REFUSED)?,
    ];
    assert_eq!(rt; told, ["none"; 3]);
    Ok(())
}

#[test]
fn untaken_words(rt: HostRuntime) -> Result<(), Fail> {
    assert_eq!(rt; first_other(&rt, rt.alloc(), UNTAKEN)?, "none");
    Ok(())
}
