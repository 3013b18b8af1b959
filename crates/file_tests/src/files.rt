//! Farm files: the first rule that each breaks, what is told of that, and what is read of a file that breaks none.
use farm_asks::config::Config;
use farm_files::{FileFault, LONGEST_FILE, read_farm, read_farm_with, tell_fault};
use farm_text::Doc;
use hawk_auth::Client;
use hook_book::Hook;
use std::alloc::{AllocError, Global};
use std::test::Fail;

/// The byte of a file for which a row has this one: a row is a text of one line.
fn byte_of(byte: u8) -> u8 {
    match byte {
        b';' => b'\n',
        b'~' => 0xff,
        other => other,
    }
}

/// The bytes of the file of a row.
fn file_of(alloc: Global, text: &str) -> Result<Vec<u8>, AllocError> {
    let mut bytes = Vec::new(alloc);
    for byte in text.bytes() {
        bytes.push(byte_of(byte))?;
    }
    Ok(bytes)
}

/// The first fault of a file, its table, the place of its row and the number of its rule, or `none`.
fn fault_of(alloc: Global, bytes: &[u8]) -> Result<String, AllocError> {
    match read_farm(alloc, bytes).err() {
        Some(FileFault::Fault(fault)) => {
            format!(in alloc; "{:?} {} {}", fault.table, fault.row, fault.rule.number())
        }
        Some(FileFault::NoMemory) => Err(AllocError),
        None => String::from_str(alloc, "none"),
    }
}

/// Whether this is the first fault of a file.
pub(crate) fn is_fault(alloc: Global, bytes: &[u8], wanted: &str) -> Result<bool, AllocError> {
    let fault = fault_of(alloc, bytes)?;
    Ok(fault.as_str() == wanted)
}

/// Whether the first fault of a row's file, before its bar, is the one behind it.
fn has_fault(alloc: Global, row: &str) -> Result<bool, Fail> {
    let (text, wanted) = row.split_once('|').ok_or("a row")?;
    let bytes = file_of(alloc, text)?;
    Ok(is_fault(alloc, &bytes, wanted)?)
}

/// The first of some rows whose file has another fault, or `none`.
pub(crate) fn first_other_fault(alloc: Global, rows: &str) -> Result<&str, Fail> {
    for row in rows.split('\n') {
        if !has_fault(alloc, row)? {
            return Ok(row);
        }
    }
    Ok("none")
}

/// Files, and their first faults: roles are judged before clients, and the farm before both.
const FAULTS: &str = r#"farm|File 0 1
[hooks]|File 0 2
x = 1|File 0 2
farm = { port = 0, x = 1 }|Farm 0 2
farm = 1|Farm 0 4
farm.port = 0|Farm 0 5
farm.host = ''|Farm 0 5
[role]|Role 0 4
role = [{ id = 'a' }]|Role 0 3
role = [{ id = 'a', scopes = ['b**'] }]|Role 0 5
role = [{ id = 'a', scopes = [] }, { id = 'a', scopes = [] }]|Role 1 6
role = [{ id = 'b', scopes = [] }, { id = 'a*', scopes = ['assume:aa<..>'] }]|Role 1 7
client = [{ id = 'c', token = 'werxhqb98rpaxn39848xrunp', scopes = ['a'], expires = '2030-01-01T00:00:00Z' }, { id = 'd', token = 'werxhqb98rpaxn39848xrunp', scopes = ['a'], expires = '2030-01-01T00:00:00Z', x = 1 }]|Client 1 2
client = [{ id = 'c', token = 'werxhqb98rpaxn39848xrunp', scopes = ['a'], expires = '2030-01-01T00:00:00Z' }, { id = 'd', token = 'werxhqb98rpaxn39848xrunp', scopes = ['a'], expires = 1 }]|Client 1 4
client = [{ id = 'c', token = 'werxhqb98rpaxn39848xrunp', scopes = ['a'], expires = '2030-01-01T00:00:00Z' }, { id = 'd', token = 'werxhqb98rpaxn39848xrunp', scopes = ['a'], expires = '2030-01-01T00:00:00Z', disabled = 'no' }]|Client 1 4
client = [{ id = 'c', token = 'werxhqb98rpaxn39848xrunp', scopes = ['a'], expires = '2030-01-01T00:00:00Z' }, { id = '', token = 'werxhqb98rpaxn39848xrunp', scopes = ['a'], expires = '2030-01-01T00:00:00Z' }]|Client 1 5
client = [{ id = 'c', token = 'werxhqb98rpaxn39848xrunp', scopes = ['a'], expires = '2030-01-01T00:00:00Z' }, { id = 'd', token = 'werxhqb98rpaxn39848xrunp', scopes = ['a'], expires = '2030-01-01T00:00:00' }]|Client 1 5
client = [{ id = 'c', token = 'werxhqb98rpaxn39848xrunp', scopes = ['a'], expires = '2030-01-01T00:00:00Z' }, { id = 'd', token = 'werxhqb98rpaxn39848xrunp', scopes = ['a'], expires = '2030-01-01', disabled = 1 }]|Client 1 4
client = [{ id = 'c', token = 'werxhqb98rpaxn39848xrunp', scopes = ['a'], expires = '2030-01-01T00:00:00Z' }, { id = 'c', token = 'werxhqb98rpaxn39848xrunp', scopes = ['a'], expires = '2030-01-01T00:00:00Z' }]|Client 1 6
client = [{ id = 'c' }, 1]|Client 0 3
client = [1, {}]|Client 0 4
[client]|Client 0 4
client = 1;role = [{ id = 'a*', scopes = ['assume:aa<..>'] }]|Role 0 7
client = 1;farm = 1|Farm 0 4"#;

#[test]
fn each_fault_is_found(rt: HostRuntime) -> Result<(), Fail> {
    assert_eq!(rt; first_other_fault(rt.alloc(), FAULTS)?, "none");
    Ok(())
}

/// What is told of the first fault of a file.
fn line_of(alloc: Global, bytes: &[u8]) -> Result<String, AllocError> {
    let mut cycle = Vec::new(alloc);
    match read_farm_with(alloc, bytes, &mut cycle).err() {
        Some(FileFault::Fault(fault)) => tell_fault(alloc, bytes, &fault, &cycle),
        _ => String::from_str(alloc, "no fault"),
    }
}

/// Whether this is told of the first fault of a file, or it begins so, where that ends with three dots.
fn is_told(alloc: Global, bytes: &[u8], wanted: &str) -> Result<bool, AllocError> {
    let line = line_of(alloc, bytes)?;
    Ok(match wanted.strip_suffix("...") {
        Some(front) => line.as_str().starts_with(front),
        None => line.as_str() == wanted,
    })
}

/// Whether it is told so of a row.
fn row_is_told(alloc: Global, row: &str) -> Result<bool, Fail> {
    let (text, wanted) = row.split_once('|').ok_or("a row")?;
    let bytes = file_of(alloc, text)?;
    Ok(is_told(alloc, &bytes, wanted)?)
}

/// The first of some rows whose file, before its bar, is told of otherwise than behind it, or `none`.
pub(crate) fn first_other_line(alloc: Global, rows: &str) -> Result<&str, Fail> {
    for row in rows.split('\n') {
        if !row_is_told(alloc, row)? {
            return Ok(row);
        }
    }
    Ok("none")
}

/// Files, and what is told of them.
const LINES: &str = r#"farm|line 1: not TOML: ...
[farm];port = 1;port = 2;|line 3: not TOML: ...
[farm];[role];[farm];|line 3: not TOML: ...
[farm];host = 'a;port = 1;|line 2: not TOML: ...
[farm];port = 8080;host == 1;|line 3: not TOML: ...
[farm];# ~;|line 2: not TOML: ...
[hooks]|hooks: not known: there are [farm], [[role]], [[client]] and [[hook]]
farm = 1|farm = 1: it is a table, [farm]
farm = { prot = 1 }|[farm] prot = 1: not known: the keys are host, port, claim_timeout and max_tasks
farm = { port = '80' }|[farm] port = "80": it has to be a whole number
farm = { port = 70000 }|[farm] port = 70000: a port is 1 to 65535
farm = { host = '' }|[farm] host = "": a host is 1 to 255 bytes of printable ASCII
farm = { claim_timeout = 0 }|[farm] claim_timeout = 0: a claim lasts 1 to 86400 seconds
farm = { max_tasks = -1 }|[farm] max_tasks = -1: a farm takes 1 to 1000000 tasks
farm.host = '0123456789012345678901234567890123456789012345678901234567890123456789é'|[farm] host = "012345678901234567890123456789012345678901234567890123456789"..: a host is 1 to 255 bytes of printable ASCII
[role]|role = a table: it is a list of tables, as [[role]], [[client]] and [[hook]] are
role = [1]|[[role]] row 1 = 1: a row is a table
role = [{ id = 'a', scopes = [] }, { id = 'b', scope = [] }]|[[role]] row 2 (id "b") scope = a list of 0: not known: the keys are id and scopes
role = [{ id = 'a' }]|[[role]] row 1 (id "a") scopes: it is missing
role = [{ id = 'a', scopes = ['b', 1] }]|[[role]] row 1 (id "a") scopes, item 2 = 1: it has to be a text
role = [{ id = 'a', scopes = 'b' }]|[[role]] row 1 (id "a") scopes = "b": it has to be a list of texts
role = [{ id = 'a', scopes = ['b', 'b**'] }]|[[role]] row 1 (id "a") scopes, item 2 = "b**": a scope does not end with **
role = [{ id = "\u001b[31m", scopes = [] }]|[[role]] row 1 (id "\u{1b}[31m") id = "\u{1b}[31m": an id is 1 to 4096 bytes of printable ASCII
role = [{ id = 'a', scopes = [] }, { id = 'b', scopes = [] }, { id = 'a', scopes = [] }]|[[role]] row 3 (id "a"): row 1 has this id, too
role = [{ id = 'c', scopes = [] }, { id = 'a*', scopes = ['assume:bx<..>'] }, { id = 'b*', scopes = ['assume:ax<..>'] }]|[[role]] row 2 (id "a*"): the parameters of roles go in a cycle: "a*" -> "b*" -> "a*"
role = [{ id = 'a*', scopes = ['x<..>y<..>'] }]|[[role]] row 1 (id "a*") scopes, item 1 = "x<..>y<..>": <..> stands in a scope at most once
role = [{ id = 'a*', scopes = ['x*<..>'] }]|[[role]] row 1 (id "a*") scopes, item 1 = "x*<..>": <..> does not stand behind a *
client = [{ id = 'a b', token = 't', scopes = [], expires = '2030-01-01T00:00:00Z' }]|[[client]] row 1 (id "a b") id = "a b": an id is 1 to 128 of [A-Za-z0-9!@/:.+|_-]
client = [{ id = 'c', token = 'secret', scopes = [], expires = '2030-01-01T00:00:00Z' }]|[[client]] row 1 (id "c") token of 6 bytes: a token is 22 to 66 of [A-Za-z0-9_-]
client = [{ id = 'c', token = 7, scopes = [], expires = '2030-01-01T00:00:00Z' }]|[[client]] row 1 (id "c") token: it has to be a text
client = [{ id = 'c', toke = 'secret', scopes = [], expires = '2030-01-01T00:00:00Z' }]|[[client]] row 1 (id "c") toke: not known: the keys are id, token, scopes, expires and disabled
client = [{ id = 'c', token = 'werxhqb98rpaxn39848xrunp', scopes = [], expires = '2030-01-01' }]|[[client]] row 1 (id "c") expires = "2030-01-01": it has to be a date and time with an offset, from 1970 to 9998, as 2030-01-01T00:00:00Z
client = [{ id = 'c', token = 'werxhqb98rpaxn39848xrunp', scopes = [], expires = '2030-01-01T00:00:00Z', disabled = 'no' }]|[[client]] row 1 (id "c") disabled = "no": it has to be true or false"#;

#[test]
fn faults_are_told_in_a_line(rt: HostRuntime) -> Result<(), Fail> {
    assert_eq!(rt; first_other_line(rt.alloc(), LINES)?, "none");
    Ok(())
}

/// As many rows of roles, of which each has its number as its id.
fn numbered_roles(alloc: Global, count: u32) -> Result<String, AllocError> {
    let mut rows = String::from_str(alloc, "role = [")?;
    for number in 0..count {
        let row = format!(in alloc; "{{id='{number}',scopes=[]}},")?;
        rows.push_str(&row)?;
    }
    rows.push_str("]\n")?;
    Ok(rows)
}

#[test]
fn what_is_too_long_is_told(rt: HostRuntime) -> Result<(), Fail> {
    let spaces = vec![in rt.alloc(); b' '; LONGEST_FILE + 1]?;
    let rows = numbered_roles(rt.alloc(), 10_001)?;
    let row = "[[role]] row 10001 (id \"10000\"): there may be 10000 rows";
    let told = [
        is_fault(rt.alloc(), &spaces, "File 0 9")?,
        is_told(rt.alloc(), &spaces, "it has more than 4194304 bytes")?,
        is_told(rt.alloc(), rows.as_bytes(), row)?,
    ];
    assert_eq!(rt; told, [true; 3]);
    Ok(())
}

/// How a farm is set up, and how many roles, clients and hooks it has.
fn farm_told(alloc: Global, farm: &Config) -> Result<String, AllocError> {
    format!(in alloc;
        "{} {} {} {} {} {} {}",
        farm.host.as_str(),
        farm.port,
        farm.claim_timeout,
        farm.max_tasks,
        farm.roles.len(),
        farm.clients.len(),
        farm.hooks.len()
    )
}

/// A client's token, how many scopes it has, when it expires, and whether it is disabled.
fn client_told(alloc: Global, client: &Client) -> Result<String, AllocError> {
    format!(in alloc;
        "{} {} {} {}",
        client.token.as_str(),
        client.scopes.len(),
        client.expires.millis(),
        client.disabled
    )
}

/// A hook's id, and the retries of its template.
fn hook_told(alloc: Global, hook: &Hook) -> Result<String, AllocError> {
    match hook.template.get("retries") {
        Some(Doc::Int(retries)) => format!(in alloc; "{} {}", hook.id.as_str(), *retries),
        _ => String::from_str(alloc, "no number"),
    }
}

/// The same of the client of this id, or `none`.
fn client_of(alloc: Global, farm: &Config, id: &str) -> Result<String, AllocError> {
    match farm.clients.find(id) {
        Some(client) => client_told(alloc, client),
        None => String::from_str(alloc, "none"),
    }
}

/// The same of the hook of this group and id, cut by a space, or `none`.
fn hook_of(alloc: Global, farm: &Config, name: &str) -> Result<String, AllocError> {
    let (group, id) = name.split_once(' ').unwrap_or((name, ""));
    match farm.hooks.find(group, id) {
        Some(hook) => hook_told(alloc, hook),
        None => String::from_str(alloc, "none"),
    }
}

/// What is told of a farm, or of its client or hook that is named.
fn told_of(alloc: Global, farm: &Config, what: &str) -> Result<String, AllocError> {
    let (kind, name) = what.split_once(' ').unwrap_or((what, ""));
    match kind {
        "client" => client_of(alloc, farm, name),
        "hook" => hook_of(alloc, farm, name),
        _ => farm_told(alloc, farm),
    }
}

/// The same of the farm of a file.
fn read_and_told(alloc: Global, bytes: &[u8], what: &str) -> Result<String, AllocError> {
    match read_farm(alloc, bytes) {
        Ok(farm) => {
            let told = told_of(alloc, &farm, what);
            drop(farm);
            told
        }
        Err(_) => String::from_str(alloc, "a fault"),
    }
}

/// Whether a row's file is read so: a file, what of it is asked, and what is told.
fn is_read(alloc: Global, row: &str) -> Result<bool, Fail> {
    let (text, rest) = row.split_once('|').ok_or("a file")?;
    let (what, wanted) = rest.split_once('|').ok_or("a part")?;
    let bytes = file_of(alloc, text)?;
    let told = read_and_told(alloc, &bytes, what)?;
    Ok(told.as_str() == wanted)
}

/// The first of some rows whose file is read otherwise, or `none`.
fn first_other_farm(alloc: Global, rows: &str) -> Result<&str, Fail> {
    for row in rows.split('\n') {
        if !is_read(alloc, row)? {
            return Ok(row);
        }
    }
    Ok("none")
}

/// Farms of files, by host, port, seconds of a claim, most tasks, roles, clients and hooks; a client by its token, scopes, expiry and
/// whether it is disabled; a hook by its id and its template's retries.
const FARMS: &str = r#"|farm|localhost 8080 1200 1000000 0 0 0
[farm];host = 'farm.example';port = 443;[[role]];id = 'anonymous';scopes = ['queue:*', 'queue:*'];|farm|farm.example 443 1200 1000000 1 0 0
client = [{ id = 'c', token = 'werxhqb98rpaxn39848xrunp', scopes = ['a'], expires = '2030-01-01T00:00:00Z' }, { id = 'worker/1', token = 'werxhqb98rpaxn39848xrunp', scopes = ['a'], expires = '2001-09-09T01:46:40.123+00:00', disabled = true }]|farm|localhost 8080 1200 1000000 0 2 0
client = [{ id = 'c', token = 'werxhqb98rpaxn39848xrunp', scopes = ['a'], expires = '2030-01-01T00:00:00Z' }, { id = 'worker/1', token = 'werxhqb98rpaxn39848xrunp', scopes = ['a'], expires = '2001-09-09T01:46:40.123+00:00', disabled = true }]|client worker/1|werxhqb98rpaxn39848xrunp 1 1000000000123 true
hook = [{ group = 'g', id = 'i', task = '{}' }, { group = 'nightly', id = 'builds/linux', task = '{"priority": "high", "retries": 3}' }]|farm|localhost 8080 1200 1000000 0 0 2
hook = [{ group = 'g', id = 'i', task = '{}' }, { group = 'nightly', id = 'builds/linux', task = '{"priority": "high", "retries": 3}' }]|hook nightly builds|none
hook = [{ group = 'g', id = 'i', task = '{}' }, { group = 'nightly', id = 'builds/linux', task = '{"priority": "high", "retries": 3}' }]|hook nightly builds/linux|builds/linux 3"#;

#[test]
fn files_are_read(rt: HostRuntime) -> Result<(), Fail> {
    assert_eq!(rt; first_other_farm(rt.alloc(), FARMS)?, "none");
    Ok(())
}
