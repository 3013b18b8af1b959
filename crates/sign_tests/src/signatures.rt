use farm_text::{Moment, Text};
use hawk_auth::{AuthFault, AuthHead, BookFault, Client, ClientBook, Parts, sign};
use role_expand::{Role, RoleSet};
use scope_sets::{Expr, Scope, ScopeSet};
use std::alloc::Global;

mod headers;
mod refusals;
mod vectors;

const TOKEN: &str = "werxhqb98rpaxn39848xrunpaw3489ruxnpa98w4rxn";

/// Hawk's own example ("Protocol Example" of its API page), signed at second 1353832234.
const SIGNED: &str =
    "Hawk id=\"dh37fgj492je\", ts=\"1353832234\", nonce=\"j4h3g2\", ext=\"some-app-ext-data\", mac=\"6R4rV5iE+NPoym+WwjeHzjAGXUtLNIxmo1vpMofpLAE=\"";

/// The same with another MAC.
const FORGED: &str =
    "Hawk id=\"dh37fgj492je\", ts=\"1353832234\", nonce=\"j4h3g2\", ext=\"some-app-ext-data\", mac=\"7R4rV5iE+NPoym+WwjeHzjAGXUtLNIxmo1vpMofpLAE=\"";

fn example_parts() -> Parts<'static> {
    Parts {
        id: "dh37fgj492je",
        token: TOKEN,
        ts: "1353832234",
        nonce: "j4h3g2",
        method: b"get",
        target: b"/resource/1?b=1&a=2",
        host: "EXAMPLE.com",
        port: 8000,
        hash: None,
        ext: Some("some-app-ext-data"),
    }
}

fn example_head(header: &str) -> AuthHead<'_> {
    AuthHead {
        header: Some(header.as_bytes()),
        count: 1,
        method: b"GET",
        target: b"/resource/1?b=1&a=2",
        content_type: None,
        body: b"",
        host: "example.com",
        port: 8000,
    }
}

/// The list of one scope. Here and below `None` is want of memory, or a text that is off its form.
fn scopes(alloc: Global, text: &str) -> Option<Vec<Scope>> {
    match String::from_str(alloc, text) {
        Ok(text) => one_scope(alloc, Scope::new(text)?),
        Err(_) => None,
    }
}

fn one_scope(alloc: Global, scope: Scope) -> Option<Vec<Scope>> {
    Vec::from_array(alloc, [scope]).ok()
}

/// A client with the token of Hawk's example and the scope `a`.
fn client_of(alloc: Global, id: &str, expires: Moment, disabled: bool) -> Option<Client> {
    let id = Text::from_str(alloc, id).ok()?;
    let token = Text::from_str(alloc, TOKEN).ok()?;
    match scopes(alloc, "a") {
        Some(scopes) => Some(Client {
            id,
            token,
            scopes,
            expires,
            disabled,
        }),
        None => None,
    }
}

fn role_of(alloc: Global, id: &str, scope: &str) -> Option<Role> {
    let id = String::from_str(alloc, id).ok()?;
    match scopes(alloc, scope) {
        Some(scopes) => Some(Role { id, scopes }),
        None => None,
    }
}

/// No roles but one that gives `two` to whoever gives no credentials.
fn roles(alloc: Global) -> Option<RoleSet> {
    let role = role_of(alloc, "anonymous", "two")?;
    let roles = Vec::from_array(alloc, [role]).ok()?;
    RoleSet::build(alloc, roles).ok()
}

/// The one client of a book: its id, when it expires and whether it is disabled; and the milliseconds of a check.
#[derive(Clone, Copy)]
struct Known<'a> {
    id: &'a str,
    expires: u64,
    disabled: bool,
    now: u64,
}

/// The book of one such client.
fn book_of(alloc: Global, known: Known) -> Option<ClientBook> {
    let expires = Moment::from_millis(known.expires)?;
    let client = client_of(alloc, known.id, expires, known.disabled)?;
    let clients = Vec::from_array(alloc, [client]).ok()?;
    ClientBook::build(alloc, clients).ok()
}

/// Whether the check of a request answers so. Here and in `answers_at` alone a book, roles and an answer are owned.
fn answers(alloc: Global, known: Known, head: &AuthHead, wanted: &str) -> bool {
    match book_of(alloc, known) {
        Some(book) => {
            let is_so = book_answers(alloc, &book, head, known.now, wanted);
            drop(book);
            is_so
        }
        None => false,
    }
}

fn book_answers(alloc: Global, book: &ClientBook, head: &AuthHead, now: u64, wanted: &str) -> bool {
    match Moment::from_millis(now) {
        Some(now) => answers_at(alloc, book, head, now, wanted),
        None => false,
    }
}

fn answers_at(
    alloc: Global,
    book: &ClientBook,
    head: &AuthHead,
    now: Moment,
    wanted: &str,
) -> bool {
    match roles(alloc) {
        Some(roles) => {
            let access = book.check(alloc, &roles, head, now);
            let is_so = is_answer(&access, wanted);
            drop(access);
            drop(roles);
            is_so
        }
        None => false,
    }
}

/// Whether an answer is this one: `let in`, with the number of scopes where it is told; the name of a fault, with the seconds that are too
/// far apart, or the one scope that is missing.
fn is_answer(access: &Result<ScopeSet, AuthFault>, wanted: &str) -> bool {
    match access {
        Ok(set) => match wanted.strip_prefix("let in ") {
            Some(count) => count.parse::<usize>().ok() == Some(set.list().len()),
            None => wanted == "let in",
        },
        Err(AuthFault::Skew { ts, now }) => is_skew(*ts, *now, wanted),
        Err(AuthFault::Oversteps(missing)) => is_lack(missing, wanted),
        Err(fault) => name_of(fault) == wanted,
    }
}

fn is_skew(of_header: u64, of_moment: u64, wanted: &str) -> bool {
    let seconds = wanted.strip_prefix("Skew ").unwrap_or(wanted);
    match seconds.split_once(' ') {
        Some((ts, now)) => {
            ts.parse::<u64>().ok() == Some(of_header) && now.parse::<u64>().ok() == Some(of_moment)
        }
        None => false,
    }
}

fn is_lack(missing: &Expr, wanted: &str) -> bool {
    match missing {
        Expr::AllOf(members) => match members.as_slice() {
            [Expr::One(scope)] => wanted.strip_prefix("Oversteps ") == Some(scope.as_str()),
            _ => false,
        },
        _ => false,
    }
}

fn name_of(fault: &AuthFault) -> &'static str {
    match fault {
        AuthFault::BadHeader => "BadHeader",
        AuthFault::UnknownClient => "UnknownClient",
        AuthFault::Disabled => "Disabled",
        AuthFault::Expired => "Expired",
        AuthFault::Skew { .. } => "Skew",
        AuthFault::BadMac => "BadMac",
        AuthFault::BadHash => "BadHash",
        AuthFault::BadExt => "BadExt",
        AuthFault::Oversteps(_) => "Oversteps",
        AuthFault::TooMany => "TooMany",
        AuthFault::NoMemory => "NoMemory",
    }
}

/// Whether the check of Hawk's example answers so, of a client that expires a millisecond after the moment.
fn example(alloc: Global, header: &str, millis: u64, disabled: bool, wanted: &str) -> bool {
    let known = Known {
        id: "dh37fgj492je",
        expires: millis.saturating_add(1),
        disabled,
        now: millis,
    };
    answers(alloc, known, &example_head(header), wanted)
}

fn is_example_signed(alloc: Global, wanted: &str) -> bool {
    match sign(alloc, &example_parts()) {
        Ok(text) => text.as_str() == wanted,
        Err(_) => false,
    }
}

/// Whether the example or the forged one, at a moment, of a client that is enabled or not, is answered so; or not, where `not` stands.
fn is_checked(alloc: Global, row: &str) -> bool {
    match row.split_once('|') {
        Some((asked, wanted)) => match wanted.strip_prefix("not ") {
            Some(other) => is_example(alloc, asked, other) == Some(false),
            None => is_example(alloc, asked, wanted) == Some(true),
        },
        None => false,
    }
}

fn is_example(alloc: Global, asked: &str, wanted: &str) -> Option<bool> {
    let (header, rest) = asked.split_once(' ')?;
    let (millis, state) = rest.split_once(' ')?;
    let header = if header == "forged" { FORGED } else { SIGNED };
    let millis = millis.parse::<u64>().ok()?;
    Some(example(alloc, header, millis, state == "disabled", wanted))
}

const CHECKED: &str = "signed 1353832234000 enabled|BadExt
signed 1353833134999 enabled|BadExt
signed 1353833135000 enabled|Skew 1353832234 1353833135
signed 1353833135000 enabled|not Skew 1353832234 1353833134
forged 1353832234000 enabled|BadMac
forged 1353832234000 disabled|Disabled";

#[test]
fn example_is_checked(rt: HostRuntime) {
    assert!(rt; is_example_signed(rt.alloc(), SIGNED));
    for row in CHECKED.lines() {
        assert!(rt; is_checked(rt.alloc(), row), "{row}");
    }
}

fn asks_for_all() -> Parts<'static> {
    Parts {
        id: "c",
        token: TOKEN,
        ts: "1000",
        nonce: "n",
        method: b"GET",
        target: b"/",
        host: "farm",
        port: 80,
        hash: None,
        ext: Some("eyJhdXRob3JpemVkU2NvcGVzIjpbIioiXX0="),
    }
}

/// Whether whoever sends this header so many times, at second 1000, is answered so of a book of client `c`, which expires at second 2000.
fn sent(alloc: Global, header: Option<&[u8]>, count: usize, wanted: &str) -> bool {
    let known = Known {
        id: "c",
        expires: 2_000_000,
        disabled: false,
        now: 1_000_000,
    };
    let head = AuthHead {
        header,
        count,
        method: b"GET",
        target: b"/",
        content_type: None,
        body: b"",
        host: "farm",
        port: 80,
    };
    answers(alloc, known, &head, wanted)
}

/// Whether a client who asks for all is answered so.
fn for_all(alloc: Global, wanted: &str) -> bool {
    match sign(alloc, &asks_for_all()) {
        Ok(header) => sent(alloc, Some(header.as_str().as_bytes()), 1, wanted),
        Err(_) => false,
    }
}

#[test]
fn credentials(rt: HostRuntime) {
    let told = [
        for_all(rt.alloc(), "Oversteps *"),
        for_all(rt.alloc(), "Oversteps a"),
        sent(rt.alloc(), None, 0, "let in 2"),
        sent(rt.alloc(), Some(SIGNED.as_bytes()), 2, "BadHeader"),
        sent(rt.alloc(), Some(SIGNED.as_bytes()), 1, "UnknownClient"),
    ];
    assert_eq!(rt; told, [true, false, true, true, true]);
}

fn clients_of(alloc: Global, ids: &str) -> Option<Vec<Client>> {
    let mut clients = Vec::new(alloc);
    match add_clients(alloc, &mut clients, ids) {
        Some(()) => Some(clients),
        None => {
            drop(clients);
            None
        }
    }
}

fn add_clients(alloc: Global, clients: &mut Vec<Client>, ids: &str) -> Option<()> {
    for id in ids.split(',') {
        clients
            .push(client_of(alloc, id, Moment::FIRST, false)?)
            .ok()?;
    }
    Some(())
}

/// Whether a book of clients with these ids, which commas cut, is built, or refused so.
fn is_book(alloc: Global, ids: &str, wanted: Option<BookFault>) -> bool {
    match clients_of(alloc, ids) {
        Some(clients) => ClientBook::build(alloc, clients).err() == wanted,
        None => false,
    }
}

#[test]
fn books(rt: HostRuntime) {
    let told = [
        is_book(rt.alloc(), "a,b/@!:.+|_-9", None),
        is_book(
            rt.alloc(),
            "a,b,a,b",
            Some(BookFault::DuplicateClient(0, 2)),
        ),
        is_book(rt.alloc(), "a,a,b c", Some(BookFault::BadClient(2))),
    ];
    assert_eq!(rt; told, [true; 3]);
}
