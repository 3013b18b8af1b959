//! Documents that are made, copied, read and written again.
ghost use Rattle.std.specs.Prelude.{◌≡◌, [], ◌∷◌, IfOk, codes};
ghost use Rattle.farm_text.specs.Document.{object, members_of, text};
ghost use Rattle.farm_text.specs.Doc.{document};

use farm_text::{Doc, Entries, ReadFault, Text};
use std::alloc::{AllocError, Global};

fn details(alloc: Global, kind: &str, name: &str) -> Result<Doc, AllocError>
    ensures { IfOk result (λ d. document d
        ≡ object (members_of ((codes "kind", text kind.now) ∷ (codes "name", text name.now) ∷ []))) }
{
    let name = Doc::text(alloc, name)?;
    let entries = Entries::new(alloc).with(alloc, "name", name)?;
    let kind = match Doc::text(alloc, kind) {
        Ok(kind) => kind,
        Err(error) => {
            drop(entries);
            return Err(error);
        }
    };
    let entries = entries.with(alloc, "kind", kind)?;
    Ok(entries.into_doc())
}

fn not_found(alloc: Global, kind: &str, name: &str) -> Result<Doc, AllocError>
    ensures { IfOk result (λ d. document d
        ≡ object (members_of ((codes "code", text (codes "ResourceNotFound"))
        ∷ (codes "details", object (members_of ((codes "kind", text kind.now) ∷ (codes "name", text name.now) ∷ [])))
        ∷ (codes "message", text (codes "There is none.")) ∷ []))) }
{
    let code = Doc::text(alloc, "ResourceNotFound")?;
    let entries = Entries::new(alloc).with(alloc, "code", code)?;
    let message = match Doc::text(alloc, "There is none.") {
        Ok(message) => message,
        Err(error) => {
            drop(entries);
            return Err(error);
        }
    };
    let entries = entries.with(alloc, "message", message)?;
    let details = match details(alloc, kind, name) {
        Ok(details) => details,
        Err(error) => {
            drop(entries);
            return Err(error);
        }
    };
    let entries = entries.with(alloc, "details", details)?;
    Ok(entries.into_doc())
}

/// Whether this document is written so.
fn is_written(alloc: Global, document: &Doc, wanted: &str) -> bool {
    match document.write(alloc) {
        Ok(text) => text.as_str() == wanted,
        Err(_) => false,
    }
}

/// Whether the reply to this name is written so.
fn is_reply(alloc: Global, name: &str, wanted: &str) -> bool {
    match not_found(alloc, "task", name) {
        Ok(reply) => {
            let is_so = is_written(alloc, &reply, wanted);
            drop(reply);
            is_so
        }
        Err(_) => false,
    }
}

#[test]
fn a_reply(rt: HostRuntime) {
    let wanted =
        "{\"code\":\"ResourceNotFound\",\"details\":{\"kind\":\"task\",\"name\":\"a\\\"b\\\\\\n\\u0001é\"},\"message\":\"There is none.\"}";
    let told = [
        is_reply(rt.alloc(), "a\"b\\\n\u{1}é", wanted),
        is_reply(rt.alloc(), "other", wanted),
    ];
    assert_eq!(rt; told, [true, false]);
}

fn list(alloc: Global) -> Result<Doc, AllocError> {
    let empty = Doc::text(alloc, "")?;
    let items = vec![in alloc; Doc::Null, Doc::Bool(true), Doc::Int(-7), empty]?;
    Ok(Doc::List(items))
}

/// Whether the copy of this document is written so.
fn is_copied(alloc: Global, document: &Doc, wanted: &str) -> bool {
    match document.clone() {
        Ok(copy) => {
            let is_so = is_written(alloc, &copy, wanted);
            drop(copy);
            is_so
        }
        Err(_) => false,
    }
}

/// Whether the copy of a list is written so.
fn is_list_copied(alloc: Global, wanted: &str) -> bool {
    match list(alloc) {
        Ok(document) => {
            let is_so = is_copied(alloc, &document, wanted);
            drop(document);
            is_so
        }
        Err(_) => false,
    }
}

#[test]
fn documents(rt: HostRuntime) {
    assert!(rt; is_list_copied(rt.alloc(), "[null,true,-7,\"\"]"));
}

// The document that the bytes are, written again, or why they are none.
fn outcome(alloc: Global, bytes: &[u8]) -> Result<Text, AllocError> {
    match Doc::read(alloc, bytes) {
        Ok(document) => {
            let text = document.write(alloc);
            drop(document);
            text
        }
        Err(ReadFault::NotJson) => Text::from_str(alloc, "no JSON"),
        Err(ReadFault::NotWhole(path)) => Ok(path),
        Err(ReadFault::NoMemory) => Err(AllocError),
    }
}

// Lists inside each other.
fn nested(alloc: Global, depth: usize) -> Result<Vec<u8>, AllocError> {
    let mut text = Vec::new(alloc);
    for _ in 0..depth {
        text.push(b'[')?;
    }
    for _ in 0..depth {
        text.push(b']')?;
    }
    Ok(text)
}

/// Whether bytes are read and written again so.
fn is_read(alloc: Global, bytes: &[u8], wanted: &[u8]) -> bool {
    match outcome(alloc, bytes) {
        Ok(found) => found.as_bytes() == wanted,
        Err(_) => false,
    }
}

/// Whether the text before a row's bar is read and written again as the one after it.
fn is_row(alloc: Global, row: &str) -> bool {
    match row.split_once('|') {
        Some((text, wanted)) => is_read(alloc, text.as_bytes(), wanted.as_bytes()),
        None => false,
    }
}

/// What is read, and what it is written as again, or where its first number that is not whole stands, or `no JSON`.
/// The last value of a key stays, and what it replaces is not judged.
const READ: &str = r#" [ true , null ] |[true,null]
{"b":[0,-1],"a":{"k":"v"}}|{"a":{"k":"v"},"b":[0,-1]}
9223372036854775807|9223372036854775807
-9223372036854775808|-9223372036854775808
"\u00e9\n"|"é\n"
{"a":1,"a":2}|{"a":2}
{"a":1.5,"a":2}|{"a":2}
{"payload":{"a":1.5}}|/payload/a
{"b":1.5,"a":[0,2.5]}|/a/1
[0,{"a~b/c":[1.0]},2.5]|/1/a~0b~1c/0
{"é~":0.5}|/é~0
{"":[[],1e3]}|//1
[-0]|/0
[9223372036854775808]|/0
[-9223372036854775809]|/0
[18446744073709551616]|/0
1e400|no JSON
[1,]|no JSON
{"a":1.5|no JSON
01|no JSON
"\ud800"|no JSON
|no JSON"#;

#[test]
fn documents_are_read(rt: HostRuntime) {
    for row in READ.split('\n') {
        assert!(rt; is_row(rt.alloc(), row), "{row}");
    }
    let told = [
        is_row(rt.alloc(), "01|1"),
        is_read(rt.alloc(), b"\"\xff\"", b"no JSON"),
    ];
    assert_eq!(rt; told, [false, true]);
}

/// Whether lists inside each other are read and written again as they are.
fn is_nested(alloc: Global, depth: usize) -> bool {
    match nested(alloc, depth) {
        Ok(text) => is_read(alloc, &text, &text),
        Err(_) => false,
    }
}

/// Whether lists inside each other are no JSON.
fn is_too_deep(alloc: Global, depth: usize) -> bool {
    match nested(alloc, depth) {
        Ok(text) => is_read(alloc, &text, b"no JSON"),
        Err(_) => false,
    }
}

#[test]
fn documents_nest(rt: HostRuntime) {
    let told = [is_nested(rt.alloc(), 127), is_too_deep(rt.alloc(), 128)];
    assert_eq!(rt; told, [true; 2]);
}

/// Whether `a` is a map with 7 at `b` and nothing at `a`.
fn holds_seven(document: &Doc) -> bool {
    match document.get("a") {
        Some(inner) => { matches!(inner.get("b"), Some(Doc::Int(7))) && inner.get("a").is_none() }
        None => false,
    }
}

/// Whether the document that a text is holds it.
fn is_of_seven(alloc: Global, text: &str) -> bool {
    match Doc::read(alloc, text.as_bytes()) {
        Ok(document) => {
            let is_so = holds_seven(&document);
            drop(document);
            is_so
        }
        Err(_) => false,
    }
}

#[test]
fn keys_are_found(rt: HostRuntime) {
    let told = [
        is_of_seven(rt.alloc(), r#"{"a":{"b":7}}"#),
        is_of_seven(rt.alloc(), r#"{"a":{"a":7,"b":7}}"#),
        is_of_seven(rt.alloc(), r#"{"a":{"b":8}}"#),
    ];
    assert_eq!(rt; told, [true, false, false]);
    let null = Doc::Null;
    assert!(rt; null.get("a").is_none());
    drop(null);
}
