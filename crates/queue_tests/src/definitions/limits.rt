//! Definitions at their limits, and one past them.
use farm_text::Doc;
use std::alloc::{AllocError, Global};

/// Adds so many texts, each a number of four digits and this tail, with commas between them.
fn add_texts(alloc: Global, member: &mut String, count: u16, tail: &str) -> Result<(), AllocError> {
    for n in 0..count {
        let comma = if n == 0 { "" } else { "," };
        member.push_str(format!(in alloc; "{}\"{:04}{}\"", comma, n, tail)?.as_str())?;
    }
    Ok(())
}

/// A key with a list of so many such texts, as a member.
fn list(alloc: Global, key: &str, count: u16, tail: &str) -> Result<String, AllocError> {
    let mut member = format!(in alloc; ",\"{key}\":[")?;
    add_texts(alloc, &mut member, count, tail)?;
    member.push_str("]")?;
    Ok(member)
}

/// A key with a list of so many texts of so many bytes, as a member.
fn texts(alloc: Global, key: &str, count: u16, len: usize) -> Result<String, AllocError> {
    let tail = "x".repeat(alloc, len.saturating_sub(4))?;
    list(alloc, key, count, tail.as_str())
}

/// A map with so many lists inside each other.
fn lists(alloc: Global, depth: usize) -> Result<String, AllocError> {
    let open = "[".repeat(alloc, depth)?;
    let close = "]".repeat(alloc, depth)?;
    format!(in alloc; "{{\"a\":{}{}}}", open.as_str(), close.as_str())
}

/// The document that a text is, if it is one.
fn document(alloc: Global, text: &str) -> Option<Doc> {
    Doc::read(alloc, text.as_bytes()).ok()
}

/// The map with so many lists inside each other, as a document.
fn deep(alloc: Global, depth: usize) -> Option<Doc> {
    match lists(alloc, depth) {
        Ok(map) => document(alloc, map.as_str()),
        Err(_) => None,
    }
}

/// Gives the definition this payload, and says whether it could.
fn pay(definition: &mut Doc, key: String, payload: Doc) -> bool {
    match definition {
        Doc::Map(members) => {
            let before = members.insert(key, payload);
            let is_paid = before.is_ok();
            drop(before);
            is_paid
        }
        _ => {
            drop(payload);
            false
        }
    }
}

/// Gives the definition a payload that has so many lists inside each other.
fn pay_deep(alloc: Global, definition: &mut Doc, depth: usize) -> Option<bool> {
    let key = String::from_str(alloc, "payload").ok()?;
    let payload = deep(alloc, depth)?;
    Some(pay(definition, key, payload))
}

/// Whether a definition with such a payload has this outcome.
fn pays_so(alloc: Global, definition: &mut Doc, depth: usize, wanted: &str) -> bool {
    match pay_deep(alloc, definition, depth) {
        Some(true) => super::tells(alloc, definition, wanted),
        _ => false,
    }
}

/// Whether the smallest definition with such a payload has this outcome. The definition is one map, the payload another.
fn is_deep(alloc: Global, depth: usize, wanted: &str) -> bool {
    match document(alloc, super::PLAIN_IN_FULL) {
        Some(mut definition) => {
            let is_so = pays_so(alloc, &mut definition, depth, wanted);
            drop(definition);
            is_so
        }
        None => false,
    }
}

/// Whether the map with so many lists inside each other is no document.
fn is_none(alloc: Global, depth: usize) -> bool {
    match deep(alloc, depth) {
        Some(document) => {
            drop(document);
            false
        }
        None => true,
    }
}

/// A payload with one text of so many bytes, as a member.
fn long(alloc: Global, len: usize) -> Result<String, AllocError> {
    let text = "x".repeat(alloc, len)?;
    format!(in alloc; ",\"payload\":{{\"a\":\"{}\"}}", text.as_str())
}

/// A key, a number of its values and the bytes of each, as a member: dependencies, a payload of one text, or texts.
fn member(alloc: Global, key: &str, count: u16, len: usize) -> Result<String, AllocError> {
    match key {
        "dependencies" => list(alloc, key, count, "AAAAQACAAAAAAAAAAA"),
        "payload" => long(alloc, len),
        _ => texts(alloc, key, count, len),
    }
}

/// Whether the smallest definition with such a member has this outcome.
fn is_so(alloc: Global, wanted: &str, key: &str, count: u16, len: usize) -> bool {
    match member(alloc, key, count, len) {
        Ok(member) => super::has_outcome(alloc, wanted, member.as_str()),
        Err(_) => false,
    }
}

/// Whether the member of a row has the outcome that stands before its bar.
fn is_row(alloc: Global, row: &str) -> Option<bool> {
    let (wanted, rest) = row.split_once('|')?;
    let (key, rest) = rest.split_once(' ')?;
    let (count, len) = rest.split_once(' ')?;
    let count = count.parse::<u16>().ok()?;
    let len = len.parse::<usize>().ok()?;
    Some(is_so(alloc, wanted, key, count, len))
}

/// An outcome, and the key for it, how many values it has and how many bytes each.
const LIMITS: &str = "ok|routes 64 249
7 routes|routes 65 4
7 routes|routes 1 250
ok|scopes 1000 30
13 scopes|scopes 1001 4
ok|scopes 1 4096
13 scopes|scopes 1 4097
ok|dependencies 100 22
5 dependencies|dependencies 101 22";

#[test]
fn so_many(rt: HostRuntime) {
    for row in LIMITS.lines() {
        assert!(rt; is_row(rt.alloc(), row) == Some(true), "{row}");
    }
}

/// The smallest definition has 487 bytes in full form, and 493 with the member `"a":""` in its payload, so 8,388,115 bytes are left.
#[test]
fn so_long(rt: HostRuntime) {
    let told = [
        super::PLAIN_IN_FULL.len() == 487,
        is_so(rt.alloc(), "ok", "payload", 1, 8_388_115),
        is_so(rt.alloc(), "14 ", "payload", 1, 8_388_116),
    ];
    assert_eq!(rt; told, [true; 3]);
}

/// No document that is read nests deeper than 127.
#[test]
fn so_deep(rt: HostRuntime) {
    let told = [
        is_deep(rt.alloc(), 125, "ok"),
        is_deep(rt.alloc(), 126, "1 payload"),
        is_none(rt.alloc(), 126),
        is_none(rt.alloc(), 127),
    ];
    assert_eq!(rt; told, [true, true, false, true]);
}
