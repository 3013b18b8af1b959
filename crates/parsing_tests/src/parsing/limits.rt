//! How deep and how long texts may be.
use super::fault;
use jsone_expr::ParseFault;
use std::alloc::{AllocError, Global};

/// The middle between as many of the one as of the other.
fn nested(
    alloc: Global,
    count: usize,
    open: &str,
    middle: &str,
    close: &str,
) -> Result<Vec<u8>, AllocError> {
    let mut text = Vec::new(alloc);
    for _ in 0..count {
        text.extend_from_slice(open.as_bytes())?;
    }
    text.extend_from_slice(middle.as_bytes())?;
    for _ in 0..count {
        text.extend_from_slice(close.as_bytes())?;
    }
    Ok(text)
}

/// Whether such a text has this fault, or none.
fn is_nested(
    alloc: Global,
    count: usize,
    (open, middle, close): (&str, &str, &str),
    wanted: Option<ParseFault>,
) -> bool {
    match nested(alloc, count, open, middle, close) {
        Ok(text) => fault(alloc, &text) == wanted,
        Err(_) => false,
    }
}

/// The parts of a row, which bars cut: what opens, the middle, what closes, and what is left.
fn parts(row: &str) -> Option<((&str, &str, &str), &str)> {
    let (open, rest) = row.split_once('|')?;
    let (middle, rest) = rest.split_once('|')?;
    let (close, rest) = rest.split_once('|')?;
    Some(((open, middle, close), rest))
}

/// Whether the text of a row is a tree with 63 of its parts, and too deep with 64.
fn is_limit(alloc: Global, row: &str) -> bool {
    match parts(row) {
        Some((parts, _)) => {
            is_nested(alloc, 63, parts, None)
                && is_nested(alloc, 64, parts, Some(ParseFault::TooDeep))
        }
        None => false,
    }
}

/// What opens, the middle and what closes.
const DEEP: &str = "(|1|)|
-|1||
[|1|]|
{a:|1|}|
min(1,|1|)|
|a|.b|
|a|[0]|
a[|0|]|
a[:|0|]|
a[|0|:]|
1**|1||
|1|+1|";

#[test]
fn a_tree_is_at_most_64_deep(rt: HostRuntime) {
    for row in DEEP.lines() {
        assert!(rt; is_limit(rt.alloc(), row), "{row}");
    }
}

/// The fault that a word stands for: that a text is too deep, or the place where it goes wrong.
fn fault_of(word: &str) -> Option<ParseFault> {
    match word.parse::<usize>() {
        Ok(place) => Some(ParseFault::Syntax(place)),
        Err(_) if word == "too deep" => Some(ParseFault::TooDeep),
        Err(_) => None,
    }
}

/// Whether the text of a row ends so with a million of its parts.
fn ends(alloc: Global, row: &str) -> bool {
    match parts(row) {
        Some((parts, wanted)) => is_nested(alloc, 1_000_000, parts, fault_of(wanted)),
        None => false,
    }
}

/// The same, and the fault, or `tree`.
const LONG: &str = "(|||1000000
[|||1000000
|1| |tree
a|||tree
'|||2";

const LONG_AND_DEEP: &str = "-|1||too deep
(|1|)|too deep
|[1|,1|2000002";

/// A million bytes of one kind end in time and without a deep stack.
#[test]
fn long_texts_end(rt: HostRuntime) {
    for row in LONG.lines() {
        assert!(rt; ends(rt.alloc(), row), "{row}");
    }
}

#[test]
fn long_and_deep_texts_end(rt: HostRuntime) {
    for row in LONG_AND_DEEP.lines() {
        assert!(rt; ends(rt.alloc(), row), "{row}");
    }
}
