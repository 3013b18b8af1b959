//! Slices of lists and texts.
ghost use Rattle.std.specs.Prelude.{◌≡◌, IfOk, Ok, Err, string_bytes, encode_utf8_all};
ghost use Rattle.std.specs.Str.{chars};
ghost use Rattle.farm_text.specs.Doc.{document, documents};
ghost use Rattle.jsone_values.specs.declared.faults.Fault.{Fault};
ghost use Rattle.jsone_values.specs.Slices.{start_of, end_of, between, slice_of};

use crate::faults::{Fault, Stop};
use crate::places::cut_of;
use crate::texts::{chars_between, count_of};
use farm_text::{Doc, Text};
use std::alloc::{AllocError, Global};

fn start_of(from: Option<i64>, count: usize) -> usize
    ensures { result ≡ start_of from count }
{
    match from {
        Some(index) => cut_of(index, count),
        None => 0,
    }
}

fn end_of(to: Option<i64>, count: usize) -> usize
    ensures { result ≡ end_of to count }
{
    match to {
        Some(index) => cut_of(index, count),
        None => count,
    }
}

fn copies(alloc: Global, items: &[Doc]) -> Result<Vec<Doc>, AllocError>
    ensures { IfOk result (λ v. documents v.items ≡ documents items.now) }
{
    let mut copies = Vec::new(alloc);
    for item in items {
        copies.push(item.clone()?)?;
    }
    Ok(copies)
}

fn items_between(
    alloc: Global,
    items: &[Doc],
    from: Option<i64>,
    to: Option<i64>,
) -> Result<Vec<Doc>, AllocError>
    ensures { IfOk result (λ v. documents v.items ≡ between from to (documents items.now)) }
{
    let start = start_of(from, items.len());
    let end = end_of(to, items.len());
    if start < end && end <= items.len() {
        copies(alloc, &items[start..end])
    } else {
        Ok(Vec::new(alloc))
    }
}

fn text_between(
    alloc: Global,
    text: &str,
    from: Option<i64>,
    to: Option<i64>,
) -> Result<String, AllocError>
    ensures { IfOk result (λ part. string_bytes part ≡ encode_utf8_all (between from to (chars text.now))) }
{
    let count = count_of(text);
    chars_between(alloc, text, start_of(from, count), end_of(to, count))
}

/// The part of a list or a text between two places; a side that is absent is an end.
pub fn slice_of(alloc: Global, value: &Doc, from: Option<i64>, to: Option<i64>) -> Result<Doc, Stop>
    ensures value { IfOk result (λ part. slice_of from to (document value.now) ≡ Ok (document part)) }
    ensures fault { (fault : Fault) → result ≡ Err (Stop.Fault fault) → slice_of from to (document value.now) ≡ Err fault }
{
    match value {
        Doc::List(items) => match items_between(alloc, items, from, to) {
            Ok(part) => Ok(Doc::List(part)),
            Err(_) => Err(Stop::NoMemory),
        },
        Doc::Text(text) => match text_between(alloc, text.as_str(), from, to) {
            Ok(part) => Ok(Doc::Text(Text::from_string(part))),
            Err(_) => Err(Stop::NoMemory),
        },
        _ => Err(Stop::Fault(Fault::WrongKind)),
    }
}
