//! What an index and a slice give, by values of any kind.
ghost use Rattle.std.specs.Prelude.{◌≡◌, IfOk, MatchResult, Ok, Err, option_map};
ghost use Rattle.farm_text.specs.Document.{text as plain};
ghost use Rattle.farm_text.specs.Doc.{document};
ghost use Rattle.std.specs.Char.{encode_utf8};
ghost use Rattle.jsone_values.specs.Indexes.{at_place, indexed, side_of, sliced};
ghost use Rattle.jsone_values.specs.Members.{member_of, item_of};
ghost use Rattle.jsone_values.specs.Meets.{Meets};

use crate::faults::{Fault, Stop};
use crate::members::{item_of, member_of};
use crate::places::place_of;
use crate::slices::slice_of;
use crate::texts::{char_at, count_of};
use farm_text::{Doc, Text};
use std::alloc::{AllocError, Global};

/// A text of one character.
pub(crate) fn of_character(alloc: Global, character: char) -> Result<Doc, AllocError>
    ensures { IfOk result (λ d. document d ≡ plain (encode_utf8 character)) }
{
    let mut text = String::new(alloc);
    text.push(character)?;
    Ok(Doc::Text(Text::from_string(text)))
}

/// The character of a text at an index.
fn character_of(alloc: Global, text: &str, index: i64) -> Result<Doc, Stop>
    ensures { Meets (λ r. r ≡ at_place index (plain text.now)) result }
{
    match place_of(index, count_of(text)) {
        Some(place) => match char_at(text, place) {
            Some(character) => match of_character(alloc, character) {
                Ok(value) => Ok(value),
                Err(_) => Err(Stop::NoMemory),
            },
            None => Err(Stop::Fault(Fault::NoMember)),
        },
        None => Err(Stop::Fault(Fault::NoMember)),
    }
}

/// A copy of what was found.
fn copied(found: Result<&Doc, Fault>) -> Result<Doc, Stop>
    ensures { MatchResult found.entry
        (λ d. Meets (λ r. r ≡ Ok (document d.now)) result)
        (λ fault. result ≡ Err (Stop.Fault fault)) }
{
    match found {
        Ok(value) => match value.clone() {
            Ok(copy) => Ok(copy),
            Err(_) => Err(Stop::NoMemory),
        },
        Err(fault) => Err(Stop::Fault(fault)),
    }
}

/// What a map has at the key.
pub fn copied_member(value: &Doc, key: &str) -> Result<Doc, Stop>
    ensures { Meets (λ r. r ≡ member_of key.now (document value.now)) result }
{
    copied(member_of(value, key))
}

fn copied_item(value: &Doc, index: i64) -> Result<Doc, Stop>
    ensures { Meets (λ r. r ≡ item_of index (document value.now)) result }
{
    copied(item_of(value, index))
}

/// `value[index]`: an item of a list, a character of a text, or what a map has at a key.
pub fn index_of(alloc: Global, value: &Doc, index: &Doc) -> Result<Doc, Stop>
    ensures { Meets (λ r. r ≡ indexed (document value.now) (document index.now)) result }
{
    match (value, index) {
        (Doc::Text(text), Doc::Int(index)) => character_of(alloc, text.as_str(), *index),
        (_, Doc::Int(index)) => copied_item(value, *index),
        (_, Doc::Text(key)) => copied_member(value, key.as_str()),
        _ => Err(Stop::Fault(Fault::WrongKind)),
    }
}

fn side_of(side: Option<&Doc>) -> Result<Option<i64>, Fault>
    ensures { result ≡ side_of (option_map (λ d. document d.now) side.entry) }
{
    match side {
        None => Ok(None),
        Some(Doc::Int(index)) => Ok(Some(*index)),
        Some(_) => Err(Fault::WrongKind),
    }
}

/// `value[from:to]`, of a list or a text; a side that is absent is an end.
pub fn slice_by(
    alloc: Global,
    value: &Doc,
    from: Option<&Doc>,
    to: Option<&Doc>,
) -> Result<Doc, Stop>
    ensures { Meets (λ r. r ≡ sliced (document value.now) (option_map (λ d. document d.now) from.entry) (option_map (λ d. document d.now) to.entry)) result }
{
    match (side_of(from), side_of(to)) {
        (Ok(from), Ok(to)) => slice_of(alloc, value, from, to),
        _ => Err(Stop::Fault(Fault::WrongKind)),
    }
}
