//! Functions of the language that take several numbers, or join a list.
ghost use Rattle.std.specs.Prelude.{◌≡◌, ◌<◌, ◌++◌, true, false, if◌then◌else◌, length, IfOk, OnOk, MatchOption, string_bytes};
ghost use Rattle.std.specs.Int.{int_min, int_max};
ghost use Rattle.std.specs.List.{list_all, join_by};
ghost use Rattle.farm_text.specs.Doc.{document, documents};
ghost use Rattle.jsone_values.specs.Lists.{picked, IsAbsolute, IsRead, is_part, part_text, joined};
ghost use Rattle.jsone_values.specs.Meets.{Meets, MeetsWithin};

use crate::faults::{Fault, Stop};
use crate::numbers::{from_text, negated};
use farm_text::{Doc, Text};
use std::alloc::{AllocError, Global};

/// The least of one or more numbers.
pub fn least_of(values: &[Doc]) -> Result<Doc, Stop>
    ensures { Meets (λ r. r ≡ picked int_min (documents values.now)) result }
{
    picked_of(values, false)
}

/// The greatest of one or more numbers.
pub fn greatest_of(values: &[Doc]) -> Result<Doc, Stop>
    ensures { Meets (λ r. r ≡ picked int_max (documents values.now)) result }
{
    picked_of(values, true)
}

/// The greatest of one or more numbers, or the least.
fn picked_of(values: &[Doc], greatest: bool) -> Result<Doc, Stop>
    ensures { Meets (λ r. r ≡ picked (if greatest then int_max else int_min) (documents values.now)) result }
{
    let Some((first, rest)) = values.split_first() else {
        return Err(Stop::Fault(Fault::WrongKind));
    };
    let Doc::Int(first) = first else {
        return Err(Stop::Fault(Fault::WrongKind));
    };
    let mut number = *first;
    for value in rest {
        let Doc::Int(other) = value else {
            return Err(Stop::Fault(Fault::WrongKind));
        };
        number = one_of(number, *other, greatest);
    }
    Ok(Doc::Int(number))
}

/// The greater of two numbers, or the lesser.
fn one_of(one: i64, other: i64, greater: bool) -> i64
    ensures { result ≡ (if greater then int_max else int_min) one other }
{
    if greater {
        one.max(other)
    } else {
        one.min(other)
    }
}

/// The number without its sign.
pub fn absolute_of(value: &Doc) -> Result<Doc, Stop>
    ensures { Meets (IsAbsolute (document value.now)) result }
{
    match value {
        Doc::Int(number) => {
            if *number >= 0 {
                return Ok(Doc::Int(*number));
            }
            match negated(*number) {
                Ok(size) => Ok(Doc::Int(size)),
                Err(fault) => Err(Stop::Fault(fault)),
            }
        }
        _ => Err(Stop::Fault(Fault::WrongKind)),
    }
}

/// The number that a text writes.
pub fn number_of(value: &Doc) -> Result<Doc, Stop>
    ensures { Meets (IsRead (document value.now)) result }
{
    match value {
        Doc::Text(text) => match from_text(text.as_bytes()) {
            Ok(number) => Ok(Doc::Int(number)),
            Err(fault) => Err(Stop::Fault(fault)),
        },
        _ => Err(Stop::Fault(Fault::WrongKind)),
    }
}

fn is_part(value: &Doc) -> bool
    ensures { result ≡ is_part (document value.now) }
{
    match value {
        Doc::Text(_) | Doc::Int(_) => true,
        _ => false,
    }
}

fn are_parts(values: &[Doc]) -> bool
    ensures { result ≡ list_all is_part (documents values.now) }
{
    for value in values {
        if !is_part(value) {
            return false;
        }
    }
    true
}

fn push_part(alloc: Global, out: &mut String, part: &Doc) -> Result<(), AllocError>
    ensures { OnOk result (string_bytes out.new ≡ string_bytes out.old ++ part_text (document part.now)) }
{
    match part {
        Doc::Text(text) => out.push_str(text.as_str()),
        _ => {
            let text = part.write(alloc)?;
            out.push_str(text.as_str())
        }
    }
}

/// The parts with the separator between each two; nothing only where they are longer than so many bytes.
fn joined(
    alloc: Global,
    parts: &[Doc],
    separator: &str,
    most: usize,
) -> Result<Option<String>, AllocError>
    ensures { IfOk result (λ whole. MatchOption whole
        (most < length (join_by part_text separator.now (documents parts.now)))
        (λ s. string_bytes s ≡ join_by part_text separator.now (documents parts.now))) }
{
    let mut whole = String::new(alloc);
    if join_to(alloc, &mut whole, parts, separator, most)? {
        Ok(Some(whole))
    } else {
        Ok(None)
    }
}

/// Puts the parts behind a text, with the separator between each two; false only where it and they are longer than so many bytes.
fn join_to(
    alloc: Global,
    out: &mut String,
    parts: &[Doc],
    separator: &str,
    most: usize,
) -> Result<bool, AllocError>
    ensures whole { IfOk result (λ fits. fits ≡ true
        → string_bytes out.new ≡ string_bytes out.old ++ join_by part_text separator.now (documents parts.now)) }
    ensures longer { IfOk result (λ fits. fits ≡ false
        → most < length (string_bytes out.old ++ join_by part_text separator.now (documents parts.now))) }
{
    let Some((first, rest)) = parts.split_first() else {
        return Ok(true);
    };
    push_part(alloc, out, first)?;
    for part in rest {
        if out.len() > most {
            return Ok(false);
        }
        out.push_str(separator)?;
        push_part(alloc, out, part)?;
    }
    Ok(true)
}

/// The texts and numbers of a list as one text, with the separator between each two; nothing only where it weighs more than so much.
pub fn join_of(
    alloc: Global,
    parts: &Doc,
    separator: &Doc,
    most: usize,
) -> Result<Option<Doc>, Stop>
    ensures { MeetsWithin most (λ r. r ≡ joined (document parts.now) (document separator.now)) result }
{
    let (Doc::List(parts), Doc::Text(separator)) = (parts, separator) else {
        return Err(Stop::Fault(Fault::WrongKind));
    };
    if !are_parts(parts) {
        return Err(Stop::Fault(Fault::WrongKind));
    }
    match joined(alloc, parts, separator.as_str(), most) {
        Ok(Some(whole)) => Ok(Some(Doc::Text(Text::from_string(whole)))),
        Ok(None) => Ok(None),
        Err(_) => Err(Stop::NoMemory),
    }
}
