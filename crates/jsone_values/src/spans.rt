//! Spans of time, and the moments that they lead to.
ghost use Rattle.std.specs.Prelude.{◌≡◌, ℕ, ℤ, Bool, Option, Some, min, take, drop, slice_index, true, false, MatchOption, option_map};
ghost use Rattle.std.specs.Char.{is_ascii_digit, is_ascii_alphabetic};
ghost use Rattle.std.specs.List.{prefix_len};
ghost use Rattle.std.specs.Str.{bytes_eq};
ghost use Rattle.farm_text.specs.Doc.{document};
ghost use Rattle.jsone_values.specs.Letters.{is_space};
ghost use Rattle.jsone_values.specs.Meets.{Meets};
ghost use Rattle.jsone_values.specs.Numbers.{digits_from};
ghost use Rattle.jsone_values.specs.Spans.{units, unit_of, unspaced, front_digits, behind_digits, front_word, behind_word, begins_with_part, behind_part, parts_of, span_of, shifted, IsTextOf, IsPlaceOf, IsMovedFrom, IsMoved, IsMovedBy, IsFromNow};

use crate::faults::{Fault, Stop};
use crate::numbers::saturated;
use farm_text::{Doc, Moment, read_moment};
use std::alloc::Global;

const WEEK: u64 = 604_800_000;

const DAY: u64 = 86_400_000;

const HOUR: u64 = 3_600_000;

const MINUTE: u64 = 60_000;

const SECOND: u64 = 1_000;

/// The milliseconds of the unit of this name.
fn unit_of(word: &[u8]) -> Option<u64>
    ensures { result ≡ unit_of word.now }
{
    if is(word, "weeks") || is(word, "week") || is(word, "w") {
        Some(WEEK)
    } else if is(word, "days") || is(word, "day") || is(word, "d") {
        Some(DAY)
    } else if is(word, "hours") || is(word, "hour") || is(word, "h") {
        Some(HOUR)
    } else if is(word, "minutes") || is(word, "minute") || is(word, "min") || is(word, "m") {
        Some(MINUTE)
    } else if is(word, "seconds") || is(word, "second") || is(word, "sec") || is(word, "s") {
        Some(SECOND)
    } else {
        None
    }
}

/// Whether a word is this name.
fn is(word: &[u8], name: &str) -> bool
    ensures { result ≡ bytes_eq word.now name.now }
{
    word == name.as_bytes()
}

fn is_space(byte: u8) -> bool
    ensures { result ≡ is_space byte }
{
    byte == b' ' || byte == b'\t' || byte == b'\n' || byte == b'\r'
}

fn spaces_len(bytes: &[u8]) -> usize
    ensures { result ≡ prefix_len is_space bytes.now }
{
    bytes.iter().take_while(|byte| is_space(**byte)).count()
}

fn digits_len(bytes: &[u8]) -> usize
    ensures { result ≡ prefix_len is_ascii_digit bytes.now }
{
    bytes
        .iter()
        .take_while(|byte| byte.is_ascii_digit())
        .count()
}

fn letters_len(bytes: &[u8]) -> usize
    ensures { result ≡ prefix_len is_ascii_alphabetic bytes.now }
{
    bytes
        .iter()
        .take_while(|byte| byte.is_ascii_alphabetic())
        .count()
}

/// The bytes before a place and from it on; all and none, where there is no such place.
fn cut(bytes: &[u8], place: usize) -> (&[u8], &[u8])
    ensures front { result.0.now ≡ take place bytes.now }
    ensures behind { result.1.now ≡ drop place bytes.now }
{
    let place = place.min(bytes.len());
    (&bytes[..place], &bytes[place..])
}

/// The text without the spaces at its front.
fn unspaced(bytes: &[u8]) -> &[u8]
    ensures { result.now ≡ unspaced bytes.now }
{
    let (_, rest) = cut(bytes, spaces_len(bytes));
    rest
}

/// The digits at the front, and the rest.
fn leading_digits(bytes: &[u8]) -> (&[u8], &[u8])
    ensures front { result.0.now ≡ front_digits bytes.now }
    ensures behind { result.1.now ≡ behind_digits bytes.now }
{
    cut(bytes, digits_len(bytes))
}

/// The letters at the front, and the rest.
fn leading_word(bytes: &[u8]) -> (&[u8], &[u8])
    ensures front { result.0.now ≡ front_word bytes.now }
    ensures behind { result.1.now ≡ behind_word bytes.now }
{
    cut(bytes, letters_len(bytes))
}

/// How many of the unit the text begins with, if it does, and what stands behind its name.
fn part(bytes: &[u8], unit: u64) -> Option<(u64, &[u8])>
    ensures { MatchOption result (begins_with_part unit bytes.now ≡ false)
        (λ p. (begins_with_part unit bytes.now ≡ true)
        × (p.0 ≡ min (digits_from 0 (front_digits bytes.now)) 18446744073709551615)
        × (p.1.now ≡ behind_part bytes.now)) }
{
    let (digits, behind) = leading_digits(bytes);
    if digits.is_empty() {
        return None;
    }
    let (word, rest) = leading_word(unspaced(behind));
    match unit_of(word) {
        Some(size) => {
            if size == unit {
                Some((saturated(digits), rest))
            } else {
                None
            }
        }
        None => None,
    }
}

/// The sum of the parts, of these units in order; 2^64 - 1 stands for all that is more.
fn parts_of(units: &[u64], bytes: &[u8]) -> Option<u64>
    ensures { result ≡ option_map (λ n. min n 18446744073709551615) (parts_of units.now bytes.now) }
{
    let mut rest = bytes;
    let mut total = 0u64;
    for unit in units {
        match part(unspaced(rest), *unit) {
            Some((count, behind)) => {
                total = total.saturating_add(count.saturating_mul(*unit));
                rest = behind;
            }
            None => {}
        }
    }
    if unspaced(rest).is_empty() {
        Some(total)
    } else {
        None
    }
}

fn all_parts_of(bytes: &[u8]) -> Option<u64>
    ensures { result ≡ option_map (λ n. min n 18446744073709551615) (parts_of units bytes.now) }
{
    parts_of(&[WEEK, DAY, HOUR, MINUTE, SECOND], bytes)
}

fn first_byte(bytes: &[u8]) -> u8
    ensures { result ≡ slice_index bytes.now 0 }
{
    match bytes.first() {
        Some(first) => *first,
        None => 0,
    }
}

fn with_sign(is_back: bool, parts: Option<u64>) -> Option<(bool, u64)>
    ensures { result ≡ option_map (λ n. (is_back, n)) parts }
{
    match parts {
        Some(millis) => Some((is_back, millis)),
        None => None,
    }
}

/// Whether the span leads back, and its milliseconds; 2^64 - 1 stands for all that is more.
fn span_of(bytes: &[u8]) -> Option<(bool, u64)>
    ensures { result ≡ option_map (λ span. (span.0, min span.1 18446744073709551615)) (span_of bytes.now) }
{
    let rest = unspaced(bytes);
    let (_, behind) = cut(rest, 1);
    let first = first_byte(rest);
    if first == b'-' {
        return with_sign(true, all_parts_of(behind));
    }
    if first == b'+' {
        return with_sign(false, all_parts_of(behind));
    }
    with_sign(false, all_parts_of(bytes))
}

/// The moment so long before or after another one, if there is one.
fn moved(moment: Moment, is_back: bool, millis: u64) -> Option<Moment>
    ensures { (n : ℕ) → millis ≡ min n 18446744073709551615 → IsPlaceOf (shifted (is_back, n) moment) result }
{
    if is_back {
        match moment.millis().checked_sub(millis) {
            Some(earlier) => Moment::from_millis(earlier),
            None => None,
        }
    } else {
        Moment::from_millis(moment.millis().saturating_add(millis))
    }
}

/// The text of a moment, if there is one.
fn written(alloc: Global, moment: Option<Moment>) -> Result<Doc, Stop>
    ensures { (z : ℤ) → IsPlaceOf z moment → Meets (IsTextOf z) result }
{
    match moment {
        Some(moment) => match moment.to_text(alloc) {
            Ok(text) => Ok(Doc::Text(text)),
            Err(_) => Err(Stop::NoMemory),
        },
        None => Err(Stop::Fault(Fault::OutOfRange)),
    }
}

/// The text of the moment so long before or after the one that a text writes.
fn moved_from(alloc: Global, from: &[u8], is_back: bool, millis: u64) -> Result<Doc, Stop>
    ensures { (n : ℕ) → millis ≡ min n 18446744073709551615
        → Meets (IsMovedFrom (is_back, n) from.now) result }
{
    match read_moment(from) {
        Some(moment) => written(alloc, moved(moment, is_back, millis)),
        None => Err(Stop::Fault(Fault::WrongKind)),
    }
}

/// The same from a value, which has to be a text.
fn moved_from_value(alloc: Global, from: &Doc, is_back: bool, millis: u64) -> Result<Doc, Stop>
    ensures { (n : ℕ) → millis ≡ min n 18446744073709551615
        → Meets (IsMoved (is_back, n) (Some (document from.now))) result }
{
    match from {
        Doc::Text(from) => moved_from(alloc, from.as_bytes(), is_back, millis),
        _ => Err(Stop::Fault(Fault::WrongKind)),
    }
}

/// The same from a value, or from nothing, by a span, if there is one.
fn moved_by(alloc: Global, span: Option<(bool, u64)>, from: Option<&Doc>) -> Result<Doc, Stop>
    ensures { (o : Option (Bool × ℕ)) → span ≡ option_map (λ p. (p.0, min p.1 18446744073709551615)) o
        → Meets (IsMovedBy o (option_map (λ d. document d.now) from.entry)) result }
{
    match (span, from) {
        (None, _) => Err(Stop::Fault(Fault::BadSpan)),
        (Some(_), None) => Err(Stop::Fault(Fault::UnknownName)),
        (Some((is_back, millis)), Some(from)) => moved_from_value(alloc, from, is_back, millis),
    }
}

/// The text of the moment to which the span leads from the value, or from nothing.
pub fn from_now_of(alloc: Global, span: &Doc, from: Option<&Doc>) -> Result<Doc, Stop>
    ensures { Meets (IsFromNow (document span.now) (option_map (λ d. document d.now) from.entry)) result }
{
    match span {
        Doc::Text(text) => moved_by(alloc, span_of(text.as_bytes()), from),
        _ => Err(Stop::Fault(Fault::WrongKind)),
    }
}
