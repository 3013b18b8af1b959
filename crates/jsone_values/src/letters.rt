//! Texts with other letters, and with fewer spaces.
ghost use Rattle.std.specs.Prelude.{◌≡◌, IfOk, map};
ghost use Rattle.std.specs.Char.{to_ascii_lowercase, to_ascii_uppercase};
ghost use Rattle.std.specs.List.{prefix_len, suffix_len};
ghost use Rattle.std.specs.Str.{chars};
ghost use Rattle.farm_text.specs.Doc.{document};
ghost use Rattle.jsone_values.specs.Letters.{is_space, lowered, raised, stripped, stripped_left, stripped_right};
ghost use Rattle.jsone_values.specs.Meets.{Meets};

use crate::faults::{Fault, Stop};
use crate::texts::{chars_between, count_of};
use farm_text::{Doc, Text};
use std::alloc::{AllocError, Global};

fn in_lowercase(alloc: Global, text: &str) -> Result<Text, AllocError>
    ensures { IfOk result (λ t. t ≡ map to_ascii_lowercase text.now) }
{
    let mut letters = String::from_str(alloc, text)?;
    letters.make_ascii_lowercase();
    Ok(Text::from_string(letters))
}

fn in_uppercase(alloc: Global, text: &str) -> Result<Text, AllocError>
    ensures { IfOk result (λ t. t ≡ map to_ascii_uppercase text.now) }
{
    let mut letters = String::from_str(alloc, text)?;
    letters.make_ascii_uppercase();
    Ok(Text::from_string(letters))
}

/// The text with small ASCII letters.
pub fn lowercase_of(alloc: Global, value: &Doc) -> Result<Doc, Stop>
    ensures { Meets (λ r. r ≡ lowered (document value.now)) result }
{
    match value {
        Doc::Text(text) => match in_lowercase(alloc, text.as_str()) {
            Ok(text) => Ok(Doc::Text(text)),
            Err(_) => Err(Stop::NoMemory),
        },
        _ => Err(Stop::Fault(Fault::WrongKind)),
    }
}

/// The text with capital ASCII letters.
pub fn uppercase_of(alloc: Global, value: &Doc) -> Result<Doc, Stop>
    ensures { Meets (λ r. r ≡ raised (document value.now)) result }
{
    match value {
        Doc::Text(text) => match in_uppercase(alloc, text.as_str()) {
            Ok(text) => Ok(Doc::Text(text)),
            Err(_) => Err(Stop::NoMemory),
        },
        _ => Err(Stop::Fault(Fault::WrongKind)),
    }
}

fn is_space(character: char) -> bool
    ensures { result ≡ is_space character }
{
    character == ' ' || character == '\t' || character == '\n' || character == '\r'
}

/// How many spaces the text begins with.
fn spaces_before(text: &str) -> usize
    ensures { result ≡ prefix_len is_space (chars text.now) }
{
    text.chars()
        .take_while(|character| is_space(*character))
        .count()
}

/// How many spaces the text ends with.
fn spaces_behind(text: &str) -> usize
    ensures { result ≡ suffix_len is_space (chars text.now) }
{
    let mut spaces = 0;
    for character in text.chars() {
        if is_space(character) {
            spaces += 1;
        } else {
            spaces = 0;
        }
    }
    spaces
}

/// The text without the spaces at its front.
pub fn left_strip_of(alloc: Global, value: &Doc) -> Result<Doc, Stop>
    ensures { Meets (λ r. r ≡ stripped_left (document value.now)) result }
{
    match value {
        Doc::Text(text) => {
            let text = text.as_str();
            match chars_between(alloc, text, spaces_before(text), count_of(text)) {
                Ok(part) => Ok(Doc::Text(Text::from_string(part))),
                Err(_) => Err(Stop::NoMemory),
            }
        }
        _ => Err(Stop::Fault(Fault::WrongKind)),
    }
}

/// The text without the spaces at its end.
pub fn right_strip_of(alloc: Global, value: &Doc) -> Result<Doc, Stop>
    ensures { Meets (λ r. r ≡ stripped_right (document value.now)) result }
{
    match value {
        Doc::Text(text) => {
            let text = text.as_str();
            let end = count_of(text).saturating_sub(spaces_behind(text));
            match chars_between(alloc, text, 0, end) {
                Ok(part) => Ok(Doc::Text(Text::from_string(part))),
                Err(_) => Err(Stop::NoMemory),
            }
        }
        _ => Err(Stop::Fault(Fault::WrongKind)),
    }
}

/// The text without the spaces at its front and its end.
pub fn strip_of(alloc: Global, value: &Doc) -> Result<Doc, Stop>
    ensures { Meets (λ r. r ≡ stripped (document value.now)) result }
{
    match value {
        Doc::Text(text) => {
            let text = text.as_str();
            let end = count_of(text).saturating_sub(spaces_behind(text));
            match chars_between(alloc, text, spaces_before(text), end) {
                Ok(part) => Ok(Doc::Text(Text::from_string(part))),
                Err(_) => Err(Stop::NoMemory),
            }
        }
        _ => Err(Stop::Fault(Fault::WrongKind)),
    }
}
