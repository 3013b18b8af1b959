//! The attributes of a header: `name="value"`, with commas between them.
ghost use Rattle.std.specs.Prelude.{◌≡◌, ◌≢◌, ℕ, ◌<◌, ◌↔◌, List, [], ◌∷◌, ◌++◌, All, IfOk, IsTrue, MatchOption, length, slice_index, reverse};
ghost use Rattle.std.specs.Str.{bytes_eq};
ghost use Rattle.hawk_auth.specs.Attributes.{IsNext};
ghost use Rattle.hawk_auth.specs.Header.{AttributeData, attribute_data, attributes_data, BeginsWith, IsAttributes, IsValueByte, is_name};
ghost use Rattle.hawk_auth.specs.Mac.{skip_spaces};

use crate::spaces::skip_spaces;
use std::alloc::{AllocError, Global};
use std::str;

/// An attribute: its name, one of the six that there are, and its value, printable ASCII without `"` and `\`.
#[derive(Clone, Copy)]
pub(crate) struct Attribute<'a> {
    pub(crate) name: &'a [u8],
    pub(crate) value: &'a str,
}

/// What stands before the first such byte, and what after it.
fn cut(text: &[u8], byte: u8) -> Option<(&[u8], &[u8])>
    ensures { MatchOption result ((k : ℕ) → k < length text.now → slice_index text.now k ≢ byte)
        (λ p. (text.now ≡ p.0.now ++ byte ∷ p.1.now) × All (λ b. b ≢ byte) p.0.now) }
{
    for (place, b) in text.iter().enumerate() {
        if *b == byte {
            return Some((&text[..place], &text[place + 1..]));
        }
    }
    None
}

/// What stands after the byte that the text begins with.
fn after_byte(text: &[u8], byte: u8) -> Option<&[u8]>
    ensures { MatchOption result ((rest : List ℕ) → text.now ≢ byte ∷ rest) (λ rest. text.now ≡ byte ∷ rest.now) }
{
    let [first, rest @ ..] = text else {
        return None;
    };
    if *first == byte { Some(rest) } else { None }
}

/// Whether the name is this one.
pub(crate) fn is_called(name: &[u8], other: &str) -> bool
    ensures { result ≡ bytes_eq name.now other.now }
{
    name == other.as_bytes()
}

/// Whether an attribute may have this name.
fn is_name(name: &[u8]) -> bool
    ensures { result ≡ is_name name.now }
{
    is_called(name, "id")
        || is_called(name, "ts")
        || is_called(name, "nonce")
        || is_called(name, "mac")
        || is_called(name, "hash")
        || is_called(name, "ext")
}

/// Whether each byte is printable ASCII, no quote and no backslash.
pub(crate) fn is_plain(value: &[u8]) -> bool
    ensures { IsTrue result ↔ All IsValueByte value.now }
{
    value
        .iter()
        .all(|b| (b' '..=b'~').contains(b) && *b != b'"' && *b != b'\\')
}

/// Whether an attribute may have this name and this value.
fn has_form(name: &[u8], value: &[u8]) -> bool
    ensures { IsTrue result ↔ (IsTrue (is_name name.now) × All IsValueByte value.now) }
{
    is_name(name) && is_plain(value)
}

/// The bytes as text.
fn text_of(value: &[u8]) -> &str
    requires { All IsValueByte value.now }
    ensures { result.now ≡ value.now }
{
    let Ok(text) = str::from_utf8(value) else {
        unreachable!();
    };
    text
}

/// The attribute that the text begins with, and what follows it.
fn split_attribute(text: &[u8]) -> Option<(Attribute<'_>, &[u8])>
    ensures { MatchOption result ((a : AttributeData) (after : List ℕ) → ¬ BeginsWith text.now a after)
        (λ p. BeginsWith text.now (attribute_data p.0) p.1.now) }
{
    let Some((name, rest)) = cut(text, b'=') else {
        return None;
    };
    let Some(quoted) = after_byte(rest, b'"') else {
        return None;
    };
    let Some((value, after)) = cut(quoted, b'"') else {
        return None;
    };
    if has_form(name, value) {
        let value = text_of(value);
        Some((Attribute { name, value }, after))
    } else {
        None
    }
}

/// What stands at a place where an attribute is looked for.
enum Next<'a> {
    /// An attribute, the last one.
    Last(Attribute<'a>),
    /// An attribute, and after a comma the place of the next.
    More(Attribute<'a>, &'a [u8]),
    /// None, or what follows it is neither a comma nor the end.
    Off,
}

/// The attribute that the text begins with, where there is one and a comma or the end follows it.
fn next_attribute(text: &[u8]) -> Next<'_>
    ensures { IsNext text.now result }
{
    let Some((attribute, after)) = split_attribute(text) else {
        return Next::Off;
    };
    let rest = skip_spaces(after);
    if rest.is_empty() {
        return Next::Last(attribute);
    }
    match after_byte(rest, b',') {
        Some(more) => Next::More(attribute, skip_spaces(more)),
        None => Next::Off,
    }
}

/// The attributes that the text is, or `None` where it is off their grammar.
pub(crate) fn read_attributes(
    alloc: Global,
    text: &[u8],
) -> Result<Option<Vec<Attribute<'_>>>, AllocError>
    ensures { IfOk result (λ found. MatchOption found ((all : List AttributeData) → ¬ IsAttributes all text.now)
        (λ v. IsAttributes (attributes_data v.items) text.now)) }
{
    let mut found = Vec::with_capacity(alloc, 6)?;
    let mut rest = text;
    'attributes: loop {
        match next_attribute(rest) {
            Next::Last(attribute) => {
                found.push(attribute)?;
                return Ok(Some(found));
            }
            Next::More(attribute, more) => {
                found.push(attribute)?;
                rest = more;
            }
            Next::Off => return Ok(None),
        }
    }
}
