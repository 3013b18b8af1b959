//! The `Authorization` header of Hawk.
ghost use Rattle.std.specs.Prelude.{◌≡◌, ◌≢◌, ◌≤◌, ◌↔◌, ℕ, List, All, IsTrue, MatchOption, MatchResult, length};
ghost use Rattle.std.specs.Char.{IsAsciiDigit};
ghost use Rattle.hawk_auth.specs.Header.{HeaderData, AttributeData, attributes_data, header_data, HasScheme, IsHeader, IsOptional, IsRequired, IsTs, Says, values_of, HasNoReading};
ghost use Rattle.hawk_auth.specs.Found.{IsFound, IsOptionalFound};

use crate::attributes::{Attribute, is_called, read_attributes};
use crate::spaces::skip_spaces;
use std::alloc::{AllocError, Global};

/// What an `Authorization` header of Hawk says. Each value is printable ASCII without `"` and `\`, and not empty.
#[derive(Clone, Copy, Debug, PartialEq, Eq)]
pub struct HawkHeader<'a> {
    pub id: &'a str,
    /// 1 to 12 digits: whole seconds since 1970.
    pub ts: &'a str,
    pub nonce: &'a str,
    pub mac: &'a str,
    pub hash: Option<&'a str>,
    pub ext: Option<&'a str>,
}

/// Why no header was read.
#[derive(Clone, Copy, Debug, PartialEq, Eq)]
pub enum HeaderFault {
    /// The value is off the form of the header.
    BadHeader,
    NoMemory,
}

impl From<AllocError> for HeaderFault {
    ghost use Rattle.std.specs.Prelude.{◌≡◌};
    ghost use Rattle.hawk_auth.specs.declared.header.HeaderFault.{HeaderFault};

    ghost from_gives = { λ _ fault. fault ≡ HeaderFault.NoMemory };

    fn from(_error: AllocError) -> HeaderFault {
        HeaderFault::NoMemory
    }
}

impl HawkHeader<'_> {
    /// What the value of a header says.
    ///
    /// It is `Hawk` in any case, one or more spaces, and attributes `name="value"` with commas between them and spaces around the
    /// commas, in any order, each once. `id`, `ts`, `nonce` and `mac` are there and not empty; an empty `hash` or `ext` is as an
    /// absent one. There is no other name.
    pub fn read(alloc: Global, value: &[u8]) -> Result<HawkHeader<'_>, HeaderFault>
        ensures { MatchResult result (λ h. IsHeader value.now (header_data h)) (HasNoReading value.now) }
    {
        let Some(rest) = after_scheme(value) else {
            return Err(HeaderFault::BadHeader);
        };
        let Some(attributes) = read_attributes(alloc, skip_spaces(rest))? else {
            return Err(HeaderFault::BadHeader);
        };
        match header_of(&attributes) {
            Some(header) => Ok(header),
            None => Err(HeaderFault::BadHeader),
        }
    }
}

/// What follows `Hawk`, in any case, and a space.
fn after_scheme(value: &[u8]) -> Option<&[u8]>
    ensures { MatchOption result ((rest : List ℕ) → ¬ HasScheme value.now rest) (λ rest. HasScheme value.now rest.now) }
{
    if value.len() < 5 {
        return None;
    }
    let (scheme, rest) = value.split_at(4);
    if scheme.eq_ignore_ascii_case(b"hawk") && rest[0] == b' ' {
        Some(&rest[1..])
    } else {
        None
    }
}

/// How often a name stands among attributes.
#[derive(Clone, Copy)]
enum Found<'a> {
    Never,
    /// Once, with this value.
    Once(&'a str),
    Again,
}

/// The value that stands under a name.
fn find<'a>(attributes: &[Attribute<'a>], name: &str) -> Found<'a>
    ensures { IsFound (values_of name.now (attributes_data attributes.now)) result }
{
    let mut found = Found::Never;
    for attribute in attributes {
        if is_called(attribute.name, name) {
            match found {
                Found::Never => found = Found::Once(attribute.value),
                _ => return Found::Again,
            }
        }
    }
    found
}

/// The value under a name that stands once, and is not empty.
fn required<'a>(attributes: &[Attribute<'a>], name: &str) -> Option<&'a str>
    ensures { MatchOption result ((v : List ℕ) → ¬ IsRequired (values_of name.now (attributes_data attributes.now)) v)
        (λ v. IsRequired (values_of name.now (attributes_data attributes.now)) v.now) }
{
    match find(attributes, name) {
        Found::Once(value) if !value.is_empty() => Some(value),
        _ => None,
    }
}

/// What is read of an attribute that may be absent.
#[derive(Clone, Copy)]
enum Optional<'a> {
    /// There is none, or an empty one.
    Absent,
    Given(&'a str),
    /// There is more than one.
    Repeated,
}

/// The value under a name that stands at most once.
fn at_most_once<'a>(attributes: &[Attribute<'a>], name: &str) -> Optional<'a>
    ensures { IsOptionalFound (values_of name.now (attributes_data attributes.now)) result }
{
    match find(attributes, name) {
        Found::Never => Optional::Absent,
        Found::Once(value) if value.is_empty() => Optional::Absent,
        Found::Once(value) => Optional::Given(value),
        Found::Again => Optional::Repeated,
    }
}

/// Whether the text is 1 to 12 digits.
pub(crate) fn is_ts(text: &str) -> bool
    ensures { IsTrue result ↔ IsTs text.now }
{
    !text.is_empty() && text.len() <= 12 && are_digits(text.as_bytes())
}

fn are_digits(text: &[u8]) -> bool
    ensures { IsTrue result ↔ All IsAsciiDigit text.now }
{
    text.iter().all(|b| (b'0'..=b'9').contains(b))
}

/// What the attributes say.
fn header_of<'a>(attributes: &[Attribute<'a>]) -> Option<HawkHeader<'a>>
    ensures { MatchOption result ((h : HeaderData) → ¬ Says (attributes_data attributes.now) h)
        (λ h. Says (attributes_data attributes.now) (header_data h)) }
{
    let Some(id) = required(attributes, "id") else {
        return None;
    };
    let Some(ts) = required(attributes, "ts") else {
        return None;
    };
    if !is_ts(ts) {
        return None;
    }
    let Some(nonce) = required(attributes, "nonce") else {
        return None;
    };
    let Some(mac) = required(attributes, "mac") else {
        return None;
    };
    let hash = match at_most_once(attributes, "hash") {
        Optional::Absent => None,
        Optional::Given(hash) => Some(hash),
        Optional::Repeated => return None,
    };
    let ext = match at_most_once(attributes, "ext") {
        Optional::Absent => None,
        Optional::Given(ext) => Some(ext),
        Optional::Repeated => return None,
    };
    Some(HawkHeader {
        id,
        ts,
        nonce,
        mac,
        hash,
        ext,
    })
}
