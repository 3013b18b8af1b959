//! What the query of a target says.
ghost use Rattle.std.specs.Prelude.{◌≡◌, ◌==◌, ◌<◌, ℕ, List, [], ◌∷◌, ◌++◌, map, length, codes, IfOk, IfSome};
ghost use Rattle.std.specs.List.{position, before_first, after_first};
ghost use Rattle.api_routes.specs.Queries as queries;
ghost use Rattle.api_routes.specs.Values.{IsValue, asked_of};

use crate::parts::number_in;
use farm_asks::question::{PageRequest, Parameter};
use farm_text::SlugId;
use std::alloc::{AllocError, Global};

/// How many tasks a page has at most, whatever is asked for.
const MOST_TASKS: u16 = 1_000;

/// What a query says of a name.
#[derive(Clone, Copy)]
pub(crate) enum Value<'a> {
    Absent,
    Once(&'a [u8]),
    Repeated,
}

/// What a query asks for of a list.
#[derive(Clone, Copy)]
pub(crate) enum PageAsked {
    Page(PageRequest),
    /// This parameter is off its form.
    Bad(Parameter),
}

/// The page of a list that a query asks for.
pub(crate) fn page_of(alloc: Global, query: &[u8]) -> Result<PageAsked, AllocError>
    ensures { IfOk result (λ asked. asked ≡ asked_of (queries.limit_of (queries.values_of (codes "limit") query.now))
        (queries.token_of (queries.values_of (codes "continuationToken") query.now))) }
{
    let pieces = pieces_of(alloc, query)?;
    Ok(page_in(&pieces))
}

/// The page that the pieces of a query ask for.
fn page_in(pieces: &[&[u8]]) -> PageAsked
    ensures { result ≡ asked_of (queries.limit_of (queries.values_in (codes "limit") (map (λ piece. piece.now) pieces.now)))
        (queries.token_of (queries.values_in (codes "continuationToken") (map (λ piece. piece.now) pieces.now))) }
{
    let limit = match limit_of(value_of("limit", pieces)) {
        Some(limit) => limit,
        None => return PageAsked::Bad(Parameter::Limit),
    };
    match token_of(value_of("continuationToken", pieces)) {
        Some(after) => PageAsked::Page(PageRequest { after, limit }),
        None => PageAsked::Bad(Parameter::ContinuationToken),
    }
}

/// How many tasks a page has at most, as a query says it.
fn limit_of(value: Value<'_>) -> Option<u16>
    ensures { (values : List (List ℕ)) → IsValue values value.entry → result ≡ queries.limit_of values }
{
    match value {
        Value::Absent => Some(MOST_TASKS),
        Value::Once(text) => number_in(text, 1, MOST_TASKS),
        Value::Repeated => None,
    }
}

/// The token of a page, if a query says one; `None` where it is off its form.
fn token_of(value: Value<'_>) -> Option<Option<SlugId>>
    ensures { (values : List (List ℕ)) → IsValue values value.entry → result ≡ queries.token_of values }
{
    match value {
        Value::Absent => Some(None),
        Value::Once(text) => match SlugId::read(text) {
            Some(id) => Some(Some(id)),
            None => None,
        },
        Value::Repeated => None,
    }
}

/// The pieces of a query.
fn pieces_of(alloc: Global, query: &[u8]) -> Result<Vec<&[u8]>, AllocError>
    ensures { IfOk result (λ v. map (λ piece. piece.now) v.items ≡ queries.pieces_of query.now) }
{
    query.split(|b| *b == b'&').collect(alloc)
}

/// What the pieces of a query say of a name.
fn value_of<'a>(name: &str, pieces: &[&'a [u8]]) -> Value<'a>
    ensures { IsValue (queries.values_in name.now (map (λ piece. piece.now) pieces.now)) result }
{
    let mut value = Value::Absent;
    for piece in pieces {
        let (own, text) = cut(piece, b'=');
        if own == name.as_bytes() {
            value = with_one_more(value, text);
        }
    }
    value
}

/// What is said of a name, where this value is said of it too.
fn with_one_more<'a>(value: Value<'a>, text: &'a [u8]) -> Value<'a>
    ensures { (values : List (List ℕ)) → IsValue values value.entry → IsValue (values ++ text.now ∷ []) result }
{
    match value {
        Value::Absent => Value::Once(text),
        Value::Once(_) | Value::Repeated => Value::Repeated,
    }
}

/// What stands before the first of a byte, and what stands behind it: nothing, where there is none.
pub(crate) fn cut(text: &[u8], at: u8) -> (&[u8], &[u8])
    ensures before { result.0.now ≡ before_first (λ b. b == at) text.now }
    ensures behind { result.1.now ≡ after_first (λ b. b == at) text.now }
{
    match place_of(text, at) {
        Some(place) => (&text[..place], &text[place + 1..]),
        None => (text, &text[text.len()..]),
    }
}

/// Where a byte stands first.
fn place_of(text: &[u8], at: u8) -> Option<usize>
    ensures value { result ≡ position (λ b. b == at) text.now }
    ensures within { IfSome result (λ place. place < length text.now) }
{
    text.iter().position(|b| *b == at)
}
