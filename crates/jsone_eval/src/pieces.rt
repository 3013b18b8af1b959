//! What stands in the text of an expression.
ghost use Rattle.std.specs.Prelude.{◌≡◌, ◌==◌, pos, Ok, Err, MatchResult};
ghost use Rattle.std.specs.List.{prefix_len};
ghost use Rattle.farm_text.specs.Doc.{document};
ghost use Rattle.jsone_values.specs.Meets.{Meets};
ghost use Rattle.jsone_values.specs.Numbers.{IsInRange, digits_from};
ghost use Rattle.jsone_values.specs.Operators.{IsNumber};
ghost use Rattle.jsone_eval.specs.Scopes.{scopes_of};
ghost use Rattle.jsone_eval.specs.Values.{bytes_at, text_at, quoted, literal_value, named, member_named, key_span};

use crate::context::Context;
use farm_text::{Doc, Text};
use jsone_expr::marks::Literal;
use jsone_expr::tokens::{Key, Span};
use jsone_values::faults::{Fault, Stop};
use jsone_values::indexes::copied_member;
use jsone_values::numbers::from_digits;
use std::alloc::Global;
use std::str;

/// The bytes from a place up to another, as far as the text has them.
fn bytes_at(text: &[u8], place: Span) -> &[u8]
    ensures { result.now ≡ bytes_at text.now place }
{
    let to = place.to.min(text.len());
    let from = place.from.min(to);
    &text[from..to]
}

/// The text that stands there.
pub(crate) fn text_at(text: &[u8], place: Span) -> Result<&str, Fault>
    ensures { MatchResult result
        (λ found. text_at text.now place ≡ Ok found.now)
        (λ fault. text_at text.now place ≡ Err fault) }
{
    match str::from_utf8(bytes_at(text, place)) {
        Ok(found) => Ok(found),
        Err(_) => Err(Fault::Syntax),
    }
}

/// A run of 64 zeros.
const ZEROS: &[u8] = b"0000000000000000000000000000000000000000000000000000000000000000";

fn zeros_len(digits: &[u8]) -> usize
    ensures { result ≡ prefix_len (λ d. d == 48) digits.now }
{
    digits.iter().take_while(|digit| **digit == b'0').count()
}

/// The digits behind the runs of 64 zeros that lead them, each of which is asked for at once.
fn without_runs(digits: &[u8]) -> &[u8]
    ensures { digits_from 0 result.now ≡ digits_from 0 digits.now }
{
    let mut rest = digits;
    while let Some(behind) = rest.strip_prefix(ZEROS) {
        rest = behind;
    }
    rest
}

/// The digits without the zeros that lead them.
fn without_zeros(digits: &[u8]) -> &[u8]
    ensures { digits_from 0 result.now ≡ digits_from 0 digits.now }
{
    let rest = without_runs(digits);
    &rest[zeros_len(rest)..]
}

/// The number whose digits stand there.
pub(crate) fn number_at(text: &[u8], place: Span) -> Result<Doc, Stop>
    ensures { Meets (IsNumber (IsInRange (pos (digits_from 0 (bytes_at text.now place))))) result }
{
    match from_digits(without_zeros(bytes_at(text, place))) {
        Ok(number) => Ok(Doc::Int(number)),
        Err(fault) => Err(Stop::Fault(fault)),
    }
}

/// The text that stands there, as a value.
pub(crate) fn quoted(alloc: Global, text: &[u8], place: Span) -> Result<Doc, Stop>
    ensures { Meets (λ r. r ≡ quoted (text_at text.now place)) result }
{
    match text_at(text, place) {
        Ok(found) => match Text::from_str(alloc, found) {
            Ok(found) => Ok(Doc::Text(found)),
            Err(_) => Err(Stop::NoMemory),
        },
        Err(fault) => Err(Stop::Fault(fault)),
    }
}

pub(crate) fn literal_value(literal: Literal) -> Doc
    ensures { document result ≡ literal_value literal }
{
    match literal {
        Literal::True => Doc::Bool(true),
        Literal::False => Doc::Bool(false),
        Literal::Null => Doc::Null,
    }
}

/// What the name that stands there is bound to.
pub(crate) fn named(text: &[u8], place: Span, context: &Context) -> Result<Doc, Stop>
    ensures { Meets (λ r. r ≡ named (scopes_of context.now) (text_at text.now place)) result }
{
    let name = match text_at(text, place) {
        Ok(name) => name,
        Err(fault) => return Err(Stop::Fault(fault)),
    };
    match context.get(name) {
        Some(value) => match value.clone() {
            Ok(copy) => Ok(copy),
            Err(_) => Err(Stop::NoMemory),
        },
        None => Err(Stop::Fault(Fault::UnknownName)),
    }
}

/// What a map has at the key that stands there.
pub(crate) fn member_at(text: &[u8], place: Span, value: &Doc) -> Result<Doc, Stop>
    ensures { Meets (λ r. r ≡ member_named (document value.now) (text_at text.now place)) result }
{
    match text_at(text, place) {
        Ok(key) => copied_member(value, key),
        Err(fault) => Err(Stop::Fault(fault)),
    }
}

/// Where a key stands.
pub(crate) fn key_span(key: Key) -> Span
    ensures { result ≡ key_span key }
{
    match key {
        Key::Plain(word) => word.span,
        Key::InQuotes(place) => place,
    }
}
