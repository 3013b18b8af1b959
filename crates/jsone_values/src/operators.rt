//! The operators, of values of any kind.
ghost use Rattle.std.specs.Prelude.{◌≡◌, ◌↔◌, IfOk, IsTrue, ◌++◌};
ghost use Rattle.std.specs.Str.Iter.{HasSubslice};
ghost use Rattle.farm_text.specs.Document.{items_of};
ghost use Rattle.farm_text.specs.Doc.{document, documents};
ghost use Rattle.jsone_values.specs.Meets.{Meets};
ghost use Rattle.jsone_values.specs.Operators.{IsSum, IsDifference, IsProduct, IsExactQuotient, IsRaised, IsNegated, IsKept, HasItem, IsWithin};

use crate::faults::{Fault, Stop};
use crate::numbers::{minus, negated, over, plus, power, times};
use farm_text::{Doc, Text, same_doc};
use std::alloc::{AllocError, Global};

/// One text behind another.
fn joined(alloc: Global, front: &str, back: &str) -> Result<Text, AllocError>
    ensures { IfOk result (λ text. text ≡ front.now ++ back.now) }
{
    let mut whole = String::from_str(alloc, front)?;
    whole.push_str(back)?;
    Ok(Text::from_string(whole))
}

/// `left + right`: the sum of two numbers, or one text behind another.
pub fn sum_of(alloc: Global, left: &Doc, right: &Doc) -> Result<Doc, Stop>
    ensures { Meets (IsSum (document left.now) (document right.now)) result }
{
    match (left, right) {
        (Doc::Int(left), Doc::Int(right)) => match plus(*left, *right) {
            Ok(sum) => Ok(Doc::Int(sum)),
            Err(fault) => Err(Stop::Fault(fault)),
        },
        (Doc::Text(left), Doc::Text(right)) => match joined(alloc, left.as_str(), right.as_str()) {
            Ok(text) => Ok(Doc::Text(text)),
            Err(_) => Err(Stop::NoMemory),
        },
        _ => Err(Stop::Fault(Fault::WrongKind)),
    }
}

/// `left - right`, of two numbers.
pub fn difference_of(left: &Doc, right: &Doc) -> Result<Doc, Stop>
    ensures { Meets (IsDifference (document left.now) (document right.now)) result }
{
    match (left, right) {
        (Doc::Int(left), Doc::Int(right)) => match minus(*left, *right) {
            Ok(number) => Ok(Doc::Int(number)),
            Err(fault) => Err(Stop::Fault(fault)),
        },
        _ => Err(Stop::Fault(Fault::WrongKind)),
    }
}

/// `-value`, of a number.
pub fn negation_of(value: &Doc) -> Result<Doc, Stop>
    ensures { Meets (IsNegated (document value.now)) result }
{
    match value {
        Doc::Int(number) => match negated(*number) {
            Ok(number) => Ok(Doc::Int(number)),
            Err(fault) => Err(Stop::Fault(fault)),
        },
        _ => Err(Stop::Fault(Fault::WrongKind)),
    }
}

/// `left * right`, of two numbers.
pub fn product_of(left: &Doc, right: &Doc) -> Result<Doc, Stop>
    ensures { Meets (IsProduct (document left.now) (document right.now)) result }
{
    match (left, right) {
        (Doc::Int(left), Doc::Int(right)) => match times(*left, *right) {
            Ok(number) => Ok(Doc::Int(number)),
            Err(fault) => Err(Stop::Fault(fault)),
        },
        _ => Err(Stop::Fault(Fault::WrongKind)),
    }
}

/// `left / right`, of two numbers of which the second divides the first.
pub fn quotient_of(left: &Doc, right: &Doc) -> Result<Doc, Stop>
    ensures { Meets (IsExactQuotient (document left.now) (document right.now)) result }
{
    match (left, right) {
        (Doc::Int(left), Doc::Int(right)) => match over(*left, *right) {
            Ok(number) => Ok(Doc::Int(number)),
            Err(fault) => Err(Stop::Fault(fault)),
        },
        _ => Err(Stop::Fault(Fault::WrongKind)),
    }
}

/// `base ** exponent`, of two numbers.
pub fn power_of(base: &Doc, exponent: &Doc) -> Result<Doc, Stop>
    ensures { Meets (IsRaised (document base.now) (document exponent.now)) result }
{
    match (base, exponent) {
        (Doc::Int(base), Doc::Int(exponent)) => match power(*base, *exponent) {
            Ok(number) => Ok(Doc::Int(number)),
            Err(fault) => Err(Stop::Fault(fault)),
        },
        _ => Err(Stop::Fault(Fault::WrongKind)),
    }
}

/// `+value`, of a number.
pub fn kept_number_of(value: &Doc) -> Result<Doc, Stop>
    ensures { Meets (IsKept (document value.now)) result }
{
    match value {
        Doc::Int(number) => Ok(Doc::Int(*number)),
        _ => Err(Stop::Fault(Fault::WrongKind)),
    }
}

/// Whether the value is one of these.
fn is_among(items: &[Doc], value: &Doc) -> bool
    ensures { IsTrue result ↔ HasItem (document value.now) (items_of (documents items.now)) }
{
    for item in items {
        if same_doc(item, value) {
            return true;
        }
    }
    false
}

/// Whether one text stands in another.
fn stands_in(part: &str, text: &str) -> bool
    ensures { IsTrue result ↔ HasSubslice text.now part.now }
{
    text.contains(part)
}

/// `value in whole`: a text in a text, a value in a list, or a text among the keys of a map.
pub fn membership_of(value: &Doc, whole: &Doc) -> Result<Doc, Stop>
    ensures { Meets (IsWithin (document value.now) (document whole.now)) result }
{
    match (value, whole) {
        (_, Doc::List(items)) => Ok(Doc::Bool(is_among(items, value))),
        (Doc::Text(part), Doc::Text(text)) => {
            Ok(Doc::Bool(stands_in(part.as_str(), text.as_str())))
        }
        (Doc::Text(key), Doc::Map(_)) => Ok(Doc::Bool(whole.get(key.as_str()).is_some())),
        _ => Err(Stop::Fault(Fault::WrongKind)),
    }
}
