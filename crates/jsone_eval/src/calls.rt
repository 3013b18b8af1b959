//! What the functions of the language give for their arguments.
ghost use Rattle.std.specs.Prelude.{◌≡◌, Ok, option_map};
ghost use Rattle.farm_text.specs.Document.{text as plain};
ghost use Rattle.farm_text.specs.Doc.{document, documents};
ghost use Rattle.jsone_values.specs.Builtins.{IsLengthOf, text_of, kind_of};
ghost use Rattle.jsone_values.specs.Meets.{Meets, MeetsWithin};
ghost use Rattle.jsone_values.specs.Operators.{IsNumber};
ghost use Rattle.jsone_eval.specs.Calls.{as_text, defined, IsFromNowAt, IsOfOne, IsOfTwo, IsOfThree, IsOfMany, IsCalled, IsCall, made};
ghost use Rattle.jsone_eval.specs.Scopes.{scopes_of};

use crate::context::Context;
use crate::evaluator::LIMIT;
use farm_text::Doc;
use jsone_expr::functions::Function;
use jsone_values::builtins::{kind_of, length_of, text_of};
use jsone_values::faults::{Fault, Stop};
use jsone_values::letters::{left_strip_of, lowercase_of, right_strip_of, strip_of, uppercase_of};
use jsone_values::lists::{absolute_of, greatest_of, join_of, least_of, number_of};
use jsone_values::ranges::range_of;
use jsone_values::spans::from_now_of;
use jsone_values::splits::split_of;
use std::alloc::Global;

const WRONG_KIND: Stop = Stop::Fault(Fault::WrongKind);

fn length(value: &Doc) -> Result<Doc, Stop>
    ensures { Meets (IsNumber (IsLengthOf (document value.now))) result }
{
    match length_of(value) {
        Ok(length) => Ok(Doc::Int(length)),
        Err(fault) => Err(Stop::Fault(fault)),
    }
}

fn as_text(alloc: Global, value: &Doc) -> Result<Doc, Stop>
    ensures { Meets (λ r. r ≡ as_text (text_of (document value.now))) result }
{
    match text_of(alloc, value) {
        Ok(text) => Ok(Doc::Text(text)),
        Err(Stop::Fault(fault)) => Err(Stop::Fault(fault)),
        Err(Stop::NoMemory) => Err(Stop::NoMemory),
    }
}

fn kind(alloc: Global, value: &Doc) -> Result<Doc, Stop>
    ensures { Meets (λ r. r ≡ Ok (plain (kind_of (document value.now)))) result }
{
    match Doc::text(alloc, kind_of(value)) {
        Ok(kind) => Ok(kind),
        Err(_) => Err(Stop::NoMemory),
    }
}

/// Whether the name that a text is is bound.
fn defined(context: &Context, name: &Doc) -> Result<Doc, Stop>
    ensures { Meets (λ r. r ≡ defined (scopes_of context.now) (document name.now)) result }
{
    match name {
        Doc::Text(name) => Ok(Doc::Bool(context.get(name.as_str()).is_some())),
        _ => Err(WRONG_KIND),
    }
}

/// The moment to which the span leads from a value, which has to be a text whatever the span is, or from nothing.
fn from_now(alloc: Global, span: &Doc, from: Option<&Doc>) -> Result<Doc, Stop>
    ensures { Meets (IsFromNowAt (document span.now) (option_map (λ d. document d.now) from.entry)) result }
{
    match from {
        None | Some(Doc::Text(_)) => from_now_of(alloc, span, from),
        Some(_) => Err(WRONG_KIND),
    }
}

fn of_one(alloc: Global, function: Function, context: &Context, value: &Doc) -> Result<Doc, Stop>
    ensures { Meets (IsOfOne function (scopes_of context.now) (document value.now)) result }
{
    match function {
        Function::Abs => absolute_of(value),
        Function::Len => length(value),
        Function::Str => as_text(alloc, value),
        Function::Number => number_of(value),
        Function::Lowercase => lowercase_of(alloc, value),
        Function::Uppercase => uppercase_of(alloc, value),
        Function::Strip => strip_of(alloc, value),
        Function::StripLeft => left_strip_of(alloc, value),
        Function::StripRight => right_strip_of(alloc, value),
        Function::TypeOf => kind(alloc, value),
        Function::Defined => defined(context, value),
        Function::FromNow => from_now(alloc, value, context.get("now")),
        _ => Err(WRONG_KIND),
    }
}

/// The value, which no list or text is too long for.
fn made(value: Result<Doc, Stop>) -> Result<Option<Doc>, Stop>
    ensures { result ≡ made value }
{
    match value {
        Ok(value) => Ok(Some(value)),
        Err(stop) => Err(stop),
    }
}

fn of_two(alloc: Global, function: Function, first: &Doc, second: &Doc) -> Result<Option<Doc>, Stop>
    ensures { MeetsWithin 1000000 (IsOfTwo function (document first.now) (document second.now)) result }
{
    match function {
        Function::Split => made(split_of(alloc, first, second)),
        Function::Join => join_of(alloc, first, second, LIMIT as usize),
        Function::Range => range_of(alloc, first, second, &Doc::Int(1), LIMIT as usize),
        Function::FromNow => made(from_now(alloc, first, Some(second))),
        _ => Err(WRONG_KIND),
    }
}

fn of_three(
    alloc: Global,
    function: Function,
    first: &Doc,
    second: &Doc,
    third: &Doc,
) -> Result<Option<Doc>, Stop>
    ensures { MeetsWithin 1000000 (IsOfThree function (document first.now) (document second.now) (document third.now)) result }
{
    match function {
        Function::Range => range_of(alloc, first, second, third, LIMIT as usize),
        _ => Err(WRONG_KIND),
    }
}

fn of_many(
    alloc: Global,
    function: Function,
    context: &Context,
    arguments: &[Doc],
) -> Result<Option<Doc>, Stop>
    ensures { MeetsWithin 1000000 (IsOfMany function (scopes_of context.now) (documents arguments.now)) result }
{
    match arguments {
        [] => Err(WRONG_KIND),
        [first] => made(of_one(alloc, function, context, first)),
        [first, second] => of_two(alloc, function, first, second),
        [first, second, third] => of_three(alloc, function, first, second, third),
        _ => Err(WRONG_KIND),
    }
}

fn of_function(
    alloc: Global,
    function: Function,
    context: &Context,
    arguments: &[Doc],
) -> Result<Option<Doc>, Stop>
    ensures { MeetsWithin 1000000 (IsCalled function (scopes_of context.now) (documents arguments.now)) result }
{
    match function {
        Function::Min => made(least_of(arguments)),
        Function::Max => made(greatest_of(arguments)),
        _ => of_many(alloc, function, context, arguments),
    }
}

/// What the function of a name gives for its arguments; nothing only where that weighs more than may be paid, as `range` and `join` may find before it is made.
pub fn called(
    alloc: Global,
    function: Option<Function>,
    context: &Context,
    arguments: &[Doc],
) -> Result<Option<Doc>, Stop>
    ensures { MeetsWithin 1000000 (IsCall function (scopes_of context.now) (documents arguments.now)) result }
{
    match function {
        Some(function) => of_function(alloc, function, context, arguments),
        None => Err(Stop::Fault(Fault::UnknownName)),
    }
}
