//! Operators over the values of their operands alone.
ghost use Rattle.std.specs.Prelude.{◌≡◌, option_map};
ghost use Rattle.farm_text.specs.Doc.{document};
ghost use Rattle.jsone_eval.specs.Calls.{IsFromNowAt};
ghost use Rattle.jsone_values.specs.Meets.{Meets};
ghost use Rattle.jsone_render.specs.Answers.{found_in};
ghost use Rattle.jsone_render.specs.Bindings.{or_before};
ghost use Rattle.jsone_render.specs.Templates.{IsGivenBy};

use crate::merges::{deep_flatten_of, deep_merge_of, flatten_of, json_of, merge_of, reverse_of};
use crate::operators::Operator;
use crate::sorting::sort_alone;
use farm_text::Doc;
use jsone_values::faults::{Fault, Stop};
use jsone_values::spans::from_now_of;
use std::alloc::Global;

/// What the operator gives for the value of its operand.
pub(crate) fn given_by(alloc: Global, operator: Operator, value: Doc) -> Result<Doc, Stop>
    ensures { Meets (IsGivenBy operator (document value)) result }
{
    match operator {
        Operator::Json => {
            let made = json_of(alloc, &value);
            drop(value);
            made
        }
        Operator::Flatten => flatten_of(alloc, value),
        Operator::FlattenDeep => {
            let made = deep_flatten_of(alloc, &value);
            drop(value);
            made
        }
        Operator::Merge => merge_of(alloc, value),
        Operator::MergeDeep => {
            let made = deep_merge_of(alloc, &value);
            drop(value);
            made
        }
        Operator::Sort => sort_alone(alloc, value),
        Operator::Reverse => reverse_of(value),
        _ => {
            drop(value);
            Err(Stop::Fault(Fault::BadOperator))
        }
    }
}

/// The moment to which the span leads from a value, which has to be a text whatever the span is, or from nothing.
pub(crate) fn span_of(alloc: Global, span: &Doc, from: Option<&Doc>) -> Result<Doc, Stop>
    ensures { Meets (IsFromNowAt (document span.now) (option_map (λ d. document d.now) from.entry)) result }
{
    match from {
        None | Some(Doc::Text(_)) => from_now_of(alloc, span, from),
        Some(_) => Err(Stop::Fault(Fault::WrongKind)),
    }
}

/// What goes on to the next turn: what this one gave, or what came before.
pub(crate) fn or_before(before: Doc, found: Option<Doc>) -> Doc
    ensures { document result ≡ or_before (document before) (found_in found) }
{
    match found {
        Some(value) => {
            drop(before);
            value
        }
        None => before,
    }
}
