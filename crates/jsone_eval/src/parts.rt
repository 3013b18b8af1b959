//! The values that are not used yet, and the lists that are not whole yet.
ghost use Rattle.std.specs.Prelude.{◌≡◌, [], ◌∷◌, ◌++◌, reverse, map, IfOk, option_map};
ghost use Rattle.farm_text.specs.Doc.{document, documents};
ghost use Rattle.jsone_values.specs.Truth.{is_true};
ghost use Rattle.jsone_eval.specs.Machine.{top, top_part, below, side_top, side_below, part_of};
ghost use Rattle.jsone_eval.specs.Operators.{decides};

use crate::operators::decides;
use farm_text::Doc;
use jsone_expr::marks::Operator;
use jsone_values::truth::is_true;
use std::alloc::{AllocError, Global};

/// What was gathered of a list or a call's arguments, or of a map.
#[derive(Drop)]
pub(crate) struct Gathered {
    pub values: Vec<Doc>,
    pub members: Vec<(String, Doc)>,
}

impl Gathered {
    /// Nothing is gathered yet.
    pub(crate) fn new(alloc: Global) -> Gathered
        ensures { part_of result ≡ ([], []) }
    {
        Gathered {
            values: Vec::new(alloc),
            members: Vec::new(alloc),
        }
    }
}

pub(crate) fn take(values: &mut Vec<Doc>) -> Doc
    ensures top { document result ≡ top (reverse (documents values.old.items)) }
    ensures below { reverse (documents values.new.items) ≡ below (reverse (documents values.old.items)) }
{
    match values.pop() {
        Some(value) => value,
        None => Doc::Null,
    }
}

/// A side of a slice, if it is there.
pub(crate) fn take_side(values: &mut Vec<Doc>, is_there: bool) -> Option<Doc>
    ensures top { option_map document result ≡ side_top is_there (reverse (documents values.old.items)) }
    ensures below { reverse (documents values.new.items) ≡ side_below is_there (reverse (documents values.old.items)) }
{
    if is_there { Some(take(values)) } else { None }
}

pub(crate) fn take_gathered(alloc: Global, gathered: &mut Vec<Gathered>) -> Gathered
    ensures top { part_of result ≡ top_part (map part_of (reverse gathered.old.items)) }
    ensures below { map part_of (reverse gathered.new.items) ≡ below (map part_of (reverse gathered.old.items)) }
{
    match gathered.pop() {
        Some(part) => part,
        None => Gathered::new(alloc),
    }
}

/// The part with another value at its end.
pub(crate) fn with_item(part: Gathered, value: Doc) -> Result<Gathered, AllocError>
    ensures { IfOk result (λ g. part_of g ≡ ((part_of part).0 ++ document value ∷ [], (part_of part).1)) }
{
    let Gathered {
        mut values,
        members,
    } = part;
    values.push(value)?;
    Ok(Gathered { values, members })
}

/// The part with another member at its end.
pub(crate) fn with_member(
    alloc: Global,
    part: Gathered,
    key: &str,
    value: Doc,
) -> Result<Gathered, AllocError>
    ensures { IfOk result (λ g. part_of g ≡ ((part_of part).0, (part_of part).1 ++ (key.now, document value) ∷ [])) }
{
    let Gathered {
        values,
        mut members,
    } = part;
    let name = String::from_str(alloc, key)?;
    members.push((name, value))?;
    Ok(Gathered { values, members })
}

/// Whether the last value, on the left of the operator, decides, and whether it is true.
pub(crate) fn left_side(values: &[Doc], operator: Operator) -> (bool, bool)
    ensures decided { result.0 ≡ decides operator (top (reverse (documents values.now))) }
    ensures truth { result.1 ≡ is_true (top (reverse (documents values.now))) }
{
    match values.last() {
        Some(left) => (decides(operator, left), is_true(left)),
        None => (decides(operator, &Doc::Null), false),
    }
}
