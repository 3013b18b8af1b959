//! Which of two values comes first.
ghost use Rattle.std.specs.Prelude.{◌≡◌};
ghost use Rattle.farm_text.specs.Doc.{document};
ghost use Rattle.jsone_values.specs.Truth.{order_of};

use crate::faults::Fault;
use farm_text::Doc;
use std::cmp::Ordering;

/// The order of two numbers, or of two texts by their bytes.
pub fn order_of(left: &Doc, right: &Doc) -> Result<Ordering, Fault>
    ensures { result ≡ order_of (document left.now) (document right.now) }
{
    match (left, right) {
        (Doc::Int(left), Doc::Int(right)) => Ok(left.cmp(right)),
        (Doc::Text(left), Doc::Text(right)) => Ok(left.as_bytes().cmp(right.as_bytes())),
        _ => Err(Fault::WrongKind),
    }
}
