//! Ranges of numbers.
ghost use Rattle.std.specs.Prelude.{◌≡◌, ◌≢◌, pos, ◌<◌, length, int_lt, if◌then◌else◌, IfOk, MatchOption};
ghost use Rattle.farm_text.specs.Document.{whole};
ghost use Rattle.farm_text.specs.Doc.{document, documents};
ghost use Rattle.jsone_values.specs.Ranges.{stepping, steps_before, ranged};
ghost use Rattle.jsone_values.specs.Meets.{MeetsWithin};

use crate::faults::{Fault, Stop};
use farm_text::Doc;
use std::alloc::{AllocError, Global};

/// Whether a step that is not 0 leads on from here towards the end.
fn is_before(number: i64, end: i64, step: i64) -> bool
    ensures { result ≡ (if int_lt (pos 0) step then int_lt number end else int_lt end number) }
{
    if step > 0 { number < end } else { end < number }
}

/// The numbers from the first on, a step from one to the next, before the end; none, where there are more than so many.
fn numbers_before(
    alloc: Global,
    from: i64,
    end: i64,
    step: i64,
    most: usize,
) -> Result<Option<Vec<Doc>>, AllocError>
    requires { step ≢ pos 0 }
    ensures { IfOk result (λ numbers. MatchOption numbers
        (most < length (stepping from step (steps_before from end step)))
        (λ v. documents v.items ≡ stepping from step (steps_before from end step))) }
{
    let mut numbers = Vec::new(alloc);
    let mut next = from;
    while is_before(next, end, step) {
        if numbers.len() >= most {
            return Ok(None);
        }
        numbers.push(Doc::Int(next))?;
        match next.checked_add(step) {
            Some(number) => next = number,
            None => return Ok(Some(numbers)),
        }
    }
    Ok(Some(numbers))
}

/// The list of the numbers from the first on and before the second; nothing only where it weighs more than so much.
fn ranged(alloc: Global, from: i64, end: i64, step: i64, most: usize) -> Result<Option<Doc>, Stop>
    ensures { MeetsWithin most (λ r. r ≡ ranged (whole from) (whole end) (whole step)) result }
{
    if step == 0 {
        return Err(Stop::Fault(Fault::OutOfRange));
    }
    match numbers_before(alloc, from, end, step, most) {
        Ok(Some(numbers)) => Ok(Some(Doc::List(numbers))),
        Ok(None) => Ok(None),
        Err(_) => Err(Stop::NoMemory),
    }
}

/// The numbers from the first on and before the second, by steps; nothing only where the list weighs more than so much.
pub fn range_of(
    alloc: Global,
    from: &Doc,
    end: &Doc,
    step: &Doc,
    most: usize,
) -> Result<Option<Doc>, Stop>
    ensures { MeetsWithin most
        (λ r. r ≡ ranged (document from.now) (document end.now) (document step.now)) result }
{
    match (from, end, step) {
        (Doc::Int(from), Doc::Int(end), Doc::Int(step)) => ranged(alloc, *from, *end, *step, most),
        _ => Err(Stop::Fault(Fault::WrongKind)),
    }
}
