//! What the operators give for values.
ghost use Rattle.std.specs.Prelude.{◌≡◌, ◌↔◌, IsTrue, not};
ghost use Rattle.farm_text.specs.Doc.{document};
ghost use Rattle.jsone_values.specs.Meets.{Meets};
ghost use Rattle.jsone_values.specs.Truth.{is_true, order_of};
ghost use Rattle.jsone_eval.specs.Operators.{IsSigned, decides, IsJoined, is_below, is_above, compared, truth};

use farm_text::{Doc, same_doc};
use jsone_expr::marks::{Operator, Sign};
use jsone_values::faults::{Fault, Stop};
use jsone_values::operators::{
    difference_of, kept_number_of, membership_of, negation_of, power_of, product_of, quotient_of,
    sum_of,
};
use jsone_values::order::order_of;
use jsone_values::truth::is_true;
use std::alloc::Global;
use std::cmp::Ordering;

/// A value behind a sign.
pub fn signed(sign: Sign, value: &Doc) -> Result<Doc, Stop>
    ensures { Meets (IsSigned sign (document value.now)) result }
{
    match sign {
        Sign::Denied => Ok(Doc::Bool(!is_true(value))),
        Sign::Negative => negation_of(value),
        Sign::Positive => kept_number_of(value),
    }
}

/// Whether the value on the left decides, so that the right side is not evaluated.
pub fn decides(operator: Operator, left: &Doc) -> bool
    ensures { result ≡ decides operator (document left.now) }
{
    match operator {
        Operator::And => !is_true(left),
        Operator::Or => is_true(left),
        _ => false,
    }
}

fn is_below(order: Ordering) -> bool
    ensures { result ≡ is_below order }
{
    match order {
        Ordering::Less => true,
        Ordering::Equal | Ordering::Greater => false,
    }
}

fn is_above(order: Ordering) -> bool
    ensures { result ≡ is_above order }
{
    match order {
        Ordering::Greater => true,
        Ordering::Equal | Ordering::Less => false,
    }
}

fn truth(found: Result<bool, Fault>) -> Result<Doc, Stop>
    ensures { Meets (λ r. r ≡ truth found) result }
{
    match found {
        Ok(truth) => Ok(Doc::Bool(truth)),
        Err(fault) => Err(Stop::Fault(fault)),
    }
}

fn below(left: &Doc, right: &Doc) -> Result<bool, Fault>
    ensures { result ≡ compared is_below (order_of (document left.now) (document right.now)) }
{
    match order_of(left, right) {
        Ok(order) => Ok(is_below(order)),
        Err(fault) => Err(fault),
    }
}

fn above(left: &Doc, right: &Doc) -> Result<bool, Fault>
    ensures { result ≡ compared is_above (order_of (document left.now) (document right.now)) }
{
    match order_of(left, right) {
        Ok(order) => Ok(is_above(order)),
        Err(fault) => Err(fault),
    }
}

fn at_most(left: &Doc, right: &Doc) -> Result<bool, Fault>
    ensures { result ≡ compared (λ o. not (is_above o)) (order_of (document left.now) (document right.now)) }
{
    match order_of(left, right) {
        Ok(order) => Ok(!is_above(order)),
        Err(fault) => Err(fault),
    }
}

fn at_least(left: &Doc, right: &Doc) -> Result<bool, Fault>
    ensures { result ≡ compared (λ o. not (is_below o)) (order_of (document left.now) (document right.now)) }
{
    match order_of(left, right) {
        Ok(order) => Ok(!is_below(order)),
        Err(fault) => Err(fault),
    }
}

/// What the operator gives for two sides of which the left one does not decide.
pub fn joined(alloc: Global, operator: Operator, left: &Doc, right: &Doc) -> Result<Doc, Stop>
    ensures { Meets (IsJoined operator (document left.now) (document right.now)) result }
{
    match operator {
        Operator::Or => Ok(Doc::Bool(is_true(right))),
        Operator::And => Ok(Doc::Bool(is_true(right))),
        Operator::Within => membership_of(left, right),
        Operator::Equal => Ok(Doc::Bool(same_doc(left, right))),
        Operator::NotEqual => Ok(Doc::Bool(!same_doc(left, right))),
        Operator::Below => truth(below(left, right)),
        Operator::AtMost => truth(at_most(left, right)),
        Operator::Above => truth(above(left, right)),
        Operator::AtLeast => truth(at_least(left, right)),
        Operator::Plus => sum_of(alloc, left, right),
        Operator::Minus => difference_of(left, right),
        Operator::Times => product_of(left, right),
        Operator::Over => quotient_of(left, right),
        Operator::Power => power_of(left, right),
    }
}
