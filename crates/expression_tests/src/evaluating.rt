//! Expressions against values and faults that were worked by hand from the language's reference and the rules of this project.
use crate::answers::{is_rule, is_written};
use farm_text::{Doc, Entries};
use jsone_eval::context::Context;
use jsone_eval::evaluator::{Cost, EvalFault, eval};
use jsone_expr::{Tree, parse};
use std::alloc::Global;

mod arithmetic;
mod costs;
mod literals;
mod moments;
mod numbers;
mod places;
mod texts;
mod truth;

const NAMES: &str =
    r#"{"a":1,"b":"text","c":[10,20,30],"d":{"k":"v","n":{"m":7}},"e":"","f":[],"g":{},"now":"2024-01-01T00:00:00.000Z","t":true,"z":null,"neg":-5,"big":9223372036854775807,"u":"aé中d","min":3}"#;

/// Whether the expression gives this, where so much was paid before: a value, as compact JSON; the fault of a number, as `!3`; what was paid
/// for it, as `paid 7`; that it costs too much; or that it has no tree.
fn gives(alloc: Global, expression: &str, context: &Context, spent: u64, wanted: &str) -> bool {
    match parse(alloc, expression.as_bytes()) {
        Ok(tree) => {
            let is_so = tree_gives(alloc, &tree, context, spent, wanted);
            drop(tree);
            is_so
        }
        Err(_) => wanted == "no tree",
    }
}

fn tree_gives(alloc: Global, tree: &Tree, context: &Context, spent: u64, wanted: &str) -> bool {
    let mut cost = Cost { spent };
    let given = eval(alloc, tree, context, &mut cost);
    let is_so = is_given(alloc, &given, cost.spent.saturating_sub(spent), wanted);
    drop(given);
    is_so
}

fn is_given(alloc: Global, given: &Result<Doc, EvalFault>, paid: u64, wanted: &str) -> bool {
    match given {
        Ok(value) => match wanted.strip_prefix("paid ") {
            Some(cost) => cost.parse::<u64>().ok() == Some(paid),
            None => is_written(alloc, value, wanted),
        },
        Err(EvalFault::Fault(fault)) => is_rule(fault.rule(), wanted),
        Err(EvalFault::TooMuchWork) => wanted == "too much",
        Err(EvalFault::NoMemory) => false,
    }
}

/// The first row of some that gives something else than it says, or `none`. A row is an expression and what it gives, with ` ~ ` between them.
fn other_in<'a>(alloc: Global, context: &Context, spent: u64, rows: &'a str) -> &'a str {
    for row in rows.lines() {
        if !is_row(alloc, context, spent, row) {
            return row;
        }
    }
    "none"
}

fn is_row(alloc: Global, context: &Context, spent: u64, row: &str) -> bool {
    match row.split_once(" ~ ") {
        Some((expression, wanted)) => gives(alloc, expression, context, spent, wanted),
        None => false,
    }
}

fn other_of<'a>(alloc: Global, names: &Doc, spent: u64, rows: &'a str) -> &'a str {
    let context = Context::new(alloc, names);
    let other = other_in(alloc, &context, spent, rows);
    drop(context);
    other
}

/// The same of rows with these names, where so much was paid before.
fn first_other<'a>(alloc: Global, names: &str, spent: u64, rows: &'a str) -> &'a str {
    match Doc::read(alloc, names.as_bytes()) {
        Ok(names) => {
            let other = other_of(alloc, &names, spent, rows);
            drop(names);
            other
        }
        Err(_) => "no names",
    }
}

/// The tables of expressions over these names.
const TABLES: &[&str] = &[
    arithmetic::SUMS,
    arithmetic::POWERS,
    arithmetic::SIGNS,
    arithmetic::LEVELS,
    arithmetic::KINDS,
    literals::LITERALS,
    literals::LISTS,
    moments::SPANS,
    moments::MOMENTS,
    numbers::PICKED,
    numbers::READ,
    numbers::LENGTHS,
    numbers::RANGES,
    places::KEYS,
    places::INDEXES,
    places::LIST_SLICES,
    places::OTHER_SLICES,
    texts::TEXTS,
    texts::LETTERS,
    texts::PIECES,
    texts::JOINED,
    texts::KINDS,
    texts::UNSEEN,
    truth::DENIALS,
    truth::DECIDING,
    truth::EQUALITY,
    truth::ORDER,
    truth::COMPARED,
    truth::MEMBERSHIP,
];

#[test]
fn expressions_give_what_they_say(rt: HostRuntime) {
    for rows in TABLES {
        assert_eq!(rt; first_other(rt.alloc(), NAMES, 0, rows), "none");
    }
}

/// Whether an expression without names gives this.
fn alone(alloc: Global, expression: &str, wanted: &str) -> bool {
    let nothing = Entries::new(alloc).into_doc();
    let context = Context::new(alloc, &nothing);
    let is_so = gives(alloc, expression, &context, 0, wanted);
    drop(context);
    drop(nothing);
    is_so
}

#[test]
fn spaces_of_several_lines_are_stripped(rt: HostRuntime) {
    assert!(rt; alone(rt.alloc(), "strip('  a b\t\n\r ')", "\"a b\""));
}

/// Expressions that want a moment, without one, and where `now` is none.
const WITHOUT_NOW: &str = "fromNow('1 day') ~ !2
fromNow('1 dax') ~ !11
fromNow(1) ~ !3";

const WITH_WRONG_NOW: &str = "fromNow('1 day') ~ !3
fromNow('1 dax') ~ !3";

#[test]
fn spans_want_a_moment(rt: HostRuntime) {
    let told = [
        first_other(rt.alloc(), "{}", 0, WITHOUT_NOW),
        first_other(rt.alloc(), r#"{"now":1}"#, 0, WITH_WRONG_NOW),
    ];
    assert_eq!(rt; told, ["none"; 2]);
}

fn bind(alloc: Global, context: &mut Context, names: &str) -> bool {
    match Doc::read(alloc, names.as_bytes()) {
        Ok(names) => {
            let pushed = context.bindings.push(names);
            let is_bound = pushed.is_ok();
            drop(pushed);
            is_bound
        }
        Err(_) => false,
    }
}

/// A later map hides those before it.
const HIDDEN: &str = "[a,b,c] ~ [1,20,null]
defined('c') ~ true
d ~ !2";

fn other_of_three(alloc: Global, outermost: &Doc) -> &'static str {
    let mut context = Context::new(alloc, outermost);
    let is_bound = bind(alloc, &mut context, r#"{"b":20,"c":30}"#)
        && bind(alloc, &mut context, r#"{"c":null}"#);
    let other = if is_bound {
        other_in(alloc, &context, 0, HIDDEN)
    } else {
        "not bound"
    };
    drop(context);
    other
}

fn other_of_hidden(alloc: Global) -> &'static str {
    match Doc::read(alloc, br#"{"a":1,"b":2,"c":3}"#) {
        Ok(outermost) => {
            let other = other_of_three(alloc, &outermost);
            drop(outermost);
            other
        }
        Err(_) => "no names",
    }
}

#[test]
fn a_later_map_hides_those_before_it(rt: HostRuntime) {
    assert_eq!(rt; other_of_hidden(rt.alloc()), "none");
}
