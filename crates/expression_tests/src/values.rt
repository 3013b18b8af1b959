//! Operators against values that were worked by hand.
use crate::answers::{is_answer, is_number, is_rule};
use farm_text::{Doc, Text};
use jsone_values::builtins::{kind_of, length_of, text_of};
use jsone_values::faults::{Fault, Stop};
use jsone_values::members::{item_of, member_of};
use jsone_values::order::order_of;
use jsone_values::places::{cut_of, place_of};
use jsone_values::slices::slice_of;
use jsone_values::texts::{char_at, chars_between, count_of};
use jsone_values::truth::is_true;
use jsone_values::weights::weight_of;
use std::alloc::{AllocError, Global};
use std::cmp::Ordering;

mod kinds;
mod numbers;

/// Indexes and counts, and the place and the cut that each is, from either end.
const PLACES: &str = "0 3 ~ 0 0
2 3 ~ 2 2
3 3 ~ none 3
9 3 ~ none 3
9223372036854775807 3 ~ none 3
-1 3 ~ 2 2
-3 3 ~ 0 0
-4 3 ~ none 0
-9223372036854775808 3 ~ none 0
0 0 ~ none 0
-1 0 ~ none 0";

fn is_place(row: &str) -> Option<bool> {
    let (index, rest) = row.split_once(' ')?;
    let (count, rest) = rest.split_once(" ~ ")?;
    let (place, cut) = rest.split_once(' ')?;
    let index = index.parse::<i64>().ok()?;
    let count = count.parse::<usize>().ok()?;
    let cut = cut.parse::<usize>().ok()?;
    Some(place_of(index, count) == place.parse::<usize>().ok() && cut_of(index, count) == cut)
}

#[test]
fn indexes_count_from_either_end(rt: HostRuntime) {
    for row in PLACES.lines() {
        assert!(rt; is_place(row) == Some(true), "{row}");
    }
}

#[test]
fn faults_have_their_numbers(rt: HostRuntime) {
    for (fault, rule) in [
        (Fault::Syntax, 1),
        (Fault::UnknownName, 2),
        (Fault::WrongKind, 3),
        (Fault::OutOfRange, 4),
        (Fault::NotExact, 5),
        (Fault::NoMember, 6),
        (Fault::BadOperator, 7),
        (Fault::TwoBranches, 8),
        (Fault::KeyTwice, 9),
        (Fault::TooDeep, 10),
        (Fault::BadSpan, 11),
        (Fault::BadContext, 12),
    ] {
        assert!(rt; fault.rule() == rule, "{rule}");
    }
}

/// Two values, and the order of the first to the second.
const ORDERS: &str = r#"1|2|less
2|1|greater
-2|-1|less
-1|1|less
7|7|equal
-9223372036854775808|9223372036854775807|less
"a"|"b"|less
"b"|"a"|greater
"a"|"aa"|less
""|"a"|less
"Z"|"a"|less
"10"|"9"|less
"z"|"é"|less
"é"|"é"|equal
1|true|!3
null|null|!3
false|true|!3
"1"|1|!3"#;

fn is_order(found: Result<Ordering, Fault>, wanted: &str) -> bool {
    match found {
        Ok(Ordering::Less) => wanted == "less",
        Ok(Ordering::Equal) => wanted == "equal",
        Ok(Ordering::Greater) => wanted == "greater",
        Err(fault) => is_rule(fault.rule(), wanted),
    }
}

fn is_before(alloc: Global, left: &Doc, right: &str, wanted: &str) -> bool {
    match Doc::read(alloc, right.as_bytes()) {
        Ok(right) => {
            let is_so = is_order(order_of(left, &right), wanted);
            drop(right);
            is_so
        }
        Err(_) => false,
    }
}

fn are_ordered(alloc: Global, left: &str, right: &str, wanted: &str) -> bool {
    match Doc::read(alloc, left.as_bytes()) {
        Ok(left) => {
            let is_so = is_before(alloc, &left, right, wanted);
            drop(left);
            is_so
        }
        Err(_) => false,
    }
}

fn is_order_row(alloc: Global, row: &str) -> bool {
    match row.split_once('|') {
        Some((left, rest)) => match rest.split_once('|') {
            Some((right, wanted)) => are_ordered(alloc, left, right, wanted),
            None => false,
        },
        None => false,
    }
}

#[test]
fn numbers_and_texts_have_an_order(rt: HostRuntime) {
    for row in ORDERS.lines() {
        assert!(rt; is_order_row(rt.alloc(), row), "{row}");
    }
}

/// What is asked of a value, the value, and the answer: whether it is true, its weight, its kind, its text and its length; a member or an
/// item of it, which is a number; and a slice of it, between places of which `-` is an end.
const VALUES: &str = r#"truth|0|no
truth|1|yes
truth|-1|yes
truth|9223372036854775807|yes
truth|-9223372036854775808|yes
truth|""|no
truth|"a"|yes
truth|"false"|yes
truth|"0"|yes
truth|null|no
truth|true|yes
truth|false|no
truth|[]|no
truth|[null]|yes
truth|{}|no
truth|{"":null}|yes
weight|null|1
weight|true|1
weight|-9223372036854775808|1
weight|""|1
weight|"abc"|4
weight|"é"|3
weight|[]|1
weight|[null]|2
weight|["ab",1,[]]|6
weight|{}|1
weight|{"k":1}|3
weight|{"":1}|2
weight|{"ab":["c"],"d":{}}|8
kind|null|null
text|null|null
length|null|!3
kind|true|boolean
text|true|true
length|true|!3
kind|false|boolean
text|false|false
length|false|!3
kind|-17|number
text|-17|-17
length|-17|!3
kind|"aé"|string
text|"aé"|aé
length|"aé"|2
kind|""|string
text|""|
length|""|0
kind|[1,[2,3]]|array
text|[1,[2,3]]|none
length|[1,[2,3]]|2
kind|[]|array
text|[]|none
length|[]|0
kind|{"a":1}|object
text|{"a":1}|none
length|{"a":1}|!3
member a|{"a":1,"b":2,"":3}|1
member b|{"a":1,"b":2,"":3}|2
member |{"a":1,"b":2,"":3}|3
member c|{"a":1,"b":2,"":3}|!6
member A|{"a":1,"b":2,"":3}|!6
member 0|{"a":1,"b":2,"":3}|!6
item 0|[10,20,30]|10
item 2|[10,20,30]|30
item -1|[10,20,30]|30
item -3|[10,20,30]|10
item 3|[10,20,30]|!6
item -4|[10,20,30]|!6
item -9223372036854775808|[10,20,30]|!6
member a|[10,20,30]|!3
item 0|{"a":1,"b":2,"":3}|!3
slice -:-|[10,20,30]|[10,20,30]
slice 1:-|[10,20,30]|[20,30]
slice -:2|[10,20,30]|[10,20]
slice 1:2|[10,20,30]|[20]
slice -1:-|[10,20,30]|[30]
slice -:-1|[10,20,30]|[10,20]
slice -2:-1|[10,20,30]|[20]
slice 0:9|[10,20,30]|[10,20,30]
slice -9:9|[10,20,30]|[10,20,30]
slice 9:10|[10,20,30]|[]
slice 2:1|[10,20,30]|[]
slice 1:1|[10,20,30]|[]
slice -1:1|[]|[]
slice -:-|"aé中d"|"aé中d"
slice 1:3|"aé中d"|"é中"
slice -2:-|"aé中d"|"中d"
slice -:-3|"aé中d"|"a"
slice 4:-|"aé中d"|""
slice 3:99|"aé中d"|"d"
slice -:-|{}|!3
slice 0:1|7|!3
slice -:-|null|!3"#;

/// The whole number that was found, or the fault; 0 where something else was found.
fn number_in(found: Result<&Doc, Fault>) -> Result<i64, Fault> {
    match found {
        Ok(Doc::Int(number)) => Ok(*number),
        Ok(_) => Ok(0),
        Err(fault) => Err(fault),
    }
}

/// Whether this text was given, or the fault of kind where it is `none`.
fn prints(given: &Result<Text, Stop>, wanted: &str) -> bool {
    match given {
        Ok(given) => given.as_str() == wanted,
        Err(stop) => *stop == Stop::Fault(Fault::WrongKind) && wanted == "none",
    }
}

/// Whether an item of a value is this number, or its slice this value.
fn has_part(alloc: Global, value: &Doc, asked: &str, part: &str, wanted: &str) -> bool {
    match asked {
        "member" => is_number(number_in(member_of(value, part)), wanted),
        "item" => match part.parse::<i64>() {
            Ok(index) => is_number(number_in(item_of(value, index)), wanted),
            Err(_) => false,
        },
        _ => match part.split_once(':') {
            Some((from, to)) => is_slice(alloc, value, from, to, wanted),
            None => false,
        },
    }
}

fn is_slice(alloc: Global, value: &Doc, from: &str, to: &str, wanted: &str) -> bool {
    let from = from.parse::<i64>().ok();
    is_answer(
        alloc,
        slice_of(alloc, value, from, to.parse::<i64>().ok()),
        wanted,
    )
}

fn has(alloc: Global, value: &Doc, asked: &str, wanted: &str) -> bool {
    match asked {
        "truth" => is_true(value) == (wanted == "yes"),
        "weight" => wanted.parse::<u64>().ok() == Some(weight_of(value)),
        "kind" => kind_of(value) == wanted,
        "text" => prints(&text_of(alloc, value), wanted),
        "length" => is_number(length_of(value), wanted),
        _ => match asked.split_once(' ') {
            Some((asked, part)) => has_part(alloc, value, asked, part, wanted),
            None => false,
        },
    }
}

fn is_value(alloc: Global, asked: &str, value: &str, wanted: &str) -> bool {
    match Doc::read(alloc, value.as_bytes()) {
        Ok(value) => {
            let is_so = has(alloc, &value, asked, wanted);
            drop(value);
            is_so
        }
        Err(_) => false,
    }
}

fn is_value_row(alloc: Global, row: &str) -> bool {
    match row.split_once('|') {
        Some((asked, rest)) => match rest.split_once('|') {
            Some((value, wanted)) => is_value(alloc, asked, value, wanted),
            None => false,
        },
        None => false,
    }
}

#[test]
fn values_have_truth_weight_kind_and_parts(rt: HostRuntime) {
    for row in VALUES.lines() {
        assert!(rt; is_value_row(rt.alloc(), row), "{row}");
    }
}

/// Whether these characters of a text are these.
fn are_between(alloc: Global, text: &str, from: usize, to: usize, wanted: &str) -> bool {
    is_made(&chars_between(alloc, text, from, to), wanted)
}

fn is_made(text: &Result<String, AllocError>, wanted: &str) -> bool {
    match text {
        Ok(text) => text.as_str() == wanted,
        Err(_) => false,
    }
}

/// Texts, the numbers of their characters, and the second of them, where there is one.
const COUNTS: &str = "|0|
a|1|
ab|2|b
\u{e9}\u{e8}|2|\u{e8}
\u{1f600}x\u{4e2d}|3|x";

fn is_count(row: &str) -> bool {
    match row.split_once('|') {
        Some((text, rest)) => match rest.split_once('|') {
            Some((count, second)) => {
                count.parse::<usize>().ok() == Some(count_of(text))
                    && char_at(text, 1) == second.chars().next()
            }
            None => false,
        },
        None => false,
    }
}

#[test]
fn texts_count_by_characters(rt: HostRuntime) {
    for row in COUNTS.lines() {
        assert!(rt; is_count(row), "{row}");
    }
    assert!(rt; are_between(rt.alloc(), "\u{1f600}x\u{4e2d}", 1, 3, "x\u{4e2d}"));
    assert!(rt; are_between(rt.alloc(), "abc", 2, 1, ""));
}
