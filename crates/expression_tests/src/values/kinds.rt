//! Operators and functions that take values of any kind, and lists, maps and moments that are made.
use crate::answers::is_answer;
use farm_text::Doc;
use jsone_values::faults::Stop;
use jsone_values::indexes::{index_of, slice_by};
use jsone_values::letters::{left_strip_of, lowercase_of, right_strip_of, strip_of, uppercase_of};
use jsone_values::lists::{absolute_of, greatest_of, join_of, least_of, number_of};
use jsone_values::maps::map_of;
use jsone_values::operators::{
    difference_of, kept_number_of, membership_of, negation_of, power_of, product_of, quotient_of,
    sum_of,
};
use jsone_values::ranges::range_of;
use jsone_values::spans::from_now_of;
use jsone_values::splits::split_of;
use std::alloc::Global;

/// Null where nothing was made of what weighs too much.
fn or_null(made: Result<Option<Doc>, Stop>) -> Result<Doc, Stop> {
    match made {
        Ok(value) => match value {
            Some(value) => Ok(value),
            None => Ok(Doc::Null),
        },
        Err(stop) => Err(stop),
    }
}

fn operated(alloc: Global, operator: &str, left: &Doc, right: &Doc) -> Result<Doc, Stop> {
    match operator {
        "+" => sum_of(alloc, left, right),
        "-" => difference_of(left, right),
        "*" => product_of(left, right),
        "/" => quotient_of(left, right),
        "**" => power_of(left, right),
        "in" => membership_of(left, right),
        "[]" => index_of(alloc, left, right),
        "split" => split_of(alloc, left, right),
        "join" => or_null(join_of(alloc, left, right, 9)),
        "from" => from_now_of(alloc, left, Some(right)),
        _ => slice_by(alloc, left, Some(right), None),
    }
}

/// Whether an operator gives this between two values.
fn operates(alloc: Global, operator: &str, left: &Doc, right: &str, wanted: &str) -> bool {
    match Doc::read(alloc, right.as_bytes()) {
        Ok(right) => {
            let is_so = is_answer(alloc, operated(alloc, operator, left, &right), wanted);
            drop(right);
            is_so
        }
        Err(_) => false,
    }
}

/// Whether the operator of a row, behind its left side, gives what the row ends with.
fn row_operates(alloc: Global, left: &Doc, row: &str) -> bool {
    match row.split_once('|') {
        Some((operator, rest)) => match rest.split_once('|') {
            Some((right, wanted)) => operates(alloc, operator, left, right, wanted),
            None => false,
        },
        None => false,
    }
}

fn left_operates(alloc: Global, left: &str, row: &str) -> bool {
    match Doc::read(alloc, left.as_bytes()) {
        Ok(left) => {
            let is_so = row_operates(alloc, &left, row);
            drop(left);
            is_so
        }
        Err(_) => false,
    }
}

fn is_operation(alloc: Global, row: &str) -> bool {
    match row.split_once('|') {
        Some((left, row)) => left_operates(alloc, left, row),
        None => false,
    }
}

/// A left side, an operator, a right side, and what they give. What is joined weighs at most 9; spans lead from moments to others.
const OPERATIONS: &str = r#"1|+|2|3
"a"|+|"b"|"ab"
1|+|"b"|!3
9223372036854775807|+|1|!4
1|-|2|-1
"a"|-|"a"|!3
3|*|-4|-12
6|/|3|2
7|/|2|!5
2|**|3|8
2|**|-1|!5
null|**|1|!3
"ex"|in|"text"|true
"xe"|in|"text"|false
[1]|in|[[1],2]|true
1|in|[[1],2]|false
"k"|in|{"k":0}|true
""|in|{"":0}|true
1|in|{"k":0}|!3
[10,20]|[]|-1|20
"aéb"|[]|1|"é"
"ab"|[]|2|!6
{"k":5}|[]|"k"|5
{"k":5}|[]|"x"|!6
[10]|[]|"k"|!3
[10,20,30]|[:]|1|[20,30]
"abc"|[:]|-1|"c"
[10]|[:]|null|!3
"a,b,c"|split|","|["a","b","c"]
",a,,"|split|","|["","a","",""]
"a--b-c"|split|"--"|["a","b-c"]
"aaa"|split|"aa"|["","a"]
""|split|","|[""]
""|split|""|[]
"aéb"|split|""|["a","é","b"]
"a"|split|1|!3
[]|split|"a"|!3
["a",1,"b"]|join|", "|"a, 1, b"
[]|join|"x"|""
[-7]|join|"x"|"-7"
[null]|join|"x"|!3
["a"]|join|1|!3
"ab"|join|"x"|!3
""|from|"2024-02-28T12:00:00.250Z"|"2024-02-28T12:00:00.250Z"
"1 day"|from|"2024-02-28T12:00:00.250Z"|"2024-02-29T12:00:00.250Z"
"- 1 day"|from|"2024-02-28T12:00:00.250Z"|"2024-02-27T12:00:00.250Z"
"+2w1d"|from|"2024-02-28T12:00:00.250Z"|"2024-03-14T12:00:00.250Z"
" 2 weeks 1 day 3 hours 4 minutes 5 seconds "|from|"2024-02-28T12:00:00.250Z"|"2024-03-14T15:04:05.250Z"
"90 min"|from|"2024-02-28T12:00:00.250Z"|"2024-02-28T13:30:00.250Z"
"0s"|from|"2024-02-28T12:00:00.250Z"|"2024-02-28T12:00:00.250Z"
"1 hour 1 day"|from|"2024-02-28T12:00:00.250Z"|!11
"1 day 1 day"|from|"2024-02-28T12:00:00.250Z"|!11
"1"|from|"2024-02-28T12:00:00.250Z"|!11
"day"|from|"2024-02-28T12:00:00.250Z"|!11
"1 month"|from|"2024-02-28T12:00:00.250Z"|!11
"--1 day"|from|"2024-02-28T12:00:00.250Z"|!11
"1 Day"|from|"2024-02-28T12:00:00.250Z"|!11
"99999999999999999999999 weeks"|from|"2024-02-28T12:00:00.250Z"|!4
"-99999 weeks"|from|"2024-02-28T12:00:00.250Z"|!4
"1 day"|from|"1 day"|!3
"1 day"|from|null|!3
"1 dax"|from|null|!11
1|from|null|!3"#;

#[test]
fn operators_take_values_of_any_kind(rt: HostRuntime) {
    for row in OPERATIONS.lines() {
        assert!(rt; is_operation(rt.alloc(), row), "{row}");
    }
}

fn answered(alloc: Global, function: &str, value: &Doc) -> Result<Doc, Stop> {
    match function {
        "-" => negation_of(value),
        "+" => kept_number_of(value),
        "abs" => absolute_of(value),
        "number" => number_of(value),
        "lowercase" => lowercase_of(alloc, value),
        "uppercase" => uppercase_of(alloc, value),
        "strip" => strip_of(alloc, value),
        "lstrip" => left_strip_of(alloc, value),
        "rstrip" => right_strip_of(alloc, value),
        "from" => from_now_of(alloc, value, None),
        "least" => least_of(items(value)),
        _ => greatest_of(items(value)),
    }
}

/// The items of a list.
fn items(list: &Doc) -> &[Doc] {
    match list {
        Doc::List(items) => items,
        _ => &[],
    }
}

fn answers(alloc: Global, function: &str, value: &str, wanted: &str) -> bool {
    match Doc::read(alloc, value.as_bytes()) {
        Ok(value) => {
            let is_so = is_answer(alloc, answered(alloc, function, &value), wanted);
            drop(value);
            is_so
        }
        Err(_) => false,
    }
}

/// Whether the function of a row gives, for its value, what the row ends with.
fn is_function(alloc: Global, row: &str) -> bool {
    match row.split_once('|') {
        Some((function, rest)) => match rest.split_once('|') {
            Some((value, wanted)) => answers(alloc, function, value, wanted),
            None => false,
        },
        None => false,
    }
}

/// A function, a value, and what it gives: the least and the greatest are those of a list's items.
const ANSWERS: &str = r#"-|5|-5
-|-9223372036854775808|!4
-|true|!3
+|5|5
+|"5"|!3
abs|-5|5
abs|-9223372036854775808|!4
abs|[]|!3
number|"-12"|-12
number|"+12"|!3
number|12|!3
lowercase|"AbCÉ"|"abcÉ"
uppercase|"aBcé"|"ABCé"
uppercase|1|!3
strip|" \ta b\n\r "|"a b"
strip|"   "|""
lstrip|" a "|"a "
rstrip|" a "|" a"
rstrip|null|!3
least|[3,-1,2]|-1
greatest|[3,-1,2]|3
least|[7]|7
greatest|[7]|7
least|[]|!3
greatest|[]|!3
least|[1,"a"]|!3
greatest|[1,"a"]|!3
from|"1 day"|!2
from|"1 dax"|!11
from|1|!3"#;

#[test]
fn functions_take_a_value_of_any_kind(rt: HostRuntime) {
    for row in ANSWERS.lines() {
        assert!(rt; is_function(rt.alloc(), row), "{row}");
    }
}

/// Whether the numbers of a range, of which at most 4 are made, are these.
fn is_range(alloc: Global, from: Doc, end: Doc, step: Doc, wanted: &str) -> bool {
    let made = or_null(range_of(alloc, &from, &end, &step, 4));
    drop(from);
    drop(end);
    drop(step);
    is_answer(alloc, made, wanted)
}

/// Whether the range of a row is made: from a number, before another, in steps of a third.
fn is_range_row(alloc: Global, row: &str) -> Option<bool> {
    let (from, rest) = row.split_once(' ')?;
    let (end, rest) = rest.split_once(' ')?;
    let (step, wanted) = rest.split_once(' ')?;
    let from = from.parse::<i64>().ok()?;
    let end = end.parse::<i64>().ok()?;
    let step = step.parse::<i64>().ok()?;
    Some(is_range(alloc, Doc::Int(from), Doc::Int(end), Doc::Int(step), wanted))
}

const RANGES: &str = "1 4 1 [1,2,3]
1 8 3 [1,4,7]
1 7 3 [1,4]
4 1 -1 [4,3,2]
3 -4 -3 [3,0,-3]
1 1 1 []
2 1 1 []
1 2 -1 []
0 4 1 [0,1,2,3]
0 5 1 null
0 5 0 !4
9223372036854775805 9223372036854775807 5 [9223372036854775805]
-9223372036854775807 -9223372036854775808 -9223372036854775808 [-9223372036854775807]";

#[test]
fn ranges_stop_before_their_end(rt: HostRuntime) {
    for row in RANGES.lines() {
        assert!(rt; is_range_row(rt.alloc(), row) == Some(true), "{row}");
    }
    assert!(rt; is_range(rt.alloc(), Doc::Int(1), Doc::Null, Doc::Int(1), "!3"));
}

fn two(alloc: Global, first: &str, second: &str) -> Option<Vec<(String, Doc)>> {
    let first = String::from_str(alloc, first).ok()?;
    let second = String::from_str(alloc, second).ok()?;
    Vec::from_array(alloc, [(first, Doc::Int(1)), (second, Doc::Int(2))]).ok()
}

/// Whether a map of two members with these keys, 1 and 2, is this.
fn is_map(alloc: Global, first: &str, second: &str, wanted: &str) -> bool {
    match two(alloc, first, second) {
        Some(members) => is_answer(alloc, map_of(alloc, members), wanted),
        None => false,
    }
}

fn is_map_row(alloc: Global, row: &str) -> bool {
    match row.split_once('|') {
        Some((first, rest)) => match rest.split_once('|') {
            Some((second, wanted)) => is_map(alloc, first, second, wanted),
            None => false,
        },
        None => false,
    }
}

/// Two keys, and the map.
const MAPS: &str = r#"b|a|{"a":2,"b":1}
|a|{"":1,"a":2}
a|a|!9
||!9"#;

#[test]
fn a_map_has_no_key_twice(rt: HostRuntime) {
    for row in MAPS.lines() {
        assert!(rt; is_map_row(rt.alloc(), row), "{row}");
    }
}
