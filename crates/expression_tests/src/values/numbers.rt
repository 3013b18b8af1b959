//! Whole numbers.
use crate::answers::is_number;
use jsone_values::faults::Fault;
use jsone_values::numbers::{from_digits, from_text, minus, negated, over, plus, power, times};

fn operated(operator: &str, left: i64, right: i64) -> Result<i64, Fault> {
    match operator {
        "+" => plus(left, right),
        "-" => minus(left, right),
        "*" => times(left, right),
        "/" => over(left, right),
        "**" => power(left, right),
        _ => negated(right),
    }
}

/// Whether the operator of a row gives, between its numbers, what the row ends with.
fn is_row(row: &str) -> Option<bool> {
    let (left, rest) = row.split_once(' ')?;
    let (operator, rest) = rest.split_once(' ')?;
    let (right, wanted) = rest.split_once(" ~ ")?;
    let left = left.parse::<i64>().ok()?;
    let right = right.parse::<i64>().ok()?;
    Some(is_number(operated(operator, left, right), wanted))
}

/// Sums, differences and products up to 64 bits; quotients, which leave no rest; powers, whose exponents go from 0 on; and negations.
const NUMBERS: &str = "2 + 3 ~ 5
2 - 3 ~ -1
2 * 3 ~ 6
-7 + 0 ~ -7
-7 - 0 ~ -7
-7 * 0 ~ 0
9223372036854775807 + 1 ~ !4
9223372036854775807 - 1 ~ 9223372036854775806
9223372036854775807 * 1 ~ 9223372036854775807
-9223372036854775808 + 1 ~ -9223372036854775807
-9223372036854775808 - 1 ~ !4
-9223372036854775808 * 1 ~ -9223372036854775808
-9223372036854775808 + -1 ~ !4
-9223372036854775808 - -1 ~ -9223372036854775807
-9223372036854775808 * -1 ~ !4
4294967296 + 2147483648 ~ 6442450944
4294967296 - 2147483648 ~ 2147483648
4294967296 * 2147483648 ~ !4
-4294967296 + 2147483648 ~ -2147483648
-4294967296 - 2147483648 ~ -6442450944
-4294967296 * 2147483648 ~ -9223372036854775808
6 / 2 ~ 3
-6 / 2 ~ -3
6 / -2 ~ -3
-6 / -2 ~ 3
0 / 5 ~ 0
7 / 2 ~ !5
-7 / 2 ~ !5
1 / 0 ~ !5
0 / 0 ~ !5
-9223372036854775808 / -1 ~ !4
-9223372036854775808 / 1 ~ -9223372036854775808
9223372036854775807 / -1 ~ -9223372036854775807
2 ** 3 ~ 8
2 ** 9 ~ 512
-2 ** 2 ~ 4
-2 ** 3 ~ -8
0 ** 0 ~ 1
0 ** 1 ~ 0
0 ** 9223372036854775807 ~ 0
1 ** 9223372036854775807 ~ 1
-1 ** 9223372036854775807 ~ -1
-1 ** 9223372036854775806 ~ 1
-1 ** 64 ~ 1
-1 ** 65 ~ -1
2 ** 62 ~ 4611686018427387904
2 ** 63 ~ !4
-2 ** 63 ~ -9223372036854775808
-2 ** 64 ~ !4
3 ** 9223372036854775807 ~ !4
10 ** 18 ~ 1000000000000000000
10 ** 19 ~ !4
2 ** -1 ~ !5
1 ** -1 ~ !5
0 negated 5 ~ -5
0 negated -9223372036854775808 ~ !4";

#[test]
fn numbers_are_operated_on(rt: HostRuntime) {
    for row in NUMBERS.lines() {
        assert!(rt; is_row(row) == Some(true), "{row}");
    }
}

/// Digits, and the numbers that they write; texts, and those that they write.
const DIGITS: &str = "0|0
007|7
120|120
9223372036854775807|9223372036854775807
9223372036854775808|!4
18446744073709551615|!4
18446744073709551616|!4
99999999999999999999999999999999999999999|!4
00000000000000000000000000000000000000001|1";

const TEXTS: &str = "0|0
-0|0
-7|-7
007|7
9223372036854775807|9223372036854775807
9223372036854775808|!4
-9223372036854775807|-9223372036854775807
-9223372036854775808|-9223372036854775808
-9223372036854775809|!4
-99999999999999999999999|!4
|!3
-|!3
+1|!3
--1|!3
 1|!3
1 |!3
1.5|!3
1e3|!3
0x1|!3
٣|!3";

fn are_digits(row: &str) -> bool {
    match row.split_once('|') {
        Some((digits, wanted)) => is_number(from_digits(digits.as_bytes()), wanted),
        None => false,
    }
}

fn is_text(row: &str) -> bool {
    match row.split_once('|') {
        Some((text, wanted)) => is_number(from_text(text.as_bytes()), wanted),
        None => false,
    }
}

#[test]
fn digits_and_texts_write_numbers(rt: HostRuntime) {
    for row in DIGITS.lines() {
        assert!(rt; are_digits(row), "{row}");
    }
    for row in TEXTS.lines() {
        assert!(rt; is_text(row), "{row}");
    }
}
