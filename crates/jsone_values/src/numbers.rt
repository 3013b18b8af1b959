//! Whole numbers of 64 bits with a sign.
ghost use Rattle.std.specs.Prelude.{◌≡◌, ◌<◌, ◌+◌, ◌-◌, ◌*◌, ◌^◌, min, ℤ, pos, neg_ℤ, ◌+ℤ◌, ◌-ℤ◌, ◌*ℤ◌};
ghost use Rattle.std.specs.Char.{is_ascii_digit};
ghost use Rattle.std.specs.List.{list_all};
ghost use Rattle.std.specs.Option.{SomeIff};
ghost use Rattle.std.specs.Int.{int_pow};
ghost use Rattle.jsone_values.specs.Numbers.{IsInRange, IsQuotient, IsPower, IsNumberOf, are_digits, digits_from};

use crate::faults::Fault;

/// The sum, where it has 64 bits with a sign.
pub fn plus(left: i64, right: i64) -> Result<i64, Fault>
    ensures { IsInRange (left +ℤ right) result }
{
    match left.checked_add(right) {
        Some(number) => Ok(number),
        None => Err(Fault::OutOfRange),
    }
}

/// The difference, likewise.
pub fn minus(left: i64, right: i64) -> Result<i64, Fault>
    ensures { IsInRange (left -ℤ right) result }
{
    match left.checked_sub(right) {
        Some(number) => Ok(number),
        None => Err(Fault::OutOfRange),
    }
}

/// The product, likewise.
pub fn times(left: i64, right: i64) -> Result<i64, Fault>
    ensures { IsInRange (left *ℤ right) result }
{
    match left.checked_mul(right) {
        Some(number) => Ok(number),
        None => Err(Fault::OutOfRange),
    }
}

/// The negative of a number, likewise.
pub fn negated(number: i64) -> Result<i64, Fault>
    ensures { IsInRange (neg_ℤ number) result }
{
    match number.checked_neg() {
        Some(number) => Ok(number),
        None => Err(Fault::OutOfRange),
    }
}

/// The quotient, where the division leaves no rest.
pub fn over(left: i64, right: i64) -> Result<i64, Fault>
    ensures { IsQuotient left right result }
{
    if right == 0 {
        return Err(Fault::NotExact);
    }
    if right == -1 {
        return negated(left);
    }
    if left % right == 0 {
        Ok(left / right)
    } else {
        Err(Fault::NotExact)
    }
}

fn raised(base: i64, turns: u32) -> Result<i64, Fault>
    ensures { IsInRange (int_pow base turns) result }
{
    match base.checked_pow(turns) {
        Some(number) => Ok(number),
        None => Err(Fault::OutOfRange),
    }
}

/// The power. By the 64th turn a base of 2 or more has passed 64 bits, and one of 1 or less changes with the exponent's last bit alone.
pub fn power(base: i64, exponent: i64) -> Result<i64, Fault>
    ensures { IsPower base exponent result }
{
    if exponent < 0 {
        return Err(Fault::NotExact);
    }
    let turns = exponent as u64;
    if turns < 64 {
        raised(base, turns as u32)
    } else {
        raised(base, (64 + turns % 2) as u32)
    }
}

/// The number with one more digit behind it.
fn with_digit(number: u64, digit: u8) -> Option<u64>
    ensures { SomeIff result (number * 10 + (digit - 48) < 2 ^ 64) (number * 10 + (digit - 48)) }
{
    match number.checked_mul(10) {
        Some(tens) => tens.checked_add(u64::from(digit.saturating_sub(b'0'))),
        None => None,
    }
}

/// What these digits write, where 64 bits hold it.
fn size_of(digits: &[u8]) -> Option<u64>
    ensures { SomeIff result (digits_from 0 digits.now < 2 ^ 64) (digits_from 0 digits.now) }
{
    let mut size = 0u64;
    for digit in digits {
        match with_digit(size, *digit) {
            Some(more) => size = more,
            None => return None,
        }
    }
    Some(size)
}

/// What these digits write; 2^64 - 1 stands for all that is more.
pub(crate) fn saturated(digits: &[u8]) -> u64
    ensures { result ≡ min (digits_from 0 digits.now) 18446744073709551615 }
{
    match size_of(digits) {
        Some(size) => size,
        None => u64::MAX,
    }
}

/// The number that these digits write.
pub fn from_digits(digits: &[u8]) -> Result<i64, Fault>
    ensures { IsInRange (pos (digits_from 0 digits.now)) result }
{
    match size_of(digits) {
        Some(size) if size <= 0x7fff_ffff_ffff_ffff => Ok(size as i64),
        _ => Err(Fault::OutOfRange),
    }
}

/// The number below 0, or 0, that is written by these digits behind a minus.
fn below_zero(digits: &[u8]) -> Result<i64, Fault>
    ensures { IsInRange (neg_ℤ (pos (digits_from 0 digits.now))) result }
{
    match size_of(digits) {
        Some(0x8000_0000_0000_0000) => Ok(i64::MIN),
        Some(size) if size <= 0x7fff_ffff_ffff_ffff => Ok(-(size as i64)),
        _ => Err(Fault::OutOfRange),
    }
}

fn all_are_digits(bytes: &[u8]) -> bool
    ensures { result ≡ list_all is_ascii_digit bytes.now }
{
    bytes.iter().all(|byte| byte.is_ascii_digit())
}

fn are_digits(bytes: &[u8]) -> bool
    ensures { result ≡ are_digits bytes.now }
{
    !bytes.is_empty() && all_are_digits(bytes)
}

/// The number that a text writes: digits, behind a minus or not.
pub fn from_text(text: &[u8]) -> Result<i64, Fault>
    ensures { IsNumberOf text.now result }
{
    if are_digits(text) {
        return from_digits(text);
    }
    if !text.is_empty() && text[0] == b'-' && are_digits(&text[1..]) {
        return below_zero(&text[1..]);
    }
    Err(Fault::WrongKind)
}
