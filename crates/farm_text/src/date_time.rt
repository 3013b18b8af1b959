//! Moments from their text.
ghost use Rattle.std.specs.Prelude.{◌≡◌, ℕ, ℤ, pos, ◌+ℤ◌, ◌-ℤ◌, ◌*ℤ◌, ◌+◌, ◌*◌, ◌^◌, ◌<◌, ◌≤◌, List, ◌∷◌, ◌++◌, Some, None, IfSome, IsSomeAnd};
ghost use Rattle.jiff_core.specs.Calendar.{IsCivilDate, IsEpochDay, IsWithin, days_from_civil};
ghost use Rattle.farm_text.specs.Digits.{digits_ahead};
ghost use Rattle.farm_text.specs.DateTime.{IsDateTime, IsLocalTime, IsFullDate, IsTimeOfDay, IsFraction, IsHoursMinutes, IsOffset};
ghost use Rattle.farm_text.specs.Moment.{IsMomentText, last_digits};

use crate::moment::{LAST_TOLD_MOMENT, Moment};
use jiff_core::civil::Date;

/// The moment whose text this is, if it is one: `YYYY-MM-DDTHH:MM:SS`, then nothing or `.` and 1 to 9 digits, then `Z`, `+hh:mm` or `-hh:mm` (RFC 3339).
///
/// Digits after the third are dropped. No moment lies before 1970 or after the end of the year 9998, also by its offset.
pub fn read_moment(text: &[u8]) -> Option<Moment>
    ensures is { IfSome result (λ m. IsDateTime m text.now) }
    ensures none { result ≡ None → (m : ℕ) → ¬ IsDateTime m text.now }
    ensures only { (m : ℕ) → IsDateTime m text.now → result ≡ Some m }
{
    let (days, rest) = full_date(text)?;
    let (seconds, rest) = time_of_day(after(rest, b'T')?)?;
    let (thousandths, rest) = fraction(rest)?;
    let offset = offset(rest)?;
    moment(days, seconds, thousandths, offset)
}

/// What is written of a moment is read as that moment, up to the last one that is read.
pub fn written_moments_are_read_back()
    ensures { (millis : ℕ) (text : List ℕ) → millis ≤ 253_370_764_799_999
        → IsMomentText millis text → IsDateTime millis text }
{}

/// A text is the date-time of one moment, and what is written of a moment is written of no other.
pub fn a_text_has_one_moment()
    ensures read { (m n : ℕ) (text : List ℕ) → IsDateTime m text → IsDateTime n text → m ≡ n }
    ensures written { (m n : ℕ) (text : List ℕ) → IsMomentText m text → IsMomentText n text → m ≡ n }
{}

// The moment of a local time, if it lies where moments are read.
fn moment(days: i32, seconds: u32, thousandths: u32, offset: i32) -> Option<Moment>
    requires seconds { seconds < 86_400 }
    requires thousandths { thousandths < 1_000 }
    ensures is { IfSome result (λ m. IsLocalTime m days seconds thousandths offset) }
    ensures only { (m : ℕ) → IsLocalTime m days seconds thousandths offset → result ≡ Some m }
{
    let millis = utc_millis(days, seconds, thousandths, offset);
    if millis < 0 || millis > LAST_TOLD_MOMENT as i64 {
        return None;
    }
    Moment::from_millis(millis as u64)
}

// The milliseconds after 1970-01-01T00:00:00Z, or before it.
fn utc_millis(days: i32, seconds: u32, thousandths: u32, offset: i32) -> i64
    requires seconds { seconds < 86_400 }
    requires thousandths { thousandths < 1_000 }
    ensures { result ≡ (days *ℤ pos 86_400_000 +ℤ pos (1_000 * seconds + thousandths))
        -ℤ offset *ℤ pos 60_000 }
{
    let local = i64::from(days) * 86_400_000 + i64::from(1_000 * seconds + thousandths);
    local - i64::from(offset) * 60_000
}

// `YYYY-MM-DD` at the front: the days after 1 January 1970, and the rest.
fn full_date(text: &[u8]) -> Option<(i32, &[u8])>
    ensures bound { IfSome result (λ p. IsEpochDay p.0) }
    ensures is { IfSome result (λ p. (date : List ℕ) × IsFullDate p.0 date × (text.now ≡ date ++ p.1.now)) }
    ensures only { (days : ℤ) (date rest : List ℕ) → IsFullDate days date → text.now ≡ date ++ rest
        → IsSomeAnd result (λ p. (p.0 ≡ days) × (p.1.now ≡ rest)) }
{
    let (year, rest) = four_digits(text)?;
    let (month, rest) = two_digits_behind(rest, b'-')?;
    let (day, rest) = two_digits_behind(rest, b'-')?;
    let days = day_number(year, month, day)?;
    Some((days, rest))
}

// The days after 1 January 1970, of a day that the calendar has.
fn day_number(year: u16, month: u8, day: u8) -> Option<i32>
    requires year { year < 10_000 }
    requires month { month < 100 }
    requires day { day < 100 }
    ensures is { IfSome result (λ n. IsCivilDate (pos year) month day
        × (n ≡ days_from_civil (pos year) month day)) }
    ensures bound { IfSome result IsEpochDay }
    ensures none { result ≡ None → ¬ IsCivilDate (pos year) month day }
{
    match Date::new(year as i16, month as i8, day as i8) {
        Ok(date) => Some(date.to_unix_epoch_day()),
        Err(_) => None,
    }
}

// `HH:MM:SS` at the front: the seconds after midnight, and the rest.
fn time_of_day(text: &[u8]) -> Option<(u32, &[u8])>
    ensures bound { IfSome result (λ p. p.0 < 86_400) }
    ensures is { IfSome result (λ p. (time : List ℕ) × IsTimeOfDay p.0 time × (text.now ≡ time ++ p.1.now)) }
    ensures only { (seconds : ℕ) (time rest : List ℕ) → IsTimeOfDay seconds time → text.now ≡ time ++ rest
        → IsSomeAnd result (λ p. (p.0 ≡ seconds) × (p.1.now ≡ rest)) }
{
    let (minutes, rest) = hours_minutes(text)?;
    let (second, rest) = two_digits_behind(rest, b':')?;
    if second > 59 {
        return None;
    }
    Some((60 * minutes + u32::from(second), rest))
}

// `hh:mm` at the front: the minutes, and the rest.
fn hours_minutes(text: &[u8]) -> Option<(u32, &[u8])>
    ensures bound { IfSome result (λ p. p.0 < 1_440) }
    ensures is { IfSome result (λ p. (shift : List ℕ) × IsHoursMinutes p.0 shift × (text.now ≡ shift ++ p.1.now)) }
    ensures only { (minutes : ℕ) (shift rest : List ℕ) → IsHoursMinutes minutes shift → text.now ≡ shift ++ rest
        → IsSomeAnd result (λ p. (p.0 ≡ minutes) × (p.1.now ≡ rest)) }
{
    let (hour, rest) = two_digits(text)?;
    let (minute, rest) = two_digits_behind(rest, b':')?;
    if hour > 23 || minute > 59 {
        return None;
    }
    Some((60 * u32::from(hour) + u32::from(minute), rest))
}

// The rest of a text that begins with the mark.
fn after(text: &[u8], mark: u8) -> Option<&[u8]>
    ensures is { IfSome result (λ rest. text.now ≡ mark ∷ rest.now) }
    ensures only { (rest : List ℕ) → text.now ≡ mark ∷ rest → IsSomeAnd result (λ r. r.now ≡ rest) }
{
    let [first, rest @ ..] = text else {
        return None;
    };
    if *first == mark { Some(rest) } else { None }
}

fn four_digits(text: &[u8]) -> Option<(u16, &[u8])>
    ensures is { IfSome result (λ p. text.now ≡ last_digits 4 p.0 ++ p.1.now) }
    ensures bound { IfSome result (λ p. p.0 < 10_000) }
    ensures only { (n : ℕ) (rest : List ℕ) → n < 10_000 → text.now ≡ last_digits 4 n ++ rest
        → IsSomeAnd result (λ p. (p.0 ≡ n) × (p.1.now ≡ rest)) }
{
    let (high, rest) = two_digits(text)?;
    let (low, rest) = two_digits(rest)?;
    Some((100 * u16::from(high) + u16::from(low), rest))
}

// Two digits behind the mark: their number, and the rest.
fn two_digits_behind(text: &[u8], mark: u8) -> Option<(u8, &[u8])>
    ensures is { IfSome result (λ p. text.now ≡ mark ∷ (last_digits 2 p.0 ++ p.1.now)) }
    ensures bound { IfSome result (λ p. p.0 < 100) }
    ensures only { (n : ℕ) (rest : List ℕ) → n < 100 → text.now ≡ mark ∷ (last_digits 2 n ++ rest)
        → IsSomeAnd result (λ p. (p.0 ≡ n) × (p.1.now ≡ rest)) }
{
    two_digits(after(text, mark)?)
}

fn two_digits(text: &[u8]) -> Option<(u8, &[u8])>
    ensures is { IfSome result (λ p. text.now ≡ last_digits 2 p.0 ++ p.1.now) }
    ensures bound { IfSome result (λ p. p.0 < 100) }
    ensures only { (n : ℕ) (rest : List ℕ) → n < 100 → text.now ≡ last_digits 2 n ++ rest
        → IsSomeAnd result (λ p. (p.0 ≡ n) × (p.1.now ≡ rest)) }
{
    let [high, low, rest @ ..] = text else {
        return None;
    };
    let high = digit(*high)?;
    let low = digit(*low)?;
    Some((10 * high + low, rest))
}

fn digit(byte: u8) -> Option<u8>
    ensures is { IfSome result (λ d. (byte ≡ 48 + d) × (d < 10)) }
    ensures none { result ≡ None → (d : ℕ) → d < 10 → ¬ (byte ≡ 48 + d) }
{
    if byte.is_ascii_digit() {
        Some(byte - b'0')
    } else {
        None
    }
}

// Nothing, or `.` and 1 to 9 digits at the front: the thousandths, and the rest.
fn fraction(text: &[u8]) -> Option<(u32, &[u8])>
    ensures bound { IfSome result (λ p. p.0 < 1_000) }
    ensures is { IfSome result (λ p. (digits : List ℕ) × IsFraction p.0 digits × (text.now ≡ digits ++ p.1.now)) }
    ensures only { (thousandths : ℕ) (minutes : ℤ) (digits zone : List ℕ) → IsFraction thousandths digits → IsOffset minutes zone
        → text.now ≡ digits ++ zone → IsSomeAnd result (λ p. (p.0 ≡ thousandths) × (p.1.now ≡ zone)) }
{
    let Some(digits) = after(text, b'.') else {
        return Some((0, text));
    };
    let (number, scale, rest) = leading_number(digits)?;
    if scale == 1 {
        return None;
    }
    Some(((number * 1_000 / scale) as u32, rest))
}

// At most 9 digits at the front, and no digit after them: their number, ten to the power of their count, and the rest.
fn leading_number(text: &[u8]) -> Option<(u64, u64, &[u8])>
    ensures is { IfSome result (λ p. (k : ℕ) × (k ≤ 9) × (p.1 ≡ 10 ^ k) × (p.0 < 10 ^ k)
        × (text.now ≡ last_digits k p.0 ++ p.2.now) × (digits_ahead p.2.now ≡ 0)) }
    ensures none { result ≡ None → 9 < digits_ahead text.now }
{
    let mut rest = text;
    let mut number = 0u64;
    let mut scale = 1u64;
    'digits: while let Some((digit, more)) = first_digit(rest) {
        if scale == 1_000_000_000 {
            return None;
        }
        number = 10 * number + u64::from(digit);
        scale *= 10;
        rest = more;
    }
    Some((number, scale, rest))
}

fn first_digit(text: &[u8]) -> Option<(u8, &[u8])>
    ensures is { IfSome result (λ p. (p.0 < 10) × (text.now ≡ (48 + p.0) ∷ p.1.now)) }
    ensures none { result ≡ None → digits_ahead text.now ≡ 0 }
{
    let [first, rest @ ..] = text else {
        return None;
    };
    Some((digit(*first)?, rest))
}

// `Z`, `+hh:mm` or `-hh:mm`: by how many minutes the local time is ahead of UTC.
fn offset(text: &[u8]) -> Option<i32>
    ensures bound { IfSome result (IsWithin 1_440) }
    ensures is { IfSome result (λ minutes. IsOffset minutes text.now) }
    ensures only { (minutes : ℤ) → IsOffset minutes text.now → result ≡ Some minutes }
{
    if let Some(shift) = after(text, b'+') {
        return Some(whole_shift(shift)? as i32);
    }
    if let Some(shift) = after(text, b'-') {
        return Some(-(whole_shift(shift)? as i32));
    }
    let rest = after(text, b'Z')?;
    if rest.is_empty() { Some(0) } else { None }
}

// `hh:mm`, and no more.
fn whole_shift(text: &[u8]) -> Option<u32>
    ensures bound { IfSome result (λ minutes. minutes < 1_440) }
    ensures is { IfSome result (λ minutes. IsHoursMinutes minutes text.now) }
    ensures only { (minutes : ℕ) → IsHoursMinutes minutes text.now → result ≡ Some minutes }
{
    let (minutes, rest) = hours_minutes(text)?;
    if rest.is_empty() { Some(minutes) } else { None }
}
