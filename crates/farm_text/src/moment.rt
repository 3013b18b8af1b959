ghost use Rattle.std.specs.Prelude.{◌≡◌, ℕ, List, [], ◌∷◌, ◌++◌, OnOk, ◌+◌, ◌%◌, ◌≤◌, ◌↔◌, min, pos, IsSome, IfSome, IfOk};
ghost use Rattle.json.specs.Token.{string};
ghost use Rattle.jiff_core.specs.Calendar.{IsCivilDate, days_from_civil};
ghost use Rattle.farm_text.specs.Moment.{IsMomentText, last_digits};
ghost use Rattle.farm_text.specs.declared.moment.TheConstants.{LAST_MOMENT, LAST_TOLD_MOMENT};

use crate::text::Text;
use jiff_core::civil::Date;
use json::Writer;
use std::alloc::{AllocError, Global};
use std::marker::Model;
use std::str;

/// The last moment that there is: the last millisecond of the year 9999.
pub const LAST_MOMENT: u64 = 253_402_300_799_999;

/// The last moment that a clock tells or a text gives: the last millisecond of the year 9998.
pub const LAST_TOLD_MOMENT: u64 = 253_370_764_799_999;

const MILLIS_PER_DAY: u64 = 86_400_000;

/// A moment: whole milliseconds since 1970-01-01T00:00:00Z, without leap seconds.
#[derive(Clone, Copy, Debug, PartialEq, Eq, PartialOrd, Ord, Hash)]
pub struct Moment {
    millis: u64,
}

impl Model for Moment {
    ghost Value = { ℕ };

    ghost view = { λ m. m.millis };

    ghost invariant = { λ m. m.millis ≤ LAST_MOMENT };

    ghost inverse = { λ n. record { millis = n } };
}

impl Moment {
    /// 1970-01-01T00:00:00Z.
    pub const FIRST: Moment = Moment { millis: 0 };

    /// The moment so many milliseconds after 1970-01-01T00:00:00Z, if there is one.
    pub fn from_millis(millis: u64) -> Option<Moment>
        ensures within { IsSome result ↔ (millis ≤ LAST_MOMENT) }
        ensures value { IfSome result (λ m. m ≡ millis) }
    {
        if millis <= LAST_MOMENT {
            Some(Moment { millis })
        } else {
            None
        }
    }

    /// The moment so many milliseconds after the first one, or the last that a clock tells.
    pub(crate) fn saturating(millis: u128) -> Moment
        ensures { result ≡ min millis LAST_TOLD_MOMENT }
    {
        Moment {
            millis: millis.min(u128::from(LAST_TOLD_MOMENT)) as u64,
        }
    }

    /// The moment, or the last that a clock tells.
    pub(crate) fn min_told(self) -> Moment
        ensures { result ≡ min self LAST_TOLD_MOMENT }
    {
        Moment {
            millis: self.millis.min(LAST_TOLD_MOMENT),
        }
    }

    /// The moment's text, as a text of its own.
    pub fn to_text(self, alloc: Global) -> Result<Text, AllocError>
        ensures { IfOk result (IsMomentText self) }
    {
        let bytes = write_moment(self);
        let Ok(text) = str::from_utf8(&bytes) else {
            unreachable!();
        };
        Text::from_str(alloc, text)
    }

    /// Writes the moment's text as JSON, behind what the writer has.
    pub fn write_to(self, out: &mut Writer) -> Result<(), AllocError>
        ensures ok { OnOk result ((text : List ℕ) × IsMomentText self text × (out.new.tokens ≡ out.old.tokens ++ string text ∷ [])) }
        ensures before { out.new.before ≡ out.old.before }
    {
        let bytes = write_moment(self);
        let Ok(text) = str::from_utf8(&bytes) else {
            unreachable!();
        };
        out.string(text)
    }

    /// The milliseconds since 1970-01-01T00:00:00Z.
    pub fn millis(self) -> u64
        ensures value { result ≡ self }
        ensures within { result ≤ LAST_MOMENT }
    {
        self.millis
    }
}

/// The moment's text, `YYYY-MM-DDTHH:MM:SS.mmmZ` (RFC 3339, in UTC).
pub fn write_moment(moment: Moment) -> [u8; 24]
    ensures { IsMomentText moment result }
{
    let millis = moment.millis();
    let (year, month, day) = civil_day(millis / MILLIS_PER_DAY);
    let [y0, y1, y2, y3] = four_digits(year);
    let [m0, m1] = two_digits(month);
    let [d0, d1] = two_digits(day);
    let [h0, h1] = two_digits((millis / 3_600_000 % 24) as u8);
    let [i0, i1] = two_digits((millis / 60_000 % 60) as u8);
    let [s0, s1] = two_digits((millis / 1_000 % 60) as u8);
    let [f0, f1, f2] = three_digits((millis % 1_000) as u16);
    [
        y0, y1, y2, y3, b'-', m0, m1, b'-', d0, d1, b'T', h0, h1, b':', i0, i1, b':', s0, s1, b'.',
        f0, f1, f2, b'Z',
    ]
}

// The year, the month and the day of a day that is counted from 1970-01-01.
fn civil_day(number: u64) -> (u16, u8, u8)
    requires { number ≤ 2_932_896 }
    ensures civil { IsCivilDate (pos result.0) result.1 result.2 }
    ensures number { days_from_civil (pos result.0) result.1 result.2 ≡ pos number }
{
    let Ok(date) = Date::from_unix_epoch_day(number as i64) else {
        unreachable!();
    };
    (date.year as u16, date.month, date.day)
}

fn digit(n: u16) -> u8
    ensures { result ≡ 48 + n % 10 }
{
    b'0' + (n % 10) as u8
}

fn two_digits(n: u8) -> [u8; 2]
    ensures { result ≡ last_digits 2 n }
{
    let n = u16::from(n);
    [digit(n / 10), digit(n)]
}

fn three_digits(n: u16) -> [u8; 3]
    ensures { result ≡ last_digits 3 n }
{
    [digit(n / 10 / 10), digit(n / 10), digit(n)]
}

fn four_digits(n: u16) -> [u8; 4]
    ensures { result ≡ last_digits 4 n }
{
    [
        digit(n / 10 / 10 / 10),
        digit(n / 10 / 10),
        digit(n / 10),
        digit(n),
    ]
}

/// A moment has one text.
pub fn moment_texts_are_one()
    ensures { (millis : ℕ) (a b : List ℕ) → IsMomentText millis a → IsMomentText millis b → a ≡ b }
{}

/// The last moments: what the contracts say of the two constants, they say of these numbers.
pub fn the_last_moments()
    ensures last { LAST_MOMENT ≡ 253402300799999 }
    ensures told { LAST_TOLD_MOMENT ≡ 253370764799999 }
{}
