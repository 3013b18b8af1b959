//! The order in which texts are kept that were read: by their bytes with a `}` behind them. So an expression is found by its text, and by a text in
//! which it ends before a `}`: no expression with a `}` behind it begins another one with a `}` behind it.
ghost use Rattle.std.specs.Prelude.{◌≡◌, ◌≤◌, length};
ghost use Rattle.jsone_render.specs.Readings.{first_or_curly, Begins};

use std::cmp::Ordering;

/// The first byte, or else the `}` behind the bytes.
fn first_or_curly(bytes: &[u8]) -> u8
    ensures { result ≡ first_or_curly bytes.now }
{
    match bytes {
        [] => b'}',
        [first, ..] => *first,
    }
}

/// How a text stands to the bytes: equal, if they begin with it and end there, or a `}` is next.
pub(crate) fn order(text: &[u8], bytes: &[u8]) -> Ordering
    ensures { result ≡ Ordering.Equal → length text.now ≤ length bytes.now → Begins text.now bytes.now }
{
    let shared = text.len().min(bytes.len());
    let (front, rest) = text.split_at(shared);
    let (start, behind) = bytes.split_at(shared);
    match front.cmp(start) {
        Ordering::Equal => first_or_curly(rest).cmp(&first_or_curly(behind)),
        unequal => unequal,
    }
}
