//! Texts by their characters.
ghost use Rattle.std.specs.Prelude.{◌≡◌, ◌-◌, length, take, drop, IfOk, string_bytes, encode_utf8_all};
ghost use Rattle.std.specs.List.{slice_get};
ghost use Rattle.std.specs.Str.{chars};

use std::alloc::{AllocError, Global};

/// How many characters a text has.
pub fn count_of(text: &str) -> usize
    ensures { result ≡ length (chars text.now) }
{
    text.chars().count()
}

/// The character at a place, if there is one.
pub fn char_at(text: &str, place: usize) -> Option<char>
    ensures { result ≡ slice_get (chars text.now) place }
{
    text.chars().nth(place)
}

/// The characters from a place on and before another; none, where they cross.
pub fn chars_between(
    alloc: Global,
    text: &str,
    from: usize,
    to: usize,
) -> Result<String, AllocError>
    ensures { IfOk result (λ part. string_bytes part ≡ encode_utf8_all (take (to - from) (drop from (chars text.now)))) }
{
    text.chars()
        .skip(from)
        .take(to.saturating_sub(from))
        .collect(alloc)
}
