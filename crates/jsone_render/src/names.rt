//! Names, which operators bind.
ghost use Rattle.std.specs.Prelude.{◌≡◌};
ghost use Rattle.std.specs.List.{list_all};
ghost use Rattle.std.specs.Str.{bytes_eq};
ghost use Rattle.farm_text.specs.Document.{members_of};
ghost use Rattle.farm_text.specs.Doc.{entries_of};
ghost use Rattle.jsone_expr.specs.Tokens.{is_word_byte};
ghost use Rattle.jsone_render.specs.Maps.{keys_of};
ghost use Rattle.jsone_render.specs.Names.{is_name, is_reserved};

use crate::keys::is_letter;
use farm_text::Doc;
use std::collections::BTreeMap;

fn is_word_byte(byte: u8) -> bool
    ensures { result ≡ is_word_byte byte }
{
    is_letter(byte) | byte.is_ascii_digit()
}

/// Whether a text is this word.
fn is(text: &[u8], word: &str) -> bool
    ensures { result ≡ bytes_eq text.now word.now }
{
    text == word.as_bytes()
}

/// The words of the language that are no names.
fn is_reserved(text: &[u8]) -> bool
    ensures { result ≡ is_reserved text.now }
{
    is(text, "in") || is(text, "true") || is(text, "false") || is(text, "null")
}

/// Whether all bytes stand in names. No byte ends the walk, so that the compiler judges many at a time.
fn are_word_bytes(bytes: &[u8]) -> bool
    ensures { result ≡ list_all is_word_byte bytes.now }
{
    let mut all = true;
    for byte in bytes {
        all = is_word_byte(*byte) & all;
    }
    all
}

/// A letter or `_`, and then letters, digits and `_`.
pub(crate) fn is_name(text: &[u8]) -> bool
    ensures { result ≡ is_name text.now }
{
    match text {
        [] => false,
        [first, rest @ ..] => is_letter(*first) && are_word_bytes(rest) && !is_reserved(text),
    }
}

/// Whether all keys of the map are names.
pub(crate) fn are_names(members: &BTreeMap<String, Doc>) -> bool
    ensures { result ≡ list_all is_name (keys_of (members_of (entries_of members.now.entries))) }
{
    for (key, _) in members.iter() {
        if !is_name(key.as_str().as_bytes()) {
            return false;
        }
    }
    true
}
