//! The values at the keys of a table.
ghost use Rattle.std.specs.Prelude.{◌≡◌, ◌≤◌, true, false, is_some, map, MatchResult};
ghost use Rattle.std.specs.List.{list_any};
ghost use Rattle.std.specs.Str.{bytes_eq};
ghost use Rattle.toml.specs.Data.{get_member};
ghost use Rattle.toml.specs.View.{table_view};
ghost use Rattle.farm_files.specs.Values.{has_only, is_text, is_truth, is_whole, passes, text_or, truth_or, whole_or, IsUpTo, natural};

use crate::fault::Rule;
use toml::{Table, Value};

/// Whether a table has no key but these.
pub(crate) fn has_only(table: &Table, known: &[&str]) -> bool
    ensures { result ≡ has_only (map (λ k. k.now) known.now) (table_view table.now) }
{
    for key in table.keys() {
        if !is_known(key.as_str(), known) {
            return false;
        }
    }
    true
}

fn is_known(key: &str, known: &[&str]) -> bool
    ensures { result ≡ list_any (λ name. bytes_eq name.now key.now) known.now }
{
    known.iter().any(|name| *name == key)
}

/// The text at a key, or the default where there is no such key. A value that is no text is of the wrong kind.
pub(crate) fn text_or<'a>(table: &'a Table, key: &str, default: &'a str) -> Result<&'a str, Rule>
    ensures { MatchResult result
        (λ text. (passes is_text (get_member key.now (table_view table.now)) ≡ true)
        × (text.now ≡ text_or default.now (get_member key.now (table_view table.now))))
        (λ rule. (rule ≡ Rule.WrongKind) × (passes is_text (get_member key.now (table_view table.now)) ≡ false)) }
{
    match table.get(key) {
        None => Ok(default),
        Some(value) => match value.as_str() {
            Some(text) => Ok(text),
            None => Err(Rule::WrongKind),
        },
    }
}

/// True or false at a key, or the default where there is no such key. Another value is of the wrong kind.
pub(crate) fn truth_or(table: &Table, key: &str, default: bool) -> Result<bool, Rule>
    ensures { MatchResult result
        (λ truth. (passes is_truth (get_member key.now (table_view table.now)) ≡ true)
        × (truth ≡ truth_or default (get_member key.now (table_view table.now))))
        (λ rule. (rule ≡ Rule.WrongKind) × (passes is_truth (get_member key.now (table_view table.now)) ≡ false)) }
{
    match table.get(key) {
        None => Ok(default),
        Some(value) => match value.as_bool() {
            Some(truth) => Ok(truth),
            None => Err(Rule::WrongKind),
        },
    }
}

/// Whether a table has a key.
pub(crate) fn has_key(table: &Table, key: &str) -> bool
    ensures { result ≡ is_some (get_member key.now (table_view table.now)) }
{
    match table.get(key) {
        Some(_) => true,
        None => false,
    }
}

/// The whole number at a key, or the default where there is no such key. A value that is no whole number is of the wrong kind.
pub(crate) fn whole_or(table: &Table, key: &str, default: i64) -> Result<i64, Rule>
    ensures { MatchResult result
        (λ number. (passes is_whole (get_member key.now (table_view table.now)) ≡ true)
        × (number ≡ whole_or default (get_member key.now (table_view table.now))))
        (λ rule. (rule ≡ Rule.WrongKind) × (passes is_whole (get_member key.now (table_view table.now)) ≡ false)) }
{
    match table.get(key) {
        None => Ok(default),
        Some(value) => match value.as_integer() {
            Some(number) => Ok(number),
            None => Err(Rule::WrongKind),
        },
    }
}

/// A number from 1 to the greatest that is allowed. Any other is out of its range.
pub(crate) fn up_to(most: u32, number: i64) -> Result<u32, Rule>
    ensures { MatchResult result
        (λ n. IsUpTo most number × (n ≡ natural number) × (n ≤ most))
        (λ rule. (rule ≡ Rule.OutOfForm) × (¬ IsUpTo most number)) }
{
    if 1 <= number && number <= i64::from(most) {
        Ok(number as u32)
    } else {
        Err(Rule::OutOfForm)
    }
}
