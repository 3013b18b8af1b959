//! Which operator a map of a template has, and which keys go with it.
ghost use Rattle.std.specs.Prelude.{◌≡◌, ◌∷◌, [], ◌++◌, List, ℕ};
ghost use Rattle.std.specs.List.{list_any, filter};
ghost use Rattle.std.specs.Str.{bytes_eq};
ghost use Rattle.farm_text.specs.Document.{members_of};
ghost use Rattle.farm_text.specs.Doc.{entries_of};
ghost use Rattle.jsone_expr.specs.Tokens.{is_letter};
ghost use Rattle.jsone_render.specs.Maps.{keys_of, is_operator_key, loses_dollar};
ghost use Rattle.jsone_render.specs.Forms.{operator_of, operator_in, known, words_of, others_of};
ghost use Rattle.jsone_render.specs.Answers.{AreOthers};

use crate::operators::Operator;
use farm_text::Doc;
use jsone_values::faults::Fault;
use std::collections::BTreeMap;

/// What a name begins with.
pub(crate) fn is_letter(byte: u8) -> bool
    ensures { result ≡ is_letter byte }
{
    byte.is_ascii_alphabetic() || byte == b'_'
}

/// `$`, and a letter or `_` behind it.
pub(crate) fn is_operator_key(key: &[u8]) -> bool
    ensures { result ≡ is_operator_key key.now }
{
    match key {
        [] => false,
        [_] => false,
        [first, second, ..] => *first == b'$' && is_letter(*second),
    }
}

/// Whether the key is `$$` with a letter or `_` behind it, and so stands for one with a `$` less.
pub(crate) fn loses_dollar(key: &[u8]) -> bool
    ensures { result ≡ loses_dollar key.now }
{
    match key {
        [] => false,
        [first, rest @ ..] => *first == b'$' && is_operator_key(rest),
    }
}

fn known(operator: Option<Operator>) -> Result<Option<Operator>, Fault>
    ensures { result ≡ known operator }
{
    match operator {
        Some(operator) => Ok(Some(operator)),
        None => Err(Fault::BadOperator),
    }
}

/// Whether the word may stand beside the operator.
fn is_word_of(operator: Operator, key: &str) -> bool
    ensures { result ≡ list_any (bytes_eq key.now) (words_of operator) }
{
    match operator {
        Operator::If => key == "then" || key == "else",
        Operator::Let => key == "in",
        Operator::Reduce => key == "initial",
        Operator::FromNow => key == "from",
        _ => false,
    }
}

/// The keys of a map that pass a test: none, one or more.
pub(crate) enum Others<'a> {
    None,
    One(&'a str),
    More,
}

/// One key more.
fn with_other<'a>(others: Others<'a>, key: &'a str) -> Others<'a>
    ensures { (ks : List (List ℕ)) → AreOthers others.entry ks → AreOthers result (ks ++ key.now ∷ []) }
{
    match others {
        Others::None => Others::One(key),
        Others::One(_) => Others::More,
        Others::More => Others::More,
    }
}

fn with_operator<'a>(others: Others<'a>, key: &'a str) -> Others<'a>
    ensures { (ks : List (List ℕ)) → AreOthers others.entry ks
        → AreOthers result (ks ++ filter is_operator_key (key.now ∷ [])) }
{
    if is_operator_key(key.as_bytes()) {
        with_other(others, key)
    } else {
        others
    }
}

/// The keys of a map that are operators.
fn operators(members: &BTreeMap<String, Doc>) -> Others<'_>
    ensures { AreOthers result (filter is_operator_key (keys_of (members_of (entries_of members.now.entries)))) }
{
    let mut found = Others::None;
    for (key, _) in members.iter() {
        found = with_operator(found, key.as_str());
    }
    found
}

/// The operator of a map, if it has one. It may have no other, and it has to be known.
pub(crate) fn operator_in(members: &BTreeMap<String, Doc>) -> Result<Option<Operator>, Fault>
    ensures { result ≡ operator_in (keys_of (members_of (entries_of members.now.entries))) }
{
    match operators(members) {
        Others::None => Ok(None),
        Others::One(key) => known(Operator::from_key(key)),
        Others::More => Err(Fault::BadOperator),
    }
}

fn with_key<'a>(others: Others<'a>, operator: Operator, key: &'a str) -> Others<'a>
    ensures { (ks : List (List ℕ)) → AreOthers others.entry ks
        → AreOthers result (ks ++ others_of operator (key.now ∷ [])) }
{
    if is_operator_key(key.as_bytes()) || is_word_of(operator, key) {
        others
    } else {
        with_other(others, key)
    }
}

/// The keys of a map that are neither its operator nor a word that stands beside it.
pub(crate) fn others_of(members: &BTreeMap<String, Doc>, operator: Operator) -> Others<'_>
    ensures { AreOthers result (others_of operator (keys_of (members_of (entries_of members.now.entries)))) }
{
    let mut others = Others::None;
    for (key, _) in members.iter() {
        others = with_key(others, operator, key.as_str());
    }
    others
}
