//! Keys that bind names: `each(v)`, `each(v,i)` and `by(v)`.
ghost use Rattle.std.specs.Prelude.{◌≡◌, ◌≢◌, ◌++◌, ◌∷◌, [], ℕ, List, true, ◌&&◌, MatchOption};
ghost use Rattle.std.specs.List.{list_all};
ghost use Rattle.jsone_render.specs.Answers.{names_in};
ghost use Rattle.jsone_render.specs.Names.{is_name, between_commas, are_distinct, IsBinder};

use crate::names::is_name;

/// The names of a key that binds, in their order.
#[derive(Clone, Copy)]
pub(crate) enum Names<'a> {
    One(&'a str),
    Two(&'a str, &'a str),
    Three(&'a str, &'a str, &'a str),
}

/// What stands in brackets behind the word, if nothing else does.
fn in_brackets<'a>(key: &'a str, word: &str) -> Option<&'a str>
    ensures { MatchOption result
        ((inside : List ℕ) → key.now ≢ word.now ++ 40 ∷ (inside ++ 41 ∷ []))
        (λ inside. key.now ≡ word.now ++ 40 ∷ (inside.now ++ 41 ∷ [])) }
{
    match key.strip_prefix(word) {
        None => None,
        Some(behind) => match behind.strip_prefix('(') {
            None => None,
            Some(within) => within.strip_suffix(')'),
        },
    }
}

/// What stands between the first two commas.
fn cut(inside: &str) -> Names<'_>
    ensures spelled { between_commas (names_in result) ≡ inside.now }
    ensures only { (names : List (List ℕ)) → list_all is_name names ≡ true → are_distinct names ≡ true
        → between_commas names ≡ inside.now → names ≡ names_in result }
{
    match inside.split_once(',') {
        None => Names::One(inside),
        Some((first, rest)) => match rest.split_once(',') {
            None => Names::Two(first, rest),
            Some((second, third)) => Names::Three(first, second, third),
        },
    }
}

fn are_names(names: Names) -> bool
    ensures { result ≡ list_all is_name (names_in names.entry) }
{
    match names {
        Names::One(a) => is_name(a.as_bytes()),
        Names::Two(a, b) => is_name(a.as_bytes()) && is_name(b.as_bytes()),
        Names::Three(a, b, c) => {
            is_name(a.as_bytes()) && is_name(b.as_bytes()) && is_name(c.as_bytes())
        }
    }
}

fn are_distinct(names: Names) -> bool
    ensures { result ≡ are_distinct (names_in names.entry) }
{
    match names {
        Names::One(_) => true,
        Names::Two(a, b) => a != b,
        Names::Three(a, b, c) => a != b && a != c && b != c,
    }
}

fn can_bind(names: Names) -> bool
    ensures { result ≡ (list_all is_name (names_in names.entry) && are_distinct (names_in names.entry)) }
{
    are_names(names) && are_distinct(names)
}

/// The names that the key binds, if it is the word with names in brackets.
pub(crate) fn names_of<'a>(key: &'a str, word: &str) -> Option<Names<'a>>
    ensures { MatchOption result
        ((names : List (List ℕ)) → ¬ IsBinder word.now key.now names)
        (λ names. IsBinder word.now key.now (names_in names)) }
{
    match in_brackets(key, word) {
        None => None,
        Some(inside) => {
            let names = cut(inside);
            if can_bind(names) { Some(names) } else { None }
        }
    }
}
