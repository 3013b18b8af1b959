//! What a map of a template is: whether it has an operator, and which keys go with it.
ghost use Rattle.std.specs.Prelude.{◌≡◌, [], ◌∷◌, ℕ, List, MatchOption};
ghost use Rattle.farm_text.specs.Document.{members_of};
ghost use Rattle.farm_text.specs.Doc.{entries_of};
ghost use Rattle.jsone_render.specs.Answers.{names_in, form_in, AreOthers};
ghost use Rattle.jsone_render.specs.Forms.{stands_alone, has_words, binding_word, takes_names, Binds, IsForm, ByOthers};

use crate::binders::{Names, names_of};
use crate::keys::{Others, operator_in, others_of};
use crate::maps::has_key;
use crate::operators::Operator;
use farm_text::Doc;
use jsone_values::faults::Fault;
use std::collections::BTreeMap;

/// What a map of a template is.
pub(crate) enum MapForm<'a> {
    Plain,
    Faulty(Fault),
    Alone(Operator),
    /// Beside the operator stands a key that binds these names.
    Binding(Operator, &'a str, Names<'a>),
}

fn stands_alone(operator: Operator) -> bool
    ensures { result ≡ stands_alone operator }
{
    match operator {
        Operator::Map | Operator::Reduce | Operator::Find => false,
        _ => true,
    }
}

/// Whether the words are there that have to stand beside the operator.
fn has_words(operator: Operator, members: &BTreeMap<String, Doc>) -> bool
    ensures { result ≡ has_words operator (members_of (entries_of members.now.entries)) }
{
    match operator {
        Operator::Let => has_key(members, "in"),
        Operator::Reduce => has_key(members, "initial"),
        _ => true,
    }
}

/// Whether the operator takes so many names.
fn takes_names(operator: Operator, names: Names) -> bool
    ensures { result ≡ takes_names operator (names_in names.entry) }
{
    match (operator, names) {
        (Operator::Map, Names::One(_)) => true,
        (Operator::Map, Names::Two(_, _)) => true,
        (Operator::Find, Names::One(_)) => true,
        (Operator::Find, Names::Two(_, _)) => true,
        (Operator::Reduce, Names::Two(_, _)) => true,
        (Operator::Reduce, Names::Three(_, _, _)) => true,
        (Operator::Sort, Names::One(_)) => true,
        _ => false,
    }
}

fn binding_word(operator: Operator) -> &'static str
    ensures { result.now ≡ binding_word operator }
{
    match operator {
        Operator::Sort => "by",
        _ => "each",
    }
}

/// The names that the key binds for the operator.
fn bound_names(operator: Operator, key: &str) -> Option<Names<'_>>
    ensures { MatchOption result ((names : List (List ℕ)) → ¬ Binds operator key.now names)
        (λ names. Binds operator key.now (names_in names)) }
{
    match names_of(key, binding_word(operator)) {
        None => None,
        Some(names) => {
            if takes_names(operator, names) {
                Some(names)
            } else {
                None
            }
        }
    }
}

fn without_others(operator: Operator, members: &BTreeMap<String, Doc>) -> MapForm<'static>
    ensures { ByOthers [] operator (members_of (entries_of members.now.entries)) (form_in result) }
{
    if stands_alone(operator) && has_words(operator, members) {
        MapForm::Alone(operator)
    } else {
        MapForm::Faulty(Fault::BadOperator)
    }
}

fn with_other<'a>(operator: Operator, members: &BTreeMap<String, Doc>, key: &'a str) -> MapForm<'a>
    ensures { ByOthers (key.now ∷ []) operator (members_of (entries_of members.now.entries)) (form_in result) }
{
    match bound_names(operator, key) {
        None => MapForm::Faulty(Fault::BadOperator),
        Some(names) => {
            if has_words(operator, members) {
                MapForm::Binding(operator, key, names)
            } else {
                MapForm::Faulty(Fault::BadOperator)
            }
        }
    }
}

fn with_others<'a>(
    operator: Operator,
    members: &BTreeMap<String, Doc>,
    others: Others<'a>,
) -> MapForm<'a>
    ensures { (ks : List (List ℕ)) → AreOthers others.entry ks
        → ByOthers ks operator (members_of (entries_of members.now.entries)) (form_in result) }
{
    match others {
        Others::None => without_others(operator, members),
        Others::One(key) => with_other(operator, members, key),
        Others::More => MapForm::Faulty(Fault::BadOperator),
    }
}

/// What the map is, judged by its keys alone.
pub(crate) fn form_of(members: &BTreeMap<String, Doc>) -> MapForm<'_>
    ensures { IsForm (members_of (entries_of members.now.entries)) (form_in result) }
{
    match operator_in(members) {
        Ok(None) => MapForm::Plain,
        Ok(Some(operator)) => with_others(operator, members, others_of(members, operator)),
        Err(fault) => MapForm::Faulty(fault),
    }
}
