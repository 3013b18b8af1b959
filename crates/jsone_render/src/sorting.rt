//! Sorting: members in rising order of their keys.
ghost use Rattle.std.specs.Prelude.{◌≡◌, map, ◌++◌, ◌∷◌, [], IfOk, OnOk};
ghost use Rattle.std.specs.List.{list_all};
ghost use Rattle.farm_text.specs.Doc.{document, documents};
ghost use Rattle.jsone_eval.specs.Scopes.{scopes_of};
ghost use Rattle.jsone_values.specs.Meets.{Meets};
ghost use Rattle.jsone_render.specs.Answers.{Answers, Kept, names_in, pairs_of};
ghost use Rattle.jsone_render.specs.Bindings.{bound_to};
ghost use Rattle.jsone_render.specs.Expressions.{Evaluated};
ghost use Rattle.jsone_render.specs.Sorting.{key_order, kind_rank, is_whole, is_text, are_of_one_kind, IsSorting, IsSortOf, IsSortAlone, KeysEvaluated};

use crate::binders::Names;
use crate::faults::RenderFault;
use crate::readings::Reading;
use crate::renderer::Renderer;
use farm_text::Doc;
use jsone_values::faults::{Fault, Stop};
use std::alloc::{AllocError, Global};
use std::cmp::Ordering;

fn kind_rank(key: &Doc) -> u8
    ensures { result ≡ kind_rank (document key.now) }
{
    match key {
        Doc::Int(_) => 0,
        Doc::Text(_) => 1,
        _ => 2,
    }
}

/// Numbers, and then texts, by their bytes.
fn key_order(a: &Doc, b: &Doc) -> Ordering
    ensures { result ≡ key_order (document a.now) (document b.now) }
{
    match (a, b) {
        (Doc::Int(a), Doc::Int(b)) => a.cmp(b),
        (Doc::Text(a), Doc::Text(b)) => a.as_bytes().cmp(b.as_bytes()),
        _ => kind_rank(a).cmp(&kind_rank(b)),
    }
}

fn is_whole(key: &Doc) -> bool
    ensures { result ≡ is_whole (document key.now) }
{
    matches!(key, Doc::Int(_))
}

fn is_text(key: &Doc) -> bool
    ensures { result ≡ is_text (document key.now) }
{
    matches!(key, Doc::Text(_))
}

fn are_wholes(pairs: &[(Doc, Doc)]) -> bool
    ensures { result ≡ list_all (λ p. is_whole p.0) (pairs_of pairs.now) }
{
    for pair in pairs {
        if !is_whole(&pair.0) {
            return false;
        }
    }
    true
}

fn are_texts(pairs: &[(Doc, Doc)]) -> bool
    ensures { result ≡ list_all (λ p. is_text p.0) (pairs_of pairs.now) }
{
    for pair in pairs {
        if !is_text(&pair.0) {
            return false;
        }
    }
    true
}

/// Whether all keys are numbers, or all are texts.
fn are_of_one_kind(pairs: &[(Doc, Doc)]) -> bool
    ensures { result ≡ are_of_one_kind (pairs_of pairs.now) }
{
    are_wholes(pairs) || are_texts(pairs)
}

fn values_of(alloc: Global, pairs: Vec<(Doc, Doc)>) -> Result<Vec<Doc>, AllocError>
    ensures { IfOk result (λ v. documents v.items ≡ map (λ q. q.1) (pairs_of pairs.items)) }
{
    let mut values = Vec::with_capacity(alloc, pairs.len())?;
    for (key, value) in pairs {
        drop(key);
        values.push(value)?;
    }
    Ok(values)
}

fn sort(alloc: Global, mut pairs: Vec<(Doc, Doc)>) -> Result<Vec<Doc>, AllocError>
    ensures { IfOk result (λ v. IsSorting (pairs_of pairs.items) (documents v.items)) }
{
    pairs.sort_by(|a, b| key_order(&a.0, &b.0))?;
    values_of(alloc, pairs)
}

/// The members of these pairs of keys and members, in rising order of the keys.
pub(crate) fn sort_of(alloc: Global, pairs: Vec<(Doc, Doc)>) -> Result<Doc, Stop>
    ensures { Meets (IsSortOf (pairs_of pairs.items)) result }
{
    if !are_of_one_kind(&pairs) {
        return Err(Stop::Fault(Fault::WrongKind));
    }
    match sort(alloc, pairs) {
        Ok(items) => Ok(Doc::List(items)),
        Err(_) => Err(Stop::NoMemory),
    }
}

/// The members of a list, each its own key, in rising order.
pub(crate) fn sort_alone(alloc: Global, value: Doc) -> Result<Doc, Stop>
    ensures { Meets (IsSortAlone (document value)) result }
{
    match value {
        Doc::List(items) => match doubled(alloc, items) {
            Ok(pairs) => sort_of(alloc, pairs),
            Err(_) => Err(Stop::NoMemory),
        },
        _ => Err(Stop::Fault(Fault::WrongKind)),
    }
}

fn doubled(alloc: Global, items: Vec<Doc>) -> Result<Vec<(Doc, Doc)>, AllocError>
    ensures { IfOk result (λ v. pairs_of v.items ≡ map (λ d. (d, d)) (documents items.items)) }
{
    let mut pairs = Vec::with_capacity(alloc, items.len())?;
    for item in items {
        match item.clone() {
            Ok(key) => keep_pair(&mut pairs, key, item)?,
            Err(_) => {
                drop(item);
                return Err(AllocError);
            }
        }
    }
    Ok(pairs)
}

/// One pair more.
pub(crate) fn keep_pair(pairs: &mut Vec<(Doc, Doc)>, key: Doc, item: Doc) -> Result<(), AllocError>
    ensures { OnOk result (pairs_of pairs.new.items ≡ pairs_of pairs.old.items ++ (document key, document item) ∷ []) }
{
    pairs.push((key, item))?;
    Ok(())
}

impl<'a> Renderer<'a> {
    /// What the expression gives where the name is bound to a member, which stays.
    fn key_for(
        &mut self,
        alloc: Global,
        reading: &Reading,
        names: Names,
        item: &Doc,
    ) -> Result<Doc, RenderFault>
        ensures answers { Answers document (Evaluated reading.now (scopes_of self.old.context ++ bound_to (names_in names.entry) (document item.now ∷ [])) self.old.cost.spent) result self.new.cost.spent }
        ensures scopes { Kept result (scopes_of self.old.context) (scopes_of self.new.context) }
    {
        match item.clone() {
            Ok(copy) => self.evaluate_one(alloc, reading, names, copy),
            Err(_) => Err(RenderFault::NoMemory),
        }
    }

    /// The members with their keys, which an expression gives where the name is bound to a member.
    pub(crate) fn sort_keys(
        &mut self,
        alloc: Global,
        reading: &Reading,
        names: Names,
        items: Vec<Doc>,
    ) -> Result<Vec<(Doc, Doc)>, RenderFault>
        ensures answers { Answers (λ v. pairs_of v.items) (KeysEvaluated reading.now (names_in names.entry) [] (documents items.items) (scopes_of self.old.context) self.old.cost.spent) result self.new.cost.spent }
        ensures scopes { Kept result (scopes_of self.old.context) (scopes_of self.new.context) }
    {
        let mut pairs = Vec::with_capacity(alloc, items.len())?;
        for item in items {
            let key = match self.key_for(alloc, reading, names, &item) {
                Ok(key) => key,
                Err(fault) => {
                    drop(item);
                    return Err(fault);
                }
            };
            keep_pair(&mut pairs, key, item)?;
        }
        Ok(pairs)
    }
}
