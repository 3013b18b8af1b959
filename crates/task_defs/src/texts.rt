//! Lists of texts: routes, scopes and the ids of dependencies.
ghost use Rattle.std.specs.Prelude.{◌≡◌, ◌≤◌, ℕ, List, map, All, IfOk, MatchBool, MatchOption, Some};
ghost use Rattle.std.specs.List.{filter_map, IsDistinct};
ghost use Rattle.std.specs.Str.{bytes_eq};
ghost use Rattle.farm_text.specs.Slug.{IsSlug, slug_of};
ghost use Rattle.farm_text.specs.Document.{text as plain_text, array, items_of};
ghost use Rattle.farm_text.specs.Doc.{document, documents};
ghost use Rattle.task_types.specs.Forms.{IsRoute};
ghost use Rattle.task_defs.specs.Documents.{seen};
ghost use Rattle.task_defs.specs.Values.{IsScope, IsTexts, IsTextList, Ill, Well, texts_in};

use crate::documents::{as_list, as_text};
use farm_text::{Doc, SlugId, Text};
use scope_sets::Scope;
use std::alloc::{AllocError, Global};
use std::collections::BTreeSet;
use task_types::{Dependencies, Route, Routes, Scopes};

const MOST_DEPENDENCIES: usize = 100;

const MOST_ROUTES: usize = 64;

const MOST_SCOPES: usize = 1_000;

/// The texts of a list, or `None` where a member is no text.
fn texts_of(alloc: Global, items: &Vec<Doc>) -> Result<Option<Vec<&str>>, AllocError>
    ensures { IfOk result (λ found. MatchOption found
        ((ts : List (List ℕ)) → ¬ (items_of (documents items.now.items) ≡ items_of (map plain_text ts)))
        (λ texts. items_of (documents items.now.items) ≡ items_of (map plain_text (map (λ t. t.now) texts.items)))) }
{
    let mut texts = Vec::with_capacity(alloc, items.len())?;
    for item in items {
        match as_text(item) {
            Some(text) => texts.push(text)?,
            None => return Ok(None),
        }
    }
    Ok(Some(texts))
}

/// Whether a text stands twice.
fn has_repeat(alloc: Global, texts: &[&str]) -> Result<bool, AllocError>
    ensures { IfOk result (λ repeats. MatchBool repeats
        (¬ IsDistinct bytes_eq (map (λ t. t.now) texts.now)) (IsDistinct bytes_eq (map (λ t. t.now) texts.now))) }
{
    let mut seen = BTreeSet::new(alloc);
    for text in texts {
        if !seen.insert(*text)? {
            return Ok(true);
        }
    }
    Ok(false)
}

/// The texts of a list of at most so many, none of them twice, or `None` where the value is no such list.
fn distinct_texts(alloc: Global, value: &Doc, most: usize) -> Result<Option<Vec<&str>>, AllocError>
    ensures { IfOk result (λ found. MatchOption found
        ((ts : List (List ℕ)) → ¬ IsTexts most (document value.now) ts)
        (λ texts. IsTexts most (document value.now) (map (λ t. t.now) texts.items))) }
{
    match as_list(value) {
        Some(items) => distinct_texts_of(alloc, items, most),
        None => Ok(None),
    }
}

fn distinct_texts_of(
    alloc: Global,
    items: &Vec<Doc>,
    most: usize,
) -> Result<Option<Vec<&str>>, AllocError>
    ensures { IfOk result (λ found. MatchOption found
        ((ts : List (List ℕ)) → ¬ IsTexts most (array (items_of (documents items.now.items))) ts)
        (λ texts. IsTexts most (array (items_of (documents items.now.items))) (map (λ t. t.now) texts.items))) }
{
    if items.len() > most {
        return Ok(None);
    }
    let texts = match texts_of(alloc, items)? {
        Some(texts) => texts,
        None => return Ok(None),
    };
    if has_repeat(alloc, &texts)? {
        return Ok(None);
    }
    Ok(Some(texts))
}

fn routes_of(alloc: Global, texts: &[&str]) -> Result<Option<Vec<Route>>, AllocError>
    ensures { IfOk result (λ found. MatchOption found
        (¬ All IsRoute (map (λ t. t.now) texts.now))
        (λ routes. All IsRoute (map (λ t. t.now) texts.now) × (routes.items ≡ map (λ t. t.now) texts.now))) }
{
    let mut routes = Vec::with_capacity(alloc, texts.len())?;
    for text in texts {
        match Route::new(Text::from_str(alloc, text)?) {
            Some(route) => routes.push(route)?,
            None => return Ok(None),
        }
    }
    Ok(Some(routes))
}

/// The scope that is this text, where it may be handed in.
fn scope_of(alloc: Global, text: &str) -> Result<Option<Scope>, AllocError>
    ensures { IfOk result (λ found. MatchOption found (¬ IsScope text.now) (λ s. IsScope text.now × (s ≡ text.now))) }
{
    match Scope::new(String::from_str(alloc, text)?) {
        Some(scope) if scope.has_handed_in_form() => Ok(Some(scope)),
        _ => Ok(None),
    }
}

fn scopes_of(alloc: Global, texts: &[&str]) -> Result<Option<Vec<Scope>>, AllocError>
    ensures { IfOk result (λ found. MatchOption found
        (¬ All IsScope (map (λ t. t.now) texts.now))
        (λ scopes. All IsScope (map (λ t. t.now) texts.now) × (scopes.items ≡ map (λ t. t.now) texts.now))) }
{
    let mut scopes = Vec::with_capacity(alloc, texts.len())?;
    for text in texts {
        match scope_of(alloc, text)? {
            Some(scope) => scopes.push(scope)?,
            None => return Ok(None),
        }
    }
    Ok(Some(scopes))
}

fn ids_of(alloc: Global, texts: &[&str]) -> Result<Option<Vec<SlugId>>, AllocError>
    ensures { IfOk result (λ found. MatchOption found
        (¬ All IsSlug (map (λ t. t.now) texts.now))
        (λ ids. All IsSlug (map (λ t. t.now) texts.now) × (ids.items ≡ filter_map slug_of (map (λ t. t.now) texts.now)))) }
{
    let mut ids = Vec::with_capacity(alloc, texts.len())?;
    for text in texts {
        match SlugId::read(text.as_bytes()) {
            Some(id) => ids.push(id)?,
            None => return Ok(None),
        }
    }
    Ok(Some(ids))
}

/// The routes, none if nothing is said, or `None` where the value is no list of routes.
pub(crate) fn routes(alloc: Global, value: Option<&Doc>) -> Result<Option<Routes>, AllocError>
    ensures { IfOk result (λ found. MatchOption found (Ill (IsTextList 64 IsRoute) (seen value.entry))
        (λ list. Well (IsTextList 64 IsRoute) (seen value.entry) × (list ≡ texts_in (seen value.entry)))) }
{
    match value {
        None => Ok(Some(Routes::from_list(Vec::new(alloc)))),
        Some(value) => routes_in(alloc, value),
    }
}

fn routes_in(alloc: Global, value: &Doc) -> Result<Option<Routes>, AllocError>
    ensures { IfOk result (λ found. MatchOption found (¬ IsTextList 64 IsRoute (document value.now))
        (λ list. IsTextList 64 IsRoute (document value.now) × (list ≡ texts_in (Some (document value.now))))) }
{
    let texts = match distinct_texts(alloc, value, MOST_ROUTES)? {
        Some(texts) => texts,
        None => return Ok(None),
    };
    match routes_of(alloc, &texts)? {
        Some(routes) => Ok(Some(Routes::from_list(routes))),
        None => Ok(None),
    }
}

/// The scopes, none if nothing is said, or `None` where the value is no list of scopes that may be handed in.
pub(crate) fn scopes(alloc: Global, value: Option<&Doc>) -> Result<Option<Scopes>, AllocError>
    ensures { IfOk result (λ found. MatchOption found (Ill (IsTextList 1000 IsScope) (seen value.entry))
        (λ list. Well (IsTextList 1000 IsScope) (seen value.entry) × (list ≡ texts_in (seen value.entry)))) }
{
    match value {
        None => Ok(Some(Scopes::from_list(Vec::new(alloc)))),
        Some(value) => scopes_in(alloc, value),
    }
}

fn scopes_in(alloc: Global, value: &Doc) -> Result<Option<Scopes>, AllocError>
    ensures { IfOk result (λ found. MatchOption found (¬ IsTextList 1000 IsScope (document value.now))
        (λ list. IsTextList 1000 IsScope (document value.now) × (list ≡ texts_in (Some (document value.now))))) }
{
    let texts = match distinct_texts(alloc, value, MOST_SCOPES)? {
        Some(texts) => texts,
        None => return Ok(None),
    };
    match scopes_of(alloc, &texts)? {
        Some(scopes) => Ok(Some(Scopes::from_list(scopes))),
        None => Ok(None),
    }
}

/// The dependencies, none if nothing is said, or `None` where the value is no list of slugids.
pub(crate) fn dependencies(
    alloc: Global,
    value: Option<&Doc>,
) -> Result<Option<Dependencies>, AllocError>
    ensures { IfOk result (λ found. MatchOption found (Ill (IsTextList 100 IsSlug) (seen value.entry))
        (λ list. Well (IsTextList 100 IsSlug) (seen value.entry) × (list ≡ filter_map slug_of (texts_in (seen value.entry))))) }
{
    match value {
        None => Ok(Some(Dependencies::from_list(Vec::new(alloc)))),
        Some(value) => dependencies_in(alloc, value),
    }
}

fn dependencies_in(alloc: Global, value: &Doc) -> Result<Option<Dependencies>, AllocError>
    ensures { IfOk result (λ found. MatchOption found (¬ IsTextList 100 IsSlug (document value.now))
        (λ list. IsTextList 100 IsSlug (document value.now) × (list ≡ filter_map slug_of (texts_in (Some (document value.now)))))) }
{
    let texts = match distinct_texts(alloc, value, MOST_DEPENDENCIES)? {
        Some(texts) => texts,
        None => return Ok(None),
    };
    match ids_of(alloc, &texts)? {
        Some(ids) => Ok(Some(Dependencies::from_list(ids))),
        None => Ok(None),
    }
}
