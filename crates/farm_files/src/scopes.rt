//! Lists of scopes.
ghost use Rattle.std.specs.Prelude.{◌≡◌, true, false, map, All, IfOk, MatchOption};
ghost use Rattle.std.specs.List.{list_all, filter_map};
ghost use Rattle.scope_sets.specs.Scopes.{IsPrintable};
ghost use Rattle.toml.specs.Data.{as_str};
ghost use Rattle.toml.specs.View.{view};
ghost use Rattle.farm_files.specs.Values.{is_text, are_texts, texts_in};

use scope_sets::Scope;
use std::alloc::{AllocError, Global};
use toml::Value;

/// The texts of a list, or `None` where a member is no text.
fn texts_of(alloc: Global, values: &[Value]) -> Result<Option<Vec<&str>>, AllocError>
    ensures { IfOk result (λ found. MatchOption found
        (list_all is_text (map view values.now) ≡ false)
        (λ texts. (list_all is_text (map view values.now) ≡ true) × (map (λ t. t.now) texts.items ≡ filter_map as_str (map view values.now)))) }
{
    let mut texts = Vec::new(alloc);
    for value in values {
        match value.as_str() {
            Some(text) => texts.push(text)?,
            None => return Ok(None),
        }
    }
    Ok(Some(texts))
}

/// The scopes of these texts, or `None` where a text is no printable ASCII.
pub(crate) fn scopes_of(alloc: Global, texts: &[&str]) -> Result<Option<Vec<Scope>>, AllocError>
    ensures { IfOk result (λ found. MatchOption found
        (¬ All (All IsPrintable) (map (λ t. t.now) texts.now))
        (λ scopes. All (All IsPrintable) (map (λ t. t.now) texts.now) × (scopes.items ≡ map (λ t. t.now) texts.now))) }
{
    let mut scopes = Vec::new(alloc);
    for text in texts {
        match Scope::new(String::from_str(alloc, text)?) {
            Some(scope) => scopes.push(scope)?,
            None => return Ok(None),
        }
    }
    Ok(Some(scopes))
}

/// The texts of a value, or `None` where it is no list of texts.
pub(crate) fn texts_at(alloc: Global, value: &Value) -> Result<Option<Vec<&str>>, AllocError>
    ensures { IfOk result (λ found. MatchOption found
        (are_texts (view value.now) ≡ false)
        (λ texts. (are_texts (view value.now) ≡ true) × (map (λ t. t.now) texts.items ≡ texts_in (Some (view value.now))))) }
{
    match value.as_array() {
        Some(values) => texts_of(alloc, values),
        None => Ok(None),
    }
}
