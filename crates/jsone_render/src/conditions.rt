//! Expressions that an operator has beside what it renders.
ghost use Rattle.std.specs.Prelude.{◌≡◌, [], ◌∷◌, ◌++◌, not, if◌then◌else◌, IfOk, OnOk};
ghost use Rattle.std.specs.List.{filter};
ghost use Rattle.std.specs.Str.{bytes_eq};
ghost use Rattle.farm_text.specs.Document.{members_of};
ghost use Rattle.farm_text.specs.Doc.{document, entries_of};
ghost use Rattle.jsone_eval.specs.Scopes.{scopes_of};
ghost use Rattle.jsone_render.specs.Answers.{Answers, Kept, branch_taken, texts_in};
ghost use Rattle.jsone_render.specs.Conditions.{branch_of, AreTrue, default_key, conditions_of};
ghost use Rattle.jsone_render.specs.Expressions.{ValueAt};
ghost use Rattle.jsone_render.specs.Maps.{keys_of};

use crate::faults::RenderFault;
use crate::lists::text_at;
use crate::paths::here;
use crate::renderer::Renderer;
use farm_text::Doc;
use jsone_values::faults::Fault;
use jsone_values::truth::is_true;
use std::alloc::{AllocError, Global};
use std::collections::BTreeMap;

/// The branch of `$if` that the value of its condition takes.
pub(crate) fn branch_of(value: &Doc) -> &'static str
    ensures { result.now ≡ branch_of (document value.now) }
{
    if is_true(value) { "then" } else { "else" }
}

fn push_key<'a>(keys: &mut Vec<&'a str>, key: &'a str) -> Result<(), AllocError>
    ensures { OnOk result (texts_in keys.new.items ≡ texts_in keys.old.items ++ key.now ∷ []) }
{
    keys.push(key)?;
    Ok(())
}

fn push_condition<'a>(keys: &mut Vec<&'a str>, key: &'a str) -> Result<(), AllocError>
    ensures { OnOk result (texts_in keys.new.items
        ≡ texts_in keys.old.items ++ filter (λ k. not (bytes_eq k default_key)) (key.now ∷ [])) }
{
    if key == "$default" {
        Ok(())
    } else {
        push_key(keys, key)
    }
}

/// The keys of a map, in rising order.
pub(crate) fn keys_of(
    alloc: Global,
    members: &BTreeMap<String, Doc>,
) -> Result<Vec<&str>, AllocError>
    ensures { IfOk result (λ v. texts_in v.items ≡ keys_of (members_of (entries_of members.now.entries))) }
{
    let mut keys = Vec::with_capacity(alloc, members.len())?;
    for (key, _) in members.iter() {
        push_key(&mut keys, key.as_str())?;
    }
    Ok(keys)
}

/// The same without `$default`.
pub(crate) fn conditions_of(
    alloc: Global,
    members: &BTreeMap<String, Doc>,
) -> Result<Vec<&str>, AllocError>
    ensures { IfOk result (λ v. texts_in v.items ≡ conditions_of (members_of (entries_of members.now.entries))) }
{
    let mut keys = Vec::with_capacity(alloc, members.len())?;
    for (key, _) in members.iter() {
        push_condition(&mut keys, key.as_str())?;
    }
    Ok(keys)
}

/// The branch of the first condition that is true, or else the one for none.
pub(crate) fn branch_taken<'a>(found: &Vec<&'a str>) -> &'a str
    ensures { result.now ≡ branch_taken (texts_in found.now.items) }
{
    match found.first() {
        Some(key) => *key,
        None => "$default",
    }
}

fn keep_if<'a>(found: &mut Vec<&'a str>, key: &'a str, is_kept: bool) -> Result<(), AllocError>
    ensures { OnOk result (texts_in found.new.items
        ≡ texts_in found.old.items ++ (if is_kept then key.now ∷ [] else [])) }
{
    if is_kept {
        found.push(key)?;
    }
    Ok(())
}

impl<'a> Renderer<'a> {
    /// The value of the expression that stands at the key.
    pub(crate) fn value_at(
        &mut self,
        alloc: Global,
        members: &BTreeMap<String, Doc>,
        key: &str,
    ) -> Result<Doc, RenderFault>
        ensures answers { Answers document (ValueAt key.now (members_of (entries_of members.now.entries)) (scopes_of self.old.context) self.old.cost.spent) result self.new.cost.spent }
        ensures scopes { Kept result (scopes_of self.old.context) (scopes_of self.new.context) }
    {
        match text_at(members, key) {
            Some(source) => self.evaluate(alloc, source),
            None => Err(here(alloc, Fault::WrongKind)),
        }
    }

    /// The conditions that are true.
    pub(crate) fn true_of<'b>(
        &mut self,
        alloc: Global,
        conditions: Vec<&'b str>,
    ) -> Result<Vec<&'b str>, RenderFault>
        ensures answers { Answers (λ v. texts_in v.items) (AreTrue [] (texts_in conditions.entry.items) (scopes_of self.old.context) self.old.cost.spent) result self.new.cost.spent }
        ensures scopes { Kept result (scopes_of self.old.context) (scopes_of self.new.context) }
    {
        let mut found = Vec::new(alloc);
        for condition in conditions {
            let value = match self.evaluate(alloc, condition.as_bytes()) {
                Ok(value) => value,
                Err(fault) => return Err(fault),
            };
            let is_kept = is_true(&value);
            drop(value);
            keep_if(&mut found, condition, is_kept)?;
        }
        Ok(found)
    }
}
