//! The turns of `$map`, `$reduce` and `$find`, and what `$find` and `$sort` come to.
ghost use Rattle.std.specs.Prelude.{◌≡◌, ◌++◌, ◌∷◌, [], IfOk, OnOk, codes, pos};
ghost use Rattle.farm_text.specs.Document.{member_at, members_of, put, text as plain_text, whole};
ghost use Rattle.farm_text.specs.Doc.{document, documents, entries_of};
ghost use Rattle.jsone_eval.specs.Scopes.{scopes_of};
ghost use Rattle.jsone_values.specs.Meets.{Meets};
ghost use Rattle.jsone_render.specs.Answers.{Answers, Kept, Tested, found_in, names_in, pairs_of};
ghost use Rattle.jsone_render.specs.Bindings.{bound_to, entry, turn_value, numbered, turns_of, FirstTrue, FoundIn};
ghost use Rattle.jsone_render.specs.Merges.{merged};
ghost use Rattle.jsone_render.specs.Sorting.{SortedBy};

use crate::binders::Names;
use crate::faults::RenderFault;
use crate::lists::{into_list, text_at};
use crate::merges::{merge_of, replaced};
use crate::paths::here;
use crate::readings::Reading;
use crate::renderer::Renderer;
use crate::sorting::{keep_pair, sort_of};
use farm_text::Doc;
use jsone_values::faults::{Fault, Stop};
use std::alloc::{AllocError, Global};
use std::collections::BTreeMap;

/// A number of members, as a value; more than can be counted are in no memory.
fn count_of(count: usize) -> Result<Doc, AllocError>
    ensures { IfOk result (λ d. document d ≡ whole (pos count)) }
{
    match i64::try_from(count) {
        Ok(number) => Ok(Doc::Int(number)),
        Err(_) => Err(AllocError),
    }
}

/// The members of a list, each with its index.
pub(crate) fn numbered(alloc: Global, items: Vec<Doc>) -> Result<Vec<(Doc, Doc)>, AllocError>
    ensures { IfOk result (λ v. pairs_of v.items ≡ numbered 0 (documents items.items)) }
{
    let mut turns = Vec::new(alloc);
    for item in items {
        match count_of(turns.len()) {
            Ok(index) => keep_pair(&mut turns, item, index)?,
            Err(fault) => {
                drop(item);
                return Err(fault);
            }
        }
    }
    Ok(turns)
}

/// Puts a member of a map into one that is to hold its key and its value.
fn put_entry(
    alloc: Global,
    map: &mut BTreeMap<String, Doc>,
    key: &str,
    value: Doc,
) -> Result<(), AllocError>
    ensures { OnOk result (members_of (entries_of map.new.entries)
        ≡ put (codes "key") (plain_text key.now) (put (codes "val") (document value) (members_of (entries_of map.old.entries)))) }
{
    drop(replaced(alloc, map, "val", value)?);
    let text = Doc::text(alloc, key)?;
    drop(replaced(alloc, map, "key", text)?);
    Ok(())
}

/// A member of a map, as a map of its key and its value.
fn entry(alloc: Global, key: &str, value: Doc) -> Result<Doc, AllocError>
    ensures { IfOk result (λ d. document d ≡ entry key.now (document value)) }
{
    let mut map = BTreeMap::new(alloc);
    match put_entry(alloc, &mut map, key, value) {
        Ok(()) => Ok(Doc::Map(map)),
        Err(fault) => {
            drop(map);
            Err(fault)
        }
    }
}

fn turn_value(alloc: Global, names: Names, key: &str, value: Doc) -> Result<Doc, AllocError>
    ensures { IfOk result (λ d. document d ≡ turn_value (names_in names.entry) key.now (document value)) }
{
    match names {
        Names::One(_) => entry(alloc, key, value),
        Names::Two(_, _) | Names::Three(_, _, _) => Ok(value),
    }
}

/// One member of a map more.
fn push_turn(
    alloc: Global,
    turns: &mut Vec<(Doc, Doc)>,
    names: Names,
    key: &str,
    value: Doc,
) -> Result<(), AllocError>
    ensures { OnOk result (pairs_of turns.new.items ≡ pairs_of turns.old.items ++ (turn_value (names_in names.entry) key.now (document value), plain_text key.now) ∷ []) }
{
    match Doc::text(alloc, key) {
        Ok(second) => match turn_value(alloc, names, key, value) {
            Ok(first) => keep_pair(turns, first, second),
            Err(fault) => {
                drop(second);
                Err(fault)
            }
        },
        Err(fault) => {
            drop(value);
            Err(fault)
        }
    }
}

/// The members of a map, each with its key.
pub(crate) fn turns_of(
    alloc: Global,
    names: Names,
    members: BTreeMap<String, Doc>,
) -> Result<Vec<(Doc, Doc)>, AllocError>
    ensures { IfOk result (λ v. pairs_of v.items ≡ turns_of (names_in names.entry) (members_of (entries_of members.entries))) }
{
    let mut turns = Vec::new(alloc);
    for (key, value) in members {
        push_turn(alloc, &mut turns, names, key.as_str(), value)?;
    }
    Ok(turns)
}

impl<'a> Renderer<'a> {
    /// Whether the expression is true for a member, which stays.
    fn holds_for(
        &mut self,
        alloc: Global,
        reading: &Reading,
        names: Names,
        item: &Doc,
        index: Doc,
    ) -> Result<bool, RenderFault>
        ensures answers { Answers (λ b. b) (Tested reading.now (scopes_of self.old.context ++ bound_to (names_in names.entry) (document item.now ∷ document index ∷ [])) self.old.cost.spent) result self.new.cost.spent }
        ensures scopes { Kept result (scopes_of self.old.context) (scopes_of self.new.context) }
    {
        match item.clone() {
            Ok(copy) => self.is_true_where(alloc, reading, names, copy, index),
            Err(_) => {
                drop(index);
                Err(RenderFault::NoMemory)
            }
        }
    }

    /// The first member for which the expression is true.
    fn first_true(
        &mut self,
        alloc: Global,
        reading: &Reading,
        names: Names,
        turns: Vec<(Doc, Doc)>,
    ) -> Result<Option<Doc>, RenderFault>
        ensures answers { Answers found_in (FirstTrue reading.now (names_in names.entry) (pairs_of turns.items) (scopes_of self.old.context) self.old.cost.spent) result self.new.cost.spent }
        ensures scopes { Kept result (scopes_of self.old.context) (scopes_of self.new.context) }
    {
        for (item, index) in turns {
            let holds = match self.holds_for(alloc, reading, names, &item, index) {
                Ok(holds) => holds,
                Err(fault) => {
                    drop(item);
                    return Err(fault);
                }
            };
            if holds {
                return self.finish(Some(item));
            }
            drop(item);
        }
        self.finish(None)
    }

    /// `$find` in a list.
    pub(crate) fn found_in(
        &mut self,
        alloc: Global,
        members: &BTreeMap<String, Doc>,
        key: &str,
        names: Names,
        value: Doc,
    ) -> Result<Option<Doc>, RenderFault>
        ensures answers { Answers found_in (FoundIn (member_at key.now (members_of (entries_of members.now.entries))) (names_in names.entry) (document value) (scopes_of self.old.context) self.old.cost.spent) result self.new.cost.spent }
        ensures scopes { Kept result (scopes_of self.old.context) (scopes_of self.new.context) }
    {
        let items = match into_list(value) {
            Ok(items) => items,
            Err(value) => {
                drop(value);
                return Err(here(alloc, Fault::WrongKind));
            }
        };
        match text_at(members, key) {
            Some(source) => {
                let turns = numbered(alloc, items)?;
                let reading = self.readings.reading(alloc, source)?;
                self.first_true(alloc, &reading, names, turns)
            }
            None => Err(here(alloc, Fault::WrongKind)),
        }
    }

    /// `$sort` of a list by what an expression gives for its members.
    pub(crate) fn sorted_by(
        &mut self,
        alloc: Global,
        members: &BTreeMap<String, Doc>,
        key: &str,
        names: Names,
        value: Doc,
    ) -> Result<Option<Doc>, RenderFault>
        ensures answers { Answers found_in (SortedBy (member_at key.now (members_of (entries_of members.now.entries))) (names_in names.entry) (document value) (scopes_of self.old.context) self.old.cost.spent) result self.new.cost.spent }
        ensures scopes { Kept result (scopes_of self.old.context) (scopes_of self.new.context) }
    {
        let items = match into_list(value) {
            Ok(items) => items,
            Err(value) => {
                drop(value);
                return Err(here(alloc, Fault::WrongKind));
            }
        };
        match text_at(members, key) {
            Some(source) => {
                let reading = self.readings.reading(alloc, source)?;
                let pairs = match self.sort_keys(alloc, &reading, names, items) {
                    Ok(pairs) => pairs,
                    Err(fault) => return Err(fault),
                };
                self.finish_made(alloc, sort_of(alloc, pairs))
            }
            None => Err(here(alloc, Fault::WrongKind)),
        }
    }
}

/// Maps as one, in which later members win.
pub(crate) fn merged(alloc: Global, items: Vec<Doc>) -> Result<Doc, Stop>
    ensures { Meets (λ r. r ≡ merged (documents items.items)) result }
{
    merge_of(alloc, Doc::List(items))
}
