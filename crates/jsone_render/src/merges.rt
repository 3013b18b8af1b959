//! What operators give for the value of their operand.
ghost use Rattle.std.specs.Prelude.{◌≡◌, [], ◌∷◌, ◌++◌, IfOk, OnOk, MatchOption, MatchResult, Some, Ok, Err};
ghost use Rattle.farm_text.specs.Document.{array, object, members_of, items_of, member_at, put};
ghost use Rattle.farm_text.specs.Doc.{document, documents, entries_of};
ghost use Rattle.jsone_values.specs.Meets.{Meets};
ghost use Rattle.jsone_render.specs.Answers.{found_in, LacksList, LacksMap};
ghost use Rattle.jsone_render.specs.Merges.{put_all, merge_of, deep, deep_all, deep_merge_of, flattened, flatten_of, leaves, items_leaves, deep_flatten_of, reverse_of, json_of};

use crate::lists::{as_map, into_list, into_map};
use crate::maps::insert;
use farm_text::Doc;
use jsone_values::faults::{Fault, Stop};
use std::alloc::{AllocError, Global};
use std::collections::BTreeMap;

const WRONG_KIND: Stop = Stop::Fault(Fault::WrongKind);

/// Further members, of which each takes the place of one that has its key.
fn put_all(map: &mut BTreeMap<String, Doc>, more: BTreeMap<String, Doc>) -> Result<(), AllocError>
    ensures { OnOk result (members_of (entries_of map.new.entries)
        ≡ put_all (members_of (entries_of map.old.entries)) (members_of (entries_of more.entries))) }
{
    for (key, value) in more {
        insert(map, key, value)?;
    }
    Ok(())
}

/// The maps of a list as one, in which later members win.
pub(crate) fn merge_of(alloc: Global, value: Doc) -> Result<Doc, Stop>
    ensures { Meets (λ r. r ≡ merge_of (document value)) result }
{
    let Doc::List(items) = value else {
        return Err(WRONG_KIND);
    };
    let mut map = BTreeMap::new(alloc);
    for item in items {
        let more = match into_map(item) {
            Some(more) => more,
            None => return Err(WRONG_KIND),
        };
        match put_all(&mut map, more) {
            Ok(()) => {}
            Err(_) => return Err(Stop::NoMemory),
        }
    }
    Ok(Doc::Map(map))
}

/// A later value where an earlier one may stand. It goes as deep as the later one nests.
#[cycle(deepen)]
fn deep(alloc: Global, later: &Doc, before: Option<Doc>) -> Result<Doc, AllocError>
    ensures { IfOk result (λ d. document d ≡ deep (document later.now) (found_in before)) }
{
    match later {
        Doc::List(more) => match list_in(before) {
            Some(items) => Ok(Doc::List(joined(items, more)?)),
            None => later.clone(),
        },
        Doc::Map(more) => match map_in(before) {
            Some(mut members) => match deep_all(alloc, more, &mut members) {
                Ok(()) => Ok(Doc::Map(members)),
                Err(fault) => {
                    drop(members);
                    Err(fault)
                }
            },
            None => later.clone(),
        },
        _ => {
            drop(before);
            later.clone()
        }
    }
}

/// Later members on earlier ones.
#[cycle(deepen)]
fn deep_all(
    alloc: Global,
    later: &BTreeMap<String, Doc>,
    members: &mut BTreeMap<String, Doc>,
) -> Result<(), AllocError>
    ensures { OnOk result (members_of (entries_of members.new.entries)
        ≡ deep_all (members_of (entries_of later.now.entries)) (members_of (entries_of members.old.entries))) }
{
    for (key, value) in later.iter() {
        let found = replaced(alloc, members, key.as_str(), Doc::Null)?;
        let joined = deep(alloc, value, found)?;
        drop(replaced(alloc, members, key.as_str(), joined)?);
    }
    Ok(())
}

/// The members of a list that may stand there.
fn list_in(before: Option<Doc>) -> Option<Vec<Doc>>
    ensures { MatchOption result (LacksList (found_in before)) (λ v. found_in before ≡ Some (array (items_of (documents v.items)))) }
{
    match before {
        Some(value) => match into_list(value) {
            Ok(items) => Some(items),
            Err(value) => {
                drop(value);
                None
            }
        },
        None => None,
    }
}

/// The members of a map that may stand there.
fn map_in(before: Option<Doc>) -> Option<BTreeMap<String, Doc>>
    ensures { MatchOption result (LacksMap (found_in before)) (λ m. found_in before ≡ Some (object (members_of (entries_of m.entries)))) }
{
    match before {
        Some(value) => into_map(value),
        None => None,
    }
}

/// The value that stood at the key, which has a new one now.
pub(crate) fn replaced(
    alloc: Global,
    members: &mut BTreeMap<String, Doc>,
    key: &str,
    value: Doc,
) -> Result<Option<Doc>, AllocError>
    ensures before { IfOk result (λ old. found_in old ≡ member_at key.now (members_of (entries_of members.old.entries))) }
    ensures put { OnOk result (members_of (entries_of members.new.entries)
        ≡ put key.now (document value) (members_of (entries_of members.old.entries))) }
{
    match String::from_str(alloc, key) {
        Ok(name) => Ok(members.insert(name, value)?),
        Err(fault) => {
            drop(value);
            Err(fault)
        }
    }
}

/// The items, and copies of further ones behind them.
fn joined(items: Vec<Doc>, more: &Vec<Doc>) -> Result<Vec<Doc>, AllocError>
    ensures { IfOk result (λ v. documents v.items ≡ documents items.items ++ documents more.now.items) }
{
    let mut all = items;
    for item in more {
        all.push(item.clone()?)?;
    }
    Ok(all)
}

/// The maps of a list as one: inner maps are merged, lists are joined, and else later members win.
pub(crate) fn deep_merge_of(alloc: Global, value: &Doc) -> Result<Doc, Stop>
    ensures { Meets (λ r. r ≡ deep_merge_of (document value.now)) result }
{
    let Doc::List(items) = value else {
        return Err(WRONG_KIND);
    };
    let mut map = BTreeMap::new(alloc);
    for item in items {
        let more = match as_map(item) {
            Some(more) => more,
            None => return Err(WRONG_KIND),
        };
        match deep_all(alloc, more, &mut map) {
            Ok(()) => {}
            Err(_) => return Err(Stop::NoMemory),
        }
    }
    Ok(Doc::Map(map))
}

fn push_all(flat: &mut Vec<Doc>, inner: Vec<Doc>) -> Result<(), AllocError>
    ensures { OnOk result (documents flat.new.items ≡ documents flat.old.items ++ documents inner.items) }
{
    for value in inner {
        flat.push(value)?;
    }
    Ok(())
}

/// The members of a list, or the value itself.
fn push_flat(flat: &mut Vec<Doc>, item: Doc) -> Result<(), AllocError>
    ensures { OnOk result (documents flat.new.items ≡ documents flat.old.items ++ flattened (document item ∷ [])) }
{
    match into_list(item) {
        Ok(inner) => push_all(flat, inner),
        Err(value) => {
            flat.push(value)?;
            Ok(())
        }
    }
}

/// The members of the members that are lists, and the other members.
fn flattened(alloc: Global, items: Vec<Doc>) -> Result<Vec<Doc>, AllocError>
    ensures { IfOk result (λ v. documents v.items ≡ flattened (documents items.items)) }
{
    let mut flat = Vec::new(alloc);
    for item in items {
        push_flat(&mut flat, item)?;
    }
    Ok(flat)
}

/// What is no list, at any depth, behind what was found. It goes as deep as the value nests.
fn push_leaves(value: &Doc, flat: &mut Vec<Doc>) -> Result<(), AllocError>
    ensures { OnOk result (documents flat.new.items ≡ documents flat.old.items ++ leaves (document value.now)) }
{
    match value {
        Doc::List(items) => {
            for item in items {
                push_leaves(item, flat)?;
            }
            Ok(())
        }
        _ => {
            flat.push(value.clone()?)?;
            Ok(())
        }
    }
}

fn listing(made: Result<Vec<Doc>, AllocError>) -> Result<Doc, Stop>
    ensures { MatchResult made (λ v. result ≡ Ok (Doc.List v)) (λ _. result ≡ Err Stop.NoMemory) }
{
    match made {
        Ok(items) => Ok(Doc::List(items)),
        Err(_) => Err(Stop::NoMemory),
    }
}

pub(crate) fn flatten_of(alloc: Global, value: Doc) -> Result<Doc, Stop>
    ensures { Meets (λ r. r ≡ flatten_of (document value)) result }
{
    match value {
        Doc::List(items) => listing(flattened(alloc, items)),
        _ => Err(WRONG_KIND),
    }
}

fn leaves_of(alloc: Global, items: &Vec<Doc>) -> Result<Vec<Doc>, AllocError>
    ensures { IfOk result (λ v. documents v.items ≡ items_leaves (items_of (documents items.now.items))) }
{
    let mut flat = Vec::new(alloc);
    for item in items {
        push_leaves(item, &mut flat)?;
    }
    Ok(flat)
}

pub(crate) fn deep_flatten_of(alloc: Global, value: &Doc) -> Result<Doc, Stop>
    ensures { Meets (λ r. r ≡ deep_flatten_of (document value.now)) result }
{
    match value {
        Doc::List(items) => listing(leaves_of(alloc, items)),
        _ => Err(WRONG_KIND),
    }
}

/// The list from its end.
pub(crate) fn reverse_of(value: Doc) -> Result<Doc, Stop>
    ensures { Meets (λ r. r ≡ reverse_of (document value)) result }
{
    match value {
        Doc::List(mut items) => {
            items.reverse();
            Ok(Doc::List(items))
        }
        _ => Err(WRONG_KIND),
    }
}

/// The value as JSON without spaces.
pub(crate) fn json_of(alloc: Global, value: &Doc) -> Result<Doc, Stop>
    ensures { Meets (λ r. r ≡ json_of (document value.now)) result }
{
    match value.write(alloc) {
        Ok(text) => Ok(Doc::Text(text)),
        Err(_) => Err(Stop::NoMemory),
    }
}
