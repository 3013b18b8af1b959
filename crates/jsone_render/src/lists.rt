//! Values that are gathered.
ghost use Rattle.std.specs.Prelude.{◌≡◌, ◌++◌, OnOk, MatchOption, MatchResult, Some, None};
ghost use Rattle.farm_text.specs.Document.{array, object, items_of, members_of, member_at, text as plain_text};
ghost use Rattle.farm_text.specs.Doc.{document, documents, entries_of};
ghost use Rattle.jsone_render.specs.Answers.{found_in, IsNoMap, IsNoList, IsNoText, LacksMap};
ghost use Rattle.jsone_render.specs.Maps.{kept_at};
ghost use Rattle.jsone_render.specs.Outcomes.{kept, or_null};

use farm_text::Doc;
use std::alloc::{AllocError, Global};
use std::collections::BTreeMap;

/// What is removed is null where a value is asked for.
pub(crate) fn or_null(found: Option<Doc>) -> Doc
    ensures { document result ≡ or_null (found_in found) }
{
    match found {
        Some(value) => value,
        None => Doc::Null,
    }
}

/// Keeps a value, unless it is removed.
pub(crate) fn keep(done: &mut Vec<Doc>, found: Option<Doc>) -> Result<(), AllocError>
    ensures { OnOk result (documents done.new.items ≡ documents done.old.items ++ kept (found_in found)) }
{
    match found {
        Some(value) => {
            done.push(value)?;
            Ok(())
        }
        None => Ok(()),
    }
}

/// Keeps a value at its key, unless it is removed.
pub(crate) fn keep_at(
    alloc: Global,
    done: &mut Vec<(String, Doc)>,
    key: &str,
    found: Option<Doc>,
) -> Result<(), AllocError>
    ensures { OnOk result (entries_of done.new.items ≡ entries_of done.old.items ++ kept_at key.now (found_in found)) }
{
    match found {
        Some(value) => match String::from_str(alloc, key) {
            Ok(name) => {
                done.push((name, value))?;
                Ok(())
            }
            Err(fault) => {
                drop(value);
                Err(fault)
            }
        },
        None => Ok(()),
    }
}

/// The members of a map; other values have none.
pub(crate) fn into_map(value: Doc) -> Option<BTreeMap<String, Doc>>
    ensures { MatchOption result (IsNoMap (document value)) (λ m. document value ≡ object (members_of (entries_of m.entries))) }
{
    match value {
        Doc::Map(members) => Some(members),
        _ => None,
    }
}

/// The members of a map, which stay where they are; other values have none.
pub(crate) fn as_map(value: &Doc) -> Option<&BTreeMap<String, Doc>>
    ensures { MatchOption result (IsNoMap (document value.now)) (λ m. document value.now ≡ object (members_of (entries_of m.now.entries))) }
{
    match value {
        Doc::Map(members) => Some(members),
        _ => None,
    }
}

/// The members of a list; else the value itself.
pub(crate) fn into_list(value: Doc) -> Result<Vec<Doc>, Doc>
    ensures { MatchResult result (λ v. document value ≡ array (items_of (documents v.items)))
        (λ d. (document d ≡ document value) × IsNoList (document value)) }
{
    match value {
        Doc::List(items) => Ok(items),
        value => Err(value),
    }
}

/// The text that stands at a key, if one does.
pub(crate) fn text_at<'a>(members: &'a BTreeMap<String, Doc>, key: &str) -> Option<&'a [u8]>
    ensures { MatchOption result (IsNoText (member_at key.now (members_of (entries_of members.now.entries))))
        (λ bs. member_at key.now (members_of (entries_of members.now.entries)) ≡ Some (plain_text bs.now)) }
{
    match member_of(members, key) {
        Some(member) => as_text(member),
        None => None,
    }
}

/// The map that stands at a key, if one does.
pub(crate) fn map_at<'a>(
    members: &'a BTreeMap<String, Doc>,
    key: &str,
) -> Option<&'a BTreeMap<String, Doc>>
    ensures { MatchOption result (LacksMap (member_at key.now (members_of (entries_of members.now.entries))))
        (λ m. member_at key.now (members_of (entries_of members.now.entries)) ≡ Some (object (members_of (entries_of m.now.entries)))) }
{
    match member_of(members, key) {
        Some(member) => as_map(member),
        None => None,
    }
}

/// What stands at a key, if anything does.
pub(crate) fn member_of<'a>(members: &'a BTreeMap<String, Doc>, key: &str) -> Option<&'a Doc>
    ensures { MatchOption result (member_at key.now (members_of (entries_of members.now.entries)) ≡ None)
        (λ d. member_at key.now (members_of (entries_of members.now.entries)) ≡ Some (document d.now)) }
{
    members.get(key)
}

fn as_text(value: &Doc) -> Option<&[u8]>
    ensures { MatchOption result (IsNoText (Some (document value.now))) (λ bs. document value.now ≡ plain_text bs.now) }
{
    match value {
        Doc::Text(text) => Some(text.as_bytes()),
        _ => None,
    }
}
