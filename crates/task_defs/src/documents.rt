//! How deep a document nests, and what kind it is of.
ghost use Rattle.std.specs.Prelude.{◌≡◌, ◌≤◌, ◌↔◌, IsTrue, option_map};
ghost use Rattle.serde_json.specs.Data.{items_depth, members_depth};
ghost use Rattle.farm_text.specs.Document.{items_of, members_of, items_data, members_data};
ghost use Rattle.farm_text.specs.Doc.{document, documents, entries_of};
ghost use Rattle.task_defs.specs.Documents.{nesting, text_of, items_in};

use farm_text::Doc;
use std::collections::BTreeMap;

/// The text that a document is, if it is one.
pub(crate) fn as_text(doc: &Doc) -> Option<&str>
    ensures { option_map (λ t. t.now) result ≡ text_of (document doc.now) }
{
    match doc {
        Doc::Text(text) => Some(text.as_str()),
        _ => None,
    }
}

/// The list that a document is, if it is one.
pub(crate) fn as_list(doc: &Doc) -> Option<&Vec<Doc>>
    ensures { option_map (λ v. items_of (documents v.now.items)) result ≡ items_in (document doc.now) }
{
    match doc {
        Doc::List(items) => Some(items),
        _ => None,
    }
}

/// Whether a document nests at most so deep.
#[cycle(nests)]
pub(crate) fn nests_within(doc: &Doc, most: usize) -> bool
    ensures { IsTrue result ↔ (nesting (document doc.now) ≤ most) }
{
    match doc {
        Doc::Null | Doc::Bool(_) | Doc::Int(_) | Doc::Text(_) => true,
        Doc::List(items) => most > 0 && items_nest_within(items, most - 1),
        Doc::Map(members) => most > 0 && members_nest_within(members, most - 1),
    }
}

#[cycle(nests)]
fn items_nest_within(items: &Vec<Doc>, most: usize) -> bool
    ensures { IsTrue result ↔ (items_depth (items_data (items_of (documents items.now.items))) ≤ most) }
{
    for item in items {
        if !nests_within(item, most) {
            return false;
        }
    }
    true
}

#[cycle(nests)]
fn members_nest_within(members: &BTreeMap<String, Doc>, most: usize) -> bool
    ensures { IsTrue result ↔ (members_depth (members_data (members_of (entries_of members.now.entries))) ≤ most) }
{
    for (_, member) in members.iter() {
        if !nests_within(member, most) {
            return false;
        }
    }
    true
}
