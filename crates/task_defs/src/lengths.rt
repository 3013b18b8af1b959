//! How long a document's text may be, without writing it.
ghost use Rattle.std.specs.Prelude.{◌+◌, ◌*◌, length};
ghost use Rattle.farm_text.specs.Document.{items_of, members_of, document_text, whole, text as plain_text, array, object};
ghost use Rattle.farm_text.specs.Doc.{document, documents, entries_of};
ghost use Rattle.task_defs.specs.Lengths.{Bounds, Covers};

use farm_text::Doc;
use std::collections::BTreeMap;

/// At least the number of bytes of a document's text, where that is within a definition's. No character is looked at.
#[cycle(bytes)]
pub(crate) fn most_bytes(doc: &Doc) -> usize
    ensures { Bounds result (document_text (document doc.now)) }
{
    match doc {
        Doc::Null | Doc::Bool(_) => 5,
        Doc::Int(n) => number_bytes(*n),
        Doc::Text(text) => text_bytes(text.as_str()),
        Doc::List(items) => items_bytes(items),
        Doc::Map(members) => members_bytes(members),
    }
}

/// One digit is one byte, and a number has at most twenty.
pub(crate) fn number_bytes(n: i64) -> usize
    ensures { Bounds result (document_text (whole n)) }
{
    if 0 <= n && n <= 9 { 1 } else { 20 }
}

/// A byte of a text is written in six at most.
pub(crate) fn text_bytes(text: &str) -> usize
    ensures text { Bounds result (document_text (plain_text text.now)) }
    ensures characters { Covers result (6 * length text.now + 2) }
{
    text.len().saturating_mul(6).saturating_add(2)
}

#[cycle(bytes)]
fn items_bytes(items: &Vec<Doc>) -> usize
    ensures { Bounds result (document_text (array (items_of (documents items.now.items)))) }
{
    let mut most: usize = 2;
    for item in items {
        most = most.saturating_add(most_bytes(item)).saturating_add(1);
    }
    most
}

#[cycle(bytes)]
fn members_bytes(members: &BTreeMap<String, Doc>) -> usize
    ensures { Bounds result (document_text (object (members_of (entries_of members.now.entries)))) }
{
    let mut most: usize = 2;
    for (key, member) in members.iter() {
        most = most
            .saturating_add(text_bytes(key.as_str()))
            .saturating_add(most_bytes(member))
            .saturating_add(2);
    }
    most
}
