//! Whether two documents are the same.
ghost use Rattle.std.specs.Prelude.{◌≡◌, ◌↔◌, IsTrue};
ghost use Rattle.farm_text.specs.Document.{items_of, members_of};
ghost use Rattle.farm_text.specs.Doc.{document, documents, entries_of};

use crate::doc::Doc;
use std::collections::BTreeMap;

/// Whether two documents are the same. It takes no memory.
#[cycle(same)]
pub fn same_doc(a: &Doc, b: &Doc) -> bool
    ensures { IsTrue result ↔ (document a.now ≡ document b.now) }
{
    match a {
        Doc::Null => match b {
            Doc::Null => true,
            _ => false,
        },
        Doc::Bool(x) => match b {
            Doc::Bool(y) => x == y,
            _ => false,
        },
        Doc::Int(x) => match b {
            Doc::Int(y) => x == y,
            _ => false,
        },
        Doc::Text(x) => match b {
            Doc::Text(y) => x.as_str() == y.as_str(),
            _ => false,
        },
        Doc::List(xs) => match b {
            Doc::List(ys) => same_items(xs, ys),
            _ => false,
        },
        Doc::Map(xs) => match b {
            Doc::Map(ys) => same_members(xs, ys),
            _ => false,
        },
    }
}

#[cycle(same)]
fn same_items(a: &Vec<Doc>, b: &Vec<Doc>) -> bool
    ensures { IsTrue result ↔ (items_of (documents a.now.items) ≡ items_of (documents b.now.items)) }
{
    let mut others = b.iter();
    for item in a {
        match others.next() {
            Some(other) if same_doc(item, other) => {}
            _ => return false,
        }
    }
    others.next().is_none()
}

#[cycle(same)]
fn same_members(a: &BTreeMap<String, Doc>, b: &BTreeMap<String, Doc>) -> bool
    ensures { IsTrue result ↔ (members_of (entries_of a.now.entries) ≡ members_of (entries_of b.now.entries)) }
{
    let mut others = b.iter();
    for (key, value) in a.iter() {
        match others.next() {
            Some((name, other)) if key.as_str() == name.as_str() && same_doc(value, other) => {}
            _ => return false,
        }
    }
    others.next().is_none()
}
