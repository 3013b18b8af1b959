//! Documents from their JSON text.
ghost use Rattle.std.specs.Prelude.{◌≡◌, ℕ, ◌≤◌, List, [], ◌∷◌, ◌++◌, Err, IfOk};
ghost use Rattle.std.specs.BTreeMap.{insert_entry};
ghost use Rattle.std.specs.String.{string_cmp};
ghost use Rattle.serde_json.specs.Data.{Data, depth};
ghost use Rattle.serde_json.specs.View.{view, items_view, members_view};
ghost use Rattle.farm_text.specs.Document.{Document, data_of, items_data, members_data, items_of, members_of};
ghost use Rattle.farm_text.specs.Doc.{document, documents, entries_of};
ghost use Rattle.farm_text.specs.Pointer.{pointer_under};
ghost use Rattle.farm_text.specs.Reading.{IsJson, unwhole, unwhole_items, unwhole_members};
ghost use Rattle.farm_text.specs.declared.reading.ReadFault.{ReadFault};
ghost use Rattle.farm_text.specs.declared.reading.Unread.{Unread};

use crate::doc::Doc;
use crate::pointer::{Part, pointer};
use crate::text::Text;
use serde_json::{Map, Value};
use std::alloc::{AllocError, Global};
use std::collections::BTreeMap;

/// Why no document was read.
#[derive(Drop)]
pub enum ReadFault {
    /// The bytes are no JSON that nests at most 127 deep.
    NotJson,
    /// The first number that has no `i64`, depth first with rising keys: where it stands, as a JSON pointer (RFC 6901).
    NotWhole(Text),
    NoMemory,
}

impl From<AllocError> for ReadFault {
    ghost use Rattle.std.specs.Prelude.{◌≡◌};
    ghost use Rattle.farm_text.specs.declared.reading.ReadFault.{ReadFault};

    ghost from_gives = { λ _ fault. fault ≡ ReadFault.NoMemory };

    fn from(_error: AllocError) -> ReadFault {
        ReadFault::NoMemory
    }
}

impl Doc {
    /// The document that the bytes are as JSON (RFC 8259), where each number in them is a whole one that has an `i64`.
    ///
    /// Of a key that an object has twice, the last value stays.
    pub fn read(alloc: Global, bytes: &[u8]) -> Result<Doc, ReadFault>
        ensures document { IfOk result (λ d. IsJson bytes.now (data_of (document d))) }
        ensures whole { IfOk result (λ d. unwhole (data_of (document d)) ≡ []) }
        ensures nests { IfOk result (λ d. depth (data_of (document d)) ≤ 127) }
        ensures not_json { result ≡ Err ReadFault.NotJson → (d : Data) → ¬ IsJson bytes.now d }
        ensures not_whole { (path : List ℕ) → result ≡ Err (ReadFault.NotWhole path)
            → (d : Data) × IsJson bytes.now d × ((more : List (List ℕ)) × (unwhole d ≡ path ∷ more)) }
    {
        let value = match Value::from_slice(alloc, bytes) {
            Ok(value) => value,
            Err(error) => {
                return Err(if error.is_memory() {
                    ReadFault::NoMemory
                } else {
                    ReadFault::NotJson
                });
            }
        };
        match whole(alloc, value) {
            Ok(doc) => Ok(doc),
            Err(Unread::NotWhole(parts)) => Err(ReadFault::NotWhole(pointer(alloc, parts)?)),
            Err(Unread::NoMemory) => Err(ReadFault::NoMemory),
        }
    }
}

/// A text is JSON of one document at most, so what is read of a written one is that one.
pub fn a_text_is_of_one_document()
    ensures { (bytes : List ℕ) (a b : Document) → IsJson bytes (data_of a)
        → IsJson bytes (data_of b) → a ≡ b }
{}

// Why a value is no document.
#[derive(Drop)]
enum Unread {
    // The steps to its first number that has no `i64`, the innermost first.
    NotWhole(Vec<Part>),
    NoMemory,
}

impl From<AllocError> for Unread {
    ghost use Rattle.std.specs.Prelude.{◌≡◌};
    ghost use Rattle.farm_text.specs.declared.reading.Unread.{Unread};

    ghost from_gives = { λ _ fault. fault ≡ Unread.NoMemory };

    fn from(_error: AllocError) -> Unread {
        Unread::NoMemory
    }
}

impl Unread {
    // The same fault, seen one step further out.
    fn under(self, part: Part) -> Unread
        ensures { (parts : _) → result ≡ Unread.NotWhole parts
            → (inner : _) × (self ≡ Unread.NotWhole inner) × (parts.items ≡ inner.items ++ part ∷ []) }
    {
        match self {
            Unread::NotWhole(mut parts) => match parts.push(part) {
                Ok(()) => Unread::NotWhole(parts),
                Err(_) => Unread::NoMemory,
            },
            Unread::NoMemory => Unread::NoMemory,
        }
    }
}

#[cycle(whole)]
fn whole(alloc: Global, value: Value) -> Result<Doc, Unread>
    ensures document { IfOk result (λ d. data_of (document d) ≡ view value) }
    ensures whole { IfOk result (λ _. unwhole (view value) ≡ []) }
    ensures first { (parts : _) → result ≡ Err (Unread.NotWhole parts)
        → (more : List (List ℕ)) × (unwhole (view value) ≡ pointer_under [] parts.items ∷ more) }
{
    match value {
        Value::Null => Ok(Doc::Null),
        Value::Bool(b) => Ok(Doc::Bool(b)),
        Value::Number(number) => match number.as_i64() {
            Some(n) => Ok(Doc::Int(n)),
            None => Err(Unread::NotWhole(Vec::new(alloc))),
        },
        Value::String(text) => Ok(Doc::Text(Text::from_string(text))),
        Value::Array(items) => Ok(Doc::List(whole_items(alloc, items)?)),
        Value::Object(members) => Ok(Doc::Map(whole_members(alloc, members)?)),
    }
}

#[cycle(whole)]
fn whole_items(alloc: Global, items: Vec<Value>) -> Result<Vec<Doc>, Unread>
    ensures documents { IfOk result
        (λ v. items_data (items_of (documents v.items)) ≡ items_view items.items) }
    ensures whole { IfOk result (λ _. unwhole_items 0 (items_view items.items) ≡ []) }
    ensures first { (parts : _) → result ≡ Err (Unread.NotWhole parts)
        → (more : List (List ℕ))
        × (unwhole_items 0 (items_view items.items) ≡ pointer_under [] parts.items ∷ more) }
{
    let mut docs = Vec::with_capacity(alloc, items.len())?;
    'items: for item in items {
        match whole(alloc, item) {
            Ok(doc) => keep_item(&mut docs, doc)?,
            Err(unread) => return Err(unread.under(Part::Index(docs.len()))),
        }
    }
    Ok(docs)
}

#[cycle(whole)]
fn whole_members(
    alloc: Global,
    members: Map<String, Value>,
) -> Result<BTreeMap<String, Doc>, Unread>
    ensures documents { IfOk result
        (λ m. members_data (members_of (entries_of m.entries)) ≡ members_view members.entries) }
    ensures whole { IfOk result (λ _. unwhole_members (members_view members.entries) ≡ []) }
    ensures first { (parts : _) → result ≡ Err (Unread.NotWhole parts)
        → (more : List (List ℕ))
        × (unwhole_members (members_view members.entries) ≡ pointer_under [] parts.items ∷ more) }
{
    let mut docs = BTreeMap::new(alloc);
    'members: for (key, member) in members {
        match whole(alloc, member) {
            Ok(doc) => keep_member(&mut docs, key, doc)?,
            Err(unread) => return Err(unread.under(Part::Key(key))),
        }
    }
    Ok(docs)
}

// Puts a document at the end of the items.
fn keep_item(docs: &mut Vec<Doc>, doc: Doc) -> Result<(), AllocError>
    ensures { IfOk result (λ _. docs.new.items ≡ docs.old.items ++ doc ∷ []) }
{
    docs.push(doc)?;
    Ok(())
}

// Puts a document at its key.
fn keep_member(docs: &mut BTreeMap<String, Doc>, key: String, doc: Doc) -> Result<(), AllocError>
    ensures { IfOk result (λ _. docs.new.entries ≡ insert_entry string_cmp docs.old.entries key doc) }
{
    drop(docs.insert(key, doc)?);
    Ok(())
}
