//! The maps of a definition.
ghost use Rattle.std.specs.Prelude.{◌≡◌, ◌↔◌, IsTrue, IsSome, IfSome};
ghost use Rattle.farm_text.specs.Document.{object, no_members, members_of};
ghost use Rattle.farm_text.specs.Doc.{document, entries_of};
ghost use Rattle.task_types.specs.Maps.{members_in, AreTags, AreTexts};

use farm_text::{Doc, Text};
use std::alloc::Global;
use std::collections::BTreeMap;
use std::marker::Model;

/// A map of documents, seen as its members, whose keys rise by bytes.
#[derive(Drop)]
pub struct Object {
    value: Doc,
}

impl Model for Object {
    ghost use Rattle.std.specs.Prelude.{◌≡◌};
    ghost use Rattle.farm_text.specs.Document.{Members, object};
    ghost use Rattle.task_types.specs.Codes.{members_code};
    ghost use Rattle.farm_text.specs.Doc.{document};
    ghost use Rattle.task_types.specs.Maps.{members_in};

    ghost Value = { Members };

    ghost coded = { members_code };

    ghost view = { λ o. members_in (document o.value) };

    ghost invariant = { λ o. document o.value ≡ object (members_in (document o.value)) };
}

impl Object {
    /// The map without members.
    pub fn empty(alloc: Global) -> Object
        ensures { result ≡ no_members }
    {
        Object {
            value: Doc::Map(BTreeMap::new(alloc)),
        }
    }

    /// The map that the document is, if it is one.
    pub fn from_doc(value: Doc) -> Option<Object>
        ensures map { IsSome result ↔ (document value ≡ object (members_in (document value))) }
        ensures members { IfSome result (λ o. o ≡ members_in (document value)) }
    {
        if matches!(&value, Doc::Map(_)) {
            Some(Object { value })
        } else {
            None
        }
    }

    /// The map as a document.
    pub fn as_doc(&self) -> &Doc
        ensures { document result.now ≡ object self.now }
    {
        &self.value
    }
}

/// A map of texts, seen as its members, whose keys rise by bytes.
#[derive(Drop)]
pub struct Tags {
    value: Doc,
}

impl Model for Tags {
    ghost use Rattle.farm_text.specs.Document.{Members};
    ghost use Rattle.task_types.specs.Codes.{members_code};
    ghost use Rattle.farm_text.specs.Doc.{document};
    ghost use Rattle.task_types.specs.Maps.{members_in, AreTags};

    ghost Value = { Members };

    ghost coded = { members_code };

    ghost view = { λ t. members_in (document t.value) };

    ghost invariant = { λ t. AreTags (document t.value) };
}

impl Tags {
    /// No tags.
    pub fn empty(alloc: Global) -> Tags
        ensures { result ≡ no_members }
    {
        Tags {
            value: Doc::Map(BTreeMap::new(alloc)),
        }
    }

    /// The tags that the document is, if it is a map of texts.
    pub fn from_doc(value: Doc) -> Option<Tags>
        ensures texts { IsSome result ↔ AreTags (document value) }
        ensures members { IfSome result (λ t. t ≡ members_in (document value)) }
    {
        if are_tags(&value) {
            Some(Tags { value })
        } else {
            None
        }
    }

    /// The tags as a document.
    pub fn as_doc(&self) -> &Doc
        ensures map { document result.now ≡ object self.now }
        ensures texts { AreTags (object self.now) }
    {
        &self.value
    }
}

/// Whether a document is a map of texts.
fn are_tags(value: &Doc) -> bool
    ensures { IsTrue result ↔ AreTags (document value.now) }
{
    match value {
        Doc::Map(members) => are_texts(members),
        _ => false,
    }
}

fn are_texts(members: &BTreeMap<String, Doc>) -> bool
    ensures { IsTrue result ↔ AreTexts (members_of (entries_of members.now.entries)) }
{
    for (_, value) in members.iter() {
        if !matches!(value, Doc::Text(_)) {
            return false;
        }
    }
    true
}

/// Who made a task and what for, in four texts.
#[derive(Drop)]
pub struct Metadata {
    pub description: Text,
    pub name: Text,
    pub owner: Text,
    pub source: Text,
}
