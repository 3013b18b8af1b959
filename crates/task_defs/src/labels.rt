//! What a definition says of a task in texts: its names, its metadata and its tags.
ghost use Rattle.std.specs.Prelude.{◌≡◌, ◌↔◌, IsTrue, Some, map, codes, IfOk, MatchOption, MatchResult, option_and_then, option_map};
ghost use Rattle.farm_text.specs.Document.{get, members_of, text as plain_text};
ghost use Rattle.farm_text.specs.Doc.{document, entries_of};
ghost use Rattle.task_defs.specs.Documents.{text_of};
ghost use Rattle.task_defs.specs.Values.{text_or, members_or_none};
ghost use Rattle.task_defs.specs.Keys.{KeyBreaks};
ghost use Rattle.task_defs.specs.Faults.{Holds, Breaks};
ghost use Rattle.task_defs.specs.Rules.{NameBreaks, MetadataBreaks, IsMetadata, metadata_doc};
ghost use Rattle.task_types.specs.declared.objects.Metadata.{Metadata as AnyMetadata};

use crate::documents::as_text;
use crate::fault::DefError;
use crate::keys::value;
use crate::values;
use farm_text::{Doc, Text};
use std::alloc::{AllocError, Global};
use std::collections::BTreeMap;
use task_types::{Identifier, Metadata, ProjectName, Tags};

/// Who owns a task, and who schedules it.
#[derive(Drop)]
pub(crate) struct Owners {
    pub(crate) project_id: ProjectName,
    pub(crate) scheduler_id: Identifier,
}

/// The project and the scheduler.
pub(crate) fn read_owners(alloc: Global, doc: &Doc) -> Result<Owners, DefError>
    ensures { MatchResult result
        (λ o. Holds (NameBreaks (document doc.now)) × (o.project_id ≡ text_or (codes "none") (get (codes "projectId") (document doc.now)))
        × (o.scheduler_id ≡ text_or (codes "-") (get (codes "schedulerId") (document doc.now))))
        (Breaks 3 (NameBreaks (document doc.now))) }
{
    let project_id = match values::project(alloc, doc.get("projectId"))? {
        Some(project) => project,
        None => return Err(DefError::at(alloc, 3, "projectId")),
    };
    match values::scheduler(alloc, doc.get("schedulerId"))? {
        Some(scheduler_id) => Ok(Owners {
            project_id,
            scheduler_id,
        }),
        None => Err(DefError::at(alloc, 3, "schedulerId")),
    }
}

/// The text at a key, if one stands there.
fn text_at<'a>(doc: &'a Doc, key: &str) -> Option<&'a str>
    ensures { option_map (λ t. t.now) result ≡ option_and_then text_of (get key.now (document doc.now)) }
{
    match doc.get(key) {
        Some(value) => as_text(value),
        None => None,
    }
}

/// The four texts of a value, or `None` where one is missing.
fn four_texts(alloc: Global, value: &Doc) -> Result<Option<Metadata>, AllocError>
    ensures { IfOk result (λ found. MatchOption found (¬ IsMetadata (document value.now))
        (λ m. (other : AnyMetadata) → document value.now ≡ metadata_doc other → other ≡ m)) }
{
    let description = match text_at(value, "description") {
        Some(text) => text,
        None => return Ok(None),
    };
    let name = match text_at(value, "name") {
        Some(text) => text,
        None => return Ok(None),
    };
    let owner = match text_at(value, "owner") {
        Some(text) => text,
        None => return Ok(None),
    };
    let source = match text_at(value, "source") {
        Some(text) => text,
        None => return Ok(None),
    };
    Ok(Some(Metadata {
        description: Text::from_str(alloc, description)?,
        name: Text::from_str(alloc, name)?,
        owner: Text::from_str(alloc, owner)?,
        source: Text::from_str(alloc, source)?,
    }))
}

/// The metadata that a value is, or `None` where it is none.
pub(crate) fn read_metadata(alloc: Global, value: &Doc) -> Result<Option<Metadata>, AllocError>
    ensures { IfOk result (λ found. MatchOption found (¬ IsMetadata (document value.now)) (λ m. document value.now ≡ metadata_doc m)) }
{
    let metadata = match four_texts(alloc, value)? {
        Some(metadata) => metadata,
        None => return Ok(None),
    };
    if is_metadata(value, &metadata) {
        Ok(Some(metadata))
    } else {
        Ok(None)
    }
}

/// Whether a value is this metadata, with no member more.
fn is_metadata(value: &Doc, metadata: &Metadata) -> bool
    ensures { IsTrue result ↔ (document value.now ≡ metadata_doc metadata.now) }
{
    match value {
        Doc::Map(members) => has_texts(
            members,
            [
                ("description", metadata.description.as_str()),
                ("name", metadata.name.as_str()),
                ("owner", metadata.owner.as_str()),
                ("source", metadata.source.as_str()),
            ]
            .as_slice(),
        ),
        _ => false,
    }
}

/// Whether a map has these texts at these keys, in their order, and no member more.
fn has_texts(members: &BTreeMap<String, Doc>, texts: &[(&str, &str)]) -> bool
    ensures { IsTrue result ↔ (members_of (entries_of members.now.entries) ≡ members_of (map (λ t. (t.0.now, plain_text t.1.now)) texts.now)) }
{
    let mut others = texts.iter();
    for (key, value) in members.iter() {
        match others.next() {
            Some((name, text)) if key.as_str() == *name && is_text(value, text) => {}
            _ => return false,
        }
    }
    others.next().is_none()
}

/// Whether a document is this text.
fn is_text(value: &Doc, text: &str) -> bool
    ensures { IsTrue result ↔ (document value.now ≡ plain_text text.now) }
{
    match value {
        Doc::Text(own) => own.as_str() == text,
        _ => false,
    }
}

/// Who made a task and what for, and its tags.
#[derive(Drop)]
pub(crate) struct Labels {
    pub(crate) metadata: Metadata,
    pub(crate) tags: Tags,
}

/// The metadata and the tags.
pub(crate) fn read_labels(alloc: Global, doc: &Doc) -> Result<Labels, DefError>
    requires { Holds (KeyBreaks (document doc.now)) }
    ensures { MatchResult result
        (λ l. Holds (MetadataBreaks (document doc.now)) × (get (codes "metadata") (document doc.now) ≡ Some (metadata_doc l.metadata))
        × (l.tags ≡ members_or_none (get (codes "tags") (document doc.now))))
        (Breaks 14 (MetadataBreaks (document doc.now))) }
{
    let metadata = match read_metadata(alloc, value(doc, "metadata"))? {
        Some(metadata) => metadata,
        None => return Err(DefError::at(alloc, 14, "metadata")),
    };
    match values::tags(alloc, doc.get("tags"))? {
        Some(tags) => Ok(Labels { metadata, tags }),
        None => Err(DefError::at(alloc, 14, "tags")),
    }
}
