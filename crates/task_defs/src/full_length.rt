//! How long the full form of a definition may be, without putting it together.
ghost use Rattle.std.specs.Prelude.{◌+◌, map, length, sum};
ghost use Rattle.farm_text.specs.Slug.{slug_text};
ghost use Rattle.farm_text.specs.Document.{Document, document_text, text as plain_text};
ghost use Rattle.task_types.specs.Forms.{queue_name};
ghost use Rattle.task_defs.specs.Rules.{metadata_doc};
ghost use Rattle.task_defs.specs.Definitions.{text_list, IsFullForm};
ghost use Rattle.task_defs.specs.Lengths.{Bounds, Covers};

use crate::lengths::{most_bytes, number_bytes, text_bytes};
use farm_text::SlugId;
use scope_sets::Scope;
use task_types::{Metadata, Route, TaskDef, TaskQueue};

/// What a full form has at most beside its names, lists and maps: the keys and the moments.
const FRAME_BYTES: usize = 1_500;

/// The same of `metadata` beside its texts.
const METADATA_FRAME_BYTES: usize = 200;

/// At least the number of bytes of a definition's full form, where that is within the longest one's. Nothing is written, and no character is looked at.
pub(crate) fn full_form_bytes(def: &TaskDef) -> usize
    ensures { (full : Document) → IsFullForm def.now full → Bounds result (document_text full) }
{
    total([
        FRAME_BYTES,
        text_bytes(def.project_id.as_str()),
        text_bytes(def.scheduler_id.as_str()),
        queue_bytes(&def.queue),
        slug_bytes(def.task_group_id),
        ids_bytes(def.dependencies.list()),
        routes_bytes(def.routes.list()),
        scopes_bytes(def.scopes.list()),
        metadata_bytes(&def.metadata),
        most_bytes(def.extra.as_doc()),
        most_bytes(def.payload.as_doc()),
        most_bytes(def.tags.as_doc()),
        text_bytes(def.priority.name()),
        text_bytes(def.requires_.name()),
        number_bytes(i64::from(def.retries)),
    ]
    .as_slice())
}

/// The sum, where that is within the longest definition's length.
fn total(parts: &[usize]) -> usize
    ensures { Covers result (sum parts.now) }
{
    let mut most: usize = 0;
    for part in parts {
        most = most.saturating_add(*part);
    }
    most
}

/// The two parts of a queue, and its name.
fn queue_bytes(queue: &TaskQueue) -> usize
    ensures { Covers result (length (document_text (plain_text queue.now.provisioner_id)) + length (document_text (plain_text queue.now.worker_type))
        + length (document_text (plain_text (queue_name queue.now.provisioner_id queue.now.worker_type)))) }
{
    let provisioner = text_bytes(queue.provisioner_id.as_str());
    let worker = text_bytes(queue.worker_type.as_str());
    total([provisioner, provisioner, worker, worker, 6].as_slice())
}

fn metadata_bytes(metadata: &Metadata) -> usize
    ensures { Bounds result (document_text (metadata_doc metadata.now)) }
{
    total([
        METADATA_FRAME_BYTES,
        text_bytes(metadata.description.as_str()),
        text_bytes(metadata.name.as_str()),
        text_bytes(metadata.owner.as_str()),
        text_bytes(metadata.source.as_str()),
    ]
    .as_slice())
}

fn slug_bytes(id: SlugId) -> usize
    ensures { Bounds result (document_text (plain_text (slug_text id))) }
{
    6 * id.text().len() + 2
}

fn ids_bytes(ids: &[SlugId]) -> usize
    ensures { Bounds result (document_text (text_list (map slug_text ids.now))) }
{
    let mut most: usize = 2;
    for id in ids {
        most = most.saturating_add(slug_bytes(*id)).saturating_add(1);
    }
    most
}

fn routes_bytes(routes: &[Route]) -> usize
    ensures { Bounds result (document_text (text_list routes.now)) }
{
    let mut most: usize = 2;
    for route in routes {
        most = most
            .saturating_add(text_bytes(route.as_str()))
            .saturating_add(1);
    }
    most
}

fn scopes_bytes(scopes: &[Scope]) -> usize
    ensures { Bounds result (document_text (text_list scopes.now)) }
{
    let mut most: usize = 2;
    for scope in scopes {
        most = most
            .saturating_add(text_bytes(scope.as_str()))
            .saturating_add(1);
    }
    most
}
