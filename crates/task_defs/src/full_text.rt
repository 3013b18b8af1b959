//! The full form of a definition, written as JSON member by member.
ghost use Rattle.std.specs.Prelude.{◌≡◌, pos, [], ◌∷◌, map, codes, IfOk, OnOk};
ghost use Rattle.farm_text.specs.Slug.{slug_text};
ghost use Rattle.farm_text.specs.Doc.{document};
ghost use Rattle.farm_text.specs.Document.{Document, whole, text as plain_text};
ghost use Rattle.task_defs.specs.Rules.{metadata_doc};
ghost use Rattle.task_defs.specs.Definitions.{text_list, IsFullForm};
ghost use Rattle.task_defs.specs.Writing.{IsWritten, IsFullOf, AreWritten, MomentIsWritten, FirstAreWritten, work_members, owner_members, right_members, place_members};

use farm_text::{Doc, Moment, SlugId, Text};
use json::Writer;
use scope_sets::Scope;
use std::alloc::{AllocError, Global};
use task_types::{Metadata, Route, TaskDef};

/// The text of the full form: each key, with each moment in 24 bytes, as JSON without spaces.
pub fn full_text_of(alloc: Global, def: &TaskDef) -> Result<Text, AllocError>
    ensures { IfOk result (IsFullOf def.now) }
{
    let mut out = Writer::new(Vec::with_capacity(alloc, 512)?);
    write_full_text(alloc, def, &mut out)?;
    Ok(Text::from_writer(out))
}

/// Writes the full form of the definition as JSON without spaces, behind what the writer has.
pub fn write_full_text(alloc: Global, def: &TaskDef, out: &mut Writer) -> Result<(), AllocError>
    ensures form { OnOk result ((full : Document) × IsFullForm def.now full
        × IsWritten full out.old.tokens out.new.tokens) }
    ensures before { out.new.before ≡ out.old.before }
{
    out.begin_object()?;
    write_first(def, out)?;
    write_work(def, out)?;
    write_owner(def, out)?;
    write_rights(def, out)?;
    write_place(alloc, def, out)?;
    out.end_object()
}

fn write_first(def: &TaskDef, out: &mut Writer) -> Result<(), AllocError>
    ensures ok { OnOk result (FirstAreWritten def.now out.old.tokens out.new.tokens) }
    ensures before { out.new.before ≡ out.old.before }
{
    write_moment(out, "created", def.created)?;
    write_moment(out, "deadline", def.deadline)?;
    write_ids(out, "dependencies", def.dependencies.list())?;
    write_moment(out, "expires", def.expires)
}

fn write_work(def: &TaskDef, out: &mut Writer) -> Result<(), AllocError>
    ensures ok { OnOk result (AreWritten (work_members def.now) out.old.tokens out.new.tokens) }
    ensures before { out.new.before ≡ out.old.before }
{
    write_doc(out, "extra", def.extra.as_doc())?;
    write_metadata(out, &def.metadata)?;
    write_doc(out, "payload", def.payload.as_doc())?;
    write_text(out, "priority", def.priority.name())
}

fn write_owner(def: &TaskDef, out: &mut Writer) -> Result<(), AllocError>
    ensures ok { OnOk result (AreWritten (owner_members def.now) out.old.tokens out.new.tokens) }
    ensures before { out.new.before ≡ out.old.before }
{
    write_text(out, "projectId", def.project_id.as_str())?;
    write_text(out, "provisionerId", def.queue.provisioner_id.as_str())?;
    write_text(out, "requires", def.requires_.name())?;
    write_number(out, "retries", def.retries)
}

fn write_rights(def: &TaskDef, out: &mut Writer) -> Result<(), AllocError>
    ensures ok { OnOk result (AreWritten (right_members def.now) out.old.tokens out.new.tokens) }
    ensures before { out.new.before ≡ out.old.before }
{
    write_routes(out, def.routes.list())?;
    write_text(out, "schedulerId", def.scheduler_id.as_str())?;
    write_scopes(out, def.scopes.list())?;
    write_doc(out, "tags", def.tags.as_doc())
}

fn write_place(alloc: Global, def: &TaskDef, out: &mut Writer) -> Result<(), AllocError>
    ensures ok { OnOk result (AreWritten (place_members def.now) out.old.tokens out.new.tokens) }
    ensures before { out.new.before ≡ out.old.before }
{
    let name = def.queue.name(alloc)?;
    write_slug(out, "taskGroupId", def.task_group_id)?;
    write_text(out, "taskQueueId", name.as_str())?;
    write_text(out, "workerType", def.queue.worker_type.as_str())
}

fn write_text(out: &mut Writer, key: &str, text: &str) -> Result<(), AllocError>
    ensures ok { OnOk result (AreWritten ((key.now, plain_text text.now) ∷ []) out.old.tokens out.new.tokens) }
    ensures before { out.new.before ≡ out.old.before }
{
    out.key(key)?;
    out.string(text)
}

fn write_moment(out: &mut Writer, key: &str, moment: Moment) -> Result<(), AllocError>
    ensures ok { OnOk result (MomentIsWritten key.now moment out.old.tokens out.new.tokens) }
    ensures before { out.new.before ≡ out.old.before }
{
    out.key(key)?;
    moment.write_to(out)
}

fn write_slug(out: &mut Writer, key: &str, id: SlugId) -> Result<(), AllocError>
    ensures ok { OnOk result (AreWritten ((key.now, plain_text (slug_text id)) ∷ []) out.old.tokens out.new.tokens) }
    ensures before { out.new.before ≡ out.old.before }
{
    out.key(key)?;
    id.write_to(out)
}

fn write_doc(out: &mut Writer, key: &str, doc: &Doc) -> Result<(), AllocError>
    ensures ok { OnOk result (AreWritten ((key.now, document doc.now) ∷ []) out.old.tokens out.new.tokens) }
    ensures before { out.new.before ≡ out.old.before }
{
    out.key(key)?;
    doc.write_to(out)
}

fn write_number(out: &mut Writer, key: &str, n: u8) -> Result<(), AllocError>
    ensures ok { OnOk result (AreWritten ((key.now, whole (pos n)) ∷ []) out.old.tokens out.new.tokens) }
    ensures before { out.new.before ≡ out.old.before }
{
    write_doc(out, key, &Doc::Int(i64::from(n)))
}

fn write_metadata(out: &mut Writer, metadata: &Metadata) -> Result<(), AllocError>
    ensures ok { OnOk result (AreWritten ((codes "metadata", metadata_doc metadata.now) ∷ []) out.old.tokens out.new.tokens) }
    ensures before { out.new.before ≡ out.old.before }
{
    out.key("metadata")?;
    out.begin_object()?;
    write_text(out, "description", metadata.description.as_str())?;
    write_text(out, "name", metadata.name.as_str())?;
    write_text(out, "owner", metadata.owner.as_str())?;
    write_text(out, "source", metadata.source.as_str())?;
    out.end_object()
}

fn write_ids(out: &mut Writer, key: &str, ids: &[SlugId]) -> Result<(), AllocError>
    ensures ok { OnOk result (AreWritten ((key.now, text_list (map slug_text ids.now)) ∷ []) out.old.tokens out.new.tokens) }
    ensures before { out.new.before ≡ out.old.before }
{
    out.key(key)?;
    out.begin_array()?;
    for id in ids {
        id.write_to(out)?;
    }
    out.end_array()
}

fn write_routes(out: &mut Writer, routes: &[Route]) -> Result<(), AllocError>
    ensures ok { OnOk result (AreWritten ((codes "routes", text_list routes.now) ∷ []) out.old.tokens out.new.tokens) }
    ensures before { out.new.before ≡ out.old.before }
{
    out.key("routes")?;
    out.begin_array()?;
    for route in routes {
        out.string(route.as_str())?;
    }
    out.end_array()
}

fn write_scopes(out: &mut Writer, scopes: &[Scope]) -> Result<(), AllocError>
    ensures ok { OnOk result (AreWritten ((codes "scopes", text_list scopes.now) ∷ []) out.old.tokens out.new.tokens) }
    ensures before { out.new.before ≡ out.old.before }
{
    out.key("scopes")?;
    out.begin_array()?;
    for scope in scopes {
        out.string(scope.as_str())?;
    }
    out.end_array()
}
