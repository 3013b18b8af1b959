//! A definition from its document.
ghost use Rattle.std.specs.Prelude.{◌≡◌, ℕ, ◌<◌, ◌↔◌, IsTrue, codes, length, IfOk, MatchBool, MatchResult};
ghost use Rattle.farm_text.specs.Document.{get};
ghost use Rattle.farm_text.specs.Doc.{document};
ghost use Rattle.task_defs.specs.Faults.{Refuses};
ghost use Rattle.task_defs.specs.Parts.{HeadHolds, TermsHold, SpanHolds, IsHead, AreTerms, IsOnlyAt, IsRest, AreMaps, IsOnlyDefinition, IsLongForm};
ghost use Rattle.task_defs.specs.Rules.{IsExpires};
ghost use Rattle.task_defs.specs.Definitions.{Says, rules};
ghost use Rattle.task_types.specs.declared.task_def.TaskDef.{TaskDef as TaskDefinition};

use crate::fault::DefError;
use crate::full_length::full_form_bytes;
use crate::full_text::full_text_of;
use crate::keys::check_keys;
use crate::labels::{read_labels, read_owners};
use crate::queue::queue;
use crate::stages;
use crate::times::{check_deadline, expires, read_times};
use crate::values::object;
use farm_text::{Doc, Moment, SlugId};
use std::alloc::{AllocError, Global};
use task_types::{
    Dependencies, Identifier, Metadata, Object, Priority, ProjectName, Requires, Routes, Scopes,
    Tags, TaskDef, TaskQueue,
};

/// The greatest number of bytes of a definition's full form, as JSON without spaces.
pub const LONGEST_DEFINITION: usize = 8_388_608;

/// Whom a task is for.
#[derive(Drop)]
struct Head {
    queue: TaskQueue,
    project_id: ProjectName,
    scheduler_id: Identifier,
    task_group_id: SlugId,
}

/// The keys, and whom the task is for: rules 1 to 4.
fn read_head(alloc: Global, doc: &Doc, id: SlugId) -> Result<Head, DefError>
    ensures { MatchResult result (IsHead (document doc.now) id) (Refuses (rules (document doc.now) id)) }
{
    match check_keys(alloc, doc) {
        Ok(()) => {}
        Err(error) => return Err(error),
    }
    let queue = match queue(alloc, doc) {
        Ok(queue) => queue,
        Err(error) => return Err(error),
    };
    let owners = match read_owners(alloc, doc) {
        Ok(owners) => owners,
        Err(error) => return Err(error),
    };
    match stages::group(alloc, doc, id) {
        Ok(task_group_id) => Ok(Head {
            queue,
            project_id: owners.project_id,
            scheduler_id: owners.scheduler_id,
            task_group_id,
        }),
        Err(error) => Err(error),
    }
}

/// Whether the full form has more bytes than it may have. What is surely short is not put together.
fn is_too_long(alloc: Global, def: &TaskDef) -> Result<bool, AllocError>
    ensures { IfOk result (λ long. MatchBool long (IsLongForm def.now) (¬ IsLongForm def.now)) }
{
    if full_form_bytes(def) <= LONGEST_DEFINITION {
        Ok(false)
    } else {
        is_form_long(alloc, def)
    }
}

/// The same, by the text of the full form itself.
fn is_form_long(alloc: Global, def: &TaskDef) -> Result<bool, AllocError>
    ensures { IfOk result (λ long. MatchBool long (IsLongForm def.now) (¬ IsLongForm def.now)) }
{
    let full = full_text_of(alloc, &def)?;
    Ok(is_long(full.as_str()))
}

/// Whether a text has more bytes than a definition may have.
fn is_long(text: &str) -> bool
    ensures { IsTrue result ↔ (LONGEST_DEFINITION < length text.now) }
{
    text.len() > LONGEST_DEFINITION
}

/// What the task waits for, where it is told, and how it is run.
#[derive(Drop)]
struct Terms {
    dependencies: Dependencies,
    requires_: Requires,
    routes: Routes,
    priority: Priority,
    retries: u8,
}

/// Rules 5 to 9.
fn read_terms(alloc: Global, doc: &Doc, id: SlugId) -> Result<Terms, DefError>
    requires { HeadHolds (document doc.now) }
    ensures { MatchResult result (AreTerms (document doc.now)) (Refuses (rules (document doc.now) id)) }
{
    let dependencies = match stages::dependencies(alloc, doc) {
        Ok(dependencies) => dependencies,
        Err(error) => return Err(error),
    };
    let requires_ = match stages::asked(alloc, doc) {
        Ok(asked) => asked,
        Err(error) => return Err(error),
    };
    let routes = match stages::routes(alloc, doc) {
        Ok(routes) => routes,
        Err(error) => return Err(error),
    };
    let priority = match stages::priority(alloc, doc) {
        Ok(priority) => priority,
        Err(error) => return Err(error),
    };
    match stages::retries(alloc, doc) {
        Ok(retries) => Ok(Terms {
            dependencies,
            requires_,
            routes,
            priority,
            retries,
        }),
        Err(error) => Err(error),
    }
}

/// When the task was made, until when it is worked on, and when it expires.
#[derive(Drop)]
struct Span {
    created: Moment,
    deadline: Moment,
    expires: Moment,
}

/// Rules 10 to 12.
fn read_span(alloc: Global, doc: &Doc, id: SlugId) -> Result<Span, DefError>
    requires head { HeadHolds (document doc.now) }
    requires terms { TermsHold (document doc.now) }
    ensures { MatchResult result
        (λ s. SpanHolds (document doc.now) × IsOnlyAt (get (codes "created") (document doc.now)) s.created
        × IsOnlyAt (get (codes "deadline") (document doc.now)) s.deadline
        × IsExpires (document doc.now) s.deadline s.expires
        × ((n : ℕ) → IsExpires (document doc.now) s.deadline n → s.expires ≡ n))
        (Refuses (rules (document doc.now) id)) }
{
    let times = match read_times(alloc, doc) {
        Ok(times) => times,
        Err(error) => return Err(error),
    };
    match check_deadline(alloc, doc, times.created, times.deadline) {
        Ok(()) => {}
        Err(error) => return Err(error),
    }
    match expires(alloc, doc, times.deadline, times.expires) {
        Ok(expires) => Ok(Span {
            created: times.created,
            deadline: times.deadline,
            expires,
        }),
        Err(error) => Err(error),
    }
}

/// The scopes, the metadata and the tags.
#[derive(Drop)]
struct Rest {
    scopes: Scopes,
    metadata: Metadata,
    tags: Tags,
}

/// Rules 13 and 14, but for the length.
fn read_rest(alloc: Global, doc: &Doc, id: SlugId) -> Result<Rest, DefError>
    requires head { HeadHolds (document doc.now) }
    requires terms { TermsHold (document doc.now) }
    requires span { SpanHolds (document doc.now) }
    ensures { MatchResult result (IsRest (document doc.now)) (Refuses (rules (document doc.now) id)) }
{
    let scopes = match stages::scopes(alloc, doc) {
        Ok(scopes) => scopes,
        Err(error) => return Err(error),
    };
    match read_labels(alloc, doc) {
        Ok(labels) => Ok(Rest {
            scopes,
            metadata: labels.metadata,
            tags: labels.tags,
        }),
        Err(error) => Err(error),
    }
}

/// What no rule but the first speaks of.
#[derive(Drop)]
struct Maps {
    extra: Object,
    payload: Object,
}

fn read_maps(alloc: Global, doc: &Doc) -> Result<Maps, AllocError>
    ensures { IfOk result (AreMaps (document doc.now)) }
{
    let extra = object(alloc, doc.get("extra"))?;
    let payload = object(alloc, doc.get("payload"))?;
    Ok(Maps { extra, payload })
}

/// Whom a task is for, and how it is run.
#[derive(Drop)]
struct Front {
    head: Head,
    terms: Terms,
}

/// Rules 1 to 9.
fn read_front(alloc: Global, doc: &Doc, id: SlugId) -> Result<Front, DefError>
    ensures { MatchResult result (λ f. IsHead (document doc.now) id f.head × AreTerms (document doc.now) f.terms) (Refuses (rules (document doc.now) id)) }
{
    let head = match read_head(alloc, doc, id) {
        Ok(head) => head,
        Err(error) => return Err(error),
    };
    match read_terms(alloc, doc, id) {
        Ok(terms) => Ok(Front { head, terms }),
        Err(error) => {
            drop(head);
            Err(error)
        }
    }
}

/// What the task may do, what is told of it, and what is left to its worker.
#[derive(Drop)]
struct Back {
    rest: Rest,
    maps: Maps,
}

/// Rules 13 and 14, but for the length, and what no other rule speaks of.
fn read_back(alloc: Global, doc: &Doc, id: SlugId) -> Result<Back, DefError>
    requires head { HeadHolds (document doc.now) }
    requires terms { TermsHold (document doc.now) }
    requires span { SpanHolds (document doc.now) }
    ensures { MatchResult result (λ b. IsRest (document doc.now) b.rest × AreMaps (document doc.now) b.maps) (Refuses (rules (document doc.now) id)) }
{
    let rest = match read_rest(alloc, doc, id) {
        Ok(rest) => rest,
        Err(error) => return Err(error),
    };
    match read_maps(alloc, doc) {
        Ok(maps) => Ok(Back { rest, maps }),
        Err(_) => {
            drop(rest);
            Err(DefError::NoMemory)
        }
    }
}

/// The definition that a document says, but for its length: rules 1 to 14.
fn read_parts(alloc: Global, doc: &Doc, id: SlugId) -> Result<TaskDef, DefError>
    ensures { MatchResult result (IsOnlyDefinition (document doc.now) id) (Refuses (rules (document doc.now) id)) }
{
    let front = match read_front(alloc, doc, id) {
        Ok(front) => front,
        Err(error) => return Err(error),
    };
    let span = match read_span(alloc, doc, id) {
        Ok(span) => span,
        Err(error) => {
            drop(front);
            return Err(error);
        }
    };
    let back = match read_back(alloc, doc, id) {
        Ok(back) => back,
        Err(error) => {
            drop(front);
            return Err(error);
        }
    };
    let Front { head, terms } = front;
    let Back { rest, maps } = back;
    Ok(TaskDef {
        created: span.created,
        deadline: span.deadline,
        dependencies: terms.dependencies,
        expires: span.expires,
        extra: maps.extra,
        metadata: rest.metadata,
        payload: maps.payload,
        priority: terms.priority,
        project_id: head.project_id,
        queue: head.queue,
        requires_: terms.requires_,
        retries: terms.retries,
        routes: terms.routes,
        scheduler_id: head.scheduler_id,
        scopes: rest.scopes,
        tags: rest.tags,
        task_group_id: head.task_group_id,
    })
}

/// The definition that a document says for the task of this id, with each default filled in; or the least of the rules 1 to 14 that it
/// breaks, with the first key, in rising order, that shows it. A document says one definition at most.
pub fn read_task(alloc: Global, doc: &Doc, id: SlugId) -> Result<TaskDef, DefError>
    ensures { MatchResult result
        (λ def. Says (document doc.now) id def × ((other : TaskDefinition) → Says (document doc.now) id other → def ≡ other))
        (Refuses (rules (document doc.now) id)) }
{
    let def = match read_parts(alloc, doc, id) {
        Ok(def) => def,
        Err(error) => return Err(error),
    };
    let long = match is_too_long(alloc, &def) {
        Ok(long) => long,
        Err(_) => {
            drop(def);
            return Err(DefError::NoMemory);
        }
    };
    if long {
        drop(def);
        Err(DefError::at(alloc, 14, ""))
    } else {
        Ok(def)
    }
}
