//! What a task is.
ghost use Rattle.std.specs.Prelude.{◌≡◌, ◌↔◌, IsTrue};

use crate::choices::{Priority, Requires};
use crate::lists::{Dependencies, Routes, Scopes};
use crate::names::{Identifier, ProjectName, Route, TaskQueue};
use crate::objects::{Metadata, Object, Tags};
use farm_text::{Moment, SlugId, same_doc};
use scope_sets::Scope;

/// A task definition, with each default filled in.
#[derive(Drop)]
pub struct TaskDef {
    pub created: Moment,
    /// The task is not worked on past this moment.
    pub deadline: Moment,
    /// The tasks that it waits for, as `requires_` says.
    pub dependencies: Dependencies,
    /// Told in its status, and no dependant may have a later deadline. Nothing forgets a task yet.
    pub expires: Moment,
    pub extra: Object,
    pub metadata: Metadata,
    /// What the worker is to do.
    pub payload: Object,
    pub priority: Priority,
    pub project_id: ProjectName,
    pub queue: TaskQueue,
    pub requires_: Requires,
    /// How often the task is run again after a fault that is none of its own, 0 to 49.
    pub retries: u8,
    pub routes: Routes,
    pub scheduler_id: Identifier,
    /// The scopes that the worker may use for it.
    pub scopes: Scopes,
    pub tags: Tags,
    pub task_group_id: SlugId,
}

/// Whether two definitions are the same in every part; their full forms are then the same too. It takes no memory.
pub fn same(a: &TaskDef, b: &TaskDef) -> bool
    ensures { IsTrue result ↔ (a.now ≡ b.now) }
{
    same_owners(a, b) && same_work(a, b) && same_terms(a, b) && same_maps(a, b)
}

fn same_owners(a: &TaskDef, b: &TaskDef) -> bool
    ensures { IsTrue result ↔ ((a.now.project_id ≡ b.now.project_id) × (a.now.scheduler_id ≡ b.now.scheduler_id)
        × (a.now.queue ≡ b.now.queue) × (a.now.task_group_id ≡ b.now.task_group_id)) }
{
    a.project_id.as_str() == b.project_id.as_str()
        && a.scheduler_id.as_str() == b.scheduler_id.as_str()
        && a.queue.provisioner_id.as_str() == b.queue.provisioner_id.as_str()
        && a.queue.worker_type.as_str() == b.queue.worker_type.as_str()
        && a.task_group_id == b.task_group_id
}

fn same_work(a: &TaskDef, b: &TaskDef) -> bool
    ensures { IsTrue result ↔ ((a.now.dependencies ≡ b.now.dependencies) × (a.now.routes ≡ b.now.routes) × (a.now.scopes ≡ b.now.scopes)) }
{
    same_ids(a.dependencies.list(), b.dependencies.list())
        && same_routes(a.routes.list(), b.routes.list())
        && same_scopes(a.scopes.list(), b.scopes.list())
}

fn same_terms(a: &TaskDef, b: &TaskDef) -> bool
    ensures { IsTrue result ↔ ((a.now.created ≡ b.now.created) × (a.now.deadline ≡ b.now.deadline) × (a.now.expires ≡ b.now.expires)
        × (a.now.priority ≡ b.now.priority) × (a.now.requires_ ≡ b.now.requires_) × (a.now.retries ≡ b.now.retries)) }
{
    a.created == b.created
        && a.deadline == b.deadline
        && a.expires == b.expires
        && a.priority == b.priority
        && a.requires_ == b.requires_
        && a.retries == b.retries
}

fn same_maps(a: &TaskDef, b: &TaskDef) -> bool
    ensures { IsTrue result ↔ ((a.now.metadata ≡ b.now.metadata) × (a.now.extra ≡ b.now.extra) × (a.now.payload ≡ b.now.payload) × (a.now.tags ≡ b.now.tags)) }
{
    same_metadata(&a.metadata, &b.metadata)
        && same_doc(a.extra.as_doc(), b.extra.as_doc())
        && same_doc(a.payload.as_doc(), b.payload.as_doc())
        && same_doc(a.tags.as_doc(), b.tags.as_doc())
}

fn same_metadata(a: &Metadata, b: &Metadata) -> bool
    ensures { IsTrue result ↔ (a.now ≡ b.now) }
{
    a.description.as_str() == b.description.as_str()
        && a.name.as_str() == b.name.as_str()
        && a.owner.as_str() == b.owner.as_str()
        && a.source.as_str() == b.source.as_str()
}

fn same_ids(a: &[SlugId], b: &[SlugId]) -> bool
    ensures { IsTrue result ↔ (a.now ≡ b.now) }
{
    a == b
}

fn same_routes(a: &[Route], b: &[Route]) -> bool
    ensures { IsTrue result ↔ (a.now ≡ b.now) }
{
    a == b
}

fn same_scopes(a: &[Scope], b: &[Scope]) -> bool
    ensures { IsTrue result ↔ (a.now ≡ b.now) }
{
    a == b
}
