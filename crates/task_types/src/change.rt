//! The changes of the tasks.

use crate::names::Identifier;
use crate::run_names::RunNames;
use crate::task_def::TaskDef;
use farm_text::{Moment, SlugId};

/// A change of the tasks, at its moment.
#[derive(Drop)]
pub struct Change {
    pub at: Moment,
    pub kind: Kind,
}

/// What changes.
#[derive(Drop)]
pub enum Kind {
    /// All that is due at the moment is resolved.
    Tick,
    /// A task is made.
    Create(Creation),
    /// The task is scheduled, whatever it waits for.
    Schedule(SlugId),
    /// The task, which is resolved, gets another run.
    Rerun(SlugId),
    /// The task is canceled.
    Cancel(SlugId),
    /// A worker takes runs.
    Claim(Claim),
    /// A worker keeps its run until another moment, which may be an earlier one too.
    Reclaim(Reclaim),
    /// A worker tells how its run ended.
    Resolve(Resolution),
}

/// A task with its definition.
#[derive(Drop)]
pub struct Creation {
    pub id: SlugId,
    pub definition: TaskDef,
}

/// Runs that one worker takes together, until that moment.
#[derive(Drop)]
pub struct Claim {
    pub taken_until: Moment,
    pub worker_group: Identifier,
    pub worker_id: Identifier,
    pub runs: RunNames,
}

/// A run of a task, by its number from 0.
#[derive(Clone, Copy, Debug, PartialEq, Eq)]
pub struct RunName {
    pub id: SlugId,
    pub run: u8,
}

/// A run that its worker keeps until that moment.
#[derive(Clone, Copy, Debug, PartialEq, Eq)]
pub struct Reclaim {
    pub id: SlugId,
    pub run: u8,
    pub taken_until: Moment,
}

/// How a run ended.
#[derive(Clone, Copy, Debug, PartialEq, Eq)]
pub struct Resolution {
    pub id: SlugId,
    pub run: u8,
    pub reason: Report,
}

/// What a worker says of a run that ended.
#[derive(Clone, Copy, Debug, PartialEq, Eq)]
pub enum Report {
    Completed,
    Failed,
    Superseded,
    WorkerShutdown,
    MalformedPayload,
    ResourceUnavailable,
    InternalError,
    IntermittentTask,
}
