//! A change that may be made and has all its memory.
ghost use Rattle.std.specs.Prelude.{◌≡◌, IfOk};
ghost use Rattle.farm_rows.specs.Deeds.{run_room_of};

use farm_text::{Moment, SlugId};
use run_states::{Claim as RunClaim, RunRoom, TaskRow};
use std::alloc::{AllocError, Global};
use std::marker::Model;
use std::slice;
use task_index::place_lists::room::Room;
use task_types::{Claim, Reclaim, Resolution};

/// What is changed.
#[derive(Drop)]
pub(crate) enum Deed {
    /// This task is created, as it will be.
    Create(TaskRow),
    Schedule(SlugId),
    Rerun(SlugId),
    Cancel(SlugId),
    Claim(Claim),
    Reclaim(Reclaim),
    Resolve(Resolution),
}

/// A change that may be made of the tasks, with all the memory that it takes.
#[derive(Drop)]
pub struct TaskPlan {
    pub(crate) at: Moment,
    pub(crate) deed: Deed,
    /// The tasks that stand and that the change names, as they will be. Their definitions are shared with those that stand.
    pub(crate) rows: Vec<TaskRow>,
    /// The room that it brings, where a task is created.
    pub(crate) room: Room,
    /// A claim for each run that is taken.
    pub(crate) claims: Vec<RunClaim>,
    /// Room for the runs of the task, where one is run again.
    pub(crate) run_room: Option<RunRoom>,
}

impl Model for TaskPlan {
    ghost use Rattle.std.specs.Prelude.{◌≡◌};
    ghost use Rattle.std.specs.Coded.{codes};
    ghost use Rattle.task_types.specs.Codes.{members_code};
    ghost use Rattle.task_index.specs.Plans.{Planned};
    ghost use Rattle.farm_rows.specs.Deeds.{claims_of, run_room_of, planned_of};

    ghost Value = { Planned };

    ghost coded = { Prim.hlevel (codes, members_code) };

    ghost view = { λ p. planned_of p.at p.deed p.rows.items p.room };

    ghost invariant = { λ p. (p.claims.items ≡ claims_of p.at p.deed) × (p.run_room ≡ run_room_of p.deed) };
}

impl TaskPlan {
    /// The tasks that the change names, as they will be: the one that it creates, or those that stand.
    pub fn rows(&self) -> &[TaskRow]
        ensures { result.now ≡ self.now.rows }
    {
        match &self.deed {
            Deed::Create(row) => slice::from_ref(row),
            Deed::Schedule(_)
            | Deed::Rerun(_)
            | Deed::Cancel(_)
            | Deed::Claim(_)
            | Deed::Reclaim(_)
            | Deed::Resolve(_) => &self.rows,
        }
    }
}

/// Room for the runs of the task that a change runs again, if it is one that does.
pub(crate) fn run_room(alloc: Global, deed: &Deed) -> Result<Option<RunRoom>, AllocError>
    ensures { IfOk result (λ room. room ≡ run_room_of deed.now) }
{
    match deed {
        Deed::Rerun(_) => Ok(Some(RunRoom::make(alloc)?)),
        Deed::Create(_)
        | Deed::Schedule(_)
        | Deed::Cancel(_)
        | Deed::Claim(_)
        | Deed::Reclaim(_)
        | Deed::Resolve(_) => Ok(None),
    }
}
