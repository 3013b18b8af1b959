//! The room that a plan brings for a task that is created.
ghost use Rattle.std.specs.Prelude.{◌≡◌, ◌≤◌, length, map, IfOk};
ghost use Rattle.std.specs.List.{AllZip};
ghost use Rattle.task_types.specs.declared.change.Creation.{Creation};
ghost use Rattle.task_index.specs.Plans.{HasRoom, HasRoomOn, lists_of};
ghost use Rattle.task_index.specs.declared.lists.TaskList.TheVariants.{Dependants};
ghost use Rattle.task_index.specs.PlaceLists.{AreListed};
ghost use Rattle.task_index.specs.Indexed.{IsIndexOf};

use crate::index::Index;
use crate::place_lists::{PlaceLists, TaskPlaces};
use crate::room::{Spare, grown};
use farm_text::SlugId;
use run_states::TaskRow;
use std::alloc::{AllocError, Global};
use std::marker::Model;
use task_types::Creation;

/// The room that a plan brings for a task that is created.
#[derive(Drop)]
pub struct Room {
    /// A longer list for the tasks, where the tables are full.
    pub rows: Vec<TaskRow>,
    /// The same for what is kept with each task.
    pub lists: Vec<TaskPlaces>,
    /// A longer list for the group of the task.
    pub member: Spare,
    /// One for each task that it waits for.
    pub waited: Vec<Spare>,
}

impl Model for Room {
    ghost use Rattle.std.specs.Prelude.{◌≡◌, [], ◌∷◌, min, vec_capacity};
    ghost use Rattle.task_index.specs.Plans.{Room as BroughtRoom};

    ghost Value = { BroughtRoom };

    ghost view = { λ r. record { tasks = min (vec_capacity r.rows) (vec_capacity r.lists); lists = r.member ∷ r.waited.items } };

    ghost invariant = { λ r. (r.rows.items ≡ []) × (r.lists.items ≡ []) };
}

impl Room {
    /// No room, which takes no memory.
    pub fn none(alloc: Global) -> Room {
        Room {
            rows: Vec::new(alloc),
            lists: Vec::new(alloc),
            member: Spare::none(alloc),
            waited: Vec::new(alloc),
        }
    }

    /// The room for one task more, among these and on its lists.
    pub fn new(
        alloc: Global,
        rows: &[TaskRow],
        index: &Index,
        lists: &PlaceLists,
        creation: &Creation,
    ) -> Result<Room, AllocError>
        requires index { IsIndexOf index.now rows.now }
        requires listed { AreListed lists.now rows.now }
        requires few { length rows.now ≤ 1_000_000 }
        ensures { IfOk result (λ room. HasRoom (length rows.now) room.tasks × AllZip (HasRoomOn rows.now) (lists_of creation.now) room.lists) }
    {
        let definition = &creation.definition;
        let stand = rows.len();
        let grown_rows = grown(alloc, stand)?;
        let grown_lists = grown(alloc, stand)?;
        let members = index.members_of(rows, lists, definition.task_group_id);
        let member = Spare::new(alloc, members.len())?;
        Ok(Room {
            rows: grown_rows,
            lists: grown_lists,
            member,
            waited: each(alloc, rows, index, lists, definition.dependencies.list())?,
        })
    }
}

/// Room for one more on the list of each task with these ids.
fn each(
    alloc: Global,
    rows: &[TaskRow],
    index: &Index,
    lists: &PlaceLists,
    ids: &[SlugId],
) -> Result<Vec<Spare>, AllocError>
    requires index { IsIndexOf index.now rows.now }
    requires listed { AreListed lists.now rows.now }
    requires few { length rows.now ≤ 1_000_000 }
    ensures { IfOk result (λ spares. AllZip (HasRoomOn rows.now) (map Dependants ids.now) spares.items) }
{
    let mut spares = Vec::with_capacity(alloc, ids.len())?;
    for id in ids {
        let stand = index.dependants_of(rows, lists, *id).len();
        spares.push(Spare::new(alloc, stand)?)?;
    }
    Ok(spares)
}
