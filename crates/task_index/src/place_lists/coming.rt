//! A task that comes behind the others, onto its lists. It takes no memory.
ghost use Rattle.std.specs.Prelude.{◌≡◌, ◌<◌, [], ◌∷◌, ◌++◌, true, None, length, map, vec_capacity};
ghost use Rattle.std.specs.List.{AllZip};
ghost use Rattle.task_index.specs.Contents.{row_with, HaveOwnIds};
ghost use Rattle.task_index.specs.declared.lists.TaskList.TheVariants.{Group, Dependants};
ghost use Rattle.task_index.specs.Plans.{HasRoom, HasRoomOn};
ghost use Rattle.task_index.specs.Dependencies.{ids_of, depends_on_these};
ghost use Rattle.task_index.specs.PlaceLists.{IsFirst, AreListed, AreWaitedSoFar, AreGrouped};
ghost use Rattle.task_index.specs.Indexed.{IsIndexOf};

use crate::index::Index;
use crate::place_lists::{PlaceLists, TaskPlaces};
use crate::room::Spare;
use farm_text::SlugId;
use run_states::TaskRow;

/// The lists of a task that comes behind the others: its own, that of its group, and those of the tasks that it waits for.
pub fn keep_listed(
    lists: &mut PlaceLists,
    rows: &[TaskRow],
    index: &Index,
    row: &TaskRow,
    grown: Vec<TaskPlaces>,
    member: Spare,
    waited: Vec<Spare>,
)
    requires listed { AreListed lists.old rows.now }
    requires index { IsIndexOf index.now rows.now }
    requires own { HaveOwnIds rows.now }
    requires unknown { row_with row.now.id rows.now ≡ None }
    requires stand { depends_on_these (ids_of rows.now ++ row.now.id ∷ []) row.now ≡ true }
    requires few { length rows.now < 1_000_000 }
    requires grown { (grown.items ≡ []) × HasRoom (length rows.now) (vec_capacity grown) }
    requires rooms { HasRoomOn rows.now (Group row.now.definition.task_group_id) member × AllZip (HasRoomOn rows.now) (map Dependants row.now.definition.dependencies) waited.items }
    ensures { AreListed lists.new (rows.now ++ row.now ∷ []) }
{
    begin(lists, rows, index, row, grown, member);
    wait_for_each(lists, rows, index, row, waited);
}

/// Its own list, and that of its group.
fn begin(
    lists: &mut PlaceLists,
    rows: &[TaskRow],
    index: &Index,
    row: &TaskRow,
    grown: Vec<TaskPlaces>,
    member: Spare,
)
    requires listed { AreListed lists.old rows.now }
    requires index { IsIndexOf index.now rows.now }
    requires unknown { row_with row.now.id rows.now ≡ None }
    requires few { length rows.now < 1_000_000 }
    requires grown { (grown.items ≡ []) × HasRoom (length rows.now) (vec_capacity grown) }
    requires member { HasRoomOn rows.now (Group row.now.definition.task_group_id) member }
    ensures waited { AreWaitedSoFar lists.new rows.now row.now [] }
    ensures grouped { AreGrouped lists.new (rows.now ++ row.now ∷ []) }
{
    let first = first_or_end(rows, index, row.definition().task_group_id);
    lists.push(grown);
    lists.join(first, rows.len() as u32, member);
}

/// Where the first task of a group stands, or the place behind all tasks.
fn first_or_end(rows: &[TaskRow], index: &Index, group: SlugId) -> usize
    requires { IsIndexOf index.now rows.now }
    ensures { IsFirst group rows.now result }
{
    match index.first_place(rows, group) {
        Some(first) => first,
        None => rows.len(),
    }
}

/// The lists of the tasks that it waits for.
fn wait_for_each(
    lists: &mut PlaceLists,
    rows: &[TaskRow],
    index: &Index,
    row: &TaskRow,
    waited: Vec<Spare>,
)
    requires index { IsIndexOf index.now rows.now }
    requires own { HaveOwnIds (rows.now ++ row.now ∷ []) }
    requires stand { depends_on_these (ids_of rows.now ++ row.now.id ∷ []) row.now ≡ true }
    requires few { length rows.now < 1_000_000 }
    requires waited { AllZip (HasRoomOn rows.now) (map Dependants row.now.definition.dependencies) waited.items }
    requires so_far { AreWaitedSoFar lists.old rows.now row.now [] }
    requires grouped { AreGrouped lists.old (rows.now ++ row.now ∷ []) }
    ensures waited { AreWaitedSoFar lists.new rows.now row.now row.now.definition.dependencies }
    ensures grouped { AreGrouped lists.new (rows.now ++ row.now ∷ []) }
{
    let named = row.definition().dependencies.list();
    let place = rows.len() as u32;
    let mut count = 0;
    for spare in waited {
        let at = index.place_behind(rows, row.id(), named[count]);
        lists.wait(at, place, spare);
        count += 1;
    }
}
