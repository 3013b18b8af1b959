//! The tasks of each group, where they are kept: a task for which there is no room makes them be given up.
ghost use Rattle.std.specs.Prelude.{◌≡◌, ◌∷◌, [], ◌++◌, List, find, option_copied, slice_get};
ghost use Rattle.std.specs.List.{position};
ghost use Rattle.run_states.specs.Rows.{Row};
ghost use Rattle.task_index.specs.Members.{in_group, AreMembers, MayBeMembers};

use crate::members::Members;
use farm_text::SlugId;
use run_states::TaskRow;
use std::alloc::{AllocError, Global};
use task_types::Creation;

/// The first task of a group.
pub(crate) fn first_of<'a>(
    members: &Option<Members>,
    rows: &'a [TaskRow],
    group: SlugId,
) -> Option<&'a TaskRow>
    requires { MayBeMembers members.now rows.now }
    ensures { option_copied result ≡ find (in_group group) rows.now }
{
    match members {
        Some(members) => standing_first(members, rows, group),
        None => sought_first(rows, group),
    }
}

/// The task at the place that is kept as the first of a group.
fn standing_first<'a>(members: &Members, rows: &'a [TaskRow], group: SlugId) -> Option<&'a TaskRow>
    requires { AreMembers members.now.groups rows.now }
    ensures { option_copied result ≡ find (in_group group) rows.now }
{
    match members.first(group) {
        Some(place) => task_at(rows, place),
        None => None,
    }
}

/// The task at a place.
fn task_at(rows: &[TaskRow], place: u32) -> Option<&TaskRow>
    ensures { option_copied result ≡ slice_get rows.now place }
{
    rows.get(place as usize)
}

/// The first task of a group, which is looked for among all.
fn sought_first(rows: &[TaskRow], group: SlugId) -> Option<&TaskRow>
    ensures { option_copied result ≡ find (in_group group) rows.now }
{
    rows.iter()
        .find(|row| row.definition().task_group_id == group)
}

/// The place of the first task of a group.
pub(crate) fn first_place(
    members: &Option<Members>,
    rows: &[TaskRow],
    group: SlugId,
) -> Option<usize>
    requires { MayBeMembers members.now rows.now }
    ensures { result ≡ position (in_group group) rows.now }
{
    match members {
        Some(members) => kept_first(members, group),
        None => sought_place(rows, group),
    }
}

/// The place that is kept as the first of a group.
fn kept_first(members: &Members, group: SlugId) -> Option<usize>
    ensures { (rows : List Row) → AreMembers members.now.groups rows → result ≡ position (in_group group) rows }
{
    match members.first(group) {
        Some(place) => Some(place as usize),
        None => None,
    }
}

/// The place of the first task of a group, which is looked for among all.
fn sought_place(rows: &[TaskRow], group: SlugId) -> Option<usize>
    ensures { result ≡ position (in_group group) rows.now }
{
    rows.iter()
        .position(|row| row.definition().task_group_id == group)
}

/// Takes the memory for a task that is to come. Where memory is wanting, all tasks stay.
pub(crate) fn note_member(
    members: &mut Option<Members>,
    alloc: Global,
    creation: &Creation,
) -> Result<(), AllocError>
    ensures { (all : List Row) → MayBeMembers members.old all → MayBeMembers members.new all }
{
    let definition = &creation.definition;
    let (group, scheduler) = (definition.task_group_id, definition.scheduler_id.as_str());
    match members {
        Some(members) => members.note(alloc, group, scheduler),
        None => Ok(()),
    }
}

/// Adds a task that comes behind the others, or gives the groups up, where there is no room for it.
pub(crate) fn keep_member(members: &mut Option<Members>, rows: &[TaskRow], row: &TaskRow)
    requires { MayBeMembers members.old rows.now }
    ensures { MayBeMembers members.new (rows.now ++ row.now ∷ []) }
{
    let kept = match members {
        Some(members) => members.add(rows, row),
        None => true,
    };
    if !kept {
        *members = None;
    }
}
