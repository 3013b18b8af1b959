//! One group, and the list of the groups.
ghost use Rattle.std.specs.Prelude.{◌≡◌, ◌<◌, [], ◌∷◌, ◌++◌, map, length, slice_set, slice_index, slice_index_or, vec_len, vec_capacity, OnOk, IfOk, IfErr, IfSome, Some, IsTrue, ◌↔◌};
ghost use Rattle.std.specs.List.{AllPairs};
ghost use Rattle.task_groups.specs.Faults.{IsCauseOf};
ghost use Rattle.task_groups.specs.Members.{TaskGroup, rows_of, kept_scheduler, with_row, joined};
ghost use Rattle.task_groups.specs.Placed.{ArePlaced};
ghost use Rattle.task_groups.specs.Kept.{shown, spares, HaveRisingRows, HasRoom, TellsScheduler};

use crate::fault::ReserveFault;
use crate::places::{note_new, place_of};
use farm_text::{SlugId, Text};
use slug_places::places::Places;
use std::alloc::{AllocError, Global};

/// A group: its id, the scheduler of its tasks, and their rows.
#[derive(Drop)]
pub(crate) struct Group {
    pub(crate) id: SlugId,
    pub(crate) scheduler: Text,
    pub(crate) rows: Vec<u32>,
}

/// The rows of the group with this id, and none where it has none.
pub(crate) fn rows_of<'a>(groups: &'a [Group], places: &Places, id: SlugId) -> &'a [u32]
    requires rising { HaveRisingRows (map shown groups.now) }
    requires placed { ArePlaced places.now (map shown groups.now) }
    ensures value { result.now ≡ rows_of id (map shown groups.now) }
    ensures rising { AllPairs (λ x y. x < y) (rows_of id (map shown groups.now)) }
{
    match place_of(groups, places, id) {
        Some(place) => &groups[place].rows,
        None => &[],
    }
}

/// Takes the memory for one row more of the group at this place.
pub(crate) fn make_room(groups: &mut Vec<Group>, place: usize) -> Result<(), AllocError>
    requires { place < vec_len groups.old }
    ensures same { map shown groups.new.items ≡ map shown groups.old.items }
    ensures room { OnOk result (0 < slice_index (spares groups.new.items) place) }
{
    let group = &mut groups[place];
    match group.rows.reserve(1) {
        Ok(()) => Ok(()),
        Err(error) => Err(error),
    }
}

/// Adds a row to the group that it joins, for which there is room.
pub(crate) fn add_row(groups: &mut Vec<Group>, places: &Places, joining: Group, row: u32)
    requires placed { ArePlaced places.now (map shown groups.old.items) }
    requires room { HasRoom groups.old.items (vec_capacity groups.old) places.now joining }
    ensures { map shown groups.new.items ≡ joined joining.id joining.scheduler row (map shown groups.old.items) }
{
    match place_of(groups, places, joining.id) {
        Some(place) => push_row(groups, place, row),
        None => push_group(groups, joining, row),
    }
}

/// Adds a row to the group at this place.
fn push_row(groups: &mut Vec<Group>, place: usize, row: u32)
    requires within { place < vec_len groups.old }
    requires room { 0 < slice_index (spares groups.old.items) place }
    ensures { (d : TaskGroup) → map shown groups.new.items
        ≡ slice_set (map shown groups.old.items) place (with_row row (slice_index_or (map shown groups.old.items) place d)) }
{
    let group = &mut groups[place];
    if group.rows.push(row).is_err() {
        unreachable!();
    }
}

/// Adds a group of one row.
fn push_group(groups: &mut Vec<Group>, mut joining: Group, row: u32)
    requires group { vec_len groups.old < vec_capacity groups.old }
    requires empty { joining.rows.items ≡ [] }
    requires row { 0 < vec_capacity joining.rows }
    ensures { map shown groups.new.items ≡ map shown groups.old.items
        ++ (record { id = joining.id; scheduler = joining.scheduler; rows = row ∷ [] }) ∷ [] }
{
    if joining.rows.push(row).is_err() {
        unreachable!();
    }
    if groups.push(joining).is_err() {
        unreachable!();
    }
}

/// A task that joins a group, with all the memory for it.
pub(crate) fn joining(
    alloc: Global,
    groups: &mut Vec<Group>,
    places: &mut Places,
    id: SlugId,
    scheduler: &str,
) -> Result<Group, ReserveFault>
    requires { ArePlaced places.old (map shown groups.old.items) }
    ensures same { map shown groups.new.items ≡ map shown groups.old.items }
    ensures placed { ArePlaced places.new (map shown groups.new.items) }
    ensures room { IfOk result (λ joining. HasRoom groups.new.items (vec_capacity groups.new) places.new joining) }
    ensures named { IfOk result (λ joining. (joining.id ≡ id) × (joining.scheduler ≡ scheduler.now)) }
    ensures served { OnOk result (IfSome (kept_scheduler id (map shown groups.old.items)) (λ kept. kept ≡ scheduler.now)) }
    ensures refused { IfErr result (λ fault. IsCauseOf fault (kept_scheduler id (map shown groups.old.items)) scheduler.now) }
{
    match place_of(groups, places, id) {
        Some(place) => match joining_at(alloc, groups, place, id, scheduler) {
            Ok(joining) => Ok(joining),
            Err(fault) => Err(fault),
        },
        None => {
            let Ok(()) = note_new(places, id, groups.len()) else {
                return Err(ReserveFault::NoMemory);
            };
            match joining_first(alloc, groups, id, scheduler) {
                Ok(joining) => Ok(joining),
                Err(fault) => Err(fault),
            }
        }
    }
}

/// A task that joins the group at this place.
fn joining_at(
    alloc: Global,
    groups: &mut Vec<Group>,
    place: usize,
    id: SlugId,
    scheduler: &str,
) -> Result<Group, ReserveFault>
    requires { place < vec_len groups.old }
    ensures same { map shown groups.new.items ≡ map shown groups.old.items }
    ensures room { OnOk result (0 < slice_index (spares groups.new.items) place) }
    ensures named { IfOk result (λ joining. (joining.id ≡ id) × (joining.scheduler ≡ scheduler.now)) }
    ensures served { OnOk result ((d : TaskGroup) → (slice_index_or (map shown groups.old.items) place d).scheduler ≡ scheduler.now) }
    ensures refused { IfErr result (λ fault. (d : TaskGroup)
        → IsCauseOf fault (Some ((slice_index_or (map shown groups.old.items) place d).scheduler)) scheduler.now) }
{
    let held = &groups[place];
    if !has_scheduler(held, scheduler) {
        return Err(other_scheduler(held));
    }
    let Ok(joining) = new_group(alloc, id, scheduler, Vec::new(alloc)) else {
        return Err(ReserveFault::NoMemory);
    };
    match make_room(groups, place) {
        Ok(()) => Ok(joining),
        Err(_) => Err(ReserveFault::NoMemory),
    }
}

/// A task that joins a group that has no task yet.
fn joining_first(
    alloc: Global,
    groups: &mut Vec<Group>,
    id: SlugId,
    scheduler: &str,
) -> Result<Group, ReserveFault>
    ensures same { groups.new.items ≡ groups.old.items }
    ensures group { OnOk result (length groups.new.items < vec_capacity groups.new) }
    ensures row { IfOk result (λ joining. (joining.rows.items ≡ []) × (0 < vec_capacity joining.rows)) }
    ensures named { IfOk result (λ joining. (joining.id ≡ id) × (joining.scheduler ≡ scheduler.now)) }
    ensures refused { IfErr result (λ fault. fault ≡ ReserveFault.NoMemory) }
{
    let Ok(rows) = Vec::with_capacity(alloc, 1) else {
        return Err(ReserveFault::NoMemory);
    };
    let Ok(joining) = new_group(alloc, id, scheduler, rows) else {
        return Err(ReserveFault::NoMemory);
    };
    match groups.reserve(1) {
        Ok(()) => Ok(joining),
        Err(_) => Err(ReserveFault::NoMemory),
    }
}

/// A group, with a copy of the name of its scheduler.
fn new_group(
    alloc: Global,
    id: SlugId,
    scheduler: &str,
    rows: Vec<u32>,
) -> Result<Group, AllocError>
    ensures { IfOk result (λ group. (group.id ≡ id) × (group.scheduler ≡ scheduler.now) × (group.rows ≡ rows)) }
{
    let scheduler = Text::from_str(alloc, scheduler)?;
    Ok(Group {
        id,
        scheduler,
        rows,
    })
}

/// Whether the tasks of the group have this scheduler.
fn has_scheduler(group: &Group, scheduler: &str) -> bool
    ensures { IsTrue result ↔ (group.now.scheduler ≡ scheduler.now) }
{
    group.scheduler.as_str() == scheduler
}

/// That the tasks of the group have another scheduler.
fn other_scheduler(group: &Group) -> ReserveFault
    ensures { TellsScheduler result group.now.scheduler }
{
    match group.scheduler.clone() {
        Ok(kept) => ReserveFault::OtherScheduler(kept),
        Err(_) => ReserveFault::NoMemory,
    }
}
