//! Where tasks stand, by their ids.
ghost use Rattle.std.specs.Prelude.{◌≡◌, ℕ, List, [], ◌∷◌, ◌++◌, false, Some, None, length, bytes_eq, slice_get, option_copied, if◌then◌else◌};
ghost use Rattle.std.specs.Option.{option_map_or};
ghost use Rattle.std.specs.List.{position, list_any};
ghost use Rattle.task_index.specs.Changes.{has_id};
ghost use Rattle.task_index.specs.Contents.{row_with};
ghost use Rattle.task_index.specs.Placed.{is_noted, holds_place, MayBeKept, ArePlaced};

use farm_text::SlugId;
use run_states::TaskRow;
use slug_places::places::{Places, kept_place, note};
use std::alloc::AllocError;

/// The task with this id.
pub(crate) fn row_with<'a>(
    rows: &'a [TaskRow],
    places: Option<&Places>,
    id: SlugId,
) -> Option<&'a TaskRow>
    requires { ArePlaced (option_copied places) rows.now }
    ensures { option_copied result ≡ row_with id rows.now }
{
    match place_of(rows, places, id) {
        Some(place) => Some(&rows[place]),
        None => None,
    }
}

/// The place of the task with this id.
pub(crate) fn place_of(rows: &[TaskRow], places: Option<&Places>, id: SlugId) -> Option<usize>
    requires { ArePlaced (option_copied places) rows.now }
    ensures { result ≡ position (has_id id) rows.now }
{
    match places {
        Some(places) => standing_place(rows, places, id),
        None => first_place(rows, id),
    }
}

/// The place that is kept of an id, where the task there has that id.
fn standing_place(rows: &[TaskRow], places: &Places, id: SlugId) -> Option<usize>
    requires { ArePlaced (Some places.now) rows.now }
    ensures { result ≡ position (has_id id) rows.now }
{
    match kept_place(places, id) {
        Some(place) => checked(rows, id, place),
        None => None,
    }
}

/// A place, where the task there has this id.
fn checked(rows: &[TaskRow], id: SlugId, place: u32) -> Option<usize>
    ensures { result ≡ (if option_map_or (has_id id) (slice_get rows.now place) false then Some place else None) }
{
    let place = place as usize;
    if stands_at(rows, id, place) {
        Some(place)
    } else {
        None
    }
}

/// Whether the task at a place has this id.
fn stands_at(rows: &[TaskRow], id: SlugId, place: usize) -> bool
    ensures { result ≡ option_map_or (has_id id) (slice_get rows.now place) false }
{
    match rows.get(place) {
        Some(row) => row.id() == id,
        None => false,
    }
}

/// The place of the first task with this id, which is looked for among all.
fn first_place(rows: &[TaskRow], id: SlugId) -> Option<usize>
    ensures { result ≡ position (has_id id) rows.now }
{
    rows.iter().position(|row| row.id() == id)
}

/// Notes the place of a task that is to come, where places are kept. Where memory is wanting, all places stay.
pub(crate) fn note_new(
    places: &mut Option<Places>,
    id: SlugId,
    place: u32,
) -> Result<(), AllocError>
    ensures { (ids : List (List ℕ)) → list_any (bytes_eq id) ids ≡ false → MayBeKept places.old ids → MayBeKept places.new ids }
{
    match places {
        Some(places) => note(places, id, place),
        None => Ok(()),
    }
}

/// Gives the places up, where that of a task that comes behind the others is not noted.
pub(crate) fn keep_noted(places: &mut Option<Places>, id: SlugId, place: usize)
    ensures { (ids : List (List ℕ)) → length ids ≡ place → MayBeKept places.old ids → MayBeKept places.new (ids ++ id ∷ []) }
{
    if !is_noted(places, id, place) {
        *places = None;
    }
}

/// Whether this place is noted of an id, where places are kept.
fn is_noted(places: &Option<Places>, id: SlugId, place: usize) -> bool
    ensures { result ≡ is_noted places.now id place }
{
    match places {
        Some(places) => holds_place(kept_place(places, id), place),
        None => true,
    }
}

/// Whether a place that is kept is this one.
fn holds_place(kept: Option<u32>, place: usize) -> bool
    ensures { result ≡ holds_place kept place }
{
    match kept {
        Some(kept) => kept as usize == place,
        None => false,
    }
}
