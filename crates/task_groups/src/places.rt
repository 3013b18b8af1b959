//! Where groups stand, by their ids.
ghost use Rattle.std.specs.Prelude.{◌≡◌, List, Some, None, OnOk, false, map, position, bytes_eq, slice_get, if◌then◌else◌};
ghost use Rattle.std.specs.List.{list_any};
ghost use Rattle.std.specs.Option.{option_map_or};
ghost use Rattle.task_groups.specs.Members.{TaskGroup, is_group};
ghost use Rattle.task_groups.specs.Placed.{kept_of, ArePlaced};
ghost use Rattle.task_groups.specs.Kept.{shown};

use crate::group::Group;
use farm_text::SlugId;
use slug_places::places::{Places, kept_place, note};
use std::alloc::AllocError;

/// The place of the group with this id: the one that is kept, where the group there has that id.
pub(crate) fn place_of(groups: &[Group], places: &Places, id: SlugId) -> Option<usize>
    requires { ArePlaced places.now (map shown groups.now) }
    ensures { result ≡ position (λ group. bytes_eq group.id id) groups.now }
{
    match kept_place(places, id) {
        Some(place) => checked(groups, id, place),
        None => None,
    }
}

/// A place, where the group there has this id.
fn checked(groups: &[Group], id: SlugId, place: u32) -> Option<usize>
    ensures { result ≡ (if option_map_or (λ group. bytes_eq group.id id) (slice_get groups.now place) false then Some place else None) }
{
    let place = place as usize;
    if stands_at(groups, id, place) {
        Some(place)
    } else {
        None
    }
}

/// Whether the group at a place has this id.
fn stands_at(groups: &[Group], id: SlugId, place: usize) -> bool
    ensures { result ≡ option_map_or (λ group. bytes_eq group.id id) (slice_get groups.now place) false }
{
    match groups.get(place) {
        Some(group) => group.id == id,
        None => false,
    }
}

/// Notes the place of a group that is to come, whose id no other has. Where memory is wanting, all places stay.
pub(crate) fn note_new(places: &mut Places, id: SlugId, place: usize) -> Result<(), AllocError>
    ensures noted { OnOk result (kept_of places.new id ≡ Some place) }
    ensures others { (groups : List TaskGroup) → list_any (is_group id) groups ≡ false → ArePlaced places.old groups → ArePlaced places.new groups }
{
    let Ok(place) = u32::try_from(place) else {
        return Err(AllocError);
    };
    note(places, id, place)
}
