//! The places of tasks by their ids, in an ordered map.
ghost use Rattle.std.specs.Prelude.{◌≡◌, ℕ, List, Option, Some, None, OnOk, OnErr, bytes_eq, if◌then◌else◌};
ghost use Rattle.std.specs.BTreeMap.{get};

use farm_text::SlugId;
use std::alloc::{AllocError, Global};
use std::collections::BTreeMap;

/// A place for each of some ids.
pub type Places = BTreeMap<SlugId, u32>;

/// The place of an id, if it has one.
pub fn kept_place(places: &Places, id: SlugId) -> Option<u32>
    ensures { result ≡ get ⟦<SlugId as Ord>⟧.cmp places.now id }
{
    places.get(&id).copied()
}

/// Gives an id this place. Where memory is wanting, all places stay.
pub fn note(places: &mut Places, id: SlugId, place: u32) -> Result<(), AllocError>
    ensures noted { OnOk result ((other : List ℕ) → get ⟦<SlugId as Ord>⟧.cmp places.new other ≡ (if bytes_eq id other then Some place else get ⟦<SlugId as Ord>⟧.cmp places.old other)) }
    ensures unchanged { OnErr result ((other : List ℕ) → get ⟦<SlugId as Ord>⟧.cmp places.new other ≡ get ⟦<SlugId as Ord>⟧.cmp places.old other) }
{
    let Ok(_) = places.insert(id, place) else {
        return Err(AllocError);
    };
    Ok(())
}
