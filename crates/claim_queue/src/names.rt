//! Where queues stand, by their names.
ghost use Rattle.std.specs.Prelude.{◌≡◌, ℕ, ◌<◌, List, length, false, Some, None, IfSome, IfNone, OnOk, OnErr, slice_get, if◌then◌else◌};
ghost use Rattle.std.specs.BTreeMap.{get_by_text};
ghost use Rattle.std.specs.Option.{option_map_or};
ghost use Rattle.std.specs.Str.{bytes_eq};
ghost use Rattle.claim_queue.specs.Places.{name_at};
ghost use Rattle.claim_queue.specs.Named.{HavePlaces};

use crate::queues::{Queue, is_named};
use farm_text::Text;
use std::alloc::AllocError;
use std::collections::BTreeMap;

/// A place for each of some names.
pub(crate) type Names = BTreeMap<String, usize>;

/// The place of a queue, if it is there: the one that is kept of its name, where the queue there has that name.
pub(crate) fn place_of(queues: &[Queue], names: &Names, name: &Text) -> Option<usize>
    requires { HavePlaces queues.now names.now }
    ensures place { IfSome result (λ place. (place < length queues.now) × (name_at place queues.now ≡ name.now)) }
    ensures none { IfNone result ((place : ℕ) → place < length queues.now → bytes_eq (name_at place queues.now) name.now ≡ false) }
{
    match kept_place(names, name) {
        Some(place) => checked(queues, place, name),
        None => None,
    }
}

/// The place that is kept of a name.
fn kept_place(names: &Names, name: &Text) -> Option<usize>
    ensures { result ≡ get_by_text names.now name.now }
{
    names.get(name.as_str()).copied()
}

/// A place, where the queue there has this name.
fn checked(queues: &[Queue], place: usize, name: &Text) -> Option<usize>
    ensures { result ≡ (if option_map_or (λ queue. bytes_eq queue.name name.now) (slice_get queues.now place) false then Some place else None) }
{
    if stands_at(queues, place, name) {
        Some(place)
    } else {
        None
    }
}

/// Whether the queue at a place has this name.
fn stands_at(queues: &[Queue], place: usize, name: &Text) -> bool
    ensures { result ≡ option_map_or (λ queue. bytes_eq queue.name name.now) (slice_get queues.now place) false }
{
    match queues.get(place) {
        Some(queue) => is_named(queue, name),
        None => false,
    }
}

/// Keeps the place of a queue that is to come behind the others, of which none has its name. Where memory runs out, the places of all
/// queues stay as they were.
pub(crate) fn note_new(queues: &[Queue], names: &mut Names, name: &Text) -> Result<(), AllocError>
    requires places { HavePlaces queues.now names.old }
    requires none { (place : ℕ) → place < length queues.now → bytes_eq (name_at place queues.now) name.now ≡ false }
    ensures places { HavePlaces queues.now names.new }
    ensures noted { OnOk result (get_by_text names.new name.now ≡ Some (length queues.now)) }
{
    let name = name.clone()?;
    note(names, name, queues.len())
}

/// Keeps this place of a name.
fn note(names: &mut Names, name: Text, place: usize) -> Result<(), AllocError>
    ensures kept { OnOk result ((other : List ℕ) → get_by_text names.new other ≡ (if bytes_eq name other then Some place else get_by_text names.old other)) }
    ensures unchanged { OnErr result ((other : List ℕ) → get_by_text names.new other ≡ get_by_text names.old other) }
{
    let Ok(_) = names.insert(name.into_string(), place) else {
        return Err(AllocError);
    };
    Ok(())
}
