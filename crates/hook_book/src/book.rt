//! The book of hooks.
ghost use Rattle.std.specs.Prelude.{◌≡◌, ℕ, List, Some, None, [], ◌∷◌, ◌++◌, ◌&&◌, length, option_map, bytes_eq, OnOk, OnErr, if◌then◌else◌};
ghost use Rattle.std.specs.BTreeMap.{get_by_text};
ghost use Rattle.hook_book.specs.Hooks.{hook_data, hook_named, is_named};
ghost use Rattle.hook_book.specs.Places.{place_in, first_place};

use crate::hook::Hook;
use std::alloc::{AllocError, Global};
use std::collections::BTreeMap;
use std::marker::Model;

/// The hooks of a farm, in the order in which they were put in. They are seen as that list.
#[derive(Drop)]
pub struct HookBook {
    hooks: Vec<Hook>,
    /// For each group the place of the first hook of each id.
    places: BTreeMap<String, BTreeMap<String, usize>>,
}

impl Model for HookBook {
    ghost use Rattle.std.specs.Coded.{codes};
    ghost use Rattle.std.specs.Prelude.{List};
    ghost use Rattle.hook_book.specs.Codes.{document_code};
    ghost use Rattle.hook_book.specs.Hooks.{HookData, hooks_data};
    ghost use Rattle.hook_book.specs.Places.{HasPlaces};

    ghost Value = { List HookData };

    ghost coded = { Prim.hlevel (codes, document_code) };

    ghost view = { λ b. hooks_data b.hooks.items };

    ghost invariant = { λ b. HasPlaces (hooks_data b.hooks.items) b.places };
}

impl HookBook {
    /// A book of no hooks.
    pub fn new(alloc: Global) -> HookBook
        ensures { result ≡ [] }
    {
        HookBook {
            hooks: Vec::new(alloc),
            places: BTreeMap::new(alloc),
        }
    }

    /// The number of hooks.
    pub fn len(&self) -> usize
        ensures { result ≡ length self.now }
    {
        self.hooks.len()
    }

    /// Puts a hook behind the others. Where memory is wanting, the book stays as it was.
    pub fn push(&mut self, alloc: Global, hook: Hook) -> Result<(), AllocError>
        ensures behind { OnOk result (self.new ≡ self.old ++ hook_data hook ∷ []) }
        ensures unchanged { OnErr result (self.new ≡ self.old) }
    {
        self.hooks.reserve(1)?;
        let place = self.hooks.len();
        note_first(alloc, &mut self.places, &hook, place)?;
        self.hooks.push_reserved(hook);
        Ok(())
    }

    /// The first hook that has this group and this id, which are looked up in ordered maps.
    pub fn find(&self, group: &str, id: &str) -> Option<&Hook>
        ensures { option_map (λ hook. hook_data hook.now) result ≡ hook_named group.now id.now self.now }
    {
        let Some(place) = place_in(&self.places, group, id) else {
            return None;
        };
        Some(&self.hooks[place])
    }
}

/// The place that is kept of an id of a group.
fn place_in(
    places: &BTreeMap<String, BTreeMap<String, usize>>,
    group: &str,
    id: &str,
) -> Option<usize>
    ensures { result ≡ place_in places.now group.now id.now }
{
    match places.get(group) {
        Some(ids) => ids.get(id).copied(),
        None => None,
    }
}

/// Keeps a hook's place, where none is kept of its name.
fn note_first(
    alloc: Global,
    places: &mut BTreeMap<String, BTreeMap<String, usize>>,
    hook: &Hook,
    place: usize,
) -> Result<(), AllocError>
    ensures kept { OnOk result ((group id : List ℕ) → place_in places.new group id
        ≡ first_place (place_in places.old group id) (is_named group id (hook_data hook.now)) place) }
    ensures unchanged { OnErr result ((group id : List ℕ) → place_in places.new group id ≡ place_in places.old group id) }
{
    let group = hook.group.as_str();
    let id = hook.id.as_str();
    if place_in(places, group, id).is_some() {
        return Ok(());
    }
    note(alloc, places, group, id, place)
}

/// Keeps this place of an id of a group.
fn note(
    alloc: Global,
    places: &mut BTreeMap<String, BTreeMap<String, usize>>,
    group: &str,
    id: &str,
    place: usize,
) -> Result<(), AllocError>
    ensures kept { OnOk result ((g i : List ℕ) → place_in places.new g i
        ≡ (if bytes_eq group.now g && bytes_eq id.now i then Some place else place_in places.old g i)) }
    ensures unchanged { OnErr result ((g i : List ℕ) → place_in places.new g i ≡ place_in places.old g i) }
{
    if let Some(ids) = places.get_mut(group) {
        return note_id(alloc, ids, id, place);
    }
    let mut ids = BTreeMap::new(alloc);
    note_id(alloc, &mut ids, id, place)?;
    let name = String::from_str(alloc, group)?;
    let Ok(_) = places.insert(name, ids) else {
        return Err(AllocError);
    };
    Ok(())
}

/// Keeps this place of an id.
fn note_id(
    alloc: Global,
    ids: &mut BTreeMap<String, usize>,
    id: &str,
    place: usize,
) -> Result<(), AllocError>
    ensures kept { OnOk result ((i : List ℕ) → get_by_text ids.new i ≡ (if bytes_eq id.now i then Some place else get_by_text ids.old i)) }
    ensures unchanged { OnErr result ((i : List ℕ) → get_by_text ids.new i ≡ get_by_text ids.old i) }
{
    let name = String::from_str(alloc, id)?;
    let Ok(_) = ids.insert(name, place) else {
        return Err(AllocError);
    };
    Ok(())
}
