//! The places that are kept with a task.
ghost use Rattle.std.specs.Prelude.{◌≡◌, ◌≤◌, [], ◌∷◌, ◌++◌, false, length};
ghost use Rattle.task_index.specs.Plans.{HasRoom};
ghost use Rattle.task_index.specs.PlaceLists.{no_places, is_last, with_place};

use crate::room::Spare;
use std::alloc::Global;
use std::marker::Model;

/// The places of the tasks that wait for a task, and of those of its group, where it is the first of that.
#[derive(Drop)]
pub struct TaskPlaces {
    dependants: Vec<u32>,
    members: Vec<u32>,
}

impl Model for TaskPlaces {
    ghost use Rattle.std.specs.Prelude.{◌≤◌, length, vec_capacity};
    ghost use Rattle.task_index.specs.Plans.{room_for};
    ghost use Rattle.task_index.specs.PlaceLists.{KeptPlaces};

    ghost Value = { KeptPlaces };

    ghost view = { λ t. record { dependants = t.dependants.items; members = t.members.items } };

    ghost invariant = { λ t. (room_for (length t.dependants.items) ≤ vec_capacity t.dependants) × (room_for (length t.members.items) ≤ vec_capacity t.members) };
}

impl TaskPlaces {
    /// No places. They take no memory.
    pub(crate) fn new(alloc: Global) -> TaskPlaces
        ensures { result ≡ no_places }
    {
        TaskPlaces {
            dependants: Vec::new(alloc),
            members: Vec::new(alloc),
        }
    }

    /// The places of the tasks that wait for it.
    pub(crate) fn dependants(&self) -> &[u32]
        ensures { result.now ≡ self.now.dependants }
    {
        &self.dependants
    }

    /// The places of its group.
    pub(crate) fn members(&self) -> &[u32]
        ensures { result.now ≡ self.now.members }
    {
        &self.members
    }

    /// The task at a place waits for it, if that is not known already.
    pub(crate) fn wait(&mut self, place: u32, spare: Spare)
        requires few { length self.old.dependants ≤ 1_000_000 }
        requires room { is_last place self.old.dependants ≡ false → HasRoom (length self.old.dependants) spare }
        ensures { self.new ≡ record self.old { dependants = with_place place self.old.dependants } }
    {
        if !is_last(place, &self.dependants) {
            spare.add(&mut self.dependants, place);
        }
    }

    /// The task at a place is of its group.
    pub(crate) fn join(&mut self, place: u32, spare: Spare)
        requires few { length self.old.members ≤ 1_000_000 }
        requires room { HasRoom (length self.old.members) spare }
        ensures { self.new ≡ record self.old { members = self.old.members ++ place ∷ [] } }
    {
        spare.add(&mut self.members, place);
    }
}

/// Whether a place is the last of these.
fn is_last(place: u32, places: &[u32]) -> bool
    ensures { result ≡ is_last place places.now }
{
    match places.last() {
        Some(last) => *last == place,
        None => false,
    }
}
