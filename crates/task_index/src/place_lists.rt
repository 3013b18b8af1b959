//! The places of the tasks on each list: with a task are kept those of the tasks that wait for it, and with the first of a group those of the
//! group. They are kept wherever tasks are; the memory for one task more comes with its plan.
ghost use Rattle.std.specs.Prelude.{◌≡◌, ◌+◌, ◌<◌, ◌≤◌, [], ◌∷◌, ◌++◌, false, length, vec_capacity};
ghost use Rattle.task_index.specs.Plans.{HasRoom};
ghost use Rattle.task_index.specs.PlaceLists.{no_places, dependants_at, members_at, kept_at, is_last, with_place, AreNowAt};

pub mod coming;
mod kept;
pub mod room;

use crate::room::{Spare, add};
pub use kept::TaskPlaces;
use std::alloc::Global;
use std::marker::Model;

/// What is kept with each task, in the order of their creation.
#[derive(Drop)]
pub struct PlaceLists {
    alloc: Global,
    tasks: Vec<TaskPlaces>,
}

impl Model for PlaceLists {
    ghost use Rattle.std.specs.Prelude.{◌≤◌, List, length, vec_capacity};
    ghost use Rattle.task_index.specs.Plans.{room_for};
    ghost use Rattle.task_index.specs.PlaceLists.{KeptPlaces};

    ghost Value = { List KeptPlaces };

    ghost view = { λ l. l.tasks.items };

    ghost invariant = { λ l. room_for (length l.tasks.items) ≤ vec_capacity l.tasks };
}

impl PlaceLists {
    /// The lists of no tasks. They take no memory.
    pub fn new(alloc: Global) -> PlaceLists
        ensures { result ≡ [] }
    {
        PlaceLists {
            alloc,
            tasks: Vec::new(alloc),
        }
    }

    /// The places of the tasks that wait for the one at a place.
    pub(crate) fn dependants(&self, place: usize) -> &[u32]
        ensures { result.now ≡ dependants_at place self.now }
    {
        match self.tasks.get(place) {
            Some(task) => task.dependants(),
            None => &[],
        }
    }

    /// The places of the tasks of the group whose first is at a place.
    pub(crate) fn members(&self, place: usize) -> &[u32]
        ensures { result.now ≡ members_at place self.now }
    {
        match self.tasks.get(place) {
            Some(task) => task.members(),
            None => &[],
        }
    }

    /// A task comes behind the others, with no places yet.
    fn push(&mut self, grown: Vec<TaskPlaces>)
        requires empty { grown.items ≡ [] }
        requires few { length self.old ≤ 1_000_000 }
        requires room { HasRoom (length self.old) (vec_capacity grown) }
        ensures { self.new ≡ self.old ++ no_places ∷ [] }
    {
        let none = TaskPlaces::new(self.alloc);
        add(&mut self.tasks, grown, none);
    }

    /// The task at a place waits for the one at another, if that is not known already.
    fn wait(&mut self, at: usize, place: u32, spare: Spare)
        requires within { at < length self.old }
        requires few { length (dependants_at at self.old) ≤ 1_000_000 }
        requires room { is_last place (dependants_at at self.old) ≡ false → HasRoom (length (dependants_at at self.old)) spare }
        ensures { AreNowAt at (record (kept_at at self.old) { dependants = with_place place (dependants_at at self.old) }) self.old self.new }
    {
        self.tasks[at].wait(place, spare);
    }

    /// The task at a place joins the group whose first is at another, which may be itself.
    fn join(&mut self, at: usize, place: u32, spare: Spare)
        requires within { at < length self.old }
        requires few { length (members_at at self.old) ≤ 1_000_000 }
        requires room { HasRoom (length (members_at at self.old)) spare }
        ensures { AreNowAt at (record (kept_at at self.old) { members = members_at at self.old ++ place ∷ [] }) self.old self.new }
    {
        self.tasks[at].join(place, spare);
    }
}
