//! A task that is to come, as the graph of the tasks adds it.
ghost use Rattle.std.specs.Prelude.{◌≡◌, ◌+◌, ◌≤◌, ◌↔◌, ◌∷◌, [], ◌++◌, IsTrue, IfOk, length, option_copied};
ghost use Rattle.task_index.specs.Placed.{ArePlaced};
ghost use Rattle.task_index.specs.Dependencies.{ids_of, place_in, places_in, adding_of};

use crate::places::place_of;
use farm_text::SlugId;
use run_states::TaskRow;
use slug_places::places::Places;
use std::alloc::{AllocError, Global};
use std::marker::Model;

/// The place of a task that is to come, and those of the tasks that it depends on.
#[derive(Drop)]
pub(crate) struct Noted {
    place: u32,
    dependencies: Vec<u32>,
}

impl Model for Noted {
    ghost use Rattle.dep_graph.specs.Nodes.{Adding};

    ghost Value = { Adding };

    ghost view = { λ n. record { row = n.place; dependencies = n.dependencies.items } };
}

impl Noted {
    /// A task with this id that is to come behind the others, and depends on these.
    pub(crate) fn new(
        alloc: Global,
        rows: &[TaskRow],
        places: Option<&Places>,
        id: SlugId,
        named: &[SlugId],
    ) -> Result<Noted, AllocError>
        requires placed { ArePlaced (option_copied places) rows.now }
        requires few { length rows.now ≤ 1_000_000 }
        ensures { IfOk result (λ noted. noted ≡ adding_of rows.now id named.now) }
    {
        let place = rows.len() as u32;
        let mut dependencies = Vec::with_capacity(alloc, named.len())?;
        for name in named {
            dependencies.push(place_behind(rows, places, id, *name) as u32)?;
        }
        Ok(Noted {
            place,
            dependencies,
        })
    }

    /// The place of the task.
    pub(crate) fn place(&self) -> u32
        ensures { result ≡ self.now.row }
    {
        self.place
    }

    /// The places of the tasks that it depends on.
    pub(crate) fn dependencies(&self) -> &[u32]
        ensures { result.now ≡ self.now.dependencies }
    {
        &self.dependencies
    }

    /// Whether it is this task, behind the others.
    pub(crate) fn is_of(&self, rows: &[TaskRow], places: Option<&Places>, row: &TaskRow) -> bool
        requires { ArePlaced (option_copied places) rows.now }
        ensures { IsTrue result ↔ (self.now ≡ adding_of rows.now row.now.id row.now.definition.dependencies) }
    {
        let named = row.definition().dependencies.list();
        self.place as usize == rows.len()
            && are_places(rows, places, row.id(), named, &self.dependencies)
    }
}

/// Whether these are the places of some ids among the tasks, with one more behind them that has an id.
fn are_places(
    rows: &[TaskRow],
    places: Option<&Places>,
    id: SlugId,
    named: &[SlugId],
    dependencies: &[u32],
) -> bool
    requires { ArePlaced (option_copied places) rows.now }
    ensures { IsTrue result ↔ (dependencies.now ≡ places_in (ids_of rows.now ++ id ∷ []) named.now) }
{
    if named.len() != dependencies.len() {
        return false;
    }
    for (name, dependency) in named.iter().zip(dependencies) {
        if place_behind(rows, places, id, *name) != *dependency as usize {
            return false;
        }
    }
    true
}

/// The place of a named id among the tasks, with one more behind them that has an id; and behind that one, where none has the named id.
pub(crate) fn place_behind(
    rows: &[TaskRow],
    places: Option<&Places>,
    id: SlugId,
    named: SlugId,
) -> usize
    requires { ArePlaced (option_copied places) rows.now }
    ensures place { result ≡ place_in (ids_of rows.now ++ id ∷ []) named }
    ensures few { result ≤ length rows.now + 1 }
{
    match place_of(rows, places, named) {
        Some(place) => place,
        None if id == named => rows.len(),
        None => rows.len() + 1,
    }
}
