//! Which tasks wait for which, by their places. Only `note` takes memory.
ghost use Rattle.std.specs.Prelude.{◌≡◌, ◌^◌, ◌≤◌, ◌<◌, ◌↔◌, ◌∷◌, [], ◌++◌, true, Some, IsTrue, OnOk, length, option_copied};
ghost use Rattle.dep_graph.specs.Nodes.{no_graph, may_be_added};
ghost use Rattle.dep_graph.specs.Ready.{ready_row};
ghost use Rattle.task_index.specs.Placed.{ArePlaced};
ghost use Rattle.task_index.specs.Dependencies.{needs_of, progress_of, adding_of, AreDependencies, AreDependenciesBut};

pub(crate) mod kept;
pub(crate) mod noted;

use dep_graph::{Graph, Progress, Requires as Needs};
use noted::Noted;
use run_states::TaskRow;
use slug_places::places::Places;
use std::alloc::{AllocError, Global};
use std::marker::Model;
use task_types::{Creation, Requires};

/// Which tasks wait for which, and which of them are ready; and the room for one task more. Each task has its place for its row.
#[derive(Drop)]
pub(crate) struct DependencyGraph {
    graph: Graph,
    /// The task that is to come, for which the graph has room.
    noted: Option<Noted>,
}

impl Model for DependencyGraph {
    ghost use Rattle.std.specs.Prelude.{◌≡◌, Some};
    ghost use Rattle.std.specs.Option.{ForSome};
    ghost use Rattle.dep_graph.specs.Nodes.{TaskGraph};

    ghost Value = { TaskGraph };

    ghost view = { λ d. record { tasks = d.graph.tasks; room = d.noted } };

    ghost invariant = { λ d. ForSome d.noted (λ adding. d.graph.room ≡ Some adding) };
}

impl DependencyGraph {
    /// A graph without tasks. It takes no memory.
    pub(crate) fn new(alloc: Global) -> Self
        ensures { result ≡ no_graph }
    {
        DependencyGraph {
            graph: Graph::new(alloc),
            noted: None,
        }
    }

    /// Takes the memory for a task that is to come behind the others. Room that was there before is given up.
    pub(crate) fn note(
        &mut self,
        alloc: Global,
        rows: &[TaskRow],
        places: Option<&Places>,
        creation: &Creation,
    ) -> Result<(), AllocError>
        requires placed { ArePlaced (option_copied places) rows.now }
        requires few { length rows.now ≤ 1_000_000 }
        ensures same { self.new.tasks ≡ self.old.tasks }
        ensures room { let c = creation.now in OnOk result (self.new.room ≡ Some (adding_of rows.now c.id c.definition.dependencies)) }
    {
        self.noted = None;
        let named = creation.definition.dependencies.list();
        let noted = Noted::new(alloc, rows, places, creation.id, named)?;
        self.graph
            .reserve(alloc, noted.place(), noted.dependencies())?;
        self.noted = Some(noted);
        Ok(())
    }

    /// Adds a task that comes behind the others, where there is room for it, and it depends on no task twice, and on none that does not
    /// stand. Answers whether it did.
    pub(crate) fn add(&mut self, rows: &[TaskRow], places: Option<&Places>, row: &TaskRow) -> bool
        requires placed { ArePlaced (option_copied places) rows.now }
        requires all { AreDependencies self.old.tasks rows.now }
        ensures added { IsTrue result → AreDependencies self.new.tasks (rows.now ++ row.now ∷ []) }
        ensures room { let adding = adding_of rows.now row.now.id row.now.definition.dependencies in
            IsTrue result ↔ ((self.old.room ≡ Some adding) × (may_be_added self.old.tasks adding.row adding.dependencies ≡ true)) }
    {
        let Some(noted) = self.noted.take() else {
            return false;
        };
        let may_add = self.graph.may_add(noted.place(), noted.dependencies());
        if !may_add || !noted.is_of(rows, places, row) {
            return false;
        }
        let needs = needs_of(row.definition().requires_);
        self.graph.add(noted.place(), needs, noted.dependencies());
        self.graph.state_changed(noted.place(), progress_of(row));
        true
    }

    /// Tells the graph how far the task at a place has come.
    pub(crate) fn changed(&mut self, rows: &[TaskRow], place: usize)
        requires within { place < length rows.now }
        requires fits { place < 2 ^ 32 }
        requires others { AreDependenciesBut place self.old.tasks rows.now }
        ensures all { AreDependencies self.new.tasks rows.now }
        ensures room { self.new.room ≡ self.old.room }
    {
        let progress = progress_of(&rows[place]);
        self.graph.state_changed(place as u32, progress);
    }

    /// The place of the first task that is ready, found without a walk over the tasks.
    pub(crate) fn ready(&self) -> Option<usize>
        ensures { result ≡ ready_row self.now.tasks }
    {
        match self.graph.ready() {
            Some(row) => Some(row as usize),
            None => None,
        }
    }
}

/// What a task requires of those that it depends on, in the words of the graph.
fn needs_of(needs: Requires) -> Needs
    ensures { result ≡ needs_of needs }
{
    match needs {
        Requires::AllCompleted => Needs::AllCompleted,
        Requires::AllResolved => Needs::AllResolved,
    }
}

/// How far a task has come.
fn progress_of(row: &TaskRow) -> Progress
    ensures { result ≡ progress_of row.now }
{
    Progress {
        unscheduled: row.is_unscheduled(),
        was_completed: row.was_completed(),
        was_resolved: row.was_resolved(),
    }
}
