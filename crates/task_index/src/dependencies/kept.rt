//! The graph of the tasks, where it is kept: what it has no room for makes it be given up.
ghost use Rattle.std.specs.Prelude.{◌≡◌, ◌≤◌, ◌<◌, ◌∷◌, [], ◌++◌, List, IfSome, length, option_copied};
ghost use Rattle.std.specs.List.{position};
ghost use Rattle.run_states.specs.Rows.{Row};
ghost use Rattle.task_index.specs.Ready.{is_ready};
ghost use Rattle.task_index.specs.Placed.{ArePlaced};
ghost use Rattle.task_index.specs.Dependencies.{MayBeDependencies, MayBeDependenciesBut};

use crate::dependencies::DependencyGraph;
use run_states::TaskRow;
use slug_places::places::Places;
use std::alloc::{AllocError, Global};
use task_types::Creation;

/// The place of the first task that is ready, or none, where that can be told without a walk.
pub(crate) fn known_ready(graph: &Option<DependencyGraph>) -> Option<Option<usize>>
    ensures { (rows : List Row) → MayBeDependencies graph.now rows → IfSome result (λ place. place ≡ position (is_ready rows) rows) }
{
    match graph {
        Some(graph) => Some(graph.ready()),
        None => None,
    }
}

/// Takes the memory for a task that is to come behind the others. Where memory is wanting, all tasks stay.
pub(crate) fn note_added(
    graph: &mut Option<DependencyGraph>,
    alloc: Global,
    rows: &[TaskRow],
    places: Option<&Places>,
    creation: &Creation,
) -> Result<(), AllocError>
    requires placed { ArePlaced (option_copied places) rows.now }
    requires few { length rows.now ≤ 1_000_000 }
    ensures { (all : List Row) → MayBeDependencies graph.old all → MayBeDependencies graph.new all }
{
    match graph {
        Some(graph) => graph.note(alloc, rows, places, creation),
        None => Ok(()),
    }
}

/// Adds a task that comes behind the others, or gives the graph up, where it has no room for this task.
pub(crate) fn keep_added(
    graph: &mut Option<DependencyGraph>,
    rows: &[TaskRow],
    places: Option<&Places>,
    row: &TaskRow,
)
    requires placed { ArePlaced (option_copied places) rows.now }
    requires all { MayBeDependencies graph.old rows.now }
    ensures { MayBeDependencies graph.new (rows.now ++ row.now ∷ []) }
{
    let kept = match graph {
        Some(graph) => graph.add(rows, places, row),
        None => true,
    };
    if !kept {
        *graph = None;
    }
}

/// Tells the graph how far the task at a place has come.
pub(crate) fn keep_changed(graph: &mut Option<DependencyGraph>, rows: &[TaskRow], place: usize)
    requires within { place < length rows.now }
    requires others { MayBeDependenciesBut place graph.old rows.now }
    ensures { MayBeDependencies graph.new rows.now }
{
    match graph {
        Some(kept) if place <= u32::MAX as usize => kept.changed(rows, place),
        Some(_) => *graph = None,
        None => {}
    }
}
