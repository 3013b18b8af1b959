//! The edges of a graph: from each task to those that depend on it.
ghost use Rattle.std.specs.Prelude.{◌≡◌, ◌==◌, ◌≤◌, ◌<◌, ◌++◌, ◌∷◌, [], ℕ, OnOk, Some, length, slice_get, slice_index, slice_set, vec_len, vec_capacity};
ghost use Rattle.std.specs.List.{IsDistinct};
ghost use Rattle.dep_graph.specs.Nodes.{rows_of};
ghost use Rattle.dep_graph.specs.Kept.{HaveOwnRows, HasRooms, edges_of, spares, list_at, with_edges};

use crate::tasks::Tasks;
use std::alloc::AllocError;

/// The rows of the tasks that depend on one task.
#[derive(Drop)]
pub(crate) struct Edges {
    pub(crate) rows: Vec<u32>,
}

/// Takes the memory for one edge more from each of these tasks.
pub(crate) fn make_room(
    tasks: &Tasks,
    edges: &mut Vec<Edges>,
    rows: &[u32],
) -> Result<(), AllocError>
    requires own { HaveOwnRows tasks.now.tasks }
    requires len { length (edges_of edges.old.items) ≡ length (rows_of tasks.now.tasks) }
    ensures same { edges_of edges.new.items ≡ edges_of edges.old.items }
    ensures rooms { OnOk result (HasRooms (rows_of tasks.now.tasks) rows.now edges.new.items) }
{
    for row in rows {
        match tasks.place_of(*row) {
            Some(place) => make_room_at(edges, place)?,
            None => {}
        }
    }
    Ok(())
}

/// Takes the memory for one edge more from the task at this place.
fn make_room_at(edges: &mut Vec<Edges>, place: usize) -> Result<(), AllocError>
    requires { place < vec_len edges.old }
    ensures same { edges_of edges.new.items ≡ edges_of edges.old.items }
    ensures kept { (k : ℕ) → slice_index (spares edges.old.items) k ≤ slice_index (spares edges.new.items) k }
    ensures room { OnOk result (0 < slice_index (spares edges.new.items) place) }
{
    let held = &mut edges[place];
    match held.rows.reserve(1) {
        Ok(()) => Ok(()),
        Err(error) => Err(error),
    }
}

/// Adds an edge from each of these tasks, for which there is room. A row without a task has none.
pub(crate) fn add_edges(tasks: &Tasks, edges: &mut Vec<Edges>, row: u32, dependencies: &[u32])
    requires own { HaveOwnRows tasks.now.tasks }
    requires len { length (edges_of edges.old.items) ≡ length (rows_of tasks.now.tasks) }
    requires distinct { IsDistinct ◌==◌ dependencies.now }
    requires rooms { HasRooms (rows_of tasks.now.tasks) dependencies.now edges.old.items }
    ensures edges { edges_of edges.new.items ≡ with_edges (rows_of tasks.now.tasks) row dependencies.now (edges_of edges.old.items) }
    ensures len { vec_len edges.new ≡ vec_len edges.old }
    ensures capacity { vec_capacity edges.new ≡ vec_capacity edges.old }
{
    for dependency in dependencies {
        match tasks.place_of(*dependency) {
            Some(place) => add_edge(edges, place, row),
            None => {}
        }
    }
}

/// Adds an edge from the task at this place.
fn add_edge(edges: &mut Vec<Edges>, place: usize, row: u32)
    requires within { place < vec_len edges.old }
    requires room { 0 < slice_index (spares edges.old.items) place }
    ensures edges { edges_of edges.new.items ≡ slice_set (edges_of edges.old.items) place (list_at (edges_of edges.old.items) place ++ row ∷ []) }
    ensures others { (k : ℕ) → (k ≡ place → ⊥) → slice_index (spares edges.new.items) k ≡ slice_index (spares edges.old.items) k }
    ensures len { vec_len edges.new ≡ vec_len edges.old }
    ensures capacity { vec_capacity edges.new ≡ vec_capacity edges.old }
{
    let held = &mut edges[place];
    if held.rows.push(row).is_err() {
        unreachable!();
    }
}
