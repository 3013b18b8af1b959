//! The tasks of a graph: where one stands, and which is ready.
ghost use Rattle.std.specs.Prelude.{◌≡◌, ◌==◌, ◌||◌, ◌++◌, ◌∷◌, [], ◌<◌, false, Some, IfSome, IfNone, OnOk, length, slice_get};
ghost use Rattle.std.specs.List.{list_all};
ghost use Rattle.dep_graph.specs.Nodes as nodes;
ghost use Rattle.dep_graph.specs.Ready as judged;
ghost use Rattle.dep_graph.specs.Kept.{HaveOwnRows};

use crate::node::{Node, Progress, Requires};
use std::alloc::{AllocError, Global};
use std::collections::HashMap;
use std::marker::Model;

/// The tasks of a graph in the order in which they were added, and of each row the place of its task.
#[derive(Drop)]
pub(crate) struct Tasks {
    nodes: Vec<Node>,
    places: HashMap<u32, usize>,
}

impl Model for Tasks {
    ghost use Rattle.std.specs.Prelude.{◌+◌, min, vec_len, vec_capacity};
    ghost use Rattle.std.specs.HashMap.{spare};
    ghost use Rattle.dep_graph.specs.Nodes.{rows_of};
    ghost use Rattle.dep_graph.specs.Tables.{TaskTable, KnowsPlaces};

    ghost Value = { TaskTable };

    ghost view = { λ t. record { tasks = t.nodes.items; capacity = min (vec_capacity t.nodes) (vec_len t.nodes + spare t.places) } };

    ghost invariant = { λ t. KnowsPlaces (rows_of t.nodes.items) t.places };
}

impl Tasks {
    /// No tasks. They take no memory.
    pub(crate) fn new(alloc: Global) -> Self
        ensures { result.tasks ≡ [] }
    {
        Tasks {
            nodes: Vec::new(alloc),
            places: HashMap::new(alloc),
        }
    }

    /// How many tasks there are.
    pub(crate) fn len(&self) -> usize
        ensures { result ≡ length self.now.tasks }
    {
        self.nodes.len()
    }

    /// The place of the task with this row.
    pub(crate) fn place_of(&self, row: u32) -> Option<usize>
        ensures some { IfSome result (λ place. slice_get (nodes.rows_of self.now.tasks) place ≡ Some row) }
        ensures none { IfNone result (nodes.is_in (nodes.rows_of self.now.tasks) row ≡ false) }
    {
        match self.places.get(&row) {
            Some(place) => Some(*place),
            None => None,
        }
    }

    /// The task at this place.
    pub(crate) fn at(&self, place: usize) -> &Node
        requires { place < length self.now.tasks }
        ensures { slice_get self.now.tasks place ≡ Some result.now }
    {
        &self.nodes[place]
    }

    /// Takes the memory for one task more.
    pub(crate) fn reserve(&mut self) -> Result<(), AllocError>
        ensures same { self.new.tasks ≡ self.old.tasks }
        ensures room { OnOk result (length self.new.tasks < self.new.capacity) }
    {
        self.nodes.reserve(1)?;
        self.places.reserve(1)?;
        Ok(())
    }

    /// Adds a task, for which there is room.
    pub(crate) fn push(&mut self, node: Node)
        requires room { length self.old.tasks < self.old.capacity }
        requires new { nodes.is_in (nodes.rows_of self.old.tasks) node.row ≡ false }
        ensures { self.new.tasks ≡ self.old.tasks ++ node ∷ [] }
    {
        let place = self.nodes.len();
        let Ok(_) = self.places.insert(node.row(), place) else {
            unreachable!();
        };
        if self.nodes.push(node).is_err() {
            unreachable!();
        }
    }

    /// Makes the task at this place, which has this row, come so far.
    pub(crate) fn proceed(&mut self, place: usize, row: u32, progress: Progress)
        requires own { HaveOwnRows self.old.tasks }
        requires at { slice_get (nodes.rows_of self.old.tasks) place ≡ Some row }
        ensures tasks { self.new.tasks ≡ nodes.moved row progress self.old.tasks }
        ensures capacity { self.new.capacity ≡ self.old.capacity }
    {
        let task = &mut self.nodes[place];
        task.proceed(progress);
    }

    /// Whether a task has this row.
    pub(crate) fn holds(&self, row: u32) -> bool
        ensures { result ≡ nodes.is_in (nodes.rows_of self.now.tasks) row }
    {
        match self.place_of(row) {
            Some(_) => true,
            None => false,
        }
    }

    /// Whether each of these tasks stands, or is the one with this row.
    pub(crate) fn all_stand(&self, row: u32, dependencies: &[u32]) -> bool
        ensures { result ≡ list_all (λ held. (held == row) || nodes.is_in (nodes.rows_of self.now.tasks) held) dependencies.now }
    {
        dependencies
            .iter()
            .all(|held| *held == row || self.holds(*held))
    }
}

/// Whether a task is ready.
fn is_ready(tasks: &Tasks, task: &Node) -> bool
    requires { HaveOwnRows tasks.now.tasks }
    ensures { result ≡ judged.is_ready tasks.now.tasks task.now }
{
    task.progress().unscheduled && all_serve(tasks, task.needs(), task.dependencies())
}

/// Whether the task with this row is ready.
pub(crate) fn row_is_ready(tasks: &Tasks, row: u32) -> bool
    requires { HaveOwnRows tasks.now.tasks }
    ensures { result ≡ judged.row_is_ready tasks.now.tasks row }
{
    match tasks.place_of(row) {
        Some(place) => is_ready(tasks, tasks.at(place)),
        None => false,
    }
}

/// Whether each of these tasks meets what is required.
fn all_serve(tasks: &Tasks, needs: Requires, rows: &[u32]) -> bool
    requires { HaveOwnRows tasks.now.tasks }
    ensures { result ≡ judged.all_serve tasks.now.tasks needs rows.now }
{
    rows.iter().all(|row| row_serves(tasks, needs, *row))
}

/// Whether the task with this row meets what is required.
pub(crate) fn row_serves(tasks: &Tasks, needs: Requires, row: u32) -> bool
    requires { HaveOwnRows tasks.now.tasks }
    ensures { result ≡ judged.row_serves tasks.now.tasks needs row }
{
    match tasks.place_of(row) {
        Some(place) => needs.is_met(tasks.at(place).progress()),
        None => false,
    }
}

/// Whether the number stands in the list.
pub(crate) fn is_among(rows: &[u32], row: u32) -> bool
    ensures { result ≡ nodes.is_in rows.now row }
{
    rows.iter().any(|held| *held == row)
}

/// Whether no number stands twice in the list.
pub(crate) fn are_distinct(rows: &[u32]) -> bool
    ensures { result ≡ nodes.all_distinct rows.now }
{
    for place in 0..rows.len() {
        if is_among(&rows[place + 1..], rows[place]) {
            return false;
        }
    }
    true
}
