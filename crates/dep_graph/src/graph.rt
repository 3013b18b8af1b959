//! The graph of the tasks of a farm.
ghost use Rattle.std.specs.Prelude.{◌≡◌, ◌==◌, ◌||◌, ◌<◌, ◌++◌, ◌∷◌, [], true, false, All, IsTrue, Some, None, ◌≤◌, ℕ, IfOk, OnOk, OnErr, length, vec_len, vec_capacity};
ghost use Rattle.std.specs.List.{IsDistinct};
ghost use Rattle.dep_graph.specs.Nodes.{no_graph, just_created, rows_of, is_in, dependants_of, added, moved, may_be_added};
ghost use Rattle.dep_graph.specs.Ready as judged;
ghost use Rattle.dep_graph.specs.Kept.{HaveOwnRows, edges_of, own_edges};
ghost use Rattle.dep_graph.specs.Tables.{HasAllRoom};
ghost use Rattle.dep_graph.specs.Trees.{node_at};

use crate::edges::{Edges, add_edges, make_room};
use crate::moves::proceed;
use crate::node::{Node, Progress, Requires};
use crate::tasks::{Tasks, are_distinct, row_is_ready};
use crate::waits::{Waits, count_lacking};
use std::alloc::{AllocError, Global};
use std::marker::Model;

/// The tasks of a farm and what they wait for, in the order in which they were added, and the room for one task more.
#[derive(Drop)]
pub struct Graph {
    tasks: Tasks,
    /// The tasks that depend on each.
    edges: Vec<Edges>,
    /// What each task still waits for.
    waits: Waits,
    /// The task for which there is room.
    room: Option<Addition>,
}

/// A task for which there is room, and the list of those that depend on it.
#[derive(Drop)]
pub(crate) struct Addition {
    node: Node,
    edges: Edges,
}

impl Addition {
    /// A task that is just created, and room for its edge to itself.
    fn new(alloc: Global, row: u32, dependencies: &[u32]) -> Result<Addition, AllocError>
        ensures node { IfOk result (λ made. made.node ≡ record { row = row; needs = Requires.AllCompleted; dependencies = dependencies.now; progress = just_created }) }
        ensures edges { IfOk result (λ made. (made.edges.rows.items ≡ []) × (0 < vec_capacity made.edges.rows)) }
    {
        let rows = Vec::with_capacity(alloc, 1)?;
        Ok(Addition {
            node: Node::new(alloc, row, dependencies)?,
            edges: Edges { rows },
        })
    }
}

impl Model for Graph {
    ghost use Rattle.std.specs.Prelude.{option_map, vec_capacity};
    ghost use Rattle.dep_graph.specs.Nodes.{TaskGraph};
    ghost use Rattle.dep_graph.specs.Kept.{adding_of, IsKept};
    ghost use Rattle.dep_graph.specs.Tables.{AreCounted, HasCounts};

    ghost Value = { TaskGraph };

    ghost view = { λ g. record { tasks = g.tasks.tasks; room = option_map adding_of g.room } };

    ghost invariant = { λ g. IsKept g.tasks.tasks g.edges.items g.tasks.capacity (vec_capacity g.edges) g.room
        × AreCounted g.tasks.tasks g.waits.lacking.items g.waits.ready × HasCounts g.tasks.tasks g.waits g.room };
}

impl Graph {
    /// A graph without tasks. It takes no memory.
    pub fn new(alloc: Global) -> Self
        ensures { result ≡ no_graph }
    {
        Graph {
            tasks: Tasks::new(alloc),
            edges: Vec::new(alloc),
            waits: Waits::new(alloc),
            room: None,
        }
    }

    /// Whether a task has this row.
    pub fn holds(&self, row: u32) -> bool
        ensures { result ≡ is_in (rows_of self.now.tasks) row }
    {
        self.tasks.holds(row)
    }

    /// Whether a task with this row and these dependencies may be added: the row is new, and each that it depends on is named once, and
    /// stands or is the task itself.
    pub fn may_add(&self, row: u32, dependencies: &[u32]) -> bool
        ensures value { result ≡ may_be_added self.now.tasks row dependencies.now }
        ensures new { IsTrue result → is_in (rows_of self.now.tasks) row ≡ false }
        ensures distinct { IsTrue result → IsDistinct ◌==◌ dependencies.now }
        ensures stand { IsTrue result → All (λ held. ((held == row) || is_in (rows_of self.now.tasks) held) ≡ true) dependencies.now }
    {
        !self.tasks.holds(row)
            && are_distinct(dependencies)
            && self.tasks.all_stand(row, dependencies)
    }

    /// Takes the memory for one `add` of a task with this row that depends on these. Room that an earlier call left is given up.
    pub fn reserve(
        &mut self,
        alloc: Global,
        row: u32,
        dependencies: &[u32],
    ) -> Result<(), AllocError>
        ensures ok { OnOk result (self.new ≡ record self.old { room = Some (record { row = row; dependencies = dependencies.now }) }) }
        ensures err { OnErr result (self.new ≡ record self.old { room = None }) }
    {
        self.room = None;
        make_all_room(
            alloc,
            &mut self.tasks,
            &mut self.edges,
            &mut self.waits,
            dependencies,
        )?;
        self.room = Some(Addition::new(alloc, row, dependencies)?);
        Ok(())
    }

    /// Adds a task that was just created, for which there is room: its row is new, and each task that it depends on stands, or is the task
    /// itself. It takes no memory.
    pub fn add(&mut self, row: u32, needs: Requires, dependencies: &[u32])
        requires new { is_in (rows_of self.old.tasks) row ≡ false }
        requires distinct { IsDistinct ◌==◌ dependencies.now }
        requires stand { All (λ held. ((held == row) || is_in (rows_of self.old.tasks) held) ≡ true) dependencies.now }
        requires room { self.old.room ≡ Some (record { row = row; dependencies = dependencies.now }) }
        ensures { self.new ≡ record { tasks = added row needs dependencies.now self.old.tasks; room = None } }
    {
        let Some(addition) = self.room.take() else {
            unreachable!();
        };
        let lacking = count_lacking(&self.tasks, needs, dependencies);
        self.waits.push(&addition.node, lacking);
        add_edges(&self.tasks, &mut self.edges, row, dependencies);
        add_task(&mut self.tasks, &mut self.edges, addition, needs);
    }

    /// Makes a task come so far. It takes no memory.
    pub fn state_changed(&mut self, row: u32, progress: Progress)
        requires { is_in (rows_of self.old.tasks) row ≡ true }
        ensures { self.new ≡ record { tasks = moved row progress self.old.tasks; room = self.old.room } }
    {
        proceed(&mut self.tasks, &self.edges, &mut self.waits, row, progress);
    }

    /// Whether a task has this row and is ready. It takes no memory.
    pub fn is_ready(&self, row: u32) -> bool
        ensures { result ≡ judged.row_is_ready self.now.tasks row }
    {
        row_is_ready(&self.tasks, row)
    }

    /// The least row of a task that is ready. It takes no memory.
    pub fn ready(&self) -> Option<u32>
        ensures { result ≡ judged.ready_row self.now.tasks }
    {
        self.waits.ready.least()
    }

    /// The rows of the tasks that depend on this one, in the order in which they were added. It takes no memory.
    pub fn dependants(&self, row: u32) -> &[u32]
        ensures { result.now ≡ dependants_of self.now.tasks row }
    {
        match self.tasks.place_of(row) {
            Some(place) => &self.edges[place].rows,
            None => &[],
        }
    }
}

/// Takes the memory for one task more, which depends on these.
fn make_all_room(
    alloc: Global,
    tasks: &mut Tasks,
    edges: &mut Vec<Edges>,
    waits: &mut Waits,
    dependencies: &[u32],
) -> Result<(), AllocError>
    requires own { HaveOwnRows tasks.old.tasks }
    requires len { length (edges_of edges.old.items) ≡ length (rows_of tasks.old.tasks) }
    ensures tasks { tasks.new.tasks ≡ tasks.old.tasks }
    ensures edges { edges_of edges.new.items ≡ edges_of edges.old.items }
    ensures lacking { waits.new.lacking.items ≡ waits.old.lacking.items }
    ensures ready { (place : ℕ) → node_at waits.new.ready place ≡ node_at waits.old.ready place }
    ensures more { length waits.old.ready ≤ length waits.new.ready }
    ensures room { OnOk result (HasAllRoom tasks.new edges.new.items (vec_capacity edges.new) waits.new dependencies.now) }
{
    make_room(tasks, edges, dependencies)?;
    tasks.reserve()?;
    edges.reserve(1)?;
    waits.reserve(alloc, tasks.len())?;
    Ok(())
}

/// Adds a task, and the list of those that depend on it: itself, where it does.
fn add_task(tasks: &mut Tasks, edges: &mut Vec<Edges>, addition: Addition, needs: Requires)
    requires task { length tasks.old.tasks < tasks.old.capacity }
    requires new { is_in (rows_of tasks.old.tasks) addition.node.row ≡ false }
    requires list { vec_len edges.old < vec_capacity edges.old }
    requires own { addition.edges.rows.items ≡ [] }
    requires own_room { 0 < vec_capacity addition.edges.rows }
    ensures tasks { tasks.new.tasks ≡ tasks.old.tasks ++ (record addition.node { needs = needs }) ∷ [] }
    ensures edges { edges_of edges.new.items ≡ edges_of edges.old.items ++ own_edges addition.node.row addition.node.dependencies ∷ [] }
{
    let Addition {
        mut node,
        edges: mut own,
    } = addition;
    node.require(needs);
    let row = node.row();
    if node.dependencies().contains(&row) && own.rows.push(row).is_err() {
        unreachable!();
    }
    tasks.push(node);
    if edges.push(own).is_err() {
        unreachable!();
    }
}
