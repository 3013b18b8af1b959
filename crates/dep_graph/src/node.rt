//! What a graph knows of one task.
ghost use Rattle.std.specs.Prelude.{◌≡◌, IfOk};
ghost use Rattle.dep_graph.specs.Nodes.{just_created};
ghost use Rattle.dep_graph.specs.Ready as ready;

use std::alloc::{AllocError, Global};
use std::marker::Model;

/// What a task requires of each task that it depends on.
#[derive(Clone, Copy, Debug, PartialEq, Eq)]
pub enum Requires {
    /// That it was completed.
    AllCompleted,
    /// That it was resolved in any way.
    AllResolved,
}

/// How far a task has come.
#[derive(Clone, Copy, Debug, PartialEq, Eq)]
pub struct Progress {
    /// It has no run.
    pub unscheduled: bool,
    /// One of its runs completed.
    pub was_completed: bool,
    /// It is resolved, or it was, and was run again.
    pub was_resolved: bool,
}

impl Requires {
    /// Whether a task that has come so far meets this.
    pub(crate) fn is_met(self, progress: Progress) -> bool
        ensures { result ≡ ready.serves self progress }
    {
        match self {
            Requires::AllCompleted => progress.was_completed,
            Requires::AllResolved => progress.was_resolved,
        }
    }
}

/// A task, with what it requires of the tasks that it depends on.
#[derive(Drop)]
pub(crate) struct Node {
    row: u32,
    needs: Requires,
    dependencies: Vec<u32>,
    progress: Progress,
}

impl Model for Node {
    ghost use Rattle.dep_graph.specs.Nodes.{Task};

    ghost Value = { Task };

    ghost view = { λ n. record { row = n.row; needs = n.needs; dependencies = n.dependencies.items; progress = n.progress } };
}

impl Node {
    /// A task that is just created, and requires that each task that it depends on is completed.
    pub(crate) fn new(alloc: Global, row: u32, dependencies: &[u32]) -> Result<Node, AllocError>
        ensures { IfOk result (λ node. node ≡ record { row = row; needs = Requires.AllCompleted; dependencies = dependencies.now; progress = just_created }) }
    {
        Ok(Node {
            row,
            needs: Requires::AllCompleted,
            dependencies: dependencies.to_vec(alloc)?,
            progress: Progress {
                unscheduled: true,
                was_completed: false,
                was_resolved: false,
            },
        })
    }

    /// The row of the task.
    pub(crate) fn row(&self) -> u32
        ensures { result ≡ self.now.row }
    {
        self.row
    }

    /// What the task requires.
    pub(crate) fn needs(&self) -> Requires
        ensures { result ≡ self.now.needs }
    {
        self.needs
    }

    /// The rows of the tasks that it depends on.
    pub(crate) fn dependencies(&self) -> &[u32]
        ensures { result.now ≡ self.now.dependencies }
    {
        &self.dependencies
    }

    /// How far the task has come.
    pub(crate) fn progress(&self) -> Progress
        ensures { result ≡ self.now.progress }
    {
        self.progress
    }

    /// Makes the task require this.
    pub(crate) fn require(&mut self, needs: Requires)
        ensures { self.new ≡ record self.old { needs = needs } }
    {
        self.needs = needs;
    }

    /// Makes the task come so far.
    pub(crate) fn proceed(&mut self, progress: Progress)
        ensures { self.new ≡ record self.old { progress = progress } }
    {
        self.progress = progress;
    }
}
