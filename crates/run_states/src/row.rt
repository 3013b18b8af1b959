//! The row of a task, how it is scheduled, and how it ends without a worker.
ghost use Rattle.std.specs.Prelude.{◌≡◌, ◌+◌, ◌≤◌, ◌↔◌, [], length, not, IsTrue, IfOk};
ghost use Rattle.run_states.specs.Rows.{new_row, row_state, is_unscheduled, is_resolved, is_pending, claim_due, scheduled, finished, exceeded};

use crate::copies::copies;
use crate::reasons::{ReasonCreated, ReasonResolved, RunState};
use crate::run::{Outcome, Run};
use crate::runs::{add_pending, end_last, last};
use farm_text::{Moment, SlugId};
use std::alloc::{AllocError, Global};
use std::marker::Model;
use std::sync::Arc;
use task_types::TaskDef;

/// How many runs a task has at most.
pub const MOST_RUNS: usize = 50;

/// How often a task is run again at most.
pub const MOST_RETRIES: u8 = 49;

/// A task that stands: its id, its definition, the retries that it has left and its runs.
///
/// Its definition is shared with its copies. The runs and the retries that are left are at most 50. It has room for its runs and for
/// those retries, and for one run where it has none: so nothing that happens to it takes memory, and a rerun, by which it has retries once
/// more, is given the room.
#[derive(Drop)]
pub struct TaskRow {
    pub(crate) id: SlugId,
    pub(crate) definition: Arc<TaskDef>,
    pub(crate) retries_left: u8,
    pub(crate) runs: Vec<Run>,
}

impl Model for TaskRow {
    ghost use Rattle.std.specs.Prelude.{◌+◌, ◌<◌, ◌≤◌, vec_len, vec_capacity};
    ghost use Rattle.std.specs.Coded.{codes};
    ghost use Rattle.task_types.specs.Codes.{members_code};
    ghost use Rattle.std.specs.Arc.{arc_value};
    ghost use Rattle.run_states.specs.Rows.{Row};

    ghost Value = { Row };

    ghost coded = { Prim.hlevel (codes, members_code) };

    ghost view = { λ r. record { id = r.id; definition = arc_value r.definition; retries_left = r.retries_left; runs = r.runs.items } };

    ghost invariant = { λ r. (vec_len r.runs + r.retries_left ≤ 50) × (r.retries_left ≤ 49)
        × (vec_len r.runs + r.retries_left ≤ vec_capacity r.runs) × (r.retries_left < vec_capacity r.runs) };
}

impl TaskRow {
    /// The row of a new task: without runs, with all the retries of its definition, which are at most 49.
    pub fn make(alloc: Global, id: SlugId, definition: TaskDef) -> Result<TaskRow, AllocError>
        ensures { IfOk result (λ row. row ≡ new_row id definition) }
    {
        let retries_left = definition.retries.min(MOST_RETRIES);
        let runs = match Vec::with_capacity(alloc, usize::from(retries_left) + 1) {
            Ok(runs) => runs,
            Err(error) => {
                drop(definition);
                return Err(error);
            }
        };
        Ok(TaskRow {
            id,
            retries_left,
            definition: Arc::new(alloc, definition)?,
            runs,
        })
    }

    /// The same row. Its definition is shared with this one, and so is not copied.
    pub fn copy(&self, alloc: Global) -> Result<TaskRow, AllocError>
        ensures { IfOk result (λ row. row ≡ self.now) }
    {
        let room = self.runs.len().max(1) + usize::from(self.retries_left);
        let runs = copies(alloc, &self.runs, room)?;
        Ok(TaskRow {
            id: self.id,
            definition: Arc::try_clone(&self.definition)?,
            retries_left: self.retries_left,
            runs,
        })
    }

    /// The task's id.
    pub fn id(&self) -> SlugId
        ensures { result ≡ self.now.id }
    {
        self.id
    }

    /// The task's definition.
    pub fn definition(&self) -> &TaskDef
        ensures { result.now ≡ self.now.definition }
    {
        &self.definition
    }

    /// How often the task may still be run again after a fault that is none of its own.
    pub fn retries_left(&self) -> u8
        ensures { result ≡ self.now.retries_left }
    {
        self.retries_left
    }

    /// The runs, the first one first; at most 50.
    pub fn runs(&self) -> &[Run]
        ensures value { result.now ≡ self.now.runs }
        ensures few { length self.now.runs ≤ 50 }
        ensures fit { length self.now.runs + self.now.retries_left ≤ 50 }
    {
        &self.runs
    }

    /// The state of the task: that of its last run, and none where it is unscheduled.
    pub fn state(&self) -> Option<RunState>
        ensures { result ≡ row_state self.now }
    {
        match last(&self.runs) {
            Some(run) => Some(run.state()),
            None => None,
        }
    }

    /// Whether it has no run.
    pub fn is_unscheduled(&self) -> bool
        ensures { result ≡ is_unscheduled self.now }
    {
        last(&self.runs).is_none()
    }

    /// Whether the last run has ended.
    pub fn is_resolved(&self) -> bool
        ensures { result ≡ is_resolved self.now }
    {
        match last(&self.runs) {
            Some(run) => run.outcome.is_some(),
            None => false,
        }
    }

    /// Whether the last run waits for a worker.
    pub fn is_pending(&self) -> bool
        ensures { result ≡ is_pending self.now }
    {
        match last(&self.runs) {
            Some(run) => run.is_pending(),
            None => false,
        }
    }

    /// The moment at which the claim of the last run falls due, where it is running.
    pub fn claim_due(&self) -> Option<Moment>
        ensures { result ≡ claim_due self.now }
    {
        match last(&self.runs) {
            Some(run) => run.due(),
            None => None,
        }
    }

    /// Makes the first pending run, with the number that it draws, where the task is unscheduled. Answers whether it did. It takes
    /// no memory.
    pub fn schedule(&mut self, at: Moment, number: u64) -> bool
        ensures changed { IsTrue result ↔ (self.old.runs ≡ []) }
        ensures row { self.new ≡ scheduled number at self.old }
    {
        if !self.runs.is_empty() {
            return false;
        }
        add_pending(&mut self.runs, ReasonCreated::Scheduled, number, at);
        true
    }

    /// Resolves the task because its deadline came, where it is not resolved: the last run ends, and where there is none, one is made
    /// that has ended. Answers whether it did. It takes no memory.
    pub fn exceed(&mut self, at: Moment) -> bool
        ensures changed { result ≡ not (is_resolved self.old) }
        ensures row { self.new ≡ exceeded at self.old }
    {
        self.finish(ReasonResolved::DeadlineExceeded, at)
    }

    /// Resolves the task without a worker, where it is not resolved. Answers whether it did.
    pub(crate) fn finish(&mut self, reason: ReasonResolved, at: Moment) -> bool
        ensures changed { result ≡ not (is_resolved self.old) }
        ensures row { self.new ≡ finished reason at self.old }
    {
        if self.is_resolved() {
            return false;
        }
        if self.runs.is_empty() {
            let run = Run {
                created: ReasonCreated::Exception,
                number: None,
                scheduled: at,
                claim: None,
                outcome: Some(Outcome { reason, at }),
            };
            if self.runs.push(run).is_err() {
                unreachable!();
            }
        } else {
            end_last(&mut self.runs, reason, at);
        }
        true
    }
}
