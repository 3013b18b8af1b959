//! The run of a task.
ghost use Rattle.std.specs.Prelude.{◌≡◌};
ghost use Rattle.run_states.specs.Runs.{run_state, open_state, is_pending_run, is_running_run, run_due, ended_for};

use crate::reasons::{ReasonCreated, ReasonResolved, RunState};
use farm_text::Moment;
use task_types::Identifier;

/// The claim of a worker on a run.
#[derive(Drop)]
pub struct Claim {
    pub worker_group: Identifier,
    pub worker_id: Identifier,
    /// When the worker took the run.
    pub started: Moment,
    /// The run is the worker's before this moment; it falls due at it, where it has not ended.
    pub taken_until: Moment,
}

/// How a run ended, and when.
#[derive(Clone, Copy, Debug, PartialEq, Eq)]
pub struct Outcome {
    pub reason: ReasonResolved,
    pub at: Moment,
}

/// A run of a task.
#[derive(Drop)]
pub struct Run {
    pub created: ReasonCreated,
    /// The number that it drew when it became pending, by which runs of one priority are ordered. A run that was made as an exception
    /// has none.
    pub number: Option<u64>,
    /// When it was made.
    pub scheduled: Moment,
    /// None while no worker took it. It stays when the run ends.
    pub claim: Option<Claim>,
    /// None while it has not ended.
    pub outcome: Option<Outcome>,
}

impl Run {
    /// The state of the run.
    pub fn state(&self) -> RunState
        ensures { result ≡ run_state self.now }
    {
        match self.outcome {
            Some(outcome) => outcome.reason.state(),
            None => self.open_state(),
        }
    }

    /// The state of the run while it has not ended.
    fn open_state(&self) -> RunState
        ensures { result ≡ open_state self.now.claim }
    {
        match self.claim {
            Some(_) => RunState::Running,
            None => RunState::Pending,
        }
    }

    /// Whether it waits for a worker.
    pub fn is_pending(&self) -> bool
        ensures { result ≡ is_pending_run self.now }
    {
        self.claim.is_none() && self.outcome.is_none()
    }

    /// Whether a worker has it, and it has not ended.
    pub fn is_running(&self) -> bool
        ensures { result ≡ is_running_run self.now }
    {
        self.claim.is_some() && self.outcome.is_none()
    }

    /// The moment at which it falls due, where it is running.
    pub fn due(&self) -> Option<Moment>
        ensures { result ≡ run_due self.now }
    {
        match &self.claim {
            Some(claim) if self.outcome.is_none() => Some(claim.taken_until),
            _ => None,
        }
    }

    /// Whether it ended, and for this reason.
    pub fn ended_for(&self, reason: ReasonResolved) -> bool
        ensures { result ≡ ended_for reason self.now }
    {
        match self.outcome {
            Some(outcome) => outcome.reason.name() == reason.name(),
            None => false,
        }
    }
}
