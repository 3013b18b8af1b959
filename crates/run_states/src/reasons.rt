//! Why a run is made, why it ends, and the states between.
ghost use Rattle.std.specs.Prelude.{◌≡◌};
ghost use Rattle.run_states.specs.Reasons.{created_name, resolved_name, state_name, state_for, retry_after};

/// Why a run was made.
#[derive(Clone, Copy, Debug, PartialEq, Eq)]
pub enum ReasonCreated {
    /// The task was made, what it waits for came, or it was scheduled by a call.
    Scheduled,
    /// The run before lost its worker.
    Retry,
    /// The run before met a fault that another run may not meet.
    TaskRetry,
    /// The task was to be run again.
    Rerun,
    /// The run stands only for how the task ended.
    Exception,
}

/// Why a run ended.
#[derive(Clone, Copy, Debug, PartialEq, Eq)]
pub enum ReasonResolved {
    Completed,
    Failed,
    /// The task's deadline came.
    DeadlineExceeded,
    Canceled,
    Superseded,
    /// The worker did not renew its claim in time.
    ClaimExpired,
    WorkerShutdown,
    MalformedPayload,
    ResourceUnavailable,
    InternalError,
    IntermittentTask,
}

/// The state of a run.
#[derive(Clone, Copy, Debug, PartialEq, Eq)]
pub enum RunState {
    /// It waits for a worker.
    Pending,
    /// A worker has it.
    Running,
    Completed,
    Failed,
    /// It ended, and no worker told that it completed or failed.
    Exception,
}

impl ReasonCreated {
    /// The name of the reason.
    pub fn name(self) -> &'static str
        ensures { result.now ≡ created_name self }
    {
        match self {
            ReasonCreated::Scheduled => "scheduled",
            ReasonCreated::Retry => "retry",
            ReasonCreated::TaskRetry => "task-retry",
            ReasonCreated::Rerun => "rerun",
            ReasonCreated::Exception => "exception",
        }
    }
}

impl ReasonResolved {
    /// The name of the reason.
    pub fn name(self) -> &'static str
        ensures { result.now ≡ resolved_name self }
    {
        match self {
            ReasonResolved::Completed => "completed",
            ReasonResolved::Failed => "failed",
            ReasonResolved::DeadlineExceeded => "deadline-exceeded",
            ReasonResolved::Canceled => "canceled",
            ReasonResolved::Superseded => "superseded",
            ReasonResolved::ClaimExpired => "claim-expired",
            ReasonResolved::WorkerShutdown => "worker-shutdown",
            ReasonResolved::MalformedPayload => "malformed-payload",
            ReasonResolved::ResourceUnavailable => "resource-unavailable",
            ReasonResolved::InternalError => "internal-error",
            ReasonResolved::IntermittentTask => "intermittent-task",
        }
    }

    /// The state of a run that ended for this reason.
    pub fn state(self) -> RunState
        ensures { result ≡ state_for self }
    {
        match self {
            ReasonResolved::Completed => RunState::Completed,
            ReasonResolved::Failed => RunState::Failed,
            _ => RunState::Exception,
        }
    }

    /// Why a new run is made behind one that ended for this reason, while a retry is left; none where the task ends with it.
    pub fn retry_after(self) -> Option<ReasonCreated>
        ensures { result ≡ retry_after self }
    {
        match self {
            ReasonResolved::ClaimExpired | ReasonResolved::WorkerShutdown => {
                Some(ReasonCreated::Retry)
            }
            ReasonResolved::IntermittentTask => Some(ReasonCreated::TaskRetry),
            _ => None,
        }
    }
}

impl RunState {
    /// The name of the state.
    pub fn name(self) -> &'static str
        ensures { result.now ≡ state_name self }
    {
        match self {
            RunState::Pending => "pending",
            RunState::Running => "running",
            RunState::Completed => "completed",
            RunState::Failed => "failed",
            RunState::Exception => "exception",
        }
    }
}
