//! Why what is asked of a task is refused.

/// Why what is asked of a task is refused. The rules are those of the queue's calls.
#[derive(Clone, Copy, Debug, PartialEq, Eq)]
pub enum Refusal {
    /// The task has no run of this number.
    NoRun,
    /// The run is not running (rule 3).
    NotRunning,
    /// The task is unscheduled (rule 4).
    Unscheduled,
    /// The deadline of the task came (rule 5).
    DeadlineCame,
    /// The task has fifty runs (rule 6).
    FiftyRuns,
}
