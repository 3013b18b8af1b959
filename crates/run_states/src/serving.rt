//! What a task serves those that wait for it.
ghost use Rattle.std.specs.Prelude.{◌≡◌};
ghost use Rattle.std.specs.List.{list_any};
ghost use Rattle.run_states.specs.Serving.{is_by_rerun, is_completed, is_rerun, was_completed, was_resolved, serves};

use crate::reasons::{ReasonCreated, ReasonResolved};
use crate::row::TaskRow;
use crate::run::Run;
use task_types::Requires;

impl TaskRow {
    /// Whether a run of the task completed, whatever came behind it.
    pub fn was_completed(&self) -> bool
        ensures { result ≡ was_completed self.now }
    {
        any_completed(&self.runs)
    }

    /// Whether the task is resolved, or was and was run again.
    pub fn was_resolved(&self) -> bool
        ensures { result ≡ was_resolved self.now }
    {
        self.is_resolved() || any_rerun(&self.runs)
    }

    /// Whether the task serves one that waits for it and requires this.
    pub fn serves(&self, needs: Requires) -> bool
        ensures { result ≡ serves needs self.now }
    {
        match needs {
            Requires::AllCompleted => self.was_completed(),
            Requires::AllResolved => self.was_resolved(),
        }
    }
}

/// Whether one of these runs completed.
fn any_completed(runs: &[Run]) -> bool
    ensures { result ≡ list_any is_completed runs.now }
{
    runs.iter()
        .any(|run| run.ended_for(ReasonResolved::Completed))
}

/// Whether one of these runs was made by a rerun.
fn any_rerun(runs: &[Run]) -> bool
    ensures { result ≡ list_any is_rerun runs.now }
{
    runs.iter().any(|run| is_by_rerun(run.created))
}

/// Whether a run that is made for this reason is made by a rerun.
fn is_by_rerun(created: ReasonCreated) -> bool
    ensures { result ≡ is_by_rerun created }
{
    match created {
        ReasonCreated::Rerun => true,
        ReasonCreated::Scheduled
        | ReasonCreated::Retry
        | ReasonCreated::TaskRetry
        | ReasonCreated::Exception => false,
    }
}
