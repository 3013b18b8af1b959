//! The name of a task's state.
ghost use Rattle.std.specs.Prelude.{◌≡◌};
ghost use Rattle.task_statuses.specs.Statuses as statuses;

use run_states::RunState;

/// The name of a task's state.
pub(crate) fn task_state_name(state: Option<RunState>) -> &'static str
    ensures { result.now ≡ statuses.task_state_name state }
{
    match state {
        None => "unscheduled",
        Some(state) => state.name(),
    }
}
