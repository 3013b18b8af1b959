//! How the tasks of a farm stand, counted.
ghost use Rattle.std.specs.Prelude.{◌≡◌, ◌≤◌, length, count_by, sum_by};
ghost use Rattle.farm_rows.specs.Summary.{is_in, summary_of};

use run_states::{RunState, TaskRow};

/// How many tasks there are, how many of them stand in each of these states, and how many runs they have, all together.
#[derive(Clone, Copy, Debug, PartialEq, Eq)]
pub struct Summary {
    /// All tasks.
    pub tasks: u32,
    /// Those whose last run completed.
    pub completed: u32,
    /// Those whose last run failed.
    pub failed: u32,
    /// Those whose last run ended as an exception.
    pub exception: u32,
    /// Those without a run.
    pub unscheduled: u32,
    /// The runs of all tasks.
    pub runs: u32,
}

/// The summary of these tasks.
pub(crate) fn summary_of(rows: &[TaskRow]) -> Summary
    requires { length rows.now ≤ 1_000_000 }
    ensures { result ≡ summary_of rows.now }
{
    Summary {
        tasks: rows.len() as u32,
        completed: standing(rows, Some(RunState::Completed)) as u32,
        failed: standing(rows, Some(RunState::Failed)) as u32,
        exception: standing(rows, Some(RunState::Exception)) as u32,
        unscheduled: standing(rows, None) as u32,
        runs: runs(rows),
    }
}

/// How many tasks are in this state; those without a state are unscheduled.
fn standing(rows: &[TaskRow], state: Option<RunState>) -> usize
    ensures value { result ≡ count_by (is_in state) rows.now }
    ensures few { result ≤ length rows.now }
{
    rows.iter().filter(|row| row.state() == state).count()
}

/// How many runs they have.
fn runs(rows: &[TaskRow]) -> u32
    requires { length rows.now ≤ 1_000_000 }
    ensures { result ≡ sum_by (λ row. length row.runs) rows.now }
{
    let mut made = 0;
    'rows: for row in rows {
        made += row.runs().len() as u32;
    }
    made
}
