//! The row of a task: its definition, the retries that it has left, and its runs; and what happens to one row.
//!
//! A task has no run (it is unscheduled), or the state of its last run. The states, the reasons for which a run is made and those for
//! which it ends are those of the queue service in the Taskcluster reference.
#![tactic(auto)]

mod copies;
mod laws;
mod moves;
mod reasons;
mod refusal;
mod room;
mod row;
mod run;
mod runs;
mod serving;

pub use laws::{
    a_deadline_resolves, a_schedule_serves_nobody, later_goes_on, reasons_have_names_of_their_own,
    rows_cross_threads, runs_stay, what_is_served_stays,
};
pub use reasons::{ReasonCreated, ReasonResolved, RunState};
pub use refusal::Refusal;
pub use room::RunRoom;
pub use row::{MOST_RETRIES, MOST_RUNS, TaskRow};
pub use run::{Claim, Outcome, Run};
