//! Tests of records, runs, rows, statuses and scopes of tasks: of `farm_record`, `run_states`, `farm_rows`, `task_statuses`, `call_rules`.
//!
//! They stand in a crate of their own since the gate proves a crate's tests together with the crate: here it proves the tests alone.
#![tactic(auto)]

#[cfg(test)]
mod records;
#[cfg(test)]
mod rows;
#[cfg(test)]
mod runs;
#[cfg(test)]
mod scopes;
#[cfg(test)]
mod words;
