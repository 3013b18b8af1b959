//! Tests of definitions of tasks, of queues, groups and graphs: of `task_defs`, `claim_queue`, `task_groups`, `dep_graph`.
//!
//! They stand in a crate of their own since the gate proves a crate's tests together with the crate: here it proves the tests alone.
#![tactic(auto)]

#[cfg(test)]
mod definitions;
#[cfg(test)]
mod graphs;
#[cfg(test)]
mod groups;
#[cfg(test)]
mod queues;
