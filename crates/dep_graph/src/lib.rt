//! Which tasks wait for which, and which are ready.
//!
//! A task is named by its row, which is its place in the order of creation, from 0 on. A task that is unscheduled becomes ready once each
//! task that it depends on meets what it requires (the queue service of the Taskcluster reference). What must not want memory comes in two
//! steps: `reserve` takes it, and `add` does not.
//!
//! No call walks over all tasks: the place of a row is looked up (`tasks`), each task has a counter of those that it waits for, which
//! changes as one of them comes further (`waits`), and the least ready row stands at the top of a tree (`least`). Only `reserve` walks,
//! when it makes the tree twice as wide.
#![tactic(auto)]

mod edges;
mod graph;
mod least;
mod moves;
mod node;
mod tasks;
mod waits;

pub use graph::Graph;
pub use node::{Progress, Requires};
