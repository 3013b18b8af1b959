//! The groups of tasks: which tasks a group has, and under which scheduler.
//!
//! A task is named by its row, which is its place in the order of creation, from 0 on. All tasks of a group have one scheduler (the
//! queue service of the Taskcluster reference). What must not want memory comes in two steps: `reserve` takes it, and `join` does not.
#![tactic(auto)]

mod fault;
mod group;
mod groups;
mod laws;
mod page;
mod places;

pub use fault::ReserveFault;
pub use groups::Groups;
pub use laws::{a_task_joins_its_group, pages_are_the_whole_list};
pub use page::Page;
