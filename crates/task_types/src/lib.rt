//! What a task is: the types of its definition's parts, and of its changes.
//!
//! `specs/Forms.antt` says which texts name what, `specs/Choices.antt` which words mean what. Definitions are read and written by `task_defs`,
//! changes by `farm_record`.
#![tactic(auto)]

mod change;
mod choices;
mod laws;
mod lists;
mod names;
mod objects;
mod run_names;
mod task_def;

pub use change::{Change, Claim, Creation, Kind, Reclaim, Report, Resolution, RunName};
pub use choices::{Priority, Requires};
pub use laws::definitions_cross_threads;
pub use lists::{Dependencies, Routes, Scopes};
pub use names::{Identifier, ProjectName, Route, TaskQueue, is_identifier};
pub use objects::{Metadata, Object, Tags};
pub use run_names::RunNames;
pub use task_def::{TaskDef, same};
