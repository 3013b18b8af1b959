//! The tasks of a farm: what falls due, and which changes may be made of them.
//!
//! `specs/Contents.antt` is what the tables keep, `specs/Due.antt` what falls due and how it is resolved, and `specs/Changes.antt` which
//! change may be made and what it leaves. A change comes in two steps: `plan` judges it and takes all its memory, `apply` makes it.
#![tactic(auto)]

mod copies;
mod laws;
mod moves;
mod plan;
mod shown;
mod summary;
mod tables;
mod turns;
mod waits;
mod work;

pub use laws::{one_name_is_one_queue, tables_cross_threads};
pub use moves::reason_of;
pub use plan::TaskPlan;
pub use summary::Summary;
pub use tables::TaskTables;
