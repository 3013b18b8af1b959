//! The tasks of a farm by their places, and what is kept beside them: where each stands, which are of each group, what falls due first, which
//! wait for which, which wait in each queue, and the places on each list.
//!
//! `specs/Contents.antt` is what the tables of a farm keep, `specs/Due.antt` what falls due and how it is resolved, `specs/Changes.antt` which
//! change may be made and what it leaves, and `specs/Indexed.antt` what is kept beside the tasks. The tables themselves are `farm_rows`.
#![tactic(auto)]

pub mod checks;
pub mod counts;
mod dependencies;
mod dues;
pub mod index;
pub mod listing;
pub mod lists;
mod members;
pub mod picks;
pub mod place_lists;
mod places;
mod queues;
pub mod room;
pub mod rows;
pub mod settle;
mod walks;
