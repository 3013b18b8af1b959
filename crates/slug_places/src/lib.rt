//! Where tasks and groups stand, by their ids.
#![tactic(auto)]

pub mod places;
