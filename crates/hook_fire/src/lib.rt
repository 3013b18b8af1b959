//! Hooks: the definition of the task that a hook makes when it is fired (the Taskcluster reference, 'Hooks').
#![tactic(auto)]

mod context;
mod defaults;
mod fault;
mod firing;
mod laws;

pub use fault::FireFault;
pub use firing::fire;
pub use laws::{
    each_document_says_or_breaks, each_firing_has_an_answer, late_moments_are_not_read,
    the_firing_is_one,
};
