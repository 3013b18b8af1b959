//! A desk that any number of threads share: one object, one history of what was asked of it, and passes over which threads ask.
//!
//! Callers draw tickets and are served in the order of their tickets, each alone with the object.
#![tactic(auto)]

mod pass;
mod rule;
mod shared;
mod steps;
mod token;
mod turn;
mod view;

pub use pass::Pass;
pub use shared::Shared;
pub use token::Token;
