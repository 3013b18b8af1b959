//! The hooks of a farm, as its settings have them, and the book in which they are found by their names (the Taskcluster reference, 'Hooks').
//!
//! `specs/Hooks.antt` says what a hook is as plain data, and which of some hooks has a name.
#![tactic(auto)]

mod book;
mod hook;
mod laws;

pub use book::HookBook;
pub use hook::Hook;
pub use laws::hooks_cross_threads;
