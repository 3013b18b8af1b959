//! The values of JSON-e's expressions, and what they cost.
#![tactic(auto)]

pub mod calls;
pub mod context;
pub mod ends;
pub mod evaluator;
pub mod laws;
mod machine;
pub mod operators;
mod parts;
mod pieces;

pub use context::Context;
pub use ends::ends_of;
pub use evaluator::{Cost, EvalFault, eval, eval_nodes};
