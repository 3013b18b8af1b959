//! What the operators of JSON-e's expressions do to values, and the faults that keep an expression from a value.
//!
//! Numbers are whole and have 64 bits with a sign. Texts count by characters.
#![tactic(auto)]

pub mod builtins;
pub mod faults;
pub mod indexes;
pub mod letters;
pub mod lists;
pub mod maps;
pub mod members;
pub mod numbers;
pub mod operators;
pub mod order;
pub mod places;
pub mod ranges;
pub mod slices;
pub mod spans;
pub mod splits;
pub mod texts;
pub mod truth;
pub mod weights;
