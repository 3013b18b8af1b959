//! Objects and desks. An object has a state that one caller at a time asks. A desk takes its caller's questions to an object,
//! and stands for a history: where it began, what was seen to happen since, and at which places there its own calls stand.
//!
//! Whoever asks a desk learns the same, whether others ask the same object or not.
#![tactic(auto)]

mod desk;
mod object;
mod solo;

pub use desk::{Desk, Spare};
pub use object::Object;
pub use solo::Solo;

#[cfg(test)]
mod tests;
