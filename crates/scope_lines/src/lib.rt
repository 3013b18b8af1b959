//! Lists of scopes as text, one scope a line.
//!
//! A line ends with a line feed. A last line without one counts where it is not empty. An empty line is the empty scope.
#![tactic(auto)]

mod forms;
pub mod laws;
mod lines;

pub use forms::scope_fault;
pub use lines::{LineFault, read_scopes, write_scopes};
