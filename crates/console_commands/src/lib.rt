//! The commands that need no farm but the console, and how a run ends.
//!
//! `expand` writes all that the roles of a farm give to scopes, `render` the value of a template, and `sign` the header that signs a request. Each
//! reads what it needs from a console, at most `LONGEST_INPUT` bytes, and says by an `Ended` how the run ends.
#![tactic(auto)]

mod ended;
mod expanding;
mod inputs;
pub mod laws;
mod rendering;
mod signing;
mod status;
mod writing;

pub use ended::Ended;
pub use expanding::expand;
pub use inputs::LONGEST_INPUT;
pub use rendering::render;
pub use signing::sign;
pub use status::Status;
pub use writing::{write_line, write_text};
