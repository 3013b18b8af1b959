//! JSON-e expressions: their tokens, their grammar and their trees. `parse` reads a text.
//!
//! Levels from the loosest: `||`, `&&`, `in`, `==` and `!=`, `<` and its kin, `+` and `-`, `*` and `/`, `**` (which goes to
//! the right), the signs `!` `-` `+`, and what stands behind a value: `.name`, `[e]`, `[e:e]` and a function's `(args)`.
#![tactic(auto)]

mod depths;
pub mod functions;
pub mod laws;
mod lexer;
mod machine;
pub mod marks;
pub mod nodes;
pub mod parser;
pub mod tokens;

pub use parser::{ParseFault, Tree, parse};
