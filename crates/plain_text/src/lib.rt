//! Texts of others, made fit for a terminal: what is no printable ASCII is escaped.
#![tactic(auto)]

mod escapes;

pub use escapes::{escape_line, escape_lines};
