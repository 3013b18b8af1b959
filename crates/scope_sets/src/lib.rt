//! Scopes, sets of them, and what a set lacks of a scope expression.
//!
//! A scope is a text of printable ASCII that stands for a right, as `queue:create-task:lowest:prov/wt`.
//! Whoever has `queue:*` satisfies each scope that begins with `queue:`.
#![tactic(auto)]

pub mod expressions;
pub mod laws;
pub mod scopes;
pub mod sets;

pub use expressions::{Expr, holds, missing};
pub use scopes::{LONGEST_SCOPE, Scope, satisfies};
pub use sets::ScopeSet;
