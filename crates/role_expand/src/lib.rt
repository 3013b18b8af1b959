//! Roles, and the scopes that a start list of scopes expands to over them.
//!
//! A role gives scopes to whoever has the scope `assume:<its id>`. A role whose id ends with `*` is granted with a parameter,
//! which takes the place of `<..>` in its scopes.
#![tactic(auto)]

mod cycles;
mod expansion;
mod found;
mod given;
mod granting;
mod index;
pub mod laws;
mod marks;
mod order;
mod ranks;
mod refusals;
mod role_sets;
mod roles;

pub use expansion::{ExpandFault, MOST_SCOPES};
pub use refusals::{BuildFault, has_role_form};
pub use role_sets::RoleSet;
pub use roles::Role;
