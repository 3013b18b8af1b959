//! Tests of scopes, roles, lists of scopes as lines, and escaped texts: of `scope_sets`, `role_expand`, `scope_lines`, `plain_text`.
//!
//! They stand in a crate of their own since the gate proves a crate's tests together with the crate: here it proves the tests alone.
#![tactic(auto)]

#[cfg(test)]
mod escapes;
#[cfg(test)]
mod lines;
#[cfg(test)]
mod roles;
#[cfg(test)]
mod scopes;
