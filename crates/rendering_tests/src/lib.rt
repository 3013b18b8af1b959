//! Tests of JSON-e's templates, and of the firing of hooks: of `jsone_render`, `hook_fire`.
//!
//! They stand in a crate of their own since the gate proves a crate's tests together with the crate: here it proves the tests alone.
#![tactic(auto)]

#[cfg(test)]
mod hooks;
#[cfg(test)]
mod rendering;
