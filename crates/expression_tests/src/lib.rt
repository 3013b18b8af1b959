//! Tests of JSON-e's values, and of what expressions come to: of `jsone_values`, `jsone_eval`.
//!
//! They stand in a crate of their own since the gate proves a crate's tests together with the crate: here it proves the tests alone.
#![tactic(auto)]

#[cfg(test)]
mod answers;
#[cfg(test)]
mod evaluating;
#[cfg(test)]
mod values;
