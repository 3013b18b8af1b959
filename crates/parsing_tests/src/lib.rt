//! Tests of the parsing of JSON-e's expressions: of `jsone_expr`.
//!
//! They stand in a crate of their own since the gate proves a crate's tests together with the crate: here it proves the tests alone.
#![tactic(auto)]

#[cfg(test)]
mod parsing;
