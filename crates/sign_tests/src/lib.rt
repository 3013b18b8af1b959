//! Tests of signatures, and of the words of command lines: of `hawk_auth`, `command_line`.
//!
//! They stand in a crate of their own since the gate proves a crate's tests together with the crate: here it proves the tests alone.
#![tactic(auto)]

#[cfg(test)]
mod signatures;
#[cfg(test)]
mod words;
