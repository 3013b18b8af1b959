//! Tests of a small object at a shared desk, asked in one thread and in two: of `shared_desk`.
//!
//! They stand in a crate of their own since the gate proves a crate's tests together with the crate: here it proves the tests alone.
#![tactic(auto)]

#[cfg(test)]
mod asks;
