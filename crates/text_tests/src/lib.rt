//! Tests of texts, documents, slugids, moments, clocks and draws: of `farm_text`.
//!
//! They stand in a crate of their own since the gate proves a crate's tests together with the crate: here it proves the tests alone.
#![tactic(auto)]

#[cfg(test)]
mod texts;
