//! Tests of disks and of journals: of `disk_base`, `disk_journal`.
//!
//! They stand in a crate of their own since the gate proves a crate's tests together with the crate: here it proves the tests alone.
#![tactic(auto)]

#[cfg(test)]
mod files;
#[cfg(test)]
mod journals;
