//! Tests of farm files (`farm_files`): which rule a file breaks first, what is told of that, and what is read of one that breaks none.
//!
//! They stand in a crate of their own since the gate proves a crate's tests together with the crate: here it proves the tests alone.
#![tactic(auto)]

#[cfg(test)]
mod files;
#[cfg(test)]
mod hook_files;
