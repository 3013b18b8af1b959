//! Tests of the top call, over houses in memory, with its commands over the console, and of generated loads: of `farm_cli`, `houses`,
//! `console_commands`, `farm_bulk` and `load_requests`.
//!
//! They stand in a crate of their own since the gate proves a crate's tests together with the crate: here it proves the tests alone.
#![tactic(auto)]

#[cfg(test)]
mod claims;
#[cfg(test)]
mod disks;
#[cfg(test)]
mod host;
#[cfg(test)]
mod limits;
#[cfg(test)]
mod loads;
#[cfg(test)]
mod lost;
#[cfg(test)]
mod outcomes;
#[cfg(test)]
mod renderings;
#[cfg(test)]
mod rows;
#[cfg(test)]
mod serving;
#[cfg(test)]
mod tables;
