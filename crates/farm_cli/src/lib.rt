//! The farm as a program: what its words ask for is run over what a house lends.
//!
//! `run` is the top call. `HostHouse` is the house of the system, and `MemoryHouse` one in memory.
#![tactic(auto)]

mod checking;
mod commands;
mod disks;
mod ends;
mod farm_file;
mod loading;
pub mod run;
mod serve;
