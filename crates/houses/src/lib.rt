//! What a run of the farm program works on: a house lends its files, streams, disk, clock, random ids and doors, each once, and takes them back.
//!
//! `HostHouse` is the house of the system, and `MemoryHouse` one in memory, which tells all that it lends (`specs/MemoryHouse.antt`).
//! `specs/House.antt` says what is there, what is out, and what came back.
#![tactic(auto)]

mod host_house;
mod house;
mod lending;
mod memory_doors;
mod memory_house;

pub use host_house::HostHouse;
pub use house::House;
pub use lending::Lending;
pub use memory_house::MemoryHouse;
