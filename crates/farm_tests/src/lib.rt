//! Tests of a farm and of connections to it: of the machine (`farm_machine`), of the farm in memory and over disks (`farm_core`), of which call a
//! message makes (`api_routes`), of one connection (`farm_server`), with the calls of a farm in their order, and of many workers and their doors
//! over sockets (`farm_serving`, `listeners`).
//!
//! They stand in a crate of their own since the gate proves a crate's tests together with the crate: here it proves the tests alone.
#![tactic(auto)]

#[cfg(test)]
mod configs;
#[cfg(test)]
mod connections;
#[cfg(test)]
mod farms;
#[cfg(test)]
mod machine;
#[cfg(test)]
mod routes;
#[cfg(test)]
mod sockets;
#[cfg(test)]
mod workers;
