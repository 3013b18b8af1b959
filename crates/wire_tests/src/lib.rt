//! Tests of messages in streams, of links over streams of the host, and of the table of routes: of `http_wire`, `route_table`.
//!
//! They stand in a crate of their own since the gate proves a crate's tests together with the crate: here it proves the tests alone.
#![tactic(auto)]

#[cfg(test)]
mod faults;
#[cfg(test)]
mod host;
#[cfg(test)]
mod tables;
#[cfg(test)]
mod wire;
