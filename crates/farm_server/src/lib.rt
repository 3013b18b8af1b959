//! One connection, end to end: requests come over a link, are asked of a desk, and are answered.
#![tactic(auto)]

mod connection;
mod gate;
mod served;
mod write;

pub use connection::{serve_connection, serve_routed};
pub use gate::{Gate, NoGate, When};
pub use served::{REQUESTS, Served, a_connection_serves_a_thousand};
