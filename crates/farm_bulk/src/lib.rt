//! A generated load, run over a farm in memory: its tasks are made, and then a worker claims and reports their runs until
//! none is left to claim.
//!
//! All of it goes as bytes over connections, so it uses what a server uses.
#![tactic(auto)]

mod connections;
mod farm;
mod laws;
mod load;
mod replies;

pub use laws::{
    a_body_is_the_last_line, a_connection_has_one_outcome, a_load_has_one_summary,
    a_message_makes_one_call,
};
pub use load::{bulk, summary_line};
