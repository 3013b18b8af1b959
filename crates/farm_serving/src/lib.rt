//! Many connections by many workers: each serves the links of a door of its own, one after the other, and all ask at one shared desk.
//!
//! `specs/Connections.antt` says what one worker did, `specs/Serving.antt` which places of the desk's history are whose.
#![tactic(auto)]

mod ended;
mod halves;
mod serving;
mod share;
mod worker;

pub use ended::Ended;
pub use serving::serve;
pub use share::{Serve, Share};
pub use worker::Worker;
