//! What a generated load asks: its numbers, its requests as texts, a clock that stands still and ids that are counted.
//!
//! `specs/Requests.antt` has the requests, `specs/Generator.antt` the numbers.
#![tactic(auto)]

mod generator;
mod requests;
mod still;

pub use generator::Generator;
pub use requests::{ClaimedRun, claim, creation, report};
pub use still::{StillClock, StillDraws};
