//! The workers of a service: the first stands at the door that a house lent, the others at its twins; they serve a farm at a desk, and what was
//! lent goes back.
//!
//! `specs/Crew.antt` says which workers stand ready, and `specs/Serves.antt` what a service does and which status it ends with.
#![tactic(auto)]

mod crew;
mod giving_back;
mod serving;

pub use crew::Hand;
pub use giving_back::{HandOf, dismiss};
pub use serving::{Left, Shifts, serve_object};
