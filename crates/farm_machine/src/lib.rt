//! The farm as a machine without memory of its disk: what a call is answered and what it changes.
//!
//! A question is planned (`plan` takes all memory and leaves the tables as they were) and then applied (`apply` takes none).
//! Each call has a file (`calls`), and `judge` asks its parts in the one order of refusals. What is due at a moment is resolved before,
//! by `tick`. What a disk has the records of is made again by `replay`.
#![tactic(auto)]

mod calls;
mod case;
mod firing;
mod judged;
pub mod law;
mod named;
mod order;
mod pages;
pub mod plan;
pub mod replay;
pub mod step;
pub mod tables;
