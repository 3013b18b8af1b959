//! The record of a change of the tasks: the bytes that a journal keeps of it.
//!
//! `specs/Records.antt` says which bytes are the record of which change. Each change has one record, and no record begins another.
#![tactic(auto)]

mod definition;
mod fields;
mod kinds;
mod laws;
mod parts;
mod reading;
mod runs;
mod unread;
mod writing;

pub use laws::{
    a_change_has_one_record, a_record_is_of_one_change, no_record_begins_another, records_are_short,
};
pub use reading::read_record;
pub use writing::{tick_record, write_record};
