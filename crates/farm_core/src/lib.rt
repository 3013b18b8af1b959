//! The farm as an object that is asked: the machine with what it stands on. A `Bare` keeps all in memory; a `Farm` keeps the record of each
//! change on a disk before it is made, and is opened again from there.
//!
//! `specs/Records.antt` is what a disk has of a history, `specs/Opened.antt` what an opening finds, and `specs/Farm.antt` what an ask keeps.
#![tactic(auto)]

mod asking;
mod bare;
mod farm;
mod laws;
mod records;
mod restoring;

pub use bare::Bare;
pub use farm::{Counts, Farm};
pub use laws::{
    a_farm_is_damaged_at_one_place, an_opened_farm_holds_its_records, bare_farms_cross_threads,
    farms_cross_threads, images_are_never_damaged, stops_are_never_damaged,
    what_replays_is_never_damaged,
};
