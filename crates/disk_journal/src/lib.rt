//! A journal of bodies on a disk that may be stopped at any moment.
//!
//! It is records one behind the other: a gate byte, which is open or not, the body's length in four bytes with the greatest first, and the
//! body; and then the next record's gate. `specs/Records.antt` says what bytes stand for, `specs/Images.antt` what a stop may leave,
//! and `specs/Keeping.antt` what a journal at work has on its disk.
#![tactic(auto)]

mod bodies;
mod fault;
mod follow;
mod frames;
mod framing;
mod journal;
mod laws;
mod opening;
mod put;
mod reading;
mod spans;

pub use bodies::Bodies;
pub use fault::{DiskFault, OpenFault};
pub use frames::{Frame, Framed, TickFrame};
pub use framing::{BODY_LIMIT, frame, frame_tick};
pub use journal::Journal;
pub use laws::{each_file_opens_or_is_damaged, files_open_once, images_open, the_body_limit};
