//! A disk that may be stopped at any moment: what it reads as, and what a stop may leave of it.
//!
//! `specs/Contents.antt` says what a disk holds, and `specs/Calls.antt` what its four calls do and what a stop in them may leave.
#![tactic(auto)]

mod disk;
mod file;
mod images;
mod memory;
mod step;

pub use disk::Disk;
pub use file::FileDisk;
pub use memory::MemoryDisk;
