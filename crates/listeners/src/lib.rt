//! What connections come from: the sockets of the system, and a listener in memory that counts and keeps what it gives.
//!
//! `specs/Doors.antt` says what an accept leaves of a listener, `specs/Memory.antt` what one in memory tells.
#![tactic(auto)]

mod coming;
mod door;
mod host_listener;
mod memory;

pub use coming::{MemoryListener, Returned};
pub use door::Listener;
pub use host_listener::HostListener;
