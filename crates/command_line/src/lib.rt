//! The words of the farm program's command line: what they ask for.
#![tactic(auto)]

mod command;
mod laws;
mod load;
mod program;
mod reading;
mod service;
mod signing;
mod values;

pub use command::{Command, Work};
pub use laws::{
    plain_words_are_read, services_are_in_range, words_that_say_a_command_are_read,
    words_that_say_render_are_read,
};
pub use load::Load;
pub use reading::{WordsFault, read_words};
pub use service::Service;
pub use signing::Signing;
