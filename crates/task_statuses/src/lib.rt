//! The status of a task and its definition, written as JSON as the queue service of the Taskcluster reference tells them.
#![tactic(auto)]

mod definition;
mod laws;
mod members;
mod names;
mod runs;
mod status;

pub use definition::write_definition;
pub use laws::moments_have_texts;
pub use members::{id_member, moment_member, number_member, text_member};
pub use runs::write_worker;
pub use status::write_status;
