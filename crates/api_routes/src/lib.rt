//! The routes of the API and the bytes of its replies: which call a message makes, and the head of a reply.
#![tactic(auto)]

mod bodies;
mod calls;
mod head;
mod laws;
mod names;
mod parts;
mod queries;
mod requests;
mod routes;
mod wire_replies;

pub use head::{Head, reply_head};
pub use laws::a_called_task_is_said;
pub use routes::{call_of, caller_of};
pub use wire_replies::own_reply;
