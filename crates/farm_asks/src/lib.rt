//! What a farm is asked and what it answers, before any of its state: questions, the configuration, who has access by it, and the texts of
//! replies.
//!
//! The machine (`farm_machine`) decides which answer a question gets and what it changes; here stand the parts that know of no task but the
//! one that they tell of.
#![tactic(auto)]

pub mod access;
pub mod answers;
pub mod bodies;
pub mod config;
mod expressions;
pub mod grants;
pub mod question;
pub mod reply;
pub mod status_code;
pub mod works;
