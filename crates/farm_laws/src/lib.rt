//! What follows from the definitions of a farm, of its tasks and of the machine that answers its calls, and is in no contract of theirs.
#![tactic(auto)]

pub mod machine;
pub mod tasks;
