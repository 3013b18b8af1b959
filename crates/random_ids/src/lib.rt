//! Random ids of tasks, of a generator that the runtime seeds.
#![tactic(auto)]

mod draws;

pub use draws::HostDraws;
