//! JSON-e templates: what a document comes to, where the maps of a context bind names.
#![tactic(auto)]

mod applied;
mod binders;
mod bindings;
mod conditions;
mod ends;
pub mod faults;
mod forms;
mod found;
mod keys;
pub mod laws;
mod lists;
mod maps;
mod merges;
mod names;
pub mod operators;
mod order;
mod paths;
mod readings;
mod renderer;
pub mod rendering;
mod sorting;
mod templates;
mod texts;
mod turns;

pub use faults::{RenderFault, TemplateFault};
pub use rendering::render;
