//! A hook, as it is set up.
use farm_text::{Doc, Text};

/// A hook: its group, its id in that, and the template of the tasks that it makes.
#[derive(Drop)]
pub struct Hook {
    pub group: Text,
    pub id: Text,
    pub template: Doc,
}
