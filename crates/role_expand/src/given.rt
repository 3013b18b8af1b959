//! Which roles have given the scopes that they give as written.
ghost use Rattle.std.specs.Prelude.{◌≡◌, ℕ, false, get_or, set, IfOk};

use std::alloc::{AllocError, Global};
use std::marker::Model;

/// A mark for each role, by its place.
#[derive(Drop)]
pub(crate) struct Given {
    marks: Vec<bool>,
}

impl Model for Given {
    ghost use Rattle.std.specs.Prelude.{Bool, List};

    ghost Value = { List Bool };

    ghost view = { λ s. s.marks.items };
}

impl Given {
    /// No marks, of so many roles.
    pub(crate) fn new(alloc: Global, count: usize) -> Result<Given, AllocError>
        ensures { IfOk result (λ given. (place : ℕ) → get_or given place false ≡ false) }
    {
        Ok(Given {
            marks: vec![in alloc; false; count]?,
        })
    }

    /// Whether the role at a place is marked.
    pub(crate) fn has(&self, place: usize) -> bool
        ensures { result ≡ get_or self.now place false }
    {
        if place < self.marks.len() {
            return self.marks[place];
        }
        false
    }

    /// Sets the mark of the role at a place, if there is one.
    pub(crate) fn set(&mut self, place: usize, mark: bool)
        ensures { self.new ≡ set self.old place mark }
    {
        if place < self.marks.len() {
            self.marks[place] = mark;
        }
    }
}
