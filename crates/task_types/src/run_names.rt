//! The runs of a claim.
ghost use Rattle.std.specs.Prelude.{◌≡◌, ◌≤◌, ◌↔◌, length, IsSome, IfSome};

use crate::change::RunName;
use std::marker::Model;

/// The greatest number of runs of a claim.
const MOST_RUNS: usize = 32;

/// 1 to 32 runs, in the order in which they are taken.
#[derive(Drop)]
pub struct RunNames {
    names: Vec<RunName>,
}

impl Model for RunNames {
    ghost use Rattle.std.specs.Prelude.{List, ◌≤◌, length};
    ghost use Rattle.task_types.specs.declared.change.RunName.{RunName};

    ghost Value = { List RunName };

    ghost view = { λ r. r.names.items };

    ghost invariant = { λ r. (1 ≤ length r.names.items) × (length r.names.items ≤ 32) };
}

impl RunNames {
    /// These runs, if they are 1 to 32. They are not copied.
    pub fn from_list(names: Vec<RunName>) -> Option<RunNames>
        ensures few { IsSome result ↔ ((1 ≤ length names.items) × (length names.items ≤ 32)) }
        ensures value { IfSome result (λ r. r ≡ names.items) }
    {
        if !names.is_empty() && names.len() <= MOST_RUNS {
            Some(RunNames { names })
        } else {
            None
        }
    }

    /// The runs, in their order.
    pub fn list(&self) -> &[RunName]
        ensures value { result.now ≡ self.now }
        ensures few { (1 ≤ length self.now) × (length self.now ≤ 32) }
    {
        &self.names
    }

    /// The runs, which are not copied.
    pub fn into_list(self) -> Vec<RunName>
        ensures { result.items ≡ self }
    {
        self.names
    }
}
