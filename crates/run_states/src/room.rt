//! Room for the runs of a task that is run again.
ghost use Rattle.std.specs.Prelude.{◌≡◌, ◌≤◌, [], max, vec_capacity};

use crate::row::MOST_RUNS;
use crate::run::Run;
use std::alloc::{AllocError, Global};
use std::marker::Model;

/// Room for as many runs as a task has at most.
///
/// A task that is run again has the retries of its definition once more, and so may want more room than it was made with. A rerun takes
/// no memory: it is given this room.
#[derive(Drop)]
pub struct RunRoom {
    runs: Vec<Run>,
}

impl Model for RunRoom {
    ghost use Rattle.std.specs.Prelude.{◌≡◌, ◌≤◌, [], vec_capacity};

    ghost Value = { Unit {0} };

    ghost view = { λ _. tt };

    ghost invariant = { λ r. (r.runs.items ≡ []) × (50 ≤ vec_capacity r.runs) };
}

impl RunRoom {
    /// Room for 50 runs.
    pub fn make(alloc: Global) -> Result<RunRoom, AllocError> {
        let runs = Vec::with_capacity(alloc, MOST_RUNS)?;
        Ok(RunRoom { runs })
    }

    /// Gives the room to runs that have less.
    pub(crate) fn give(self, runs: &mut Vec<Run>)
        ensures items { runs.new.items ≡ runs.old.items }
        ensures capacity { 50 ≤ vec_capacity runs.new }
    {
        make_room(runs, self.runs);
    }
}

/// Moves the runs into a list without runs, where that has more room.
fn make_room(runs: &mut Vec<Run>, mut room: Vec<Run>)
    requires { room.items ≡ [] }
    ensures items { runs.new.items ≡ runs.old.items }
    ensures capacity { max (vec_capacity runs.old) (vec_capacity room) ≤ vec_capacity runs.new }
{
    if room.capacity() > runs.capacity() {
        if room.append(runs).is_err() {
            unreachable!();
        }
        *runs = room;
    }
}
