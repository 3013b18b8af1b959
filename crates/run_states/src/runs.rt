//! The runs of a task, as a list: what is read of it, and how one of them changes. None of it takes memory.
ghost use Rattle.std.specs.Prelude.{◌≡◌, ◌<◌, ◌≤◌, [], ◌∷◌, ◌++◌, None, slice_get, option_copied, vec_len, vec_capacity};
ghost use Rattle.std.specs.List.{last_or};
ghost use Rattle.run_states.specs.Runs.{pending_run, taken, kept, ended, change_last, change_at};

use crate::reasons::{ReasonCreated, ReasonResolved};
use crate::run::{Claim, Outcome, Run};
use farm_text::Moment;

/// The last run, if there is one.
pub(crate) fn last(runs: &[Run]) -> Option<&Run>
    ensures { option_copied result ≡ last_or None runs.now }
{
    runs.last()
}

/// The run at a place, counted from 0, if there is one.
pub(crate) fn at(runs: &[Run], place: usize) -> Option<&Run>
    ensures { option_copied result ≡ slice_get runs.now place }
{
    runs.get(place)
}

/// A worker takes the last run, if there is one.
pub(crate) fn take_last(runs: &mut [Run], claim: Claim)
    ensures { runs.new ≡ change_last (taken claim) runs.old }
{
    let number = runs.len();
    if number > 0 {
        runs[number - 1].claim = Some(claim);
    }
}

/// The run at a place is its worker's until this moment, if it has one.
pub(crate) fn keep(runs: &mut [Run], place: usize, moment: Moment)
    ensures { runs.new ≡ change_at place (kept moment) runs.old }
{
    if place < runs.len() {
        keep_run(&mut runs[place], moment);
    }
}

fn keep_run(run: &mut Run, moment: Moment)
    ensures { run.new ≡ kept moment run.old }
{
    if let Some(claim) = &mut run.claim {
        claim.taken_until = moment;
    }
}

/// The run at a place ends, if there is one.
pub(crate) fn end(runs: &mut [Run], place: usize, reason: ReasonResolved, at: Moment)
    ensures { runs.new ≡ change_at place (ended reason at) runs.old }
{
    if place < runs.len() {
        runs[place].outcome = Some(Outcome { reason, at });
    }
}

/// The last run ends, if there is one.
pub(crate) fn end_last(runs: &mut [Run], reason: ReasonResolved, at: Moment)
    ensures { runs.new ≡ change_last (ended reason at) runs.old }
{
    let number = runs.len();
    if number > 0 {
        runs[number - 1].outcome = Some(Outcome { reason, at });
    }
}

/// Adds a pending run, for which there is room.
pub(crate) fn add_pending(runs: &mut Vec<Run>, created: ReasonCreated, number: u64, at: Moment)
    requires { vec_len runs.old < vec_capacity runs.old }
    ensures items { runs.new.items ≡ runs.old.items ++ pending_run created number at ∷ [] }
    ensures capacity { vec_capacity runs.old ≤ vec_capacity runs.new }
{
    let run = Run {
        created,
        number: Some(number),
        scheduled: at,
        claim: None,
        outcome: None,
    };
    if runs.push(run).is_err() {
        unreachable!();
    }
}
