//! What a change makes of the tasks that stand. None of it takes memory.
ghost use Rattle.std.specs.Prelude.{◌≡◌, ◌≤◌, ◌+◌, length, replicate};
ghost use Rattle.task_index.specs.Ready.{settled};
ghost use Rattle.task_index.specs.Sweep.{numbered};
ghost use Rattle.task_index.specs.Changes.{claim_of, all_claimed};
ghost use Rattle.farm_rows.specs.Deeds.{rows_after, drawn_by, claims_of, run_room_of};
ghost use Rattle.task_index.specs.Indexed.{IsIndexOf};

use crate::moves::{cancel, claim, drawn, reclaim, rerun, resolve, schedule};
use crate::plan::Deed;
use farm_text::{Moment, SlugId};
use run_states::{Claim as RunClaim, RunRoom, TaskRow};
use task_index::index::Index;
use task_index::settle::settle;
use task_types::{Claim, Resolution};

/// Makes a change of the tasks that stand, and answers how many numbers it draws.
pub(crate) fn make(
    rows: &mut [TaskRow],
    index: &mut Index,
    at: Moment,
    number: u64,
    deed: &Deed,
    claims: Vec<RunClaim>,
    run_room: Option<RunRoom>,
) -> u64
    requires index { IsIndexOf index.old rows.old }
    requires claims { claims.items ≡ claims_of at deed.now }
    requires run_room { run_room ≡ run_room_of deed.now }
    ensures index { IsIndexOf index.new rows.new }
    ensures rows { rows.new ≡ rows_after at number deed.now rows.old }
    ensures drawn { result ≡ drawn_by deed.now rows.old }
{
    match deed {
        Deed::Create(_) => 0,
        Deed::Schedule(id) => {
            schedule(rows, index, *id, at, number);
            1
        }
        Deed::Rerun(id) => {
            run_again(rows, index, *id, at, number, run_room);
            1
        }
        Deed::Cancel(id) => {
            cancel(rows, index, *id, at);
            0
        }
        Deed::Claim(taken) => {
            claim_all(rows, index, at, taken, claims);
            0
        }
        Deed::Reclaim(kept) => {
            reclaim(rows, index, *kept);
            0
        }
        Deed::Resolve(resolution) => report(rows, index, resolution, at, number),
    }
}

/// Makes a change of the tasks that stand, after which they settle, and answers how many numbers are drawn.
pub(crate) fn change(
    rows: &mut [TaskRow],
    index: &mut Index,
    at: Moment,
    number: u64,
    deed: &Deed,
    claims: Vec<RunClaim>,
    run_room: Option<RunRoom>,
) -> u64
    requires index { IsIndexOf index.old rows.old }
    requires few { length rows.old ≤ 1_000_000 }
    requires drawn { number ≤ 50_000_000 }
    requires claims { claims.items ≡ claims_of at deed.now }
    requires run_room { run_room ≡ run_room_of deed.now }
    ensures index { IsIndexOf index.new rows.new }
    ensures settled { settled (numbered (rows_after at number deed.now rows.old) (number + drawn_by deed.now rows.old)) at
        ≡ numbered rows.new (number + result) }
    ensures few { result ≤ 1_000_001 }
{
    let drawn = make(rows, index, at, number, deed, claims, run_room);
    drawn + settle(rows, index, at, number + drawn)
}

/// Runs a task again, where it may be, in the room that there is.
fn run_again(
    rows: &mut [TaskRow],
    index: &mut Index,
    id: SlugId,
    at: Moment,
    number: u64,
    run_room: Option<RunRoom>,
)
    requires index { IsIndexOf index.old rows.old }
    requires run_room { run_room ≡ run_room_of (Deed.Rerun id) }
    ensures index { IsIndexOf index.new rows.new }
    ensures rows { rows.new ≡ rows_after at number (Deed.Rerun id) rows.old }
{
    match run_room {
        Some(room) => rerun(rows, index, id, at, number, room),
        None => unreachable!(),
    }
}

/// Ends the run of a report, and answers how many numbers it draws.
fn report(
    rows: &mut [TaskRow],
    index: &mut Index,
    resolution: &Resolution,
    at: Moment,
    number: u64,
) -> u64
    requires { IsIndexOf index.old rows.old }
    ensures index { IsIndexOf index.new rows.new }
    ensures rows { rows.new ≡ rows_after at number (Deed.Resolve resolution.now) rows.old }
    ensures drawn { result ≡ drawn_by (Deed.Resolve resolution.now) rows.old }
{
    let drawn = drawn(rows, index, resolution);
    resolve(rows, index, resolution, at, number);
    drawn
}

/// A worker takes runs, one after the other, each by one of the claims.
fn claim_all(
    rows: &mut [TaskRow],
    index: &mut Index,
    at: Moment,
    taken: &Claim,
    mut claims: Vec<RunClaim>,
)
    requires index { IsIndexOf index.old rows.old }
    requires claims { claims.items ≡ replicate (length taken.now.runs) (claim_of at taken.now) }
    ensures index { IsIndexOf index.new rows.new }
    ensures rows { rows.new ≡ all_claimed (claim_of at taken.now) taken.now.runs rows.old }
{
    let names = taken.runs.list();
    for name in names {
        match claims.pop() {
            Some(one) => claim(rows, index, name.id, one),
            None => unreachable!(),
        }
    }
}
