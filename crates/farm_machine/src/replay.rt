//! Replay: the changes that records tell are made again.
ghost use Rattle.std.specs.Prelude.{◌≡◌};
ghost use Rattle.task_index.specs.Changes.{may_apply, applied};
ghost use Rattle.task_index.specs.Due.{advance};
ghost use Rattle.farm_machine.specs.Replay.{may_tick, may_replay, after_replay, IsTried};
ghost use Rattle.farm_machine.specs.Replayed.{is_tick, IsTicked};

use crate::tables::{Tables, due, tick};
use farm_text::{LAST_TOLD_MOMENT, Moment};
use std::alloc::{AllocError, Global};
use task_types::{Change, Kind};

/// Makes a change that a record tells, and says whether it may come there. Where it may not, and where memory runs out, the tables stay
/// as they were.
pub fn replay(alloc: Global, tables: &mut Tables, change: Change) -> Result<bool, AllocError>
    ensures { IsTried (may_replay tables.old change) (after_replay tables.old change) tables.old result tables.new }
{
    if is_tick(&change.kind) {
        let moment = change.at;
        drop(change);
        return Ok(replay_tick(tables, moment));
    }
    replay_change(alloc, tables, change)
}

/// Whether it is a tick.
fn is_tick(kind: &Kind) -> bool
    ensures { result ≡ is_tick kind.now }
{
    match kind {
        Kind::Tick => true,
        _ => false,
    }
}

/// Resolves what is due at this moment, where a tick may come there, and says whether it may.
fn replay_tick(tables: &mut Tables, moment: Moment) -> bool
    ensures { IsTicked tables.old moment result tables.new }
{
    if moment < tables.last() || moment.millis() > LAST_TOLD_MOMENT || !due(tables, moment) {
        return false;
    }
    tick(tables, moment);
    true
}

/// Makes a change of the tasks, where it may be made, and says whether it may.
fn replay_change(alloc: Global, tables: &mut Tables, change: Change) -> Result<bool, AllocError>
    ensures { IsTried (may_apply tables.old change) (applied tables.old change) tables.old result tables.new }
{
    match tables.plan(alloc, change)? {
        Some(plan) => {
            tables.make(plan);
            Ok(true)
        }
        None => Ok(false),
    }
}
