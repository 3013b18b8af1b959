//! Tables of tasks, step by step, against rows that were worked by hand.
//!
//! A step is what it comes to, a word for what is done or asked, and its parts. `made`, `refused`: whether a change may be made, and the
//! plan showed its task as it stands then. The parts of a change are its moment, a task, and what the change is of: the definition of
//! `create`, the run and the end of `claim` and `reclaim`, the run of a report. `tick` reaches a moment; `is` and `list` ask, and come to
//! `yes` or `no`. `each` makes steps for each number that is `#` in them.
ghost use Rattle.task_index.specs.Plans.{IsPlanOn};

mod bodies;
mod looks;
mod scripts;

use crate::words::{id_of, identifier, moment, next, numbered, report, truth};
use farm_rows::{TaskPlan, TaskTables};
use farm_text::{LAST_TOLD_MOMENT, SlugId};
use run_states::{RunState, TaskRow};
use std::alloc::Global;
use task_types::{Change, Claim, Kind, Reclaim, Resolution, RunName, RunNames};

/// The first step of some scripts, between empty lines, that comes to something else than it says, or `none`.
fn other_script<'a>(alloc: Global, scripts: &'a str) -> &'a str {
    for script in scripts.split("\n\n") {
        let other = first_other(alloc, script);
        if other != "none" {
            return other;
        }
    }
    "none"
}

/// The first step of some that comes to something else than it says, or `none`. Here alone tables are owned.
fn first_other<'a>(alloc: Global, steps: &'a str) -> &'a str {
    let mut tables = TaskTables::new(alloc);
    let other = other_in(alloc, &mut tables, steps);
    drop(tables);
    other
}

fn other_in<'a>(alloc: Global, tables: &mut TaskTables, steps: &'a str) -> &'a str {
    for step in steps.lines() {
        if !goes(alloc, tables, step) {
            return step;
        }
    }
    "none"
}

fn goes(alloc: Global, tables: &mut TaskTables, step: &str) -> bool {
    match step.strip_prefix("each ") {
        Some(rounds) => each_goes(alloc, tables, rounds) == Some(true),
        None => comes_so(alloc, tables, step),
    }
}

/// Whether the steps between semicolons go so with each number from the first one on, below the second.
fn each_goes(alloc: Global, tables: &mut TaskTables, rounds: &str) -> Option<bool> {
    let (from, rest) = next(rounds);
    let (to, steps) = next(rest);
    let from = from.parse::<u8>().ok()?;
    let to = to.parse::<u8>().ok()?;
    let mut all = true;
    for number in from..to {
        for step in steps.split(';') {
            all &= goes_with(alloc, tables, step, number);
        }
    }
    Some(all)
}

fn goes_with(alloc: Global, tables: &mut TaskTables, step: &str, number: u8) -> bool {
    match numbered(alloc, step, number) {
        Some(step) => comes_so(alloc, tables, step.as_str()),
        None => false,
    }
}

/// Whether a step comes to what it begins with.
fn comes_so(alloc: Global, tables: &mut TaskTables, step: &str) -> bool {
    let (wanted, rest) = next(step);
    let (word, parts) = next(rest);
    match outcome(alloc, tables, word, parts) {
        Some(outcome) => outcome == wanted,
        None => false,
    }
}

/// What a step comes to.
fn outcome(
    alloc: Global,
    tables: &mut TaskTables,
    word: &str,
    parts: &str,
) -> Option<&'static str> {
    match word {
        "tick" => Some(truth(reach(tables, parts))),
        "is" => Some(truth(looks::are(alloc, tables, parts)?)),
        "list" => Some(truth(looks::list(alloc, tables, parts)?)),
        _ => change(alloc, tables, word, parts),
    }
}

/// Reaches a moment, where a clock may tell it.
fn reach(tables: &mut TaskTables, at: &str) -> bool {
    match moment(at) {
        Some(at) if at.millis() <= LAST_TOLD_MOMENT => {
            tables.tick(at);
            true
        }
        _ => false,
    }
}

/// Makes a change, where it may be made.
fn change(alloc: Global, tables: &mut TaskTables, word: &str, parts: &str) -> Option<&'static str> {
    let (at, parts) = next(parts);
    let at = moment(at)?;
    match kind(alloc, word, parts) {
        Some(kind) => Some(made(alloc, tables, Change { at, kind })),
        None => None,
    }
}

/// What changes.
fn kind(alloc: Global, word: &str, parts: &str) -> Option<Kind> {
    let (task, parts) = next(parts);
    let id = id_of(task)?;
    match word {
        "create" => bodies::creation(alloc, id, task, parts),
        "schedule" => Some(Kind::Schedule(id)),
        "rerun" => Some(Kind::Rerun(id)),
        "cancel" => Some(Kind::Cancel(id)),
        "claim" => claim(alloc, id, parts),
        "reclaim" => reclaim(id, parts),
        _ => resolve(id, word, parts),
    }
}

fn made(alloc: Global, tables: &mut TaskTables, change: Change) -> &'static str {
    match tables.plan(alloc, change) {
        Ok(plan) => match plan {
            Some(plan) => applied(tables, plan),
            None => "refused",
        },
        Err(_) => "no memory",
    }
}

/// The id of a task, how many runs it has, its state, and the retries that are left.
type Seen = (SlugId, usize, Option<RunState>, u8);

fn seen(row: &TaskRow) -> Seen {
    (row.id(), row.runs().len(), row.state(), row.retries_left())
}

fn first_seen(plan: &TaskPlan) -> Option<Seen> {
    match plan.rows().first() {
        Some(row) => Some(seen(row)),
        None => None,
    }
}

/// Applies a plan, and tells whether its first task stands then as it was shown.
fn applied(tables: &mut TaskTables, plan: TaskPlan) -> &'static str
    requires { IsPlanOn tables.old plan }
{
    let shown = first_seen(&plan);
    tables.apply(plan);
    match shown {
        Some(shown) if stands_so(tables, shown) => "made",
        _ => "otherwise",
    }
}

fn stands_so(tables: &TaskTables, shown: Seen) -> bool {
    match tables.row(shown.0) {
        Some(row) => seen(row) == shown,
        None => false,
    }
}

/// Worker `w` of group `g` takes this run of a task until this moment.
fn claim(alloc: Global, id: SlugId, parts: &str) -> Option<Kind> {
    let (run, until) = next(parts);
    let taken_until = moment(until)?;
    let name = RunName {
        id,
        run: run.parse::<u8>().ok()?,
    };
    let worker_group = identifier(alloc, "g")?;
    let worker_id = identifier(alloc, "w")?;
    let runs = one_name(alloc, name)?;
    Some(Kind::Claim(Claim {
        taken_until,
        worker_group,
        worker_id,
        runs,
    }))
}

fn one_name(alloc: Global, name: RunName) -> Option<RunNames> {
    match Vec::from_array(alloc, [name]) {
        Ok(names) => RunNames::from_list(names),
        Err(_) => None,
    }
}

/// Its worker keeps this run of a task until this moment.
fn reclaim(id: SlugId, parts: &str) -> Option<Kind> {
    let (run, until) = next(parts);
    Some(Kind::Reclaim(Reclaim {
        id,
        run: run.parse::<u8>().ok()?,
        taken_until: moment(until)?,
    }))
}

/// Its worker tells so of this run of a task.
fn resolve(id: SlugId, name: &str, run: &str) -> Option<Kind> {
    Some(Kind::Resolve(Resolution {
        id,
        run: run.parse::<u8>().ok()?,
        reason: report(name)?,
    }))
}
