//! The load: its tasks are made, and then a worker runs them.
ghost use Rattle.std.specs.Prelude.{◌≡◌, ℕ, ◌+◌, ◌*◌, ◌^◌, ◌<◌, ◌≤◌, List, [], ◌++◌, string_bytes, IfOk, OnOk};
ghost use Rattle.farm_server.specs.declared.served.TheConstants.{REQUESTS};
ghost use Rattle.farm_bulk.specs.Bulk.{creations, after_draws, parts_of, AreCreated, Works, IsBulk, outcomes_text, summary_text};
ghost use Rattle.farm_bulk.specs.Connections.{Converses};
ghost use Rattle.farm_bulk.specs.Replies.{IsTold};
ghost use Rattle.load_requests.specs.Requests.{claim_text};

use crate::connections::converse;
use crate::farm::new_farm;
use crate::replies::read_claim;
use farm_core::Bare;
use farm_desk::Solo;
use farm_rows::Summary;
use load_requests::{ClaimedRun, Generator, claim, creation, report};
use route_table::Table;
use std::alloc::{AllocError, Global};

/// How many tasks are made over one connection at most.
const PART: u32 = 1_000;

/// The creations of so many tasks, from this one on.
fn creations(
    alloc: Global,
    generator: &mut Generator,
    first: u32,
    count: u32,
) -> Result<String, AllocError>
    requires { first + count < 2 ^ 32 }
    ensures sent { IfOk result (λ text. string_bytes text ≡ creations count first generator.old) }
    ensures drawn { OnOk result (generator.new ≡ after_draws count generator.old) }
{
    let mut text = String::new(alloc);
    'tasks: for number in first..first + count {
        let request = creation(alloc, number, generator.draw())?;
        text.push_str(request.as_str())?;
    }
    Ok(text)
}

/// Makes so many tasks over a connection, from this one on.
fn create_part(
    alloc: Global,
    table: &Table,
    desk: &mut Solo<Bare>,
    generator: &mut Generator,
    first: u32,
    count: u32,
) -> Result<(), AllocError>
    requires within { first + count < 2 ^ 32 }
    requires room { REQUESTS ≤ desk.old.1 }
    ensures spare { desk.old.1 ≤ desk.new.1 + REQUESTS }
    ensures created { OnOk result ((written : List ℕ) × Converses desk.old.0 desk.new.0 (creations count first generator.old) written) }
    ensures drawn { OnOk result (generator.new ≡ after_draws count generator.old) }
{
    let sent = creations(alloc, generator, first, count)?;
    let _written = converse(alloc, table, desk, sent.into_bytes())?;
    Ok(())
}

/// Makes so many tasks.
fn create_all(
    alloc: Global,
    table: &Table,
    desk: &mut Solo<Bare>,
    generator: &mut Generator,
    tasks: u32,
) -> Result<(), AllocError>
    requires { 2 ^ 33 ≤ desk.old.1 }
    ensures spare { desk.old.1 ≤ desk.new.1 + 2 ^ 33 }
    ensures created { OnOk result (AreCreated (parts_of tasks) 0 generator.old desk.old.0 desk.new.0) }
    ensures drawn { OnOk result (generator.new ≡ after_draws tasks generator.old) }
{
    let full = tasks / PART;
    'parts: for part in 0..full {
        create_part(alloc, table, desk, generator, part * PART, PART)?;
    }
    create_part(alloc, table, desk, generator, full * PART, tasks % PART)
}

/// Sends this and a claim over a connection, and reads which run was claimed.
fn claim_after(
    alloc: Global,
    table: &Table,
    desk: &mut Solo<Bare>,
    report: &str,
) -> Result<Option<ClaimedRun>, AllocError>
    requires { REQUESTS ≤ desk.old.1 }
    ensures spare { desk.old.1 ≤ desk.new.1 + REQUESTS }
    ensures claimed { IfOk result (λ claimed. (written : List ℕ) × Converses desk.old.0 desk.new.0 (report.now ++ claim_text) written × IsTold written claimed) }
{
    let mut sent = String::from_str(alloc, report)?;
    sent.push_str(claim(alloc)?.as_str())?;
    let written = converse(alloc, table, desk, sent.into_bytes())?;
    read_claim(alloc, &written)
}

/// Claims and reports runs in turn, until there is none to claim. So many claims are made at most.
fn work(
    alloc: Global,
    table: &Table,
    desk: &mut Solo<Bare>,
    generator: &mut Generator,
    most: u64,
) -> Result<(), AllocError>
    requires { REQUESTS * most ≤ desk.old.1 }
    ensures { OnOk result (Works desk.old.0 generator.old [] desk.new.0) }
{
    let mut text = String::new(alloc);
    'claims: for _ in 0..most {
        match claim_after(alloc, table, desk, text.as_str())? {
            Some(run) => text = report(alloc, &run, generator.draw())?,
            None => return Ok(()),
        }
    }
    Err(AllocError)
}

/// Runs the load of this seed, of so many tasks, over a farm in memory, and says how its tasks stand then.
///
/// Each task has one retry, so it has two runs at most, and a claim that finds none comes within two for each task and one.
pub fn bulk(alloc: Global, seed: u64, tasks: u32) -> Result<Summary, AllocError>
    ensures { IfOk result (IsBulk seed tasks) }
{
    let table = Table::new(alloc)?;
    let mut desk = match new_farm(alloc) {
        Ok(farm) => Solo::new(farm),
        Err(error) => {
            drop(table);
            return Err(error);
        }
    };
    let mut generator = Generator::new(seed);
    let made = create_all(alloc, &table, &mut desk, &mut generator, tasks);
    if let Err(error) = made {
        drop(desk);
        drop(table);
        return Err(error);
    }
    let most = 2 * u64::from(tasks) + 1;
    let worked = work(alloc, &table, &mut desk, &mut generator, most);
    drop(table);
    let farm = desk.into_object();
    let summary = farm.summary();
    drop(farm);
    worked?;
    Ok(summary)
}

/// How many tasks there are, and how many of them completed and failed.
fn outcomes(alloc: Global, summary: Summary) -> Result<String, AllocError>
    ensures { IfOk result (λ text. string_bytes text ≡ outcomes_text summary) }
{
    format!(in alloc;
        "tasks={} completed={} failed={}",
        summary.tasks, summary.completed, summary.failed
    )
}

/// A summary as a line.
pub fn summary_line(alloc: Global, summary: Summary) -> Result<String, AllocError>
    ensures { IfOk result (λ line. string_bytes line ≡ summary_text summary) }
{
    let text = outcomes(alloc, summary)?;
    let outcomes = text.as_str();
    format!(in alloc;
        "{outcomes} exception={} unscheduled={} runs={}\n",
        summary.exception, summary.unscheduled, summary.runs
    )
}
