//! What a planned change is answered: the status of its task, or the runs that a worker has by it.
ghost use Rattle.std.specs.Prelude.{◌≡◌, List, [], ◌∷◌, ◌++◌, map, codes, IfOk, OnOk, option_copied};
ghost use Rattle.std.specs.Option.{option_to_list};
ghost use Rattle.farm_text.specs.Document.{array, items_of, document_text};
ghost use Rattle.run_states.specs.Rows.{Row};
ghost use Rattle.task_statuses.specs.Statuses.{definition_of};
ghost use Rattle.task_statuses.specs.Tokens.{tokens_of, tokens_of_members};
ghost use Rattle.farm_asks.specs.Replies.{status_body};
ghost use Rattle.farm_asks.specs.Shown.{run_members};
ghost use Rattle.farm_asks.specs.Tellings.{told_by};
ghost use Rattle.farm_asks.specs.Works as works;

use crate::bodies::write_status_body;
use farm_text::Text;
use json::Writer;
use run_states::{Claim, TaskRow};
use std::alloc::{AllocError, Global};
use task_statuses::{moment_member, number_member, write_definition, write_status, write_worker};
use task_types::Kind;

/// What of a planned change is told.
#[derive(Clone, Copy, Debug, PartialEq, Eq)]
pub enum Telling {
    /// The status of its task.
    Status,
    /// The run of this number of its task.
    Kept(u8),
    /// The runs that a worker takes.
    Taken,
}

/// What is told of a change of this kind.
pub fn telling_of(kind: &Kind) -> Telling
    ensures { (rows : List Row) → told_by result rows ≡ works.told_of kind.now rows }
{
    match kind {
        Kind::Tick
        | Kind::Create(_)
        | Kind::Schedule(_)
        | Kind::Rerun(_)
        | Kind::Cancel(_)
        | Kind::Resolve(_) => Telling::Status,
        Kind::Claim(_) => Telling::Taken,
        Kind::Reclaim(reclaim) => Telling::Kept(reclaim.run),
    }
}

/// The text that tells it, given the tasks that the change names as they will be.
pub fn told(alloc: Global, telling: Telling, rows: &[TaskRow]) -> Result<Text, AllocError>
    ensures { IfOk result (λ t. t ≡ document_text (told_by telling rows.now)) }
{
    let mut out = Writer::new(Vec::with_capacity(alloc, 1_024)?);
    write_told(alloc, telling, rows, &mut out)?;
    Ok(Text::from_writer(out))
}

/// Writes what is told.
fn write_told(
    alloc: Global,
    telling: Telling,
    rows: &[TaskRow],
    out: &mut Writer,
) -> Result<(), AllocError>
    ensures ok { OnOk result (out.new.tokens ≡ out.old.tokens ++ tokens_of (told_by telling rows.now)) }
    ensures before { out.new.before ≡ out.old.before }
{
    match telling {
        Telling::Taken => write_work(alloc, rows, out),
        Telling::Status => write_status_of(alloc, rows.first(), out),
        Telling::Kept(run) => write_kept_of(alloc, run, rows.first(), out),
    }
}

/// Writes the status of a task, if there is one.
fn write_status_of(alloc: Global, row: Option<&TaskRow>, out: &mut Writer) -> Result<(), AllocError>
    ensures ok { OnOk result (out.new.tokens ≡ out.old.tokens ++ tokens_of (works.of_first status_body (option_to_list (option_copied row.entry)))) }
    ensures before { out.new.before ≡ out.old.before }
{
    match row {
        Some(row) => write_status_body(alloc, row, out),
        None => out.null(),
    }
}

/// Writes the run that its worker keeps of a task, if there is one.
fn write_kept_of(
    alloc: Global,
    run: u8,
    row: Option<&TaskRow>,
    out: &mut Writer,
) -> Result<(), AllocError>
    ensures ok { OnOk result (out.new.tokens ≡ out.old.tokens ++ tokens_of (works.of_first (works.kept_doc run) (option_to_list (option_copied row.entry)))) }
    ensures before { out.new.before ≡ out.old.before }
{
    match row {
        Some(row) => write_kept(alloc, run, row, out),
        None => out.null(),
    }
}

/// Writes the runs that a worker takes, as the body of an answer.
fn write_work(alloc: Global, rows: &[TaskRow], out: &mut Writer) -> Result<(), AllocError>
    ensures ok { OnOk result (out.new.tokens ≡ out.old.tokens ++ tokens_of (works.work_body rows.now)) }
    ensures before { out.new.before ≡ out.old.before }
{
    out.begin_object()?;
    out.key("tasks")?;
    write_taken(alloc, rows, out)?;
    out.end_object()
}

/// Writes the last run of each of these tasks.
fn write_taken(alloc: Global, rows: &[TaskRow], out: &mut Writer) -> Result<(), AllocError>
    ensures ok { OnOk result (out.new.tokens ≡ out.old.tokens ++ tokens_of (array (items_of (map works.taken_doc rows.now)))) }
    ensures before { out.new.before ≡ out.old.before }
{
    out.begin_array()?;
    for row in rows {
        write_last_run(alloc, row, out)?;
    }
    out.end_array()
}

/// Writes the last run of a task, which a worker takes, with the task's definition.
fn write_last_run(alloc: Global, row: &TaskRow, out: &mut Writer) -> Result<(), AllocError>
    ensures ok { OnOk result (out.new.tokens ≡ out.old.tokens ++ tokens_of (works.taken_doc row.now)) }
    ensures before { out.new.before ≡ out.old.before }
{
    let last = row.runs().len().saturating_sub(1) as u8;
    match claim_at(row, last) {
        Some(claim) => write_taken_run(alloc, last, row, claim, out),
        None => out.null(),
    }
}

/// Writes a run that a worker takes, with the task's definition.
fn write_taken_run(
    alloc: Global,
    run: u8,
    row: &TaskRow,
    claim: &Claim,
    out: &mut Writer,
) -> Result<(), AllocError>
    ensures ok { OnOk result (out.new.tokens ≡ out.old.tokens ++ tokens_of (works.held_run run row.now claim.now ((codes "task", definition_of row.now.definition) ∷ []))) }
    ensures before { out.new.before ≡ out.old.before }
{
    out.begin_object()?;
    write_run(alloc, run, row, claim, out)?;
    out.key("task")?;
    write_definition(alloc, row.definition(), out)?;
    write_worker(claim, out)?;
    out.end_object()
}

/// Writes a run that its worker keeps.
fn write_kept(alloc: Global, run: u8, row: &TaskRow, out: &mut Writer) -> Result<(), AllocError>
    ensures ok { OnOk result (out.new.tokens ≡ out.old.tokens ++ tokens_of (works.kept_doc run row.now)) }
    ensures before { out.new.before ≡ out.old.before }
{
    match claim_at(row, run) {
        Some(claim) => write_kept_run(alloc, run, row, claim, out),
        None => out.null(),
    }
}

/// Writes a run that a worker has.
fn write_kept_run(
    alloc: Global,
    run: u8,
    row: &TaskRow,
    claim: &Claim,
    out: &mut Writer,
) -> Result<(), AllocError>
    ensures ok { OnOk result (out.new.tokens ≡ out.old.tokens ++ tokens_of (works.held_run run row.now claim.now [])) }
    ensures before { out.new.before ≡ out.old.before }
{
    out.begin_object()?;
    write_run(alloc, run, row, claim, out)?;
    write_worker(claim, out)?;
    out.end_object()
}

/// Writes the number of a run, the status of its task and until when it is a worker's.
fn write_run(
    alloc: Global,
    run: u8,
    row: &TaskRow,
    claim: &Claim,
    out: &mut Writer,
) -> Result<(), AllocError>
    ensures ok { OnOk result (out.new.tokens ≡ out.old.tokens ++ tokens_of_members (run_members run row.now claim.now)) }
    ensures before { out.new.before ≡ out.old.before }
{
    number_member("runId", u64::from(run), out)?;
    out.key("status")?;
    write_status(alloc, row, out)?;
    moment_member("takenUntil", claim.taken_until, out)
}

/// The claim of the run of this number.
fn claim_at(row: &TaskRow, run: u8) -> Option<&Claim>
    ensures { option_copied result ≡ works.claim_at run row.now }
{
    match row.runs().get(usize::from(run)) {
        Some(run) => run.claim.as_ref(),
        None => None,
    }
}
