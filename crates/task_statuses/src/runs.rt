//! The runs of a status.
ghost use Rattle.std.specs.Prelude.{◌≡◌, ◌++◌, Some, OnOk};
ghost use Rattle.farm_text.specs.Document.{array};
ghost use Rattle.task_statuses.specs.Parts as parts;
ghost use Rattle.task_statuses.specs.Statuses as statuses;
ghost use Rattle.task_statuses.specs.Tokens.{tokens_of, tokens_of_members};

use crate::members::{moment_member, number_member, text_member};
use json::Writer;
use run_states::{Claim, Outcome, Run};
use std::alloc::AllocError;

/// Writes the runs, each with its number from 0.
pub(crate) fn write_runs(runs: &[Run], out: &mut Writer) -> Result<(), AllocError>
    ensures ok { OnOk result (out.new.tokens ≡ out.old.tokens ++ tokens_of (array (statuses.runs_from 0 runs.now))) }
    ensures before { out.new.before ≡ out.old.before }
{
    out.begin_array()?;
    for (number, run) in runs.iter().enumerate() {
        write_run(number, run, out)?;
    }
    out.end_array()
}

/// Writes a run, with its number.
fn write_run(number: usize, run: &Run, out: &mut Writer) -> Result<(), AllocError>
    ensures ok { OnOk result (out.new.tokens ≡ out.old.tokens ++ tokens_of (statuses.run_doc number run.now)) }
    ensures before { out.new.before ≡ out.old.before }
{
    out.begin_object()?;
    write_reasons(run, out)?;
    write_made(number, run, out)?;
    write_course(run, out)?;
    write_taken(&run.claim, out)?;
    out.end_object()
}

/// Writes why a run was made, and how it ended where it did.
fn write_reasons(run: &Run, out: &mut Writer) -> Result<(), AllocError>
    ensures ok { OnOk result (out.new.tokens ≡ out.old.tokens ++ tokens_of_members (parts.reasons run.now)) }
    ensures before { out.new.before ≡ out.old.before }
{
    text_member("reasonCreated", run.created.name(), out)?;
    write_ended(run.outcome, out)
}

/// Writes how a run ended, where it did.
fn write_ended(outcome: Option<Outcome>, out: &mut Writer) -> Result<(), AllocError>
    ensures ok { OnOk result (out.new.tokens ≡ out.old.tokens ++ tokens_of_members (parts.ended outcome)) }
    ensures before { out.new.before ≡ out.old.before }
{
    match outcome {
        None => Ok(()),
        Some(outcome) => write_outcome(outcome, out),
    }
}

/// Writes how a run ended.
fn write_outcome(outcome: Outcome, out: &mut Writer) -> Result<(), AllocError>
    ensures ok { OnOk result (out.new.tokens ≡ out.old.tokens ++ tokens_of_members (parts.ended (Some outcome))) }
    ensures before { out.new.before ≡ out.old.before }
{
    text_member("reasonResolved", outcome.reason.name(), out)?;
    moment_member("resolved", outcome.at, out)
}

/// Writes the number of a run, and when it was made.
fn write_made(number: usize, run: &Run, out: &mut Writer) -> Result<(), AllocError>
    ensures ok { OnOk result (out.new.tokens ≡ out.old.tokens ++ tokens_of_members (parts.made number run.now)) }
    ensures before { out.new.before ≡ out.old.before }
{
    number_member("runId", number as u64, out)?;
    moment_member("scheduled", run.scheduled, out)
}

/// Writes when a run was claimed, and its state.
fn write_course(run: &Run, out: &mut Writer) -> Result<(), AllocError>
    ensures ok { OnOk result (out.new.tokens ≡ out.old.tokens ++ tokens_of_members (parts.course run.now)) }
    ensures before { out.new.before ≡ out.old.before }
{
    write_started(&run.claim, out)?;
    text_member("state", run.state().name(), out)
}

/// Writes when a run was claimed, where it was.
fn write_started(claim: &Option<Claim>, out: &mut Writer) -> Result<(), AllocError>
    ensures ok { OnOk result (out.new.tokens ≡ out.old.tokens ++ tokens_of_members (parts.started claim.now)) }
    ensures before { out.new.before ≡ out.old.before }
{
    match claim {
        None => Ok(()),
        Some(claim) => moment_member("started", claim.started, out),
    }
}

/// Writes whose a run is and until when, where it was claimed.
fn write_taken(claim: &Option<Claim>, out: &mut Writer) -> Result<(), AllocError>
    ensures ok { OnOk result (out.new.tokens ≡ out.old.tokens ++ tokens_of_members (parts.taken claim.now)) }
    ensures before { out.new.before ≡ out.old.before }
{
    match claim {
        None => Ok(()),
        Some(claim) => write_claim(claim, out),
    }
}

/// Writes whose a run is and until when.
fn write_claim(claim: &Claim, out: &mut Writer) -> Result<(), AllocError>
    ensures ok { OnOk result (out.new.tokens ≡ out.old.tokens ++ tokens_of_members (parts.taken (Some claim.now))) }
    ensures before { out.new.before ≡ out.old.before }
{
    moment_member("takenUntil", claim.taken_until, out)?;
    write_worker(claim, out)
}

/// Writes whose a run is.
pub fn write_worker(claim: &Claim, out: &mut Writer) -> Result<(), AllocError>
    ensures ok { OnOk result (out.new.tokens ≡ out.old.tokens ++ tokens_of_members (parts.worker claim.now)) }
    ensures before { out.new.before ≡ out.old.before }
{
    text_member("workerGroup", claim.worker_group.as_str(), out)?;
    text_member("workerId", claim.worker_id.as_str(), out)
}
