//! What a worker reads in the reply to a claim.
ghost use Rattle.std.specs.Prelude.{◌≡◌, pos, codes, List, IfOk, IfSome, Some, option_map, option_and_then, IsSome};
ghost use Rattle.farm_text.specs.Doc.{document};
ghost use Rattle.farm_text.specs.Document.{get, whole, text as plain_text, array, no_items};
ghost use Rattle.farm_bulk.specs.Replies.{first_item, IsLastLine, TellsRun, Tells, IsTold};

use farm_text::{Doc, Text};
use load_requests::ClaimedRun;
use memchr::memrchr;
use std::alloc::{AllocError, Global};

/// What stands behind the last line feed, if there is one.
fn last_line(text: &[u8]) -> Option<&[u8]>
    ensures { IfSome result (λ line. IsLastLine text.now line.now) }
{
    let place = memrchr(b'\n', text)?;
    Some(&text[place + 1..])
}

/// The number of a run that a document tells.
fn number_of(claim: &Doc) -> Option<u64>
    ensures { IfSome result (λ number. get (codes "runId") (document claim.now) ≡ Some (whole (pos number))) }
{
    match claim.get("runId") {
        Some(Doc::Int(number)) if *number >= 0 => Some(*number as u64),
        _ => None,
    }
}

/// The id of its task.
fn task_of(claim: &Doc) -> Option<&str>
    ensures { IfSome result (λ task. option_and_then (get (codes "taskId")) (get (codes "status") (document claim.now)) ≡ Some (plain_text task.now)) }
{
    match claim.get("status")?.get("taskId") {
        Some(Doc::Text(task)) => Some(task.as_str()),
        _ => None,
    }
}

/// The run that a document tells of, where that can be read.
fn run_of(alloc: Global, said: &Doc, claim: &Doc) -> Result<ClaimedRun, AllocError>
    requires { option_and_then first_item (get (codes "tasks") (document said.now)) ≡ Some (document claim.now) }
    ensures { IfOk result (TellsRun (document said.now)) }
{
    let Some(number) = number_of(claim) else {
        return Err(AllocError);
    };
    let Some(task) = task_of(claim) else {
        return Err(AllocError);
    };
    Ok(ClaimedRun {
        task: Text::from_str(alloc, task)?,
        number,
    })
}

/// The run that the body of a claim's reply tells of, if one was claimed.
fn claimed_in(alloc: Global, said: &Doc) -> Result<Option<ClaimedRun>, AllocError>
    ensures { IfOk result (Tells (document said.now)) }
{
    let Some(Doc::List(claims)) = said.get("tasks") else {
        return Err(AllocError);
    };
    match claims.first() {
        Some(claim) => Ok(Some(run_of(alloc, said, claim)?)),
        None => Ok(None),
    }
}

/// The run that the last of some replies tells of, if one was claimed. It has to be the reply to a claim.
///
/// A reply that cannot be read so is answered as want of memory, for none of a farm with memory is.
pub(crate) fn read_claim(alloc: Global, written: &[u8]) -> Result<Option<ClaimedRun>, AllocError>
    ensures { IfOk result (IsTold written.now) }
{
    let Some(body) = last_line(written) else {
        return Err(AllocError);
    };
    match Doc::read(alloc, body) {
        Ok(said) => claimed_in(alloc, &said),
        Err(_) => Err(AllocError),
    }
}
