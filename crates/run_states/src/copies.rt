//! Copies of runs.
ghost use Rattle.std.specs.Prelude.{◌≡◌, ◌≤◌, length, vec_len, vec_capacity, IfOk};

use crate::run::{Claim, Run};
use farm_text::Text;
use std::alloc::{AllocError, Global};
use task_types::Identifier;

/// The same runs, which are at most 50, with room for so many.
pub(crate) fn copies(alloc: Global, runs: &[Run], room: usize) -> Result<Vec<Run>, AllocError>
    requires { length runs.now ≤ 50 }
    ensures items { IfOk result (λ v. v.items ≡ runs.now) }
    ensures room { IfOk result (λ v. room ≤ vec_capacity v) }
{
    let mut made = Vec::with_capacity(alloc, room)?;
    for run in runs {
        made.push(copy(alloc, run)?)?;
    }
    Ok(made)
}

/// The same run.
fn copy(alloc: Global, run: &Run) -> Result<Run, AllocError>
    ensures { IfOk result (λ r. r ≡ run.now) }
{
    let claim = copied_claim(alloc, &run.claim)?;
    Ok(Run {
        created: run.created,
        number: run.number,
        scheduled: run.scheduled,
        claim,
        outcome: run.outcome,
    })
}

/// The same claim, if there is one.
fn copied_claim(alloc: Global, claim: &Option<Claim>) -> Result<Option<Claim>, AllocError>
    ensures { IfOk result (λ c. c ≡ claim.now) }
{
    match claim {
        Some(claim) => Ok(Some(claim.copy(alloc)?)),
        None => Ok(None),
    }
}

impl Claim {
    /// The same claim.
    pub fn copy(&self, alloc: Global) -> Result<Claim, AllocError>
        ensures { IfOk result (λ c. c ≡ self.now) }
    {
        let worker_group = identifier(alloc, &self.worker_group)?;
        Ok(Claim {
            worker_group,
            worker_id: identifier(alloc, &self.worker_id)?,
            started: self.started,
            taken_until: self.taken_until,
        })
    }
}

/// The same identifier.
fn identifier(alloc: Global, name: &Identifier) -> Result<Identifier, AllocError>
    ensures { IfOk result (λ i. i ≡ name.now) }
{
    let text = Text::from_str(alloc, name.as_str())?;
    match Identifier::new(text) {
        Some(copied) => Ok(copied),
        None => unreachable!(),
    }
}
