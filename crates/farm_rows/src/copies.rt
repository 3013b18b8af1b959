//! The claims of the runs that a worker takes together.
ghost use Rattle.std.specs.Prelude.{◌≡◌, length, replicate, IfOk};
ghost use Rattle.task_index.specs.Changes.{claim_of};
ghost use Rattle.farm_rows.specs.Deeds.{claims_of};

use crate::plan::Deed;
use farm_text::{Moment, Text};
use run_states::Claim as RunClaim;
use std::alloc::{AllocError, Global};
use task_types::{Claim, Identifier};

/// A claim for each run, which begins at this moment.
fn copies(alloc: Global, at: Moment, claim: &Claim) -> Result<Vec<RunClaim>, AllocError>
    ensures { IfOk result (λ v. v.items ≡ replicate (length claim.now.runs) (claim_of at claim.now)) }
{
    let count = claim.runs.list().len();
    let mut claims = Vec::new(alloc);
    for made in 0..count {
        claims.push(copy(alloc, at, claim)?)?;
    }
    Ok(claims)
}

/// The claims that a change makes, a copy for each run that is taken.
pub(crate) fn claims(alloc: Global, at: Moment, deed: &Deed) -> Result<Vec<RunClaim>, AllocError>
    ensures { IfOk result (λ v. v.items ≡ claims_of at deed.now) }
{
    match deed {
        Deed::Claim(claim) => copies(alloc, at, claim),
        Deed::Create(_)
        | Deed::Schedule(_)
        | Deed::Rerun(_)
        | Deed::Cancel(_)
        | Deed::Reclaim(_)
        | Deed::Resolve(_) => Ok(Vec::new(alloc)),
    }
}

fn copy(alloc: Global, at: Moment, claim: &Claim) -> Result<RunClaim, AllocError>
    ensures { IfOk result (λ c. c ≡ claim_of at claim.now) }
{
    let worker_group = identifier(alloc, &claim.worker_group)?;
    Ok(RunClaim {
        worker_group,
        worker_id: identifier(alloc, &claim.worker_id)?,
        started: at,
        taken_until: claim.taken_until,
    })
}

/// The same identifier.
fn identifier(alloc: Global, name: &Identifier) -> Result<Identifier, AllocError>
    ensures { IfOk result (λ i. i ≡ name.now) }
{
    let text = Text::from_str(alloc, name.as_str())?;
    match Identifier::new(text) {
        Some(copied) => Ok(copied),
        None => unreachable!(),
    }
}
