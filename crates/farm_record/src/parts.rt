//! What the fields of each kind of change are made of, read.
ghost use Rattle.std.specs.Prelude.{◌≡◌};
ghost use Rattle.task_types.specs.Forms.{IsIdentifier};
ghost use Rattle.farm_record.specs.Fields.{IsClaim, claim_text};
ghost use Rattle.farm_record.specs.Reading.{Gives, Reads, all_of, id_at, claim_at, reclaim_at, resolution_at, creation_at};

use crate::fields::{byte_of, id, moment, report, sized_of, u64_of, uuid_of};
use crate::runs::runs_of;
use crate::unread::Unread;
use farm_text::{Moment, SlugId, Text};
use std::alloc::Global;
use std::str;
use task_types::{Claim, Identifier, Reclaim, Resolution, RunNames};

/// An id and nothing behind it.
#[tactic(auto, unfolding(crate::specs::Reading::id_at))]
pub(crate) fn whole_id(fields: &[u8]) -> Result<SlugId, Unread>
    ensures { Gives (λ id. id) result (all_of (id_at fields.now)) }
{
    let (uuid, rest) = uuid_of(fields)?;
    let id = id(uuid)?;
    if !rest.is_empty() {
        return Err(Unread::NotARecord);
    }
    Ok(id)
}

/// The id of a task that is made, and the text of its definition.
#[tactic(auto, unfolding(crate::specs::Reading::creation_at, crate::specs::Reading::id_at))]
pub(crate) fn creation_parts(fields: &[u8]) -> Result<(SlugId, &[u8]), Unread>
    ensures { Gives (λ x. (x.0, x.1.now)) result (all_of (creation_at fields.now)) }
{
    let (uuid, rest) = uuid_of(fields)?;
    let id = id(uuid)?;
    let (text, rest) = sized_of(rest)?;
    if !rest.is_empty() {
        return Err(Unread::NotARecord);
    }
    Ok((id, text))
}

/// The fields of a reclaim.
#[tactic(auto, unfolding(crate::specs::Reading::reclaim_at, crate::specs::Reading::id_at, crate::specs::Reading::moment_at))]
pub(crate) fn reclaim(fields: &[u8]) -> Result<Reclaim, Unread>
    ensures { Gives (λ r. r) result (all_of (reclaim_at fields.now)) }
{
    let (uuid, rest) = uuid_of(fields)?;
    let id = id(uuid)?;
    let (run, rest) = byte_of(rest)?;
    let (millis, rest) = u64_of(rest)?;
    let taken_until = moment(millis)?;
    if !rest.is_empty() {
        return Err(Unread::NotARecord);
    }
    Ok(Reclaim {
        id,
        run,
        taken_until,
    })
}

/// The fields of a resolution.
#[tactic(auto, unfolding(crate::specs::Reading::resolution_at, crate::specs::Reading::id_at, crate::specs::Reading::report_at))]
pub(crate) fn resolution(fields: &[u8]) -> Result<Resolution, Unread>
    ensures { Gives (λ r. r) result (all_of (resolution_at fields.now)) }
{
    let (uuid, rest) = uuid_of(fields)?;
    let id = id(uuid)?;
    let (run, rest) = byte_of(rest)?;
    let (number, rest) = byte_of(rest)?;
    let reason = report(number)?;
    if !rest.is_empty() {
        return Err(Unread::NotARecord);
    }
    Ok(Resolution { id, run, reason })
}

/// The fields of a claim, whatever its worker's texts are.
#[tactic(auto, unfolding(crate::specs::Reading::claim_at, crate::specs::Reading::moment_at))]
fn claim_parts(alloc: Global, fields: &[u8]) -> Result<(Moment, &[u8], &[u8], RunNames), Unread>
    ensures { Gives (λ x. (x.0, (x.1.now, (x.2.now, x.3)))) result (all_of (claim_at fields.now)) }
{
    let (millis, rest) = u64_of(fields)?;
    let taken_until = moment(millis)?;
    let (group, rest) = sized_of(rest)?;
    let (worker, rest) = sized_of(rest)?;
    let runs = runs_of(alloc, rest)?;
    Ok((taken_until, group, worker, runs))
}

/// The identifier that a text is.
fn identifier(alloc: Global, text: &[u8]) -> Result<Identifier, Unread>
    ensures { Reads (λ i. IsIdentifier i × (i ≡ text.now)) result }
{
    let Ok(text) = str::from_utf8(text) else {
        return Err(Unread::NotARecord);
    };
    let text = Text::from_str(alloc, text)?;
    match Identifier::new(text) {
        Some(identifier) => Ok(identifier),
        None => Err(Unread::NotARecord),
    }
}

/// The fields of a claim.
pub(crate) fn claim(alloc: Global, fields: &[u8]) -> Result<Claim, Unread>
    ensures { Reads (λ c. IsClaim c × (fields.now ≡ claim_text c)) result }
{
    let (taken_until, group, worker, runs) = match claim_parts(alloc, fields) {
        Ok(parts) => parts,
        Err(unread) => return Err(unread),
    };
    let worker_group = match identifier(alloc, group) {
        Ok(identifier) => identifier,
        Err(unread) => return Err(unread),
    };
    let worker_id = match identifier(alloc, worker) {
        Ok(identifier) => identifier,
        Err(unread) => return Err(unread),
    };
    Ok(Claim {
        taken_until,
        worker_group,
        worker_id,
        runs,
    })
}
