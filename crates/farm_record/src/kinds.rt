//! The kind of a change, read.
ghost use Rattle.farm_record.specs.Reading.{Reads, IsKind};

use crate::definition::definition;
use crate::parts::{claim, creation_parts, reclaim, resolution, whole_id};
use crate::unread::Unread;
use std::alloc::Global;
use task_types::{Creation, Kind};

fn tick(fields: &[u8]) -> Result<Kind, Unread>
    ensures { Reads (IsKind 1 fields.now) result }
{
    if fields.is_empty() {
        Ok(Kind::Tick)
    } else {
        Err(Unread::NotARecord)
    }
}

fn create(alloc: Global, fields: &[u8]) -> Result<Kind, Unread>
    ensures { Reads (IsKind 2 fields.now) result }
{
    let (id, text) = match creation_parts(fields) {
        Ok(parts) => parts,
        Err(unread) => return Err(unread),
    };
    match definition(alloc, id, text) {
        Ok(definition) => Ok(Kind::Create(Creation { id, definition })),
        Err(unread) => Err(unread),
    }
}

fn schedule(fields: &[u8]) -> Result<Kind, Unread>
    ensures { Reads (IsKind 3 fields.now) result }
{
    match whole_id(fields) {
        Ok(id) => Ok(Kind::Schedule(id)),
        Err(unread) => Err(unread),
    }
}

fn rerun(fields: &[u8]) -> Result<Kind, Unread>
    ensures { Reads (IsKind 4 fields.now) result }
{
    match whole_id(fields) {
        Ok(id) => Ok(Kind::Rerun(id)),
        Err(unread) => Err(unread),
    }
}

fn cancel(fields: &[u8]) -> Result<Kind, Unread>
    ensures { Reads (IsKind 5 fields.now) result }
{
    match whole_id(fields) {
        Ok(id) => Ok(Kind::Cancel(id)),
        Err(unread) => Err(unread),
    }
}

fn claimed(alloc: Global, fields: &[u8]) -> Result<Kind, Unread>
    ensures { Reads (IsKind 6 fields.now) result }
{
    match claim(alloc, fields) {
        Ok(claim) => Ok(Kind::Claim(claim)),
        Err(unread) => Err(unread),
    }
}

fn reclaimed(fields: &[u8]) -> Result<Kind, Unread>
    ensures { Reads (IsKind 7 fields.now) result }
{
    match reclaim(fields) {
        Ok(reclaim) => Ok(Kind::Reclaim(reclaim)),
        Err(unread) => Err(unread),
    }
}

fn resolved(fields: &[u8]) -> Result<Kind, Unread>
    ensures { Reads (IsKind 8 fields.now) result }
{
    match resolution(fields) {
        Ok(resolution) => Ok(Kind::Resolve(resolution)),
        Err(unread) => Err(unread),
    }
}

/// The kind of this number with these fields.
pub(crate) fn kind(alloc: Global, number: u8, fields: &[u8]) -> Result<Kind, Unread>
    ensures { Reads (IsKind number fields.now) result }
{
    match number {
        1 => tick(fields),
        2 => create(alloc, fields),
        3 => schedule(fields),
        4 => rerun(fields),
        5 => cancel(fields),
        6 => claimed(alloc, fields),
        7 => reclaimed(fields),
        8 => resolved(fields),
        _ => Err(Unread::NotARecord),
    }
}
