//! The records of changes, read.
ghost use Rattle.std.specs.Prelude.{◌≡◌, ◌↔◌, Some, IfOk};
ghost use Rattle.farm_record.specs.Records.{IsRecord};
ghost use Rattle.farm_record.specs.Reading.{Reads};
ghost use Rattle.task_types.specs.declared.change.Change.{Change as AnyChange};

use crate::fields::{byte_of, moment, u64_of};
use crate::kinds::kind;
use crate::unread::Unread;
use std::alloc::{AllocError, Global};
use task_types::Change;

fn change(alloc: Global, bytes: &[u8]) -> Result<Change, Unread>
    ensures { Reads (λ change. IsRecord change bytes.now) result }
{
    let (number, rest) = match byte_of(bytes) {
        Ok(read) => read,
        Err(unread) => return Err(unread),
    };
    let (millis, fields) = match u64_of(rest) {
        Ok(read) => read,
        Err(unread) => return Err(unread),
    };
    let at = match moment(millis) {
        Ok(at) => at,
        Err(unread) => return Err(unread),
    };
    match kind(alloc, number, fields) {
        Ok(kind) => Ok(Change { at, kind }),
        Err(unread) => Err(unread),
    }
}

/// The change whose record the bytes are, all of them; nothing where they are no change's record.
pub fn read_record(alloc: Global, bytes: &[u8]) -> Result<Option<Change>, AllocError>
    ensures { IfOk result (λ found. (change : AnyChange) → (found ≡ Some change) ↔ IsRecord change bytes.now) }
{
    match change(alloc, bytes) {
        Ok(change) => Ok(Some(change)),
        Err(Unread::NotARecord) => Ok(None),
        Err(Unread::NoMemory) => Err(AllocError),
    }
}
