//! The runs of a claim, read.
ghost use Rattle.std.specs.Prelude.{◌≡◌, [], ◌∷◌, ◌++◌, length, IfOk};
ghost use Rattle.farm_record.specs.Reading.{Gives, all_of, run_at, names_at, runs_at};

use crate::fields::{byte_of, id, u32_of, uuid_of};
use crate::unread::Unread;
use std::alloc::{AllocError, Global};
use task_types::{RunName, RunNames};

/// A run's name.
#[tactic(auto, unfolding(crate::specs::Reading::run_at, crate::specs::Reading::id_at))]
fn run_of(bytes: &[u8]) -> Result<(RunName, &[u8]), Unread>
    ensures { Gives (λ x. (x.0, x.1.now)) result (run_at bytes.now) }
{
    let (uuid, rest) = uuid_of(bytes)?;
    let id = id(uuid)?;
    let (run, rest) = byte_of(rest)?;
    Ok((RunName { id, run }, rest))
}

/// Puts a name at the end.
fn keep(names: &mut Vec<RunName>, name: RunName) -> Result<(), AllocError>
    ensures { IfOk result (λ _. names.new.items ≡ names.old.items ++ name ∷ []) }
{
    names.push(name)?;
    Ok(())
}

/// So many names and nothing behind them.
fn names_of(alloc: Global, count: u32, bytes: &[u8]) -> Result<Vec<RunName>, Unread>
    ensures names { Gives (λ v. v.items) result (all_of (names_at count bytes.now)) }
    ensures count { IfOk result (λ v. length v.items ≡ count) }
{
    let mut names = Vec::new(alloc);
    let mut rest = bytes;
    for _ in 0..count {
        let (name, after) = match run_of(rest) {
            Ok(read) => read,
            Err(unread) => return Err(unread),
        };
        keep(&mut names, name)?;
        rest = after;
    }
    if !rest.is_empty() {
        return Err(Unread::NotARecord);
    }
    Ok(names)
}

/// 1 to 32 names behind their number, and nothing behind them.
#[tactic(auto, unfolding(crate::specs::Reading::runs_at))]
pub(crate) fn runs_of(alloc: Global, bytes: &[u8]) -> Result<RunNames, Unread>
    ensures { Gives (λ r. r) result (all_of (runs_at bytes.now)) }
{
    let (count, rest) = u32_of(bytes)?;
    if count < 1 || count > 32 {
        return Err(Unread::NotARecord);
    }
    let names = names_of(alloc, count, rest)?;
    match RunNames::from_list(names) {
        Some(runs) => Ok(runs),
        None => Err(Unread::NotARecord),
    }
}
