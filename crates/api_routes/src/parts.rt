//! The parts of a path that stand for parameters: percent-decoded, and read.
ghost use Rattle.std.specs.Prelude.{◌≡◌, ◌+◌, ◌<◌, ◌≤◌, IfOk, IfSome, MatchOption, decimal, bytes_eq, find};
ghost use Rattle.std.specs.List.{range_with_len};
ghost use Rattle.percent_encoding.specs.Percent.{percent_decode};
ghost use Rattle.farm_text.specs.Slug.{slug_of};
ghost use Rattle.task_types.specs.Forms.{IsIdentifier, queue_name};
ghost use Rattle.task_defs.specs.Values.{IsQueue};
ghost use Rattle.call_rules.specs.HookNames.{IsHookGroupId, IsHookId};
ghost use Rattle.api_routes.specs.Calls as calls;
ghost use Rattle.api_routes.specs.Named.{named_of};

use call_rules::{HookGroupId, HookId};
use farm_asks::question::Parameter;
use farm_text::{SlugId, Text};
use itoa::Buffer;
use percent_encoding::percent_decode;
use std::alloc::{AllocError, Global};
use task_defs::queue_from_name;
use task_types::{RunName, TaskQueue};

/// A part of a path, percent-decoded.
pub(crate) fn decoded(alloc: Global, part: &[u8]) -> Result<Vec<u8>, AllocError>
    ensures { IfOk result (λ v. v.items ≡ percent_decode part.now) }
{
    let mut text = Vec::new(alloc);
    percent_decode(part).append_to(&mut text)?;
    Ok(text)
}

/// The id that is percent-encoded in a path, where it is a slugid.
pub(crate) fn decoded_id(alloc: Global, id: &[u8]) -> Result<Option<SlugId>, AllocError>
    ensures { IfOk result (λ decoded. decoded ≡ slug_of (percent_decode id.now)) }
{
    let text = decoded(alloc, id)?;
    Ok(SlugId::read(&text))
}

/// What a path names for a run.
#[derive(Clone, Copy)]
pub(crate) enum Named {
    Run(RunName),
    /// This parameter is off its form.
    Bad(Parameter),
}

/// The run whose task and number are percent-encoded in a path.
pub(crate) fn run_name(alloc: Global, id: &[u8], run: &[u8]) -> Result<Named, AllocError>
    ensures { IfOk result (λ n. n ≡ named_of (slug_of (percent_decode id.now)) (calls.run_of (percent_decode run.now))) }
{
    let id = match decoded_id(alloc, id)? {
        Some(id) => id,
        None => return Ok(Named::Bad(Parameter::TaskId)),
    };
    let number = decoded(alloc, run)?;
    match run_of(&number) {
        Some(run) => Ok(Named::Run(RunName { id, run })),
        None => Ok(Named::Bad(Parameter::RunId)),
    }
}

/// The number of a run, as it is written: 0 to 49, without a leading zero.
fn run_of(text: &[u8]) -> Option<u8>
    ensures { result ≡ calls.run_of text.now }
{
    match number_in(text, 0, 50) {
        Some(run) => Some(run as u8),
        None => None,
    }
}

/// The first of so many numbers that is written so.
pub(crate) fn number_in(text: &[u8], first: u16, count: u16) -> Option<u16>
    requires { first + count ≤ 1001 }
    ensures value { result ≡ find (λ n. bytes_eq (decimal n) text.now) (range_with_len first count) }
    ensures below { IfSome result (λ n. n < first + count) }
{
    for number in first..first + count {
        if is_number(number, text) {
            return Some(number);
        }
    }
    None
}

/// Whether a number is written so.
fn is_number(number: u16, text: &[u8]) -> bool
    ensures { result ≡ bytes_eq (decimal number) text.now }
{
    let mut buffer = Buffer::new();
    buffer.format(number).as_bytes() == text
}

/// The name of a queue whose two parts are percent-encoded in a path.
pub(crate) fn name_in_two(
    alloc: Global,
    provisioner: &[u8],
    worker: &[u8],
) -> Result<Vec<u8>, AllocError>
    ensures { IfOk result (λ v. v.items ≡ queue_name (percent_decode provisioner.now) (percent_decode worker.now)) }
{
    let mut name = decoded(alloc, provisioner)?;
    name.push(b'/')?;
    percent_decode(worker).append_to(&mut name)?;
    Ok(name)
}

/// The queue of this name, if it is one.
pub(crate) fn queue_of(alloc: Global, name: &[u8]) -> Result<Option<TaskQueue>, AllocError>
    ensures { IfOk result (λ found. MatchOption found (¬ IsQueue name.now)
        (λ q. IsIdentifier q.provisioner_id × IsIdentifier q.worker_type × (name.now ≡ queue_name q.provisioner_id q.worker_type))) }
{
    match str::from_utf8(name) {
        Ok(name) => queue_from_name(alloc, name),
        Err(_) => Ok(None),
    }
}

/// The id of a group of hooks that is percent-encoded in a path, where it is one.
pub(crate) fn hook_group_id(alloc: Global, part: &[u8]) -> Result<Option<HookGroupId>, AllocError>
    ensures { IfOk result (λ found. MatchOption found (¬ IsHookGroupId (percent_decode part.now))
        (λ group. IsHookGroupId (percent_decode part.now) × (group ≡ percent_decode part.now))) }
{
    let text = decoded(alloc, part)?;
    match str::from_utf8(&text) {
        Ok(text) => Ok(HookGroupId::new(Text::from_str(alloc, text)?)),
        Err(_) => Ok(None),
    }
}

/// The id of a hook that is percent-encoded in a path, where it is one.
pub(crate) fn hook_id(alloc: Global, part: &[u8]) -> Result<Option<HookId>, AllocError>
    ensures { IfOk result (λ found. MatchOption found (¬ IsHookId (percent_decode part.now))
        (λ id. IsHookId (percent_decode part.now) × (id ≡ percent_decode part.now))) }
{
    let text = decoded(alloc, part)?;
    match str::from_utf8(&text) {
        Ok(text) => Ok(HookId::new(Text::from_str(alloc, text)?)),
        Err(_) => Ok(None),
    }
}
