//! The runs that are claimed next in a queue, by a walk over the first tasks that wait there.
ghost use Rattle.std.specs.Prelude.{◌≡◌, ◌<◌, [], false, IfOk, slice_get, option_and_then, option_copied};
ghost use Rattle.std.specs.Option.{option_map_or};
ghost use Rattle.task_types.specs.declared.names.TaskQueue.{TaskQueue};
ghost use Rattle.claim_queue.specs.Waits.{best_of};
ghost use Rattle.claim_queue.specs.Walks.{without};
ghost use Rattle.task_index.specs.Contents.{HaveOwnIds};
ghost use Rattle.task_index.specs.Picks.{names_last, picks, are_picks};
ghost use Rattle.task_index.specs.Queues.{name_of, HasOneSlash, AreLeft};

use crate::picks::{last_name, names_last};
use crate::queues::names::name_of;
use claim_queue::{Firsts, Pending, Steps};
use farm_text::Text;
use run_states::TaskRow;
use std::alloc::{AllocError, Global};
use std::marker::Brand;
use std::sync::ledger::{Blank, Ledger};
use task_types::{RunName, TaskQueue};

/// The runs that are claimed next in a queue, so many, or all that wait.
pub(crate) fn firsts(
    alloc: Global,
    pending: &Pending,
    rows: &[TaskRow],
    queue: &TaskQueue,
    most: u8,
) -> Result<Vec<RunName>, AllocError>
    requires all { AreLeft [] pending.now rows.now }
    requires own { HaveOwnIds rows.now }
    ensures { IfOk result (λ names. names.items ≡ picks most queue.now rows.now) }
{
    firsts_counted::<Brand>(alloc, pending, rows, queue, most, Blank::new(1))
}

/// The same, with a ledger for its steps.
fn firsts_counted<L: Ledger>(
    alloc: Global,
    pending: &Pending,
    rows: &[TaskRow],
    queue: &TaskQueue,
    most: u8,
    blank: Blank,
) -> Result<Vec<RunName>, AllocError>
    requires all { AreLeft [] pending.now rows.now }
    requires own { HaveOwnIds rows.now }
    requires name { blank.name ≡ L.name }
    requires parts { blank.parts ≡ L.parts }
    requires some { 0 < blank.parts }
    ensures { IfOk result (λ names. names.items ≡ picks most queue.now rows.now) }
{
    let steps = &mut Steps::<L>::new(blank);
    let name = name_of(alloc, queue)?;
    let mut walk = pending.firsts(&name);
    let mut names = Vec::new(alloc);
    'turns: while names.len() < usize::from(most) {
        match next_task(&mut walk, rows, steps) {
            Some(row) => names.push(last_name(row))?,
            None => return Ok(names),
        }
    }
    Ok(names)
}

/// Whether the runs of these names are, each in its turn, the pick of the queue of a name. It takes no memory.
pub(crate) fn are_firsts(
    pending: &Pending,
    queue: &Text,
    rows: &[TaskRow],
    names: &[RunName],
) -> bool
    requires slash { HasOneSlash queue.now }
    requires all { AreLeft [] pending.now rows.now }
    requires own { HaveOwnIds rows.now }
    ensures { (named : TaskQueue) → queue.now ≡ name_of named → result ≡ are_picks named names.now rows.now }
{
    are_firsts_counted::<Brand>(pending, queue, rows, names, Blank::new(1))
}

/// The same, with a ledger for its steps.
fn are_firsts_counted<L: Ledger>(
    pending: &Pending,
    queue: &Text,
    rows: &[TaskRow],
    names: &[RunName],
    blank: Blank,
) -> bool
    requires slash { HasOneSlash queue.now }
    requires all { AreLeft [] pending.now rows.now }
    requires own { HaveOwnIds rows.now }
    requires name { blank.name ≡ L.name }
    requires parts { blank.parts ≡ L.parts }
    requires some { 0 < blank.parts }
    ensures { (named : TaskQueue) → queue.now ≡ name_of named → result ≡ are_picks named names.now rows.now }
{
    let steps = &mut Steps::<L>::new(blank);
    let mut walk = pending.firsts(queue);
    for name in names {
        if !gives(&mut walk, rows, *name, steps) {
            return false;
        }
    }
    true
}

/// Whether a name is that of the run that is claimed next of those that the walk did not give.
fn gives<L: Ledger>(
    walk: &mut Firsts<'_>,
    rows: &[TaskRow],
    name: RunName,
    steps: &mut Steps<L>,
) -> bool
    ensures named { result
        ≡ option_map_or (names_last name) (option_and_then (slice_get rows.now) (best_of walk.old.name walk.old.left)) false }
    ensures left { walk.new ≡ record walk.old { left = without (best_of walk.old.name walk.old.left) walk.old.left } }
{
    match next_task(walk, rows, steps) {
        Some(row) => names_last(name, row),
        None => false,
    }
}

/// The task that is claimed next of those that the walk did not give.
fn next_task<'a, L: Ledger>(
    walk: &mut Firsts<'_>,
    rows: &'a [TaskRow],
    steps: &mut Steps<L>,
) -> Option<&'a TaskRow>
    ensures row { option_copied result ≡ option_and_then (slice_get rows.now) (best_of walk.old.name walk.old.left) }
    ensures left { walk.new ≡ record walk.old { left = without (best_of walk.old.name walk.old.left) walk.old.left } }
{
    let place = walk.next(steps)?;
    rows.get(place as usize)
}
