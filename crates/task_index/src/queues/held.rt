//! How a task waits, which is held by its place.
ghost use Rattle.std.specs.Prelude.{◌≡◌, ◌↔◌, ◌≤◌, ◌<◌, Some, None, IsTrue, length, slice_get};
ghost use Rattle.claim_queue.specs.Waits.{spare_in};
ghost use Rattle.task_index.specs.Queues.{name_of, held_of, with_row};

use crate::picks::number_of;
use claim_queue::{Pending, Steps};
use farm_text::Text;
use run_states::TaskRow;
use std::marker::Brand;
use std::sync::ledger::{Blank, Ledger};

/// Whether there is room for a row, of which nothing is held, and for one more that waits in a queue.
pub(crate) fn may_hold(pending: &Pending, row: u32, name: &Text) -> bool
    ensures { IsTrue result ↔ ((slice_get pending.now.rows row ≡ Some None) × (1 ≤ spare_in name.now pending.now)) }
{
    pending.holds(row) == Some(false) && pending.spare(name) >= 1
}

/// Holds how a task waits in the queue of a name, by its row, or that it waits no longer.
pub(crate) fn hold(pending: &mut Pending, row: u32, name: &Text, task: &TaskRow)
    requires within { row < length pending.old.rows }
    requires room { 1 ≤ spare_in name.now (with_row row None pending.old) }
    requires named { name.now ≡ name_of task.now.definition.queue }
    ensures { pending.new ≡ with_row row (held_of task.now) pending.old }
{
    hold_counted::<Brand>(pending, row, name, task, Blank::new(1));
}

/// The same, with a ledger for its steps.
fn hold_counted<L: Ledger>(
    pending: &mut Pending,
    row: u32,
    name: &Text,
    task: &TaskRow,
    blank: Blank,
)
    requires within { row < length pending.old.rows }
    requires room { 1 ≤ spare_in name.now (with_row row None pending.old) }
    requires named { name.now ≡ name_of task.now.definition.queue }
    requires name { blank.name ≡ L.name }
    requires parts { blank.parts ≡ L.parts }
    requires some { 0 < blank.parts }
    ensures { pending.new ≡ with_row row (held_of task.now) pending.old }
{
    let steps = &mut Steps::<L>::new(blank);
    release(pending, row, steps);
    if task.is_pending() {
        let (priority, number) = (task.definition().priority, number_of(task));
        pending.add(row, name, priority, number, steps);
    }
}

/// Lets a row wait no longer, if it did.
fn release<L: Ledger>(pending: &mut Pending, row: u32, steps: &mut Steps<L>)
    requires { row < length pending.old.rows }
    ensures { pending.new ≡ with_row row None pending.old }
{
    if pending.holds(row) == Some(true) {
        pending.remove(row, steps);
    }
}
