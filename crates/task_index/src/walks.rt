//! What falls due first, by a walk over all tasks: for where it is not kept.
ghost use Rattle.std.specs.Prelude.{◌≡◌, ◌++◌, ◌∷◌, [], min, filter, nat_le, Some, None, if◌then◌else◌};
ghost use Rattle.std.specs.Option.{option_to_list};
ghost use Rattle.std.specs.List.{reduce, position};
ghost use Rattle.run_states.specs.Rows.{loses_claim, due_moments};
ghost use Rattle.task_index.specs.Due.{all_due_moments, meets_deadline};

use farm_text::Moment;
use run_states::TaskRow;

/// The first moment at which something falls due, of those up to this one.
pub(crate) fn first_due(rows: &[TaskRow], moment: Moment) -> Option<Moment>
    ensures { result ≡ reduce min (filter (λ due. nat_le due moment) (all_due_moments rows.now)) }
{
    match soonest(rows) {
        Some(at) => within(at, moment),
        None => None,
    }
}

/// The moment, where it is no later than another.
fn within(at: Moment, moment: Moment) -> Option<Moment>
    ensures { result ≡ (if nat_le at moment then Some at else None) }
{
    if at <= moment { Some(at) } else { None }
}

/// The first moment at which something falls due.
fn soonest(rows: &[TaskRow]) -> Option<Moment>
    ensures { result ≡ reduce min (all_due_moments rows.now) }
{
    let mut soonest = None;
    for row in rows {
        soonest = soonest_with(soonest, row);
    }
    soonest
}

/// The first of one that was it before and what falls due of a task behind it.
fn soonest_with(soonest: Option<Moment>, row: &TaskRow) -> Option<Moment>
    ensures { result ≡ reduce min (option_to_list soonest ++ due_moments row.now) }
{
    if row.is_resolved() {
        return soonest;
    }
    let first = earlier(soonest, row.definition().deadline);
    match row.claim_due() {
        Some(end) => Some(first.min(end)),
        None => Some(first),
    }
}

/// The earlier of the two, if there are two.
fn earlier(soonest: Option<Moment>, moment: Moment) -> Moment
    ensures { Some result ≡ reduce min (option_to_list soonest ++ moment ∷ []) }
{
    match soonest {
        Some(at) => at.min(moment),
        None => moment,
    }
}

/// The place of the first task whose deadline is at this very moment.
pub(crate) fn deadline_place(rows: &[TaskRow], at: Moment) -> Option<usize>
    ensures { result ≡ position (meets_deadline at) rows.now }
{
    rows.iter().position(|row| meets_deadline(row, at))
}

/// Whether a task is not resolved, and its deadline is at this very moment.
fn meets_deadline(row: &TaskRow, at: Moment) -> bool
    ensures { result ≡ meets_deadline at row.now }
{
    !row.is_resolved() && row.definition().deadline == at
}

/// The place of the first task whose claim ends at this moment or before.
pub(crate) fn lost_place(rows: &[TaskRow], at: Moment) -> Option<usize>
    ensures { result ≡ position (loses_claim at) rows.now }
{
    rows.iter().position(|row| row.loses_claim(at))
}
