//! When each task falls due, by its place: at its deadline, while it is not resolved, and at the end of its claim, while it has one.
ghost use Rattle.std.specs.Prelude.{◌≡◌, ℕ, ◌≤◌, ◌<◌, List, [], Some, None, true, filter, min, nat_le, slice_get, option_map, IfSome};
ghost use Rattle.std.specs.List.{position, reduce};
ghost use Rattle.run_states.specs.Rows.{Row, loses_claim};
ghost use Rattle.claim_queue.specs.Dues.{first_due_of};
ghost use Rattle.task_index.specs.Due.{all_due_moments, meets_deadline};
ghost use Rattle.task_index.specs.Dated.{deadline_of, held_at, IsHeldAt, ArePut, IsPutAt, AreDues, MayBeDue, earlier_of, place_at};

use claim_queue::{Deadlines, DueRows, Leases, Steps};
use farm_text::Moment;
use run_states::TaskRow;
use std::alloc::{AllocError, Global};
use std::marker::Brand;
use std::sync::ledger::{Blank, Ledger};

/// The deadlines of the tasks that are not resolved, and the ends of the claims.
#[derive(Drop)]
pub(crate) struct Dues {
    deadlines: Deadlines,
    leases: Leases,
}

impl Dues {
    /// Those of no tasks. They take no memory.
    pub(crate) fn new(alloc: Global) -> Dues
        ensures { AreDues result [] }
    {
        Dues {
            deadlines: Deadlines::new(alloc),
            leases: Leases::new(alloc),
        }
    }

    /// The first moment at which something falls due, of those up to this one.
    pub(crate) fn first(&self, moment: Moment) -> Option<Moment>
        ensures { (rows : List Row) → AreDues self.now rows → result ≡ reduce min (filter (λ due. nat_le due moment) (all_due_moments rows)) }
    {
        earlier_of(
            first_due(&self.deadlines, moment),
            first_due(&self.leases, moment),
        )
    }

    /// Makes room for the task at a place. Where memory is wanting, all that is held stays.
    fn reserve(&mut self, place: u32) -> Result<(), AllocError>
        requires { place ≤ 1_000_000 }
        ensures { (rows : List Row) → AreDues self.old rows → AreDues self.new rows }
    {
        make_room(&mut self.deadlines, place)?;
        make_room(&mut self.leases, place)
    }

    /// Holds what falls due of the task at a place. Answers whether there was room for it.
    fn put(&mut self, place: u32, row: &TaskRow) -> bool
        ensures { result ≡ true → ArePut place row.now self.old self.new }
    {
        if !hold(&mut self.deadlines, place, deadline_of(row)) {
            return false;
        }
        hold(&mut self.leases, place, row.claim_due())
    }
}

/// Makes room for the task at a place, where it is kept when tasks fall due. Where memory is wanting, all that is held stays.
pub(crate) fn reserve(dues: &mut Option<Dues>, place: u32) -> Result<(), AllocError>
    requires { place ≤ 1_000_000 }
    ensures { (rows : List Row) → MayBeDue dues.old rows → MayBeDue dues.new rows }
{
    match dues {
        Some(dues) => dues.reserve(place),
        None => Ok(()),
    }
}

/// Holds what falls due of the task at a place, which comes or changes, or gives all up where there is no room for it.
pub(crate) fn keep_dues(dues: &mut Option<Dues>, place: usize, row: &TaskRow)
    ensures { (before rows : List Row) → IsPutAt place row.now before rows → MayBeDue dues.old before → MayBeDue dues.new rows }
{
    if !put(dues, place, row) {
        *dues = None;
    }
}

/// Holds what falls due of the task at a place. Answers whether there was room for it.
fn put(dues: &mut Option<Dues>, place: usize, row: &TaskRow) -> bool
    ensures { result ≡ true → (before rows : List Row) → IsPutAt place row.now before rows → MayBeDue dues.old before → MayBeDue dues.new rows }
{
    if place > u32::MAX as usize {
        return false;
    }
    match dues {
        Some(dues) => dues.put(place as u32, row),
        None => true,
    }
}

/// The place of the first task whose deadline is at this moment, where that can be told: no deadline comes before it.
pub(crate) fn known_deadline(dues: &Option<Dues>, at: Moment) -> Option<Option<usize>>
    ensures { (rows : List Row) → MayBeDue dues.now rows → IfSome result (λ place. place ≡ position (meets_deadline at) rows) }
{
    match dues {
        Some(dues) => place_at(first_of(&dues.deadlines, at), at),
        None => None,
    }
}

/// The place of the first task whose claim ends at this moment or before, where that can be told: no claim ends before it.
pub(crate) fn known_lease(dues: &Option<Dues>, at: Moment) -> Option<Option<usize>>
    ensures { (rows : List Row) → MayBeDue dues.now rows → IfSome result (λ place. place ≡ position (loses_claim at) rows) }
{
    match dues {
        Some(dues) => place_at(first_of(&dues.leases, at), at),
        None => None,
    }
}

/// The place of the first that falls due, where that is at this moment, or none where nothing falls due up to it; and else it is not told.
fn place_at(first: Option<(Moment, u32)>, at: Moment) -> Option<Option<usize>>
    ensures { result ≡ place_at at first }
{
    match first {
        Some((due, place)) if due == at => Some(Some(place as usize)),
        Some(_) => None,
        None => Some(None),
    }
}

/// The deadline of a task, while it is not resolved.
fn deadline_of(row: &TaskRow) -> Option<Moment>
    ensures { result ≡ deadline_of row.now }
{
    if row.is_resolved() {
        None
    } else {
        Some(row.definition().deadline)
    }
}

/// The earlier of the two, if there is one.
fn earlier_of(one: Option<Moment>, other: Option<Moment>) -> Option<Moment>
    ensures { result ≡ earlier_of one other }
{
    match (one, other) {
        (Some(one), Some(other)) => Some(one.min(other)),
        (Some(one), None) => Some(one),
        (None, other) => other,
    }
}

/// The moment of the first that falls due up to this one.
fn first_due(dues: &DueRows, moment: Moment) -> Option<Moment>
    ensures { result ≡ option_map (λ first. first.0) (first_due_of moment dues.now) }
{
    match first_of(dues, moment) {
        Some((due, _)) => Some(due),
        None => None,
    }
}

/// The first that falls due up to this moment.
fn first_of(dues: &DueRows, moment: Moment) -> Option<(Moment, u32)>
    ensures { result ≡ first_due_of moment dues.now }
{
    first_counted::<Brand>(dues, moment, Blank::new(1))
}

fn first_counted<L: Ledger>(dues: &DueRows, moment: Moment, blank: Blank) -> Option<(Moment, u32)>
    requires name { blank.name ≡ L.name }
    requires parts { blank.parts ≡ L.parts }
    requires some { 0 < blank.parts }
    ensures { result ≡ first_due_of moment dues.now }
{
    dues.first_due(moment, &mut Steps::<L>::new(blank))
}

/// Makes room for a row, where there is none: for twice as many, so that this is seldom.
fn make_room(dues: &mut DueRows, row: u32) -> Result<(), AllocError>
    requires { row ≤ 1_000_000 }
    ensures { (other : ℕ) → held_at dues.new other ≡ held_at dues.old other }
{
    if dues.at(row).is_some() {
        return Ok(());
    }
    let room = 2 * (row + 1);
    dues.reserve(room, room)
}

/// Holds a row until a moment, or no longer where there is none. Answers whether there was room for it.
fn hold(dues: &mut DueRows, row: u32, at: Option<Moment>) -> bool
    ensures { result ≡ true → IsHeldAt row at dues.old dues.new }
{
    hold_counted::<Brand>(dues, row, at, Blank::new(1))
}

fn hold_counted<L: Ledger>(dues: &mut DueRows, row: u32, at: Option<Moment>, blank: Blank) -> bool
    requires name { blank.name ≡ L.name }
    requires parts { blank.parts ≡ L.parts }
    requires some { 0 < blank.parts }
    ensures { result ≡ true → IsHeldAt row at dues.old dues.new }
{
    let steps = &mut Steps::<L>::new(blank);
    match dues.at(row) {
        Some(Some(was)) => {
            move_held(dues, row, was, at, steps);
            true
        }
        Some(None) => add(dues, row, at, steps),
        None => at.is_none(),
    }
}

/// Lets a row that is held fall due at another moment, or no longer.
fn move_held<L: Ledger>(
    dues: &mut DueRows,
    row: u32,
    was: Moment,
    at: Option<Moment>,
    steps: &mut Steps<L>,
)
    requires { slice_get dues.old.rows row ≡ Some (Some was) }
    ensures { IsHeldAt row at dues.old dues.new }
{
    match at {
        Some(at) if at == was => {}
        Some(at) => dues.shift(row, at, steps),
        None => dues.remove(row, steps),
    }
}

/// Holds a row that is not held, where there is a moment. Answers whether there was room for it.
fn add<L: Ledger>(dues: &mut DueRows, row: u32, at: Option<Moment>, steps: &mut Steps<L>) -> bool
    requires { slice_get dues.old.rows row ≡ Some None }
    ensures { result ≡ true → IsHeldAt row at dues.old dues.new }
{
    let Some(at) = at else {
        return true;
    };
    if dues.spare() == 0 {
        return false;
    }
    dues.add(row, at, steps);
    true
}
