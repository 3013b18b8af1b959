//! The collections of `claim_queue`, against answers that were worked by hand.
ghost use Rattle.std.specs.Prelude.{◌≡◌, ◌<◌, OnOk};

use claim_queue::{Deadlines, DueRows, Leases, Pending, Steps};
use farm_text::{Moment, Text};
use std::alloc::{AllocError, Global};
use std::marker::Brand;
use std::process::Abort;
use std::sync::ledger::{Blank, Ledger};
use std::test::Fail;
use task_types::Priority;

fn moment(millis: u64) -> Moment {
    Moment::from_millis(millis).unwrap_or(Moment::FIRST)
}

/// Holds a row, where there is room for it.
fn hold<L: Ledger>(dues: &mut DueRows, row: u32, millis: u64, steps: &mut Steps<L>) -> bool {
    let may = dues.spare() >= 1 && dues.at(row) == Some(None);
    if may {
        dues.add(row, moment(millis), steps);
    }
    may
}

/// Lets a held row fall due at another moment, or no longer where none is given.
fn change<L: Ledger>(dues: &mut DueRows, row: u32, at: Option<u64>, steps: &mut Steps<L>) -> bool {
    match (dues.at(row), at) {
        (Some(Some(_)), Some(millis)) => dues.shift(row, moment(millis), steps),
        (Some(Some(_)), None) => dues.remove(row, steps),
        _ => return false,
    }
    true
}

/// Of rows 0 to 4 row 1 falls due at 30, and 3 and 4 at 20.
fn hold_three<L: Ledger>(dues: &mut DueRows, steps: &mut Steps<L>) -> Result<bool, AllocError> {
    dues.reserve(3, 5)?;
    Ok(hold(dues, 1, 30, steps) && hold(dues, 4, 20, steps) && hold(dues, 3, 20, steps))
}

/// Whether at a moment the first row that is due is this.
fn is_first<L: Ledger>(
    dues: &DueRows,
    at: u64,
    first: Option<(u64, u32)>,
    steps: &mut Steps<L>,
) -> bool {
    match (dues.first_due(moment(at), steps), first) {
        (Some((due, row)), Some((millis, wanted))) => due == moment(millis) && row == wanted,
        (None, None) => true,
        _ => false,
    }
}

#[test]
fn without_room_nothing_is_held(rt: HostRuntime) -> Result<(), Fail> {
    hold_by_room::<Brand>(&rt, rt.alloc(), Blank::new(1))
}

fn hold_by_room<L: Ledger>(rt: &impl Abort, alloc: Global, blank: Blank) -> Result<(), Fail>
    requires name { blank.name ≡ L.name }
    requires parts { blank.parts ≡ L.parts }
    requires some { 0 < blank.parts }
{
    let mut dues = Deadlines::new(alloc);
    let is_held = is_held_by_room(&mut dues, &mut Steps::<L>::new(blank));
    drop(dues);
    assert!(rt; is_held?);
    Ok(())
}

fn is_held_by_room<L: Ledger>(
    dues: &mut DueRows,
    steps: &mut Steps<L>,
) -> Result<bool, AllocError> {
    let is_refused = !hold(dues, 0, 5, steps);
    dues.reserve(1, 2)?;
    Ok(
        is_refused
            && hold(dues, 1, 5, steps)
            && !hold(dues, 0, 5, steps)
            && dues.spare() == 0
            && change(dues, 1, None, steps)
            && hold(dues, 0, 5, steps),
    )
}

#[test]
fn the_first_due_is_the_earliest_and_of_these_the_least_row(rt: HostRuntime) -> Result<(), Fail> {
    ask_first_due::<Brand>(&rt, rt.alloc(), Blank::new(1))
}

fn ask_first_due<L: Ledger>(rt: &impl Abort, alloc: Global, blank: Blank) -> Result<(), Fail>
    requires name { blank.name ≡ L.name }
    requires parts { blank.parts ≡ L.parts }
    requires some { 0 < blank.parts }
{
    let mut dues = Leases::new(alloc);
    let are_first = are_first(&mut dues, &mut Steps::<L>::new(blank));
    drop(dues);
    assert!(rt; are_first?);
    Ok(())
}

fn are_first<L: Ledger>(dues: &mut DueRows, steps: &mut Steps<L>) -> Result<bool, AllocError> {
    Ok(
        hold_three(dues, steps)?
            && is_first(dues, 19, None, steps)
            && is_first(dues, 20, Some((20, 3)), steps)
            && is_first(dues, 40, Some((20, 3)), steps)
            && change(dues, 3, Some(31), steps)
            && is_first(dues, 40, Some((20, 4)), steps)
            && change(dues, 4, None, steps)
            && is_first(dues, 40, Some((30, 1)), steps)
            && is_first(dues, 29, None, steps),
    )
}

/// Lets a row wait in a queue, where there is room for it.
fn wait<L: Ledger>(
    pending: &mut Pending,
    row: u32,
    queue: &Text,
    priority: Priority,
    number: u64,
    steps: &mut Steps<L>,
) -> bool {
    let may = pending.spare(queue) >= 1 && pending.holds(row) == Some(false);
    if may {
        pending.add(row, queue, priority, number, steps);
    }
    may
}

/// Lets a row wait no longer, where it waits.
fn leave<L: Ledger>(pending: &mut Pending, row: u32, steps: &mut Steps<L>) -> bool {
    let waits = pending.holds(row) == Some(true);
    if waits {
        pending.remove(row, steps);
    }
    waits
}

/// In one queue wait row 0 with number 4 and row 2 with number 3, both low, and row 1 very low with number 0; in another row 3, highest.
fn fill<L: Ledger>(
    pending: &mut Pending,
    queue: &Text,
    other: &Text,
    steps: &mut Steps<L>,
) -> bool {
    wait(pending, 0, queue, Priority::Low, 4, steps)
        && wait(pending, 1, queue, Priority::VeryLow, 0, steps)
        && wait(pending, 2, queue, Priority::Low, 3, steps)
        && wait(pending, 3, other, Priority::Highest, 9, steps)
}

/// The best rows of a queue, again and again.
fn takes<L: Ledger>(pending: &mut Pending, queue: &Text, row: u32, steps: &mut Steps<L>) -> bool {
    pending.best(queue, steps) == Some(row) && leave(pending, row, steps)
}

#[test]
fn the_best_is_of_the_first_priority_and_then_the_least_number(
    rt: HostRuntime,
) -> Result<(), Fail> {
    take_best::<Brand>(&rt, rt.alloc(), Blank::new(1))
}

fn take_best<L: Ledger>(rt: &impl Abort, alloc: Global, blank: Blank) -> Result<(), Fail>
    requires name { blank.name ≡ L.name }
    requires parts { blank.parts ≡ L.parts }
    requires some { 0 < blank.parts }
{
    let mut pending = Pending::new(alloc);
    let are_taken = are_taken(alloc, &mut pending, &mut Steps::<L>::new(blank));
    drop(pending);
    assert!(rt; are_taken?);
    Ok(())
}

fn are_taken<L: Ledger>(
    alloc: Global,
    pending: &mut Pending,
    steps: &mut Steps<L>,
) -> Result<bool, AllocError> {
    let queue = Text::from_str(alloc, "prov/wt")?;
    let other = Text::from_str(alloc, "prov/other")?;
    let was_empty = pending.best(&queue, steps).is_none();
    pending.reserve(&queue, 3, 4)?;
    pending.reserve(&other, 1, 4)?;
    Ok(was_empty && takes_four(pending, &queue, &other, steps))
}

/// Whether two queues that are filled so give up their rows in this order.
fn takes_four<L: Ledger>(
    pending: &mut Pending,
    queue: &Text,
    other: &Text,
    steps: &mut Steps<L>,
) -> bool {
    fill(pending, queue, other, steps)
        && takes(pending, queue, 2, steps)
        && takes(pending, queue, 0, steps)
        && takes(pending, queue, 1, steps)
        && pending.best(queue, steps).is_none()
        && pending.best(other, steps) == Some(3)
}

/// In one queue wait rows 0 to 9, of every priority and added in no order; in another row 10.
fn fill_ten<L: Ledger>(
    pending: &mut Pending,
    queue: &Text,
    other: &Text,
    steps: &mut Steps<L>,
) -> bool {
    let rows = [
        (0, Priority::Low, 12),
        (1, Priority::Highest, 30),
        (2, Priority::VeryLow, 1),
        (3, Priority::Medium, 7),
        (4, Priority::Highest, 5),
        (5, Priority::Lowest, 0),
        (6, Priority::High, 40),
        (7, Priority::VeryHigh, 41),
        (8, Priority::Medium, 6),
        (9, Priority::Low, 11),
    ];
    for (row, priority, number) in rows {
        if !wait(pending, row, queue, priority, number, steps) {
            return false;
        }
    }
    wait(pending, 10, other, Priority::Highest, 2, steps)
}

#[test]
fn the_first_rows_come_by_priority_and_then_by_number(rt: HostRuntime) -> Result<(), Fail> {
    walk_ten::<Brand>(&rt, rt.alloc(), Blank::new(1))
}

fn walk_ten<L: Ledger>(rt: &impl Abort, alloc: Global, blank: Blank) -> Result<(), Fail>
    requires name { blank.name ≡ L.name }
    requires parts { blank.parts ≡ L.parts }
    requires some { 0 < blank.parts }
{
    let mut pending = Pending::new(alloc);
    let are_walked = are_walked(alloc, &mut pending, &mut Steps::<L>::new(blank));
    drop(pending);
    assert!(rt; are_walked?);
    Ok(())
}

fn are_walked<L: Ledger>(
    alloc: Global,
    pending: &mut Pending,
    steps: &mut Steps<L>,
) -> Result<bool, AllocError> {
    let queue = Text::from_str(alloc, "prov/wt")?;
    let other = Text::from_str(alloc, "prov/other")?;
    let was_empty = pending.count(&queue) == 0 && are_firsts(pending, &queue, [].as_slice(), steps);
    pending.reserve(&queue, 10, 11)?;
    pending.reserve(&other, 1, 11)?;
    Ok(was_empty && walks_ten(pending, &queue, &other, steps))
}

/// Whether two queues that are filled so have their rows in this order.
fn walks_ten<L: Ledger>(
    pending: &mut Pending,
    queue: &Text,
    other: &Text,
    steps: &mut Steps<L>,
) -> bool {
    fill_ten(pending, queue, other, steps)
        && are_firsts(
            pending,
            queue,
            [4, 1, 7, 6, 8, 3, 9, 0, 2, 5].as_slice(),
            steps,
        )
        && pending.count(queue) == 10
        && pending.best(queue, steps) == Some(4)
        && are_firsts(pending, other, [10].as_slice(), steps)
}

/// Whether the rows of a queue come in this order, and no others.
fn are_firsts<L: Ledger>(
    pending: &Pending,
    queue: &Text,
    rows: &[u32],
    steps: &mut Steps<L>,
) -> bool {
    let mut firsts = pending.firsts(queue);
    for row in rows {
        if firsts.next(steps) != Some(*row) {
            return false;
        }
    }
    firsts.next(steps).is_none()
}

#[test]
fn each_queue_has_room_of_its_own(rt: HostRuntime) -> Result<(), Fail> {
    wait_by_room::<Brand>(&rt, rt.alloc(), Blank::new(1))
}

fn wait_by_room<L: Ledger>(rt: &impl Abort, alloc: Global, blank: Blank) -> Result<(), Fail>
    requires name { blank.name ≡ L.name }
    requires parts { blank.parts ≡ L.parts }
    requires some { 0 < blank.parts }
{
    let mut pending = Pending::new(alloc);
    let is_kept = waits_by_room(alloc, &mut pending, &mut Steps::<L>::new(blank));
    drop(pending);
    assert!(rt; is_kept?);
    Ok(())
}

fn waits_by_room<L: Ledger>(
    alloc: Global,
    pending: &mut Pending,
    steps: &mut Steps<L>,
) -> Result<bool, AllocError> {
    let queue = Text::from_str(alloc, "prov/wt")?;
    let other = Text::from_str(alloc, "prov/other")?;
    pending.reserve(&queue, 1, 9)?;
    let is_full = !wait(pending, 0, &other, Priority::Low, 0, steps)
        && wait(pending, 0, &queue, Priority::Low, 0, steps)
        && pending.spare(&queue) == 0
        && !wait(pending, 1, &queue, Priority::Low, 1, steps);
    pending.reserve(&queue, 2, 9)?;
    Ok(is_full && pending.spare(&queue) == 2)
}

/// Rows of which each falls due before all those that were added before it rise to the top, and leave in their order.
#[test]
fn the_last_added_rises_to_the_top(rt: HostRuntime) -> Result<(), Fail> {
    rise_to_the_top::<Brand>(&rt, rt.alloc(), Blank::new(1))
}

fn rise_to_the_top<L: Ledger>(rt: &impl Abort, alloc: Global, blank: Blank) -> Result<(), Fail>
    requires name { blank.name ≡ L.name }
    requires parts { blank.parts ≡ L.parts }
    requires some { 0 < blank.parts }
{
    let mut dues = Leases::new(alloc);
    let do_rise = do_rise(&mut dues, &mut Steps::<L>::new(blank));
    drop(dues);
    assert!(rt; do_rise?);
    Ok(())
}

fn do_rise<L: Ledger>(dues: &mut DueRows, steps: &mut Steps<L>) -> Result<bool, AllocError> {
    dues.reserve(9, 9)?;
    for row in 0..9 {
        let due = 90 - 10 * row as u64;
        if !hold(dues, row, due, steps) || !is_first(dues, 90, Some((due, row)), steps) {
            return Ok(false);
        }
    }
    for left in 0..9 {
        let first = (10 + 10 * left as u64, 8 - left);
        if !is_first(dues, 90, Some(first), steps) || !change(dues, 8 - left, None, steps) {
            return Ok(false);
        }
    }
    Ok(is_first(dues, 90, None, steps))
}

/// The first row that is added takes no step.
#[test]
fn an_add_to_none_takes_no_step(rt: HostRuntime) -> Result<(), Fail> {
    count_first::<Brand>(rt.alloc(), Blank::new(1))?;
    Ok(())
}

fn count_first<L: Ledger>(alloc: Global, blank: Blank) -> Result<(), AllocError>
    requires name { blank.name ≡ L.name }
    requires parts { blank.parts ≡ L.parts }
    requires some { 0 < blank.parts }
{
    add_to_none(alloc, &mut Steps::<L>::new(blank))
}

fn add_to_none<L: Ledger>(alloc: Global, steps: &mut Steps<L>) -> Result<(), AllocError>
    ensures { OnOk result (steps.new ≡ steps.old) }
{
    let mut leases = Leases::new(alloc);
    leases.reserve(1, 1)?;
    leases.add(0, Moment::FIRST, steps);
    Ok(())
}
