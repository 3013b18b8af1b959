//! What falls due, turn by turn. None of it takes memory.
ghost use Rattle.std.specs.Prelude.{◌≡◌, ◌≤◌, ◌+◌, true, false, find, length};
ghost use Rattle.std.specs.List.{list_any, list_all};
ghost use Rattle.run_states.specs.declared.reasons.ReasonResolved.TheVariants.{ClaimExpired};
ghost use Rattle.run_states.specs.Rows.{loses_claim, exceeded};
ghost use Rattle.run_states.specs.Moves.{expired};
ghost use Rattle.task_index.specs.Ready.{settled};
ghost use Rattle.task_index.specs.Due.{meets_deadline, change_first, draws, resolved_at};
ghost use Rattle.task_index.specs.Sweep.{numbered, all_turns, runs_made, fits};
ghost use Rattle.task_index.specs.Indexed.{IsIndexOf};

use farm_text::Moment;
use run_states::TaskRow;
use task_index::index::Index;
use task_index::settle::settle;

/// Resolves all that is due at this moment, each at its own moment, after which the tasks settle each time; and answers the number that is
/// drawn next.
pub(crate) fn resolve_due(
    rows: &mut [TaskRow],
    index: &mut Index,
    first: u64,
    moment: Moment,
) -> u64
    requires index { IsIndexOf index.old rows.old }
    requires few { length rows.old ≤ 1_000_000 }
    requires fit { list_all fits rows.old ≡ true }
    requires drawn { first ≤ runs_made rows.old }
    ensures index { IsIndexOf index.new rows.new }
    ensures turns { all_turns (numbered rows.old first) moment ≡ numbered rows.new result }
    ensures fit { list_all fits rows.new ≡ true }
    ensures drawn { result ≤ runs_made rows.new }
{
    let mut next = first;
    'turns: while let Some(at) = index.first_due(rows, moment) {
        next += turn(rows, index, at, next);
    }
    next
}

/// One turn: what falls due first is resolved, at this moment, and the tasks settle. Answers how many numbers are drawn.
fn turn(rows: &mut [TaskRow], index: &mut Index, at: Moment, number: u64) -> u64
    requires index { IsIndexOf index.old rows.old }
    requires few { length rows.old ≤ 1_000_000 }
    requires drawn { number ≤ 50_000_000 }
    ensures index { IsIndexOf index.new rows.new }
    ensures turn { settled (resolved_at (numbered rows.old number) at) at ≡ numbered rows.new (number + result) }
    ensures few { result ≤ 1_000_001 }
{
    let drawn = resolve_first(rows, index, at, number);
    drawn + settle(rows, index, at, number + drawn)
}

/// Resolves what falls due first, at this moment. Answers how many numbers are drawn.
fn resolve_first(rows: &mut [TaskRow], index: &mut Index, at: Moment, number: u64) -> u64
    requires { IsIndexOf index.old rows.old }
    ensures index { IsIndexOf index.new rows.new }
    ensures turn { resolved_at (numbered rows.old number) at ≡ numbered rows.new (number + result) }
    ensures few { result ≤ 1 }
{
    if meet_deadline(rows, index, at) {
        return 0;
    }
    lose_claim(rows, index, at, number)
}

/// Resolves the first task whose deadline is at this very moment. Answers whether there is one.
fn meet_deadline(rows: &mut [TaskRow], index: &mut Index, at: Moment) -> bool
    requires { IsIndexOf index.old rows.old }
    ensures index { IsIndexOf index.new rows.new }
    ensures found { result ≡ list_any (meets_deadline at) rows.old }
    ensures rows { rows.new ≡ change_first (meets_deadline at) (exceeded at) rows.old }
{
    let Some(place) = index.deadline_place(rows, at) else {
        return false;
    };
    let row = &mut rows[place];
    row.exceed(at);
    index.changed(rows, place);
    true
}

/// Ends the claim of the first task whose claim ends at this moment or before. Answers how many numbers are drawn.
fn lose_claim(rows: &mut [TaskRow], index: &mut Index, at: Moment, number: u64) -> u64
    requires { IsIndexOf index.old rows.old }
    ensures index { IsIndexOf index.new rows.new }
    ensures rows { rows.new ≡ change_first (loses_claim at) (expired number at) rows.old }
    ensures drawn { result ≡ draws ClaimExpired (find (loses_claim at) rows.old) }
{
    let Some(place) = index.lost_place(rows, at) else {
        return 0;
    };
    let row = &mut rows[place];
    let drawn = u64::from(row.retries_left().min(1));
    row.expire(at, number);
    index.changed(rows, place);
    drawn
}
