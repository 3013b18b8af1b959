//! The steps of a caller at the table.
ghost use Rattle.std.specs.Prelude.{◌≡◌, ◌<◌, ◌≤◌, ◌==◌, [], ◌∷◌, MatchBool};
ghost use Rattle.shared_desk.specs.declared.view.Stage.TheVariants.{Idle, Waiting};
ghost use Rattle.shared_desk.specs.Views.{fewer, fresh, merged, waiting};
ghost use Rattle.shared_desk.specs.Rule.{IsAt, IsKept, AllowsOneMore, HasTaken, MayRaise, raised, IsMerged, HasLearned};
ghost use Rattle.atomic_table.specs.Table.{step};
ghost use mathlib.Core.Option.{none};

use crate::rule::{Asked, Cut, Draw, Hall, Learn, Look, Merge, Portion, Raise, Seat, ViewOf};
use atomic_table::Play;
use farm_desk::Object;
use history::Machine;
use std::snapshot::Snapshot;

/// Makes the number of tickets that are drawn one more, where the rule of the desk allows it.
fn add_ticket<O: Object, M: Play<O, ViewOf<O>>>(hall: &Hall<O>, seat: &mut Seat<O>) -> u64
    requires at { IsAt hall.now.table_id seat.old.table_id }
    requires kept { AllowsOneMore (IsKept O.Law.rules O.Law.start O.state O.holds hall.now.key.value) hall.now.table_id.slots seat.old.id seat.old.me 0 M.then }
    ensures at { seat.new.table_id ≡ seat.old.table_id }
    ensures told { M.then (step hall.now.table_id.slots 0 1 0 none) seat.old.me result seat.new.me }
{
    hall.fetch_add::<M>(seat, 0, 1)
}

/// Makes the number of calls one more, where the rule of the desk allows it: the next ticket is served.
fn add_call<O: Object, M: Play<O, ViewOf<O>>>(hall: &Hall<O>, seat: &mut Seat<O>) -> u64
    requires at { IsAt hall.now.table_id seat.old.table_id }
    requires kept { AllowsOneMore (IsKept O.Law.rules O.Law.start O.state O.holds hall.now.key.value) hall.now.table_id.slots seat.old.id seat.old.me 1 M.then }
    ensures at { seat.new.table_id ≡ seat.old.table_id }
    ensures told { M.then (step hall.now.table_id.slots 1 1 0 none) seat.old.me result seat.new.me }
{
    hall.fetch_add::<M>(seat, 1, 1)
}

/// Draws a ticket.
pub(crate) fn draw<O: Object>(hall: &Hall<O>, seat: &mut Seat<O>) -> u64
    requires at { IsAt hall.now.table_id seat.old.table_id }
    requires idle { (seat.old.me.0.stage ≡ Idle) × (seat.old.me.1 ≡ []) }
    requires left { 0 < seat.old.me.0.left }
    ensures at { seat.new.table_id ≡ seat.old.table_id }
    ensures drawn { seat.new.me ≡ (waiting seat.old.me.0 result, []) }
{
    add_ticket::<O, Draw>(hall, seat)
}

/// Looks which ticket is served, and takes the object where it is this one.
pub(crate) fn look<O: Object>(hall: &Hall<O>, seat: &mut Seat<O>, ticket: u64) -> u64
    requires at { IsAt hall.now.table_id seat.old.table_id }
    requires waits { (seat.old.me.0.stage ≡ Waiting ticket) × (seat.old.me.1 ≡ []) }
    ensures at { seat.new.table_id ≡ seat.old.table_id }
    ensures looked { MatchBool (result == ticket)
        (HasTaken O.Law.rules O.Law.start O.state O.holds seat.old.me ticket seat.new.me)
        (seat.new.me ≡ seat.old.me) }
{
    hall.load::<Look>(seat, 1)
}

/// Gives the object back after an ask, and raises the number that is served.
pub(crate) fn raise<O: Object, M: Asked<O::Question, O::Answer>>(
    hall: &Hall<O>,
    seat: &mut Seat<O>,
    _question: &Snapshot<O::Question>,
    _answer: &O::Answer,
)
    requires at { IsAt hall.now.table_id seat.old.table_id }
    requires made { MayRaise O.Law.rules O.Law.start O.state O.holds M.asked seat.old.me }
    ensures at { seat.new.table_id ≡ seat.old.table_id }
    ensures raised { raised O.Law.rules O.state M.asked seat.old.me seat.new.me }
{
    add_call::<O, Raise<M>>(hall, seat);
}

/// Gives asks to a new caller.
pub(crate) fn cut<O: Object, N: Portion>(hall: &Hall<O>, seat: &mut Seat<O>, _asks: u64) -> Seat<O>
    requires at { IsAt hall.now.table_id seat.old.table_id }
    requires rest { (seat.old.me.0.stage ≡ Idle) × (seat.old.me.1 ≡ []) }
    requires asks { N.asks ≤ seat.old.me.0.left }
    ensures at { (seat.new.table_id ≡ seat.old.table_id) × (result.table_id ≡ seat.old.table_id) }
    ensures old { seat.new.me ≡ (fewer seat.old.me.0 N.asks, []) }
    ensures new { result.me ≡ (fresh seat.old.me.0 N.asks, []) }
{
    hall.split_seat::<Cut<N>>(seat)
}

/// Takes in another caller.
fn merge<O: Object>(hall: &Hall<O>, seat: &mut Seat<O>, other: Seat<O>)
    requires at { IsAt hall.now.table_id seat.old.table_id × (other.table_id ≡ hall.now.table_id) }
    requires rest { (seat.old.me.0.stage ≡ Idle) × (seat.old.me.1 ≡ []) }
    requires other { (other.me.0.stage ≡ Idle) × (other.me.1 ≡ []) }
    ensures at { seat.new.table_id ≡ seat.old.table_id }
    ensures merged { seat.new.me ≡ (merged seat.old.me.0 other.me.0, []) }
{
    hall.join_seat::<Merge>(seat, other);
}

/// Sees the history as it is, after another caller was taken in.
fn learn<O: Object>(hall: &Hall<O>, seat: &mut Seat<O>)
    requires at { IsAt hall.now.table_id seat.old.table_id }
    requires merged { IsMerged seat.old.me }
    ensures at { seat.new.table_id ≡ seat.old.table_id }
    ensures learned { HasLearned O.Law.rules O.state seat.old.me seat.new.me }
{
    hall.load::<Learn>(seat, 1);
}

/// Takes in another caller, and sees the history as it then is.
pub(crate) fn take_in<O: Object>(hall: &Hall<O>, seat: &mut Seat<O>, other: Seat<O>)
    requires at { IsAt hall.now.table_id seat.old.table_id × (other.table_id ≡ hall.now.table_id) }
    requires rest { (seat.old.me.0.stage ≡ Idle) × (seat.old.me.1 ≡ []) }
    requires other { (other.me.0.stage ≡ Idle) × (other.me.1 ≡ []) }
    ensures at { seat.new.table_id ≡ seat.old.table_id }
    ensures learned { HasLearned O.Law.rules O.state (merged seat.old.me.0 other.me.0, []) seat.new.me }
{
    merge(hall, seat, other);
    learn(hall, seat);
}
