//! One ask in turn.
ghost use Rattle.std.specs.Prelude.{◌≡◌, ◌<◌, [], ◌∷◌};
ghost use Rattle.shared_desk.specs.declared.view.Stage.TheVariants.{Waiting};
ghost use Rattle.shared_desk.specs.Rule.{IsAt, IsAtRest, HasTaken, HasAskedObject, HasTurn, standing};

use crate::rule::{Hall, Seat};
use crate::steps::{draw, look, raise};
use farm_desk::Object;
use std::marker::Brand;
use std::snapshot::Snapshot;
use std::sync::Wait;
use std::time::Duration;
use std::{hint, thread};

/// The rounds of waiting that spin, each twice as long as the one before it.
const SPINNING: u32 = 7;

/// The rounds that spin or yield the processor, of those who are not next.
const YIELDING: u32 = 12;

/// The rounds that spin or yield the processor, of the one who is next.
const YIELDING_NEXT: u32 = 512;

/// The tickets before a caller's own from which on it is woken as each is served. So a raise wakes few.
const NEAR: u64 = 3;

/// The microseconds after which a caller that is near looks again, also where nobody woke it.
const LONGEST_NAP: u64 = 10_000;

/// The most microseconds that a round sleeps, of those who are not near.
const LONGEST_SLEEP: u64 = 96;

/// One ask: draws a ticket, waits until it is served, asks the object, and lets the next ticket be served.
pub(crate) fn ask_in_turn<O: Object, R: Wait>(
    rt: &R,
    hall: &Hall<O>,
    seat: &mut Seat<O>,
    question: O::Question,
) -> O::Answer
    requires at { IsAt hall.now.table_id seat.old.table_id }
    requires rest { IsAtRest O.Law.rules O.state seat.old.me }
    requires left { 0 < seat.old.me.0.left }
    ensures at { seat.new.table_id ≡ seat.old.table_id }
    ensures rest { IsAtRest O.Law.rules O.state seat.new.me }
    ensures turn { HasTurn O.Law.rules (standing O.state seat.old.table_id seat.old.me.0) question result (standing O.state seat.new.table_id seat.new.me.0) }
{
    let ticket = draw(hall, seat);
    await_turn(rt, hall, seat, ticket);
    let asked = Snapshot::of(&question);
    let answer = ask_object(hall, seat, question);
    raise::<O, Brand>(hall, seat, &asked, &answer);
    wake_near(hall, ticket);
    answer
}

/// Wakes the callers that are near, where some have drawn a ticket behind this one.
fn wake_near<O: Object>(hall: &Hall<O>, ticket: u64)
    requires { hall.now.table_id.words ≡ 2 }
{
    if hall.peek(0) > ticket.saturating_add(1) {
        hall.wake_all(1);
    }
}

/// Waits until the ticket is served, and takes the object.
fn await_turn<O: Object, R: Wait>(rt: &R, hall: &Hall<O>, seat: &mut Seat<O>, ticket: u64)
    requires at { IsAt hall.now.table_id seat.old.table_id }
    requires waits { (seat.old.me.0.stage ≡ Waiting ticket) × (seat.old.me.1 ≡ []) }
    ensures at { seat.new.table_id ≡ seat.old.table_id }
    ensures taken { HasTaken O.Law.rules O.Law.start O.state O.holds seat.old.me ticket seat.new.me }
{
    let mut round = 0u32;
    let mut before = ticket;
    for _ in rt.forever() {
        let served = look(hall, seat, ticket);
        if served == ticket {
            return;
        }
        if served != before {
            round = 0;
            before = served;
        }
        pause(rt, hall, served, ticket.saturating_sub(served), round);
        round = round.saturating_add(1);
    }
    unreachable!()
}

/// Waits a little: spins at first, then yields the processor, and then sleeps. Who is next yields for longer, since it is soon served. Who is
/// near sleeps until the next ticket is served; the others for a time that grows, and is less than 100 microseconds.
fn pause<O: Object, R: Wait>(rt: &R, hall: &Hall<O>, served: u64, distance: u64, round: u32)
    requires { hall.now.table_id.words ≡ 2 }
{
    let yielding = if distance == 1 {
        YIELDING_NEXT
    } else {
        YIELDING
    };
    if round < SPINNING {
        for _ in 0..1u32 << round {
            hint::spin_loop();
        }
    } else if round < yielding {
        thread::yield_now();
    } else if distance <= NEAR {
        hall.park_timeout(rt, 1, low(served), Duration::from_micros(LONGEST_NAP));
    } else {
        let micros = (4 * u64::from(round - yielding + 1)).min(LONGEST_SLEEP);
        hall.park_timeout(rt, 0, low(hall.peek(0)), Duration::from_micros(micros));
    }
}

/// The low 32 bits of a word.
fn low(word: u64) -> u32 {
    (word % 4_294_967_296) as u32
}

/// Asks the object that the caller has.
fn ask_object<O: Object>(hall: &Hall<O>, seat: &mut Seat<O>, question: O::Question) -> O::Answer
    requires at { IsAt hall.now.table_id seat.old.table_id }
    requires has { (object : O) × (seat.old.me.1 ≡ (0, object) ∷ []) }
    ensures at { seat.new.table_id ≡ seat.old.table_id }
    ensures asked { HasAskedObject O.Law.rules O.Law.start O.state O.holds seat.old.me question result seat.new.me }
{
    seat.slot_mut(hall, 0).ask(question)
}
