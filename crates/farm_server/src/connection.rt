//! One connection, message by message.
ghost use Rattle.std.specs.Prelude.{◌≡◌, ◌-◌, ◌<◌, ◌≤◌, length, IsNone};
ghost use Rattle.std.specs.Io.KnownBytes.{prepend_known};
ghost use Rattle.http_wire.specs.Whole.{piece_size};
ghost use Rattle.farm_asks.specs.Questions.{IsSaidCall};
ghost use Rattle.farm_server.specs.Served.{outside_of, Serves};
ghost use Rattle.farm_server.specs.Turn.{telling_of, AsksOnce, Ends, Refuses, Turns};
ghost use Rattle.farm_server.specs.declared.served.TheConstants.{REQUESTS};

use crate::gate::{Gate, When};
use crate::served::{REQUESTS, Served};
use crate::write::write_reply;
use api_routes::{a_called_task_is_said, call_of, caller_of, own_reply};
use causes::Failed;
use farm_asks::question::{Call, Caller, Question};
use farm_asks::reply::{Asked, Reply};
use farm_desk::Desk;
use farm_machine::law::Farm;
use farm_text::{Clock, Draws};
use http_wire::{Link, Message, Reader, Wire, write_all};
use route_table::Table;
use std::alloc::Global;

/// Serves one connection: takes requests from the link (RFC 9112), asks the desk each of them, and writes the replies in
/// order, until the stream ends, a request closes it (section 9.6), or a thousand were answered. The link is read only
/// while a request is not there whole, and once the reply to the one before is written; what the clauses say of both is
/// that less than a piece of 8,192 bytes is read beyond a request.
///
/// For each request the clock is read once, one id is drawn and the desk is asked once, so a desk that has a thousand asks
/// left is needed. The gate is told of each request in turn, before the desk is asked and after the reply is written, but
/// of no reply whose write failed. That it is told before the desk is asked, no clause says: the logs of two objects have
/// no order between them. Of the answers but `NoMemory` each has its cause in the bytes that were read or in a count of the
/// link.
pub fn serve_connection<
    L: Link,
    K: Desk<Question = Question, Answer = Asked, Law = Farm>,
    C: Clock,
    R: Draws,
    G: Gate,
>(alloc: Global, link: &mut L, desk: &mut K, clock: &mut C, draws: &mut R, gate: &mut G) -> Served
    requires { REQUESTS ≤ K.spare desk.old }
    ensures home { K.home desk.new ≡ K.home desk.old }
    ensures serves { Serves
        (record { stands = K.stands desk.old; spare = K.spare desk.old })
        (record { stands = K.stands desk.new; spare = K.spare desk.new })
        (outside_of L.Link C.Clock R.Draws G.Gate link.old clock.old draws.old gate.old)
        (outside_of L.Link C.Clock R.Draws G.Gate link.new clock.new draws.new gate.new)
        result }
{
    match Table::new(alloc) {
        Ok(table) => serve_routed(alloc, &table, link, desk, clock, draws, gate),
        Err(_) => Served::NoMemory,
    }
}

/// The same with a table of routes that is there, so that it is made once where many connections are served.
pub fn serve_routed<
    L: Link,
    K: Desk<Question = Question, Answer = Asked, Law = Farm>,
    C: Clock,
    R: Draws,
    G: Gate,
>(
    alloc: Global,
    table: &Table,
    link: &mut L,
    desk: &mut K,
    clock: &mut C,
    draws: &mut R,
    gate: &mut G,
) -> Served
    requires { REQUESTS ≤ K.spare desk.old }
    ensures home { K.home desk.new ≡ K.home desk.old }
    ensures serves { Serves
        (record { stands = K.stands desk.old; spare = K.spare desk.old })
        (record { stands = K.stands desk.new; spare = K.spare desk.new })
        (outside_of L.Link C.Clock R.Draws G.Gate link.old clock.old draws.old gate.old)
        (outside_of L.Link C.Clock R.Draws G.Gate link.new clock.new draws.new gate.new)
        result }
{
    let mut reader = match Reader::new(alloc) {
        Ok(reader) => reader,
        Err(_) => return Served::NoMemory,
    };
    'requests: for place in 0..REQUESTS {
        let ended = turn(
            alloc,
            table,
            &mut reader,
            place,
            link,
            desk,
            clock,
            draws,
            gate,
        );
        if let Some(served) = ended {
            return served;
        }
    }
    Served::Full
}

/// Takes one message from the link and answers it, and says why the connection ends here, if it does.
fn turn<
    L: Link,
    K: Desk<Question = Question, Answer = Asked, Law = Farm>,
    C: Clock,
    R: Draws,
    G: Gate,
>(
    alloc: Global,
    table: &Table,
    reader: &mut Reader,
    place: u64,
    link: &mut L,
    desk: &mut K,
    clock: &mut C,
    draws: &mut R,
    gate: &mut G,
) -> Option<Served>
    requires within { place < REQUESTS }
    requires spare { 0 < K.spare desk.old }
    requires held { length reader.old < piece_size }
    ensures home { K.home desk.new ≡ K.home desk.old }
    ensures held { IsNone result → length reader.new < piece_size }
    ensures turns { Turns (REQUESTS - place)
        (record { stands = K.stands desk.old; spare = K.spare desk.old }) (record { stands = K.stands desk.new; spare = K.spare desk.new })
        (record (outside_of L.Link C.Clock R.Draws G.Gate link.old clock.old draws.old gate.old) { left = prepend_known reader.old (L.left link.old) })
        (outside_of L.Link C.Clock R.Draws G.Gate link.new clock.new draws.new gate.new) (prepend_known reader.new (L.left link.new)) result }
{
    match reader.next_request(alloc, link) {
        Ok(message) => answer(alloc, table, message, place, link, desk, clock, draws, gate),
        Err(reason) => Some(refuse(link, reason)),
    }
}

/// Answers one message, and says why the connection ends here, if it does.
fn answer<
    L: Link,
    K: Desk<Question = Question, Answer = Asked, Law = Farm>,
    C: Clock,
    R: Draws,
    G: Gate,
>(
    alloc: Global,
    table: &Table,
    message: Message,
    place: u64,
    link: &mut L,
    desk: &mut K,
    clock: &mut C,
    draws: &mut R,
    gate: &mut G,
) -> Option<Served>
    requires within { place < REQUESTS }
    requires spare { 0 < K.spare desk.old }
    ensures home { K.home desk.new ≡ K.home desk.old }
    ensures ends { Ends (REQUESTS - place)
        (record { stands = K.stands desk.old; spare = K.spare desk.old }) (record { stands = K.stands desk.new; spare = K.spare desk.new })
        (telling_of (outside_of L.Link C.Clock R.Draws G.Gate link.old clock.old draws.old gate.old))
        (telling_of (outside_of L.Link C.Clock R.Draws G.Gate link.new clock.new draws.new gate.new)) message result }
    ensures left { L.left link.new ≡ L.left link.old }
    ensures read_faults { L.read_faults link.new ≡ L.read_faults link.old }
{
    let call = match call_of(alloc, table, &message) {
        Ok(call) => call,
        Err(_) => return Some(Served::NoMemory),
    };
    a_called_task_is_said();
    let closes = message.closes;
    gate.at(When::Asked(place));
    let reply = ask(caller_of(message), call, desk, clock, draws);
    let is_last = place >= REQUESTS - 1;
    if let Err(Failed) = write_reply(link, &reply, closes || is_last) {
        return Some(Served::WriteFault);
    }
    gate.at(When::Answered(place));
    if closes && !is_last {
        return Some(Served::Closed);
    }
    None
}

/// Asks the desk one call, with the moment that the clock tells and the id that is drawn.
fn ask<K: Desk<Question = Question, Answer = Asked, Law = Farm>, C: Clock, R: Draws>(
    caller: Caller,
    call: Call,
    desk: &mut K,
    clock: &mut C,
    draws: &mut R,
) -> Reply
    requires spare { 0 < K.spare desk.old }
    requires said { IsSaidCall call }
    ensures home { K.home desk.new ≡ K.home desk.old }
    ensures once { AsksOnce
        (record { stands = K.stands desk.old; spare = K.spare desk.old })
        (record { stands = K.stands desk.new; spare = K.spare desk.new })
        (C.told clock.old) (C.told clock.new) (R.told draws.old) (R.told draws.new)
        caller call result }
{
    let moment = clock.now();
    let id = draws.draw();
    desk.ask(Question::new(moment, id, caller, call)).reply
}

/// Ends a connection on which no message came, after the wire's own reply where it refuses what came.
fn refuse<L: Link>(link: &mut L, reason: Wire) -> Served
    ensures refuses { Refuses (L.written link.old) (L.written link.new) (L.write_faults link.old)
        (L.write_faults link.new) reason result }
    ensures later { L.write_faults link.old ≤ L.write_faults link.new }
    ensures left { L.left link.new ≡ L.left link.old }
    ensures read_faults { L.read_faults link.new ≡ L.read_faults link.old }
{
    match reason {
        Wire::End => Served::Closed,
        Wire::EndedInside => Served::EndedInside,
        Wire::ReadFault => Served::ReadFault,
        Wire::NoMemory => Served::NoMemory,
        Wire::HeadFault | Wire::HeadTooLarge | Wire::NoLength | Wire::BodyTooLarge => {
            match write_all(link, own_reply(reason)) {
                Ok(()) => Served::WireFault(reason),
                Err(Failed) => Served::WriteFault,
            }
        }
    }
}
