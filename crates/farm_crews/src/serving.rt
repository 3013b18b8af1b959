//! Workers serve an object at a shared desk, and the console is told when they are ready and what they did.
ghost use Rattle.std.specs.Prelude.{◌≡◌, ◌*◌, ◌<◌, ◌≤◌, ◌⊎◌, vec_capacity, string_bytes, IfOk, ℕ, map, [], length};
ghost use Rattle.farm_server.specs.declared.served.TheConstants.{REQUESTS};
ghost use Rattle.http_wire.specs.Calls.{state_of};
ghost use Rattle.farm_serving.specs.Connections.{Station};
ghost use Rattle.farm_crews.specs.Crew.{station_by, IsWholeCrew};
ghost use Rattle.console_commands.specs.Inputs.{Tells};
ghost use Rattle.farm_crews.specs.Serves.{ready_text, served_text, IsStatusOf, ServesReady, IsUnready, ServesAll};
ghost use Rattle.console_commands.specs.Writing.{WritesText};

use crate::crew::{Hand, gather};
use console_commands::{Status, write_text};
use farm_asks::question::Question;
use farm_asks::reply::Asked;
use farm_desk::Object;
use farm_machine::law::Farm;
use farm_serving::{Ended as Tally, serve};
use farm_text::{Clock, Draws};
use http_wire::Link;
use listeners::Listener;
use shared_desk::{Shared, Token};
use std::alloc::{AllocError, Global};
use std::sync::Wait;
use std::thread::Threads;

/// How many workers serve, and how many accepts each makes.
#[derive(Clone, Copy, Debug, PartialEq, Eq)]
pub struct Shifts {
    pub workers: usize,
    pub connections: u64,
}

/// Writes that serving begins.
fn tell_ready<L: Link>(console: &mut L) -> Status
    ensures writes { WritesText (state_of L.Link console.old) (state_of L.Link console.new) ready_text result }
    ensures left { L.left console.new ≡ L.left console.old }
    ensures read_faults { L.read_faults console.new ≡ L.read_faults console.old }
{
    write_text(console, b"ready\n")
}

/// The line for so many messages that were asked.
fn served_line(alloc: Global, served: u64) -> Result<String, AllocError>
    ensures { IfOk result (λ line. string_bytes line ≡ served_text served) }
{
    format!(in alloc; "served {served}\n")
}

/// Writes how many messages were asked.
fn tell_served<L: Link>(alloc: Global, served: u64, console: &mut L) -> Status
    ensures { Tells (served_text served) (state_of L.Link console.old) (state_of L.Link console.new) result }
{
    match served_line(alloc, served) {
        Ok(line) => write_text(console, line.as_bytes()),
        Err(_) => Status::NoMemory,
    }
}

/// The status that serving calls for, by what it counted and how the writing of its last line ended.
fn status_after(tally: &Tally, last: Status) -> Status
    ensures { IsStatusOf tally.now last result }
{
    if tally.accept_faults > 0 {
        return Status::Door;
    }
    if tally.read_faults > 0 {
        return Status::Read;
    }
    if tally.write_faults > 0 || last == Status::Write {
        return Status::Write;
    }
    if tally.no_memory > 0 || last == Status::NoMemory {
        return Status::NoMemory;
    }
    if tally.wire_faults > 0 {
        return Status::Wire;
    }
    Status::Done
}

/// Tells the console that the workers are ready, lets them serve, and tells it how many messages were asked.
fn serve_ready<
    R: Threads + Wait + Sync,
    O: Object<Question = Question, Answer = Asked, Law = Farm> + Send,
    L: Link,
    D: Listener + Send,
    C: Clock + Send,
    I: Draws + Send,
>(
    rt: &R,
    alloc: Global,
    shared: &Shared<O>,
    token: Token<O>,
    console: &mut L,
    workers: &mut [Hand<D, C, I>],
    connections: u64,
) -> (Token<O>, Status)
where
    D::Peer: Send,
    requires own { token.desk ≡ shared.now.desk }
    requires left { length workers.old * (connections * REQUESTS) ≤ token.left }
    ensures serves { ServesReady connections (state_of L.Link console.old) (state_of L.Link console.new) token result.0
        (map (station_by D.Listener C.Clock I.Draws) workers.old) (map (station_by D.Listener C.Clock I.Draws) workers.new) result.1
        ⊎ IsUnready (state_of L.Link console.old) (state_of L.Link console.new) token result.0
        (map (station_by D.Listener C.Clock I.Draws) workers.old) (map (station_by D.Listener C.Clock I.Draws) workers.new) result.1 }
{
    match tell_ready(console) {
        Status::Done => {
            let (token, tally) = serve(rt, alloc, shared, token, workers, connections);
            let last = tell_served(alloc, tally.served, console);
            (token, status_after(&tally, last))
        }
        broken => (token, broken),
    }
}

/// What workers left: the object that they served, themselves, and the status that this calls for.
pub struct Left<O, D, C, I> {
    pub object: O,
    pub crew: Vec<Hand<D, C, I>>,
    pub status: Status,
}

/// Lets workers that were gathered serve an object, at a desk of its own.
fn serve_gathered<
    R: Threads + Wait + Sync,
    O: Object<Question = Question, Answer = Asked, Law = Farm> + Send,
    L: Link,
    D: Listener + Send,
    C: Clock + Send,
    I: Draws + Send,
>(
    rt: &R,
    alloc: Global,
    object: O,
    console: &mut L,
    crew: Vec<Hand<D, C, I>>,
    connections: u64,
) -> Left<O, D, C, I>
where
    D::Peer: Send,
    requires few { length crew.items * (connections * REQUESTS) ≤ 9223372036854775808 }
    ensures each { length result.crew.items ≡ length crew.items }
    ensures serves { (count : ℕ) (lent : Station) → IsWholeCrew count lent (map (station_by D.Listener C.Clock I.Draws) crew.items)
        → ServesAll count connections (state_of L.Link console.old) (state_of L.Link console.new) lent (map (station_by D.Listener C.Clock I.Draws) result.crew.items)
        (O.state object) (O.state result.object) (O.holds object) (O.holds result.object) result.status }
{
    let mut crew = crew;
    match Shared::new(alloc, object) {
        Ok((shared, token)) => {
            let workers = crew.as_mut_slice();
            let (token, status) = serve_ready(
                rt,
                alloc,
                &shared,
                token,
                console,
                workers,
                connections,
            );
            let object = shared.close(token);
            Left {
                object,
                crew,
                status,
            }
        }
        Err(object) => Left {
            object,
            crew,
            status: Status::NoMemory,
        },
    }
}

/// Gathers workers for an object in a row that has room for them, of which the first is this one, and lets them serve it.
pub fn serve_object<
    R: Threads + Wait + Sync,
    O: Object<Question = Question, Answer = Asked, Law = Farm> + Send,
    L: Link,
    D: Listener + Send,
    C: Clock + Send + Drop,
    I: Draws + Send + Drop,
>(
    rt: &R,
    alloc: Global,
    object: O,
    console: &mut L,
    first: Hand<D, C, I>,
    row: Vec<Hand<D, C, I>>,
    shifts: Shifts,
) -> Left<O, D, C, I>
where
    D::Peer: Send,
    requires none { row.items ≡ [] }
    requires some { 0 < shifts.workers }
    requires room { shifts.workers ≤ vec_capacity row }
    requires few { shifts.workers * (shifts.connections * REQUESTS) ≤ 9223372036854775808 }
    ensures some { 0 < length result.crew.items }
    ensures serves { ServesAll shifts.workers shifts.connections (state_of L.Link console.old) (state_of L.Link console.new)
        (station_by D.Listener C.Clock I.Draws first) (map (station_by D.Listener C.Clock I.Draws) result.crew.items)
        (O.state object) (O.state result.object) (O.holds object) (O.holds result.object) result.status }
{
    let mut crew = row;
    match gather(first, &mut crew, shifts.workers) {
        Ok(()) => serve_gathered(rt, alloc, object, console, crew, shifts.connections),
        Err(lack) => Left {
            object,
            crew,
            status: lack.status(),
        },
    }
}
