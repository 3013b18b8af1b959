//! Workers with doors in memory, over one farm, with what HTTP/1.1 and the queue service's reference say of their links.
ghost use Rattle.std.specs.Prelude.{◌≡◌, ◌*◌, ◌≤◌, IfOk, length};
ghost use Rattle.farm_server.specs.declared.served.TheConstants.{REQUESTS};
ghost use Rattle.shared_desk.specs.Standing.{fresh_token};
ghost use Rattle.farm_machine.specs.State.{State};

use crate::configs::config_of;
use farm_core::{Bare, bare_farms_cross_threads};
use farm_server::{Gate, NoGate};
use farm_serving::{Ended, Worker, serve};
use farm_text::{ListClock, ListDraws};
use http_wire::{Joined, MemoryLink, MemorySink, MemorySource};
use listeners::{MemoryListener, Returned};
use shared_desk::{Shared, Token};
use std::alloc::{AllocError, Global};
use std::sync::Wait;
use std::test::Fail;
use std::thread::Threads;

const PING: &[u8] = b"GET /api/queue/v1/ping HTTP/1.1\r\n\r\n";

const LAST_PING: &[u8] = b"GET /api/queue/v1/ping HTTP/1.1\r\nConnection: close\r\n\r\n";

const ALIVE: &[u8] =
    b"HTTP/1.1 200 OK\r\nContent-Length: 14\r\nContent-Type: application/json\r\n\r\n{\"alive\":true}";

mod gates;

/// A worker with a door in memory.
type MemoryWorker = Worker<MemoryListener, ListClock, ListDraws, NoGate>;

/// A link with these bytes to read, of which the reads and writes of these numbers fail.
fn link(
    alloc: Global,
    pieces: &[&[u8]],
    reads: &[u64],
    writes: &[u64],
) -> Result<MemoryLink, AllocError> {
    let mut bytes = Vec::new(alloc);
    for piece in pieces {
        bytes.extend_from_slice(piece)?;
    }
    let reads = Vec::from_slice(alloc, reads)?;
    let sink = MemorySink::new(alloc, 1_000, Vec::from_slice(alloc, writes)?)?;
    let source = MemorySource::new(bytes, reads, 8_192);
    Ok(Joined { source, sink })
}

/// A worker at whose door these links come, the last of them first, and whose accepts of these numbers fail.
fn worker(
    alloc: Global,
    coming: Vec<MemoryLink>,
    failing: &[u64],
) -> Result<MemoryWorker, AllocError> {
    let failing = match Vec::from_slice(alloc, failing) {
        Ok(failing) => failing,
        Err(error) => {
            drop(coming);
            return Err(error);
        }
    };
    Ok(Worker {
        door: MemoryListener::new(alloc, coming, failing, Vec::new(alloc))?,
        clock: ListClock::new(Vec::new(alloc)),
        draws: ListDraws::new(Vec::new(alloc)),
        gate: NoGate,
    })
}

/// A desk of an empty farm.
fn desk(alloc: Global) -> Result<(Shared<Bare>, Token<Bare>), Fail>
    ensures { IfOk result (λ made. (made.1.desk ≡ made.0.desk) × (made.1.left ≡ 9223372036854775808)) }
{
    match Shared::new(alloc, Bare::new(alloc, config_of(alloc, "")?)) {
        Ok(made) => Ok(made),
        Err(bare) => {
            drop(bare);
            Err(Fail::new("no memory"))
        }
    }
}

/// Whether so many messages were asked over the link that came back, and so many replies at its beginning say that the server
/// is alive, and stay open.
fn was_alive(back: &Returned, asked: u64, pings: u64) -> bool {
    let written = back.link.sink.written();
    let mut rest = written;
    for _ in 0..pings {
        match rest.strip_prefix(ALIVE) {
            Some(after) => rest = after,
            None => return false,
        }
    }
    back.asked == asked
}

/// Adds links: what comes over the first to be added is no request, of the second a write fails, of the third a read, and the fourth is closed.
fn add_four(alloc: Global, coming: &mut Vec<MemoryLink>) -> Result<(), AllocError> {
    coming.push(link(alloc, &[b"no request\r\n\r\n"], &[], &[])?)?;
    coming.push(link(alloc, &[PING, PING], &[], &[1])?)?;
    coming.push(link(alloc, &[PING], &[1], &[])?)?;
    coming.push(link(alloc, &[PING, PING, LAST_PING, PING], &[], &[])?)?;
    Ok(())
}

/// A worker at whose door they come, and whose second accept fails.
fn troubled(alloc: Global) -> Result<MemoryWorker, AllocError> {
    let mut coming = Vec::new(alloc);
    match add_four(alloc, &mut coming) {
        Ok(()) => worker(alloc, coming, &[1]),
        Err(error) => {
            drop(coming);
            Err(error)
        }
    }
}

/// Lets workers with doors in memory serve at a desk of an empty farm, each with so many accepts: what came of it, and how many messages
/// were asked.
fn served<R: Threads + Wait + Sync, G: Gate + Send>(
    rt: &R,
    alloc: Global,
    workers: &mut [Worker<MemoryListener, ListClock, ListDraws, G>],
    accepts: u64,
) -> Result<(Ended, u64), Fail>
    requires left { length workers.old * (accepts * REQUESTS) ≤ 9223372036854775808 }
{
    let (shared, token) = desk(alloc)?;
    bare_farms_cross_threads();
    let (token, ended) = serve(rt, alloc, &shared, token, workers, accepts);
    let asked = token.asked();
    drop(token);
    drop(shared);
    Ok((ended, asked))
}

/// Whether the links of such a worker came back as they have to.
fn were_served(worker: &MemoryWorker) -> bool {
    let back = worker.door.returned();
    back.len() == 4
        && was_alive(&back[0], 3, 2)
        && was_alive(&back[1], 1, 1)
        && was_alive(&back[2], 2, 1)
        && back[3].asked == 0
}

/// What came of six accepts of such a worker, how many messages were asked, and whether its links came back so.
fn one_serves<R: Threads + Wait + Sync>(rt: &R, alloc: Global) -> Result<(Ended, u64, bool), Fail> {
    let mut workers = [troubled(alloc)?];
    let told = served(rt, alloc, &mut workers, 6);
    let were_served = were_served(&workers[0]);
    drop(workers);
    let (ended, asked) = told?;
    Ok((ended, asked, were_served))
}

#[test]
fn one_worker(rt: HostRuntime) -> Result<(), Fail> {
    let wanted = Ended {
        served: 6,
        accept_faults: 2,
        read_faults: 1,
        write_faults: 1,
        wire_faults: 1,
        no_memory: 0,
    };
    assert_eq!(rt; one_serves(&rt, rt.alloc())?, (wanted, 6, true));
    Ok(())
}

/// Adds two links: one with a single ping, and one with these bytes.
fn add_two(alloc: Global, coming: &mut Vec<MemoryLink>, bytes: &[u8]) -> Result<(), AllocError> {
    coming.push(link(alloc, &[PING], &[], &[])?)?;
    coming.push(link(alloc, &[bytes], &[], &[])?)?;
    Ok(())
}

/// A worker at whose door two links come: one with this many pings, then one with a single ping.
fn pinged(alloc: Global, pings: u64) -> Result<MemoryWorker, AllocError> {
    let mut bytes = Vec::new(alloc);
    for _ in 0..pings {
        bytes.extend_from_slice(PING)?;
    }
    let mut coming = Vec::new(alloc);
    match add_two(alloc, &mut coming, bytes.as_slice()) {
        Ok(()) => worker(alloc, coming, &[]),
        Err(error) => {
            drop(coming);
            Err(error)
        }
    }
}

/// Two workers.
type Pair = (MemoryWorker, MemoryWorker);

/// Two such workers.
fn two_pinged(alloc: Global, first: u64, second: u64) -> Result<Pair, AllocError> {
    let one = pinged(alloc, first)?;
    match pinged(alloc, second) {
        Ok(other) => Ok((one, other)),
        Err(error) => {
            drop(one);
            Err(error)
        }
    }
}

/// Four such workers, with one ping, two, three and four.
fn four_pinged(alloc: Global) -> Result<(Pair, Pair), AllocError> {
    let few = two_pinged(alloc, 1, 2)?;
    match two_pinged(alloc, 3, 4) {
        Ok(many) => Ok((few, many)),
        Err(error) => {
            drop(few);
            Err(error)
        }
    }
}

/// Whether two links came back, over which this many pings were answered, and then one.
fn was_pinged(worker: &MemoryWorker, pings: u64) -> bool {
    let back = worker.door.returned();
    back.len() == 2 && was_alive(&back[0], pings, pings) && was_alive(&back[1], 1, 1)
}

/// Whether four workers were.
fn were_pinged(workers: &[MemoryWorker; 4]) -> bool {
    was_pinged(&workers[0], 1)
        && was_pinged(&workers[1], 2)
        && was_pinged(&workers[2], 3)
        && was_pinged(&workers[3], 4)
}

/// What came of three accepts of each of them, how many messages were asked, and whether they were.
fn four_serve<R: Threads + Wait + Sync>(rt: &R, alloc: Global) -> Result<(Ended, u64, bool), Fail> {
    let ((first, second), (third, fourth)) = four_pinged(alloc)?;
    let mut workers = [first, second, third, fourth];
    let told = served(rt, alloc, &mut workers, 3);
    let were_pinged = were_pinged(&workers);
    drop(workers);
    let (ended, asked) = told?;
    Ok((ended, asked, were_pinged))
}

#[test]
fn four_workers(rt: HostRuntime) -> Result<(), Fail> {
    let wanted = Ended {
        served: 14,
        accept_faults: 4,
        read_faults: 0,
        write_faults: 0,
        wire_faults: 0,
        no_memory: 0,
    };
    assert_eq!(rt; four_serve(&rt, rt.alloc())?, (wanted, 14, true));
    Ok(())
}
