//! Runs of `serve` over houses in memory, at a door and its twins.

use crate::disks::{CREATION, ONE, case, disk_of, each_is_checked, house_behind};
use crate::outcomes::{Case, PING, link};
use crate::rows::{cut, failing, house_comes_to, unescaped};
use houses::MemoryHouse;
use http_wire::MemoryLink;
use listeners::{MemoryListener, Returned};
use std::alloc::{AllocError, Global};
use std::sync::Wait;
use std::test::Fail;
use std::thread::Threads;

/// What a ping is answered.
const ALIVE: &[u8] =
    b"HTTP/1.1 200 OK\r\nContent-Length: 14\r\nContent-Type: application/json\r\n\r\n{\"alive\":true}";

/// The room of a link for replies.
const ROOM: usize = 1024;

/// So many pings.
fn pings(alloc: Global, count: usize) -> Result<Vec<u8>, AllocError> {
    let mut bytes = Vec::new(alloc);
    for _ in 0..count {
        bytes.extend_from_slice(PING)?;
    }
    Ok(bytes)
}

/// One link, with so many pings to read.
fn pinged(alloc: Global, count: usize) -> Result<Vec<MemoryLink>, AllocError> {
    let pings = pings(alloc, count)?;
    let link = link(alloc, &pings, ROOM)?;
    Ok(vec![in alloc; link]?)
}

/// Two links with these bytes, the second of them first.
fn two_links(alloc: Global, second: &[u8], first: &[u8]) -> Result<Vec<MemoryLink>, AllocError> {
    let second = link(alloc, second, ROOM)?;
    match link(alloc, first, ROOM) {
        Ok(first) => Ok(vec![in alloc; second, first]?),
        Err(AllocError) => {
            drop(second);
            Err(AllocError)
        }
    }
}

/// A door without twins, at which two links with these bytes come, the second of them first, and whose accepts of these numbers fail.
fn door(
    alloc: Global,
    second: &[u8],
    first: &[u8],
    failing: &[u64],
) -> Result<MemoryListener, AllocError> {
    let failing = Vec::from_slice(alloc, failing)?;
    let coming = two_links(alloc, second, first)?;
    MemoryListener::new(alloc, coming, failing, Vec::new(alloc))
}

/// The words of `serve` for one worker with two accepts, on this disk and at this address.
fn serve<'a>(disk: &'a str, address: &'a str) -> [&'a str; 10] {
    [
        "serve",
        "farm.toml",
        "--disk",
        disk,
        "--listen",
        address,
        "--workers",
        "1",
        "--connections",
        "2",
    ]
}

/// What a reply is that is not that of a ping: one with success, or another.
fn other_word(reply: &[u8]) -> &'static str {
    if reply.starts_with(b"HTTP/1.1 200 OK\r\n") {
        "done"
    } else {
        "other"
    }
}

/// What was answered to each message that was asked over a link that came back: what a ping is, or something else with success, or not.
fn answered(back: &Returned) -> &'static str {
    let mut rest = back.link.sink.written();
    for _ in 0..back.asked {
        match rest.strip_prefix(ALIVE) {
            Some(after) => rest = after,
            None => return other_word(rest),
        }
    }
    if rest.is_empty() { "alive" } else { "more" }
}

/// That, and how many messages were asked, of each link that came back to a door.
fn links_told(alloc: Global, door: &MemoryListener) -> Result<String, AllocError> {
    let mut told = String::from_str(alloc, ":")?;
    for back in door.returned() {
        let one = format!(in alloc; " {} {}", answered(back), back.asked)?;
        told.push_str(&one)?;
    }
    Ok(told)
}

/// The same of each door that came back to a house.
fn doors_told(alloc: Global, house: &MemoryHouse) -> Result<String, Fail> {
    let doors = house.returned_doors().ok_or("the doors")?;
    let mut told = String::new(alloc);
    for door in doors {
        let links = links_told(alloc, door)?;
        told.push_str(&links)?;
    }
    Ok(told)
}

/// The same once a case is run over a house, and whether it ends with success and this output, and without a note.
fn serve_told(
    rt: &(impl Threads + Wait + Sync),
    alloc: Global,
    case: &Case,
    house: &mut MemoryHouse,
    output: &str,
) -> Result<(bool, String), Fail> {
    let is_so = house_comes_to(rt, alloc, case, house, "0", output)?;
    let doors = doors_told(alloc, house)?;
    Ok((is_so, doors))
}

/// The same, and whether the disk then keeps one task, whatever image of it is left.
fn serve_and_keep(
    rt: &(impl Threads + Wait + Sync),
    alloc: Global,
    case: &Case,
    house: &mut MemoryHouse,
) -> Result<(bool, String, bool), Fail> {
    let (is_so, doors) = serve_told(rt, alloc, case, house, r"ready\nserved 3\n|")?;
    let is_kept = each_is_checked(rt, alloc, house, ONE)?;
    Ok((is_so, doors, is_kept))
}

/// The same where one worker serves two connections: two pings, and what makes a task.
fn one_serves(
    rt: &(impl Threads + Wait + Sync),
    alloc: Global,
) -> Result<(bool, String, bool), Fail> {
    let words = serve("farm.disk", "here");
    let case = case(&words, &[]);
    let pings = pings(alloc, 2)?;
    let door = door(alloc, CREATION, &pings, &[]);
    drop(pings);
    let mut house = house_behind(alloc, &case, &[], door?)?;
    let served = serve_and_keep(rt, alloc, &case, &mut house);
    drop(house);
    served
}

#[test]
fn a_worker_serves_its_connections(rt: HostRuntime) -> Result<(), Fail> {
    let (is_so, doors, is_kept) = one_serves(&rt, rt.alloc())?;
    assert_eq!(rt;
        (is_so, doors.as_str(), is_kept),
        (true, ": alive 2 done 1", true)
    );
    Ok(())
}

/// Puts three twins behind these, at which four pings come, three and two.
fn put_twins(alloc: Global, twins: &mut Vec<Vec<MemoryLink>>) -> Result<(), AllocError> {
    for count in [4, 3, 2] {
        twins.push(pinged(alloc, count)?)?;
    }
    Ok(())
}

/// A door at which one ping comes, with three twins, at which two come, three and four.
fn four_doors(alloc: Global) -> Result<MemoryListener, AllocError> {
    let coming = pinged(alloc, 1)?;
    let mut twins = Vec::new(alloc);
    match put_twins(alloc, &mut twins) {
        Ok(()) => MemoryListener::new(alloc, coming, Vec::new(alloc), twins),
        Err(AllocError) => {
            drop(twins);
            drop(coming);
            Err(AllocError)
        }
    }
}

/// What comes of four workers who serve a connection each.
fn four_serve(rt: &(impl Threads + Wait + Sync), alloc: Global) -> Result<(bool, String), Fail> {
    let mut words = serve("farm.disk", "here");
    words[7] = "4";
    words[9] = "1";
    let case = case(&words, &[]);
    let door = four_doors(alloc)?;
    let mut house = house_behind(alloc, &case, &[], door)?;
    let told = serve_told(rt, alloc, &case, &mut house, r"ready\nserved 10\n|");
    drop(house);
    told
}

#[test]
fn four_workers_serve(rt: HostRuntime) -> Result<(), Fail> {
    let (is_so, doors) = four_serve(&rt, rt.alloc())?;
    assert_eq!(rt;
        (is_so, doors.as_str()),
        (true, ": alive 1: alive 2: alive 3: alive 4")
    );
    Ok(())
}

/// What fails while one worker serves: where it listens, the disk's bytes, the first link's, the number of the accept that fails, whether the first
/// write fails, and then the status, the output and the notes.
const FAULTS: &str =
    r"there||GET /api/queue/v1/ping HTTP/1.1\r\n\r\n|-|-|4||the listener failed: there: entity not found\n
here||GET /api/queue/v1/ping HTTP/1.1\r\n\r\n|accept|-|4|ready\nserved 1\n|the listener failed: here\n
here||none\r\n\r\n|-|-|8|ready\nserved 1\n|the input is refused: a connection sent what is no request, or ended inside one\n
here|damaged|GET /api/queue/v1/ping HTTP/1.1\r\n\r\n|-|-|9||the disk is damaged: farm.disk: at byte 0\n
here||GET /api/queue/v1/ping HTTP/1.1\r\n\r\n|-|write|6||a write failed: of a connection, or of standard output\n";

/// What a row says.
#[derive(Clone, Copy)]
struct Row<'a> {
    address: &'a str,
    disk: &'a str,
    first: &'a str,
    accept: &'a str,
    write: &'a str,
    code: &'a str,
    told: &'a str,
}

/// The parts of a row, which bars cut.
fn parts(row: &str) -> Row<'_> {
    let (address, rest) = cut(row);
    let (disk, rest) = cut(rest);
    let (first, rest) = cut(rest);
    let (accept, rest) = cut(rest);
    let (write, rest) = cut(rest);
    let (code, told) = cut(rest);
    Row {
        address,
        disk,
        first,
        accept,
        write,
        code,
        told,
    }
}

/// A door at which the first link of a row comes, and then a ping.
fn door_of(alloc: Global, row: Row<'_>) -> Result<MemoryListener, AllocError> {
    let first = unescaped(alloc, row.first)?;
    let door = door(alloc, PING, &first, failing(row.accept, "accept"));
    drop(first);
    door
}

/// Whether such a row holds.
fn fault_holds(rt: &(impl Threads + Wait + Sync), alloc: Global, row: &str) -> Result<bool, Fail> {
    let row = parts(row);
    let words = serve("farm.disk", row.address);
    let case = Case {
        failing_writes: failing(row.write, "write"),
        ..case(&words, &[])
    };
    let door = door_of(alloc, row)?;
    let mut house = house_behind(alloc, &case, disk_of(row.disk), door)?;
    let holds = house_comes_to(rt, alloc, &case, &mut house, row.code, row.told);
    drop(house);
    holds
}

/// The first of some such rows that does not hold, or `none`.
fn first_other<'a>(
    rt: &(impl Threads + Wait + Sync),
    alloc: Global,
    rows: &'a str,
) -> Result<&'a str, Fail> {
    for row in rows.split('\n') {
        if !fault_holds(rt, alloc, row)? {
            return Ok(row);
        }
    }
    Ok("none")
}

#[test]
fn what_fails_while_serving_ends_with_its_status(rt: HostRuntime) -> Result<(), Fail> {
    assert_eq!(rt; first_other(&rt, rt.alloc(), FAULTS)?, "none");
    Ok(())
}
