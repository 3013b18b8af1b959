//! Runs over houses in memory with a disk.

use crate::outcomes::{Case, Outcome, house_of, outcome_in};
use crate::rows::{cut, is_outcome, unescaped, words_of};
use console_commands::Status;
use disk_base::MemoryDisk;
use houses::MemoryHouse;
use listeners::MemoryListener;
use std::alloc::{AllocError, Global};
use std::sync::Wait;
use std::test::Fail;
use std::thread::Threads;

/// A farm that is open to all.
pub(crate) const OPEN_TO_ALL: &[u8] = b"[[role]]\nid = \"anonymous\"\nscopes = [\"*\"]\n";

/// No call has this number.
pub(crate) const NONE: u64 = 1_000_000;

/// These words over a farm that is open to all, and this input.
pub(crate) fn case<'a>(words: &'a [&'a str], input: &'a [u8]) -> Case<'a> {
    Case {
        words,
        farm: OPEN_TO_ALL,
        failing_farm_reads: &[],
        input,
        failing_reads: &[],
        failing_writes: &[],
    }
}

/// A house with a disk `farm.disk` of these bytes, of which the call of this number fails.
pub(crate) fn house_with(
    alloc: Global,
    case: &Case,
    bytes: &[u8],
    failing: u64,
) -> Result<MemoryHouse, AllocError> {
    if bytes.len() > 8192 {
        return Err(AllocError);
    }
    let calls = vec![in alloc; failing]?;
    let name = String::from_str(alloc, "farm.disk")?;
    let disk = MemoryDisk::new(alloc, bytes, 8192, 64, calls)?;
    match house_of(alloc, case) {
        Ok(house) => Ok(house.with_disk(name, disk)),
        Err(AllocError) => {
            drop(disk);
            Err(AllocError)
        }
    }
}

/// A house with such a disk, of which no call fails, and the address `here`.
fn house_and_address(
    alloc: Global,
    case: &Case,
    bytes: &[u8],
) -> Result<(MemoryHouse, String), AllocError> {
    let address = String::from_str(alloc, "here")?;
    let house = house_with(alloc, case, bytes, NONE)?;
    Ok((house, address))
}

/// A house with such a disk, of which no call fails, and this door at `here`.
pub(crate) fn house_behind(
    alloc: Global,
    case: &Case,
    bytes: &[u8],
    door: MemoryListener,
) -> Result<MemoryHouse, AllocError> {
    match house_and_address(alloc, case, bytes) {
        Ok((house, address)) => house.with_door(address, door, 64),
        Err(AllocError) => {
            drop(door);
            Err(AllocError)
        }
    }
}

/// How a run over such a disk ended.
fn outcome_over(
    rt: &(impl Threads + Wait + Sync),
    alloc: Global,
    case: &Case,
    bytes: &[u8],
    failing: u64,
) -> Result<Outcome, AllocError> {
    let mut house = house_with(alloc, case, bytes, failing)?;
    let done = outcome_in(rt, alloc, case, &mut house);
    drop(house);
    done
}

/// The line of `check` over a disk of these bytes.
fn checked(
    rt: &(impl Threads + Wait + Sync),
    alloc: Global,
    bytes: &[u8],
) -> Result<Vec<u8>, AllocError> {
    let words = &["check", "farm.toml", "--disk", "farm.disk"];
    let done = outcome_over(rt, alloc, &case(words, &[]), bytes, NONE)?;
    Ok(done.output)
}

/// Of how many images this is the line of `check`, and of how many it is not.
fn check_all(
    rt: &(impl Threads + Wait + Sync),
    alloc: Global,
    images: &[Vec<u8>],
    line: &[u8],
) -> Result<(u64, u64), AllocError> {
    let mut same = 0u64;
    let mut others = 0u64;
    for image in images {
        if checked(rt, alloc, image)?.as_slice() == line {
            same = same.saturating_add(1);
        } else {
            others = others.saturating_add(1);
        }
    }
    Ok((same, others))
}

/// Whether there are images of the disk that came back to a house, and this is the line of `check` of each.
pub(crate) fn each_is_checked(
    rt: &(impl Threads + Wait + Sync),
    alloc: Global,
    house: &MemoryHouse,
    line: &[u8],
) -> Result<bool, Fail> {
    let disk = house.returned_disk().ok_or("the disk")?;
    let images = disk.images(alloc, &[0, 0xa5])?;
    let checks = check_all(rt, alloc, &images, line);
    drop(images);
    let (same, others) = checks?;
    Ok(same > 0 && others == 0)
}

/// What makes a task, with a deadline a day after the first moment that the clock tells.
pub(crate) const CREATION: &[u8] =
    b"PUT /api/queue/v1/task/AAAAAAAAQACAAAAAAAAAAA HTTP/1.1\r\nContent-Length: 211\r\n\r\n{\"created\":\"1970-01-01T00:00:00.000Z\",\"deadline\":\"1970-01-02T00:00:00.000Z\",\"metadata\":{\"description\":\"d\",\"name\":\"n\",\"owner\":\"o@example.com\",\"source\":\"https://example.com/\"},\"payload\":{},\"taskQueueId\":\"prov/wt\"}";

pub(crate) const ANSWER: &[&str] = &["answer", "farm.toml", "--disk", "farm.disk"];

/// What `check` tells of a disk that keeps one task.
pub(crate) const ONE: &[u8] = b"ok roles=1 clients=0 hooks=0 records=1 tasks=1\n";

/// Whether a task is made, and each image of the disk keeps it.
fn keep(
    rt: &(impl Threads + Wait + Sync),
    alloc: Global,
    case: &Case,
    house: &mut MemoryHouse,
) -> Result<[bool; 3], Fail> {
    let done = outcome_in(rt, alloc, case, house)?;
    let is_done = done.status == Status::Done;
    let is_made = done.output.as_slice().starts_with(b"HTTP/1.1 200 OK\r\n");
    drop(done);
    Ok([is_done, is_made, each_is_checked(rt, alloc, house, ONE)?])
}

/// The same over an empty disk.
fn keeps(rt: &(impl Threads + Wait + Sync), alloc: Global) -> Result<[bool; 3], Fail> {
    let case = case(ANSWER, CREATION);
    let mut house = house_with(alloc, &case, &[], NONE)?;
    let kept = keep(rt, alloc, &case, &mut house);
    drop(house);
    kept
}

#[test]
fn a_disk_keeps_what_was_acknowledged(rt: HostRuntime) -> Result<(), Fail> {
    let empty: &[u8] = b"ok roles=1 clients=0 hooks=0 records=0 tasks=0\n";
    let is_empty = checked(&rt, rt.alloc(), &[])?.as_slice() == empty;
    assert_eq!(rt; (is_empty, keeps(&rt, rt.alloc())?), (true, [true; 3]));
    Ok(())
}

/// An open gate, and a length that the file does not have.
const DAMAGED: &[u8] = &[0xa5, 0, 0, 0, 9, 1, 2, 3];

/// A whole record of no change, and behind it an open gate, and a length that the file does not have.
const BROKEN: &[u8] = &[0xa5, 0, 0, 0, 1, 0, 0xa5, 0, 0, 0, 9, 1, 0];

/// The bytes of a disk of this name: it is damaged, or empty.
pub(crate) fn disk_of(name: &str) -> &'static [u8] {
    match name {
        "damaged" => DAMAGED,
        "broken" => BROKEN,
        _ => &[],
    }
}

/// The words, the disk, the input, the call of the disk that fails, the status, the output and the notes. The opening of an empty disk is four
/// calls, so the sixth call is the first sync after it.
const FAULTS: &str =
    r#"answer farm.toml --disk farm.disk||PUT /api/queue/v1/task/AAAAAAAAQACAAAAAAAAAAA HTTP/1.1\r\nContent-Length: 211\r\n\r\n{"created":"1970-01-01T00:00:00.000Z","deadline":"1970-01-02T00:00:00.000Z","metadata":{"description":"d","name":"n","owner":"o@example.com","source":"https://example.com/"},"payload":{},"taskQueueId":"prov/wt"}GET /api/queue/v1/ping HTTP/1.1\r\n\r\n|5|4|HTTP/1.1 500 Internal Server Error\r\nContent-Length: 61\r\nContent-Type: application/json\r\n\r\n{"code":"DiskFault","details":{},"message":"the disk failed"}HTTP/1.1 500 Internal Server Error\r\nContent-Length: 66\r\nContent-Type: application/json\r\n\r\n{"code":"Halted","details":{},"message":"the disk failed earlier"}|the disk failed: farm.disk\n
answer farm.toml --disk farm.disk||GET /api/queue/v1/ping HTTP/1.1\r\n\r\n|1|4||*
answer farm.toml --disk other.disk||GET /api/queue/v1/ping HTTP/1.1\r\n\r\n|1000000|4||the disk failed: other.disk: entity not found\n
answer farm.toml --disk farm.disk|damaged|GET /api/queue/v1/ping HTTP/1.1\r\n\r\n|1000000|9||the disk is damaged: farm.disk: at byte 0\n
check farm.toml --disk farm.disk|damaged||1000000|9||*
check farm.toml --disk farm.disk|broken||1000000|9||the disk is damaged: farm.disk: at byte 0\n"#;

/// Whether such a row holds.
fn fault_holds(rt: &(impl Threads + Wait + Sync), alloc: Global, row: &str) -> Result<bool, Fail> {
    let (line, rest) = cut(row);
    let (disk, rest) = cut(rest);
    let (input, rest) = cut(rest);
    let (failing, rest) = cut(rest);
    let (code, told) = cut(rest);
    let failing = failing.parse().ok().ok_or("a number")?;
    let input = unescaped(alloc, input)?;
    let words = words_of(alloc, line)?;
    let done = outcome_over(rt, alloc, &case(&words, &input), disk_of(disk), failing);
    drop(words);
    drop(input);
    let done = done?;
    let is_so = is_outcome(alloc, &done, code, told);
    drop(done);
    is_so
}

/// The first of some such rows that does not hold, or `none`.
fn first_other<'a>(
    rt: &(impl Threads + Wait + Sync),
    alloc: Global,
    rows: &'a str,
) -> Result<&'a str, Fail> {
    for row in rows.split('\n') {
        if !fault_holds(rt, alloc, row)? {
            return Ok(row);
        }
    }
    Ok("none")
}

#[test]
fn a_disk_that_fails_ends_with_4_and_a_damaged_one_with_9(rt: HostRuntime) -> Result<(), Fail> {
    assert_eq!(rt; first_other(&rt, rt.alloc(), FAULTS)?, "none");
    Ok(())
}
