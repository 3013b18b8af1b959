//! A task whose run is lost, over a disk: what `check` counts of each image.

use crate::disks::{ANSWER, case, each_is_checked};
use crate::outcomes::{Case, Outcome, house_at, outcome_in};
use console_commands::Status;
use disk_base::MemoryDisk;
use farm_text::Moment;
use houses::MemoryHouse;
use std::alloc::{AllocError, Global};
use std::sync::Wait;
use std::test::Fail;
use std::thread::Threads;

/// A task is made, claimed, kept for longer, and reported when the claim has ended.
const INPUT: &[u8] =
    b"PUT /api/queue/v1/task/AAAAAAAAQACAAAAAAAAAAA HTTP/1.1\r\nContent-Length: 211\r\n\r\n{\"created\":\"2024-01-01T00:00:00.000Z\",\"deadline\":\"2024-01-02T00:00:00.000Z\",\"metadata\":{\"description\":\"d\",\"name\":\"n\",\"owner\":\"o@example.com\",\"source\":\"https://example.com/\"},\"payload\":{},\"taskQueueId\":\"prov/wt\"}POST /api/queue/v1/claim-work/prov/wt HTTP/1.1\r\nContent-Length: 34\r\n\r\n{\"workerGroup\":\"g\",\"workerId\":\"w\"}POST /api/queue/v1/task/AAAAAAAAQACAAAAAAAAAAA/runs/0/reclaim HTTP/1.1\r\n\r\nPOST /api/queue/v1/task/AAAAAAAAQACAAAAAAAAAAA/runs/0/completed HTTP/1.1\r\n\r\n";

/// When each of these comes: at midnight of 2024-01-01, ten seconds later, a millisecond before the claim ends, and when it does.
const MOMENTS: &[u64] = &[
    1_704_067_200_000,
    1_704_067_210_000,
    1_704_068_409_999,
    1_704_069_609_999,
];

/// Those moments.
fn moments(alloc: Global) -> Result<Vec<Moment>, Fail> {
    let mut moments = Vec::new(alloc);
    for millis in MOMENTS {
        moments.push(Moment::from_millis(*millis).ok_or("a moment")?)?;
    }
    Ok(moments)
}

/// A house with a farm that is open to all, an empty disk and this input, whose clock tells these moments.
fn house_of(alloc: Global, case: &Case, moments: Vec<Moment>) -> Result<MemoryHouse, AllocError> {
    let name = String::from_str(alloc, "farm.disk")?;
    let disk = MemoryDisk::new(alloc, &[], 8192, 64, Vec::new(alloc))?;
    match house_at(alloc, case, moments, 8192) {
        Ok(house) => Ok(house.with_disk(name, disk)),
        Err(AllocError) => {
            drop(disk);
            Err(AllocError)
        }
    }
}

/// The same with those moments.
fn house(alloc: Global, case: &Case) -> Result<MemoryHouse, Fail> {
    let moments = moments(alloc)?;
    Ok(house_of(alloc, case, moments)?)
}

/// Whether the first reply is a success, some reply is a conflict, and nothing failed.
fn is_told(done: &Outcome) -> Result<[bool; 3], Fail> {
    let replies = str::from_utf8(done.output.as_slice())?;
    Ok([
        done.status == Status::Done,
        replies.starts_with("HTTP/1.1 200 OK\r\n"),
        replies.contains("HTTP/1.1 409 Conflict\r\n"),
    ])
}

/// The same of a run over this house, and whether each image of its disk keeps four records of one task.
fn lose(
    rt: &(impl Threads + Wait + Sync),
    alloc: Global,
    case: &Case,
    house: &mut MemoryHouse,
) -> Result<([bool; 3], bool), Fail> {
    let done = outcome_in(rt, alloc, case, house)?;
    let replies = is_told(&done);
    drop(done);
    let replies = replies?;
    let line = b"ok roles=1 clients=0 hooks=0 records=4 tasks=1\n";
    Ok((replies, each_is_checked(rt, alloc, house, line)?))
}

/// The same of a house of its own.
fn loses(rt: &(impl Threads + Wait + Sync), alloc: Global) -> Result<([bool; 3], bool), Fail> {
    let case = case(ANSWER, INPUT);
    let mut house = house(alloc, &case)?;
    let told = lose(rt, alloc, &case, &mut house);
    drop(house);
    told
}

// Four records: the task is made, claimed and kept for longer, and then the end of its claim is a tick. The report is refused, so it is none.
#[test]
fn a_lost_run_is_four_records(rt: HostRuntime) -> Result<(), Fail> {
    let (replies, is_kept) = loses(&rt, rt.alloc())?;
    assert_eq!(rt; (replies, is_kept), ([true; 3], true));
    Ok(())
}
