//! Two workers of a service claim at once, where one task waits: one is given its run, and then it runs whoever asks.

use crate::disks::{ANSWER, CREATION, NONE, case, house_behind, house_with};
use crate::outcomes::{Case, link, outcome_in};
use crate::rows::house_comes_to;
use houses::MemoryHouse;
use http_wire::MemoryLink;
use listeners::{MemoryListener, Returned};
use std::alloc::{AllocError, Global};
use std::sync::Wait;
use std::test::Fail;
use std::thread::Threads;

/// A claim of one run, and then a question for the status of the task.
const CLAIM_AND_STATUS: &[u8] =
    b"POST /api/queue/v1/claim-work/prov/wt HTTP/1.1\r\nContent-Length: 34\r\n\r\n{\"workerGroup\":\"g\",\"workerId\":\"w\"}GET /api/queue/v1/task/AAAAAAAAQACAAAAAAAAAAA/status HTTP/1.1\r\n\r\n";

/// Two workers, each of one connection.
const SERVE: &[&str] = &[
    "serve",
    "farm.toml",
    "--disk",
    "farm.disk",
    "--listen",
    "here",
    "--workers",
    "2",
    "--connections",
    "1",
];

/// A copy of the first of these images.
fn first_of(alloc: Global, images: &[Vec<u8>]) -> Result<Vec<u8>, Fail> {
    let image = images.first().ok_or("an image")?;
    Ok(image.as_slice().to_vec(alloc)?)
}

/// The first image of the disk that comes back to this house once a case is run over it.
fn image_after(
    rt: &(impl Threads + Wait + Sync),
    alloc: Global,
    case: &Case,
    house: &mut MemoryHouse,
) -> Result<Vec<u8>, Fail> {
    drop(outcome_in(rt, alloc, case, house)?);
    let disk = house.returned_disk().ok_or("the disk")?;
    let images = disk.images(alloc, &[0])?;
    let image = first_of(alloc, &images);
    drop(images);
    image
}

/// The bytes of a disk that keeps one task, which waits for a worker.
fn disk_with_a_task(rt: &(impl Threads + Wait + Sync), alloc: Global) -> Result<Vec<u8>, Fail> {
    let case = case(ANSWER, CREATION);
    let mut house = house_with(alloc, &case, &[], NONE)?;
    let bytes = image_after(rt, alloc, &case, &mut house);
    drop(house);
    bytes
}

/// One link, over which a claim and a question for the status come.
fn links(alloc: Global) -> Result<Vec<MemoryLink>, AllocError> {
    let link = link(alloc, CLAIM_AND_STATUS, 8192)?;
    Ok(vec![in alloc; link]?)
}

/// One twin, at which one such link comes.
fn twins(alloc: Global) -> Result<Vec<Vec<MemoryLink>>, AllocError> {
    let links = links(alloc)?;
    Ok(vec![in alloc; links]?)
}

/// A door at which one such link comes, with a twin at which another one does.
fn door(alloc: Global) -> Result<MemoryListener, AllocError> {
    let coming = links(alloc)?;
    match twins(alloc) {
        Ok(twins) => MemoryListener::new(alloc, coming, Vec::new(alloc), twins),
        Err(AllocError) => {
            drop(coming);
            Err(AllocError)
        }
    }
}

/// Whether these replies answer a claim so, and the task runs then.
fn tells(replies: &str, claimed: &str) -> bool {
    match replies.rsplit_once("\r\n\r\n") {
        Some((before, status)) => {
            before.contains(claimed) && status.contains("\"state\":\"running\"")
        }
        None => false,
    }
}

/// The same of what was written over a link that came back.
fn is_answered_so(back: &Returned, claimed: &str) -> bool {
    match str::from_utf8(back.link.sink.written()) {
        Ok(replies) => tells(replies, claimed),
        Err(_) => false,
    }
}

/// How many claims over the links of a door were answered so.
fn answered_so(door: &MemoryListener, claimed: &str) -> u64 {
    let mut count = 0u64;
    for back in door.returned() {
        if is_answered_so(back, claimed) {
            count = count.saturating_add(1);
        }
    }
    count
}

/// How many claims were given the run, and how many none.
fn given_and_not(alloc: Global, house: &MemoryHouse) -> Result<String, Fail> {
    let doors = house.returned_doors().ok_or("the doors")?;
    let mut given = 0u64;
    let mut not = 0u64;
    for door in doors {
        given = given.saturating_add(answered_so(door, r#"{"tasks":[{"runId":0,"#));
        not = not.saturating_add(answered_so(door, r#"{"tasks":[]}"#));
    }
    Ok(format!(in alloc; "{given} {not}")?)
}

/// That, once a case is run over this house, and whether the service ends well.
fn claim_in(
    rt: &(impl Threads + Wait + Sync),
    alloc: Global,
    case: &Case,
    house: &mut MemoryHouse,
) -> Result<(bool, String), Fail> {
    let is_done = house_comes_to(rt, alloc, case, house, "0", r"ready\nserved 4\n|")?;
    Ok((is_done, given_and_not(alloc, house)?))
}

/// The same where two workers claim at once.
fn two_claim(
    rt: &(impl Threads + Wait + Sync),
    alloc: Global,
    bytes: &[u8],
) -> Result<(bool, String), Fail> {
    let case = case(SERVE, &[]);
    let door = door(alloc)?;
    let mut house = house_behind(alloc, &case, bytes, door)?;
    let claimed = claim_in(rt, alloc, &case, &mut house);
    drop(house);
    claimed
}

#[test]
fn two_workers_claim_at_once(rt: HostRuntime) -> Result<(), Fail> {
    let bytes = disk_with_a_task(&rt, rt.alloc())?;
    let (is_done, told) = two_claim(&rt, rt.alloc(), &bytes)?;
    assert_eq!(rt; (is_done, told.as_str()), (true, "1 1"));
    Ok(())
}
