//! Stops of appends and of openings, image by image.

use disk_base::{Disk, MemoryDisk};
use disk_journal::{DiskFault, Frame, Journal, OpenFault, frame, frame_tick};
use std::alloc::{AllocError, Global};
use std::test::Fail;

/// How many bodies a disk opens to, or why to none, and how many stand before its damage.
#[derive(Clone, Copy, Debug, PartialEq, Eq)]
enum Outcome {
    Bodies(usize),
    Fault(OpenFault, usize),
}

fn open<D: Disk>(alloc: Global, disk: D) -> (Outcome, D) {
    match Journal::open(alloc, disk) {
        Ok((journal, bodies)) => {
            let outcome = Outcome::Bodies(bodies.len());
            drop(bodies);
            (outcome, journal.into_disk())
        }
        Err((fault, disk, before)) => {
            let outcome = Outcome::Fault(fault, before.len());
            drop(before);
            (outcome, disk)
        }
    }
}

/// Opens a disk and appends to it.
fn append<D: Disk, F: Frame>(alloc: Global, disk: D, frame: &F) -> (Option<DiskFault>, D) {
    match Journal::open(alloc, disk) {
        Ok((mut journal, bodies)) => {
            let fault = journal.append(frame).err();
            drop(bodies);
            (fault, journal.into_disk())
        }
        Err((_, disk, before)) => {
            drop(before);
            (None, disk)
        }
    }
}

fn memory(alloc: Global, file: &[u8], failing: Option<u64>) -> Result<MemoryDisk, AllocError> {
    let mut calls = Vec::new(alloc);
    if let Some(call) = failing {
        calls.push(call)?;
    }
    if file.len() > 64 {
        return Err(AllocError);
    }
    MemoryDisk::new(alloc, file, 64, 64, calls)
}

/// A disk of these bytes that asks for twenty bytes ahead, on which one call fails.
fn asking(alloc: Global, file: &[u8], failing: u64) -> Result<MemoryDisk, AllocError> {
    let mut calls = Vec::new(alloc);
    calls.push(failing)?;
    if file.len() > 64 {
        return Err(AllocError);
    }
    MemoryDisk::with_ahead(alloc, file, 64, 64, calls, 20)
}

/// Opens a disk and keeps a body on it.
fn keep<D: Disk, F: Frame>(alloc: Global, disk: D, frame: &F) -> (Option<DiskFault>, D) {
    match Journal::open(alloc, disk) {
        Ok((mut journal, bodies)) => {
            let fault = journal.keep(frame).err();
            drop(bodies);
            (fault, journal.into_disk())
        }
        Err((_, disk, before)) => {
            drop(before);
            (None, disk)
        }
    }
}

/// What a file opens to.
fn reopen(alloc: Global, file: &[u8]) -> Result<Outcome, AllocError> {
    let (outcome, disk) = open(alloc, memory(alloc, file, None)?);
    drop(disk);
    Ok(outcome)
}

/// The byte of the first gate.
fn first_byte(file: &[u8]) -> u8 {
    if file.is_empty() { 0 } else { file[0] }
}

/// How many of these images open to no body, and how many to one.
fn counts(alloc: Global, images: &[Vec<u8>]) -> Result<(u64, u64), AllocError> {
    let mut none = 0u64;
    let mut one = 0u64;
    for image in images {
        match reopen(alloc, image)? {
            Outcome::Bodies(0) => none = none.saturating_add(1),
            Outcome::Bodies(1) => one = one.saturating_add(1),
            _ => {}
        }
    }
    Ok((none, one))
}

/// The images of a disk, which is dropped.
fn images_of(alloc: Global, disk: MemoryDisk, choices: &[u8]) -> Result<Vec<Vec<u8>>, AllocError> {
    let images = disk.images(alloc, choices);
    drop(disk);
    images
}

/// How many of them open to no body, and how many to one.
fn counts_of(alloc: Global, disk: MemoryDisk, choices: &[u8]) -> Result<(u64, u64), AllocError> {
    let images = images_of(alloc, disk, choices)?;
    let counted = counts(alloc, &images);
    drop(images);
    counted
}

/// The tick at the first moment of 2024.
const TICK: [u8; 9] = [1, 0, 0, 1, 0x8c, 0xc2, 0x51, 0xf4, 0];

const WHOLE: [u8; 15] = [0xa5, 0, 0, 0, 9, 1, 0, 0, 1, 0x8c, 0xc2, 0x51, 0xf4, 0, 0];

fn every_byte(alloc: Global) -> Result<Vec<u8>, AllocError> {
    let mut all = Vec::new(alloc);
    for byte in 0..=255u8 {
        all.push(byte)?;
    }
    Ok(all)
}

/// Whether an append of the tick fails where this call does, and how many images of the disk that it leaves open to no body, and to one.
fn append_leaves(
    alloc: Global,
    failing: Option<u64>,
    choices: &[u8],
) -> Result<(bool, u64, u64), AllocError> {
    let disk = memory(alloc, &[0], failing)?;
    let (fault, stopped) = append(alloc, disk, &frame_tick(TICK));
    let (none, one) = counts_of(alloc, stopped, choices)?;
    Ok((fault == Some(DiskFault), none, one))
}

/// Whether an append that no call stops leaves the record alone.
fn append_is_whole(alloc: Global) -> Result<bool, AllocError> {
    let disk = memory(alloc, &[0], None)?;
    let (fault, done) = append(alloc, disk, &frame_tick(TICK));
    let is_whole = fault.is_none() && done.bytes() == WHOLE.as_slice();
    drop(done);
    Ok(is_whole)
}

// The opening of a file of one closed gate is a sync and two reads, so the calls of the append are the third to the sixth.
#[test]
fn an_append_is_stopped_in_each_call(rt: HostRuntime) -> Result<(), Fail> {
    let alloc = rt.alloc();
    let all = every_byte(alloc)?;
    for call in 3..7 {
        let (choices, none, one): (&[u8], u64, u64) = if call < 5 {
            (&[0xa5], 15, 0)
        } else {
            (&all, 255, 1)
        };
        assert_eq!(rt;
            append_leaves(alloc, Some(call), choices)?,
            (true, none, one),
            "call {call}"
        );
    }
    assert_eq!(rt; append_leaves(alloc, None, &all)?, (false, 0, 1));
    Ok(())
}

#[test]
fn an_append_leaves_its_record(rt: HostRuntime) -> Result<(), Fail> {
    let alloc = rt.alloc();
    let is_whole = append_is_whole(alloc)?;
    let one_and_damaged = [0xa5, 0, 0, 0, 1, 7, 0xa5, 0, 0, 0, 9, 1, 0];
    let opened = [
        reopen(alloc, &[0xa5])?,
        reopen(alloc, &WHOLE[..7])?,
        reopen(alloc, &one_and_damaged)?,
    ];
    let wanted = [
        Outcome::Bodies(0),
        Outcome::Fault(OpenFault::Damaged(0), 0),
        Outcome::Fault(OpenFault::Damaged(6), 1),
    ];
    assert_eq!(rt; (is_whole, opened), (true, wanted));
    Ok(())
}

/// Whether the opening of an empty disk fails where this call does, and how many images it leaves.
fn opening_leaves(alloc: Global, call: u64, choices: &[u8]) -> Result<(bool, u64), AllocError> {
    let disk = memory(alloc, &[], Some(call))?;
    let (outcome, stopped) = open(alloc, disk);
    let (none, one) = counts_of(alloc, stopped, choices)?;
    Ok((
        outcome == Outcome::Fault(OpenFault::Disk, 0) && one == 0,
        none,
    ))
}

/// The images of an empty disk to which a body of one byte was appended, and whose call of this number failed.
fn images_after(alloc: Global, call: u64, choices: &[u8]) -> Result<Vec<Vec<u8>>, AllocError> {
    let body = frame(alloc, &[7])?;
    let disk = memory(alloc, &[], Some(call))?;
    let (_, stopped) = append(alloc, disk, &body);
    drop(body);
    images_of(alloc, stopped, choices)
}

/// How many of them open to no body, and how many to one.
fn counts_after(alloc: Global, call: u64, choices: &[u8]) -> Result<(u64, u64), AllocError> {
    let images = images_after(alloc, call, choices)?;
    let counted = counts(alloc, &images);
    drop(images);
    counted
}

/// How many images an opening that this call stops leaves, to no body, and to one.
fn counts_again(
    alloc: Global,
    image: &[u8],
    call: u64,
    choices: &[u8],
) -> Result<(u64, u64), AllocError> {
    let disk = memory(alloc, image, Some(call))?;
    let (_, again) = open(alloc, disk);
    counts_of(alloc, again, choices)
}

/// Whether an image whose gate was being written opens as its gate tells, whichever call stops an opening before.
// A sync, two reads, and the closing of a gate that is neither open nor closed.
fn opens_again(alloc: Global, image: &[u8], choices: &[u8]) -> Result<bool, AllocError> {
    let gate = first_byte(image);
    for call in 0..5 {
        let wanted = if call > 2 && gate != 0 && gate != 0xa5 {
            (255, 1)
        } else if gate == 0xa5 {
            (0, 1)
        } else {
            (1, 0)
        };
        if counts_again(alloc, image, call, choices)? != wanted {
            return Ok(false);
        }
    }
    Ok(true)
}

/// Whether each of them does.
fn all_open_again(alloc: Global, images: &[Vec<u8>], choices: &[u8]) -> Result<bool, AllocError> {
    for image in images {
        if !opens_again(alloc, image, choices)? {
            return Ok(false);
        }
    }
    Ok(true)
}

// The opening of an empty disk: a sync, a read, and the closing of its gate.
#[test]
fn openings_are_stopped_in_each_call(rt: HostRuntime) -> Result<(), Fail> {
    let alloc = rt.alloc();
    let all = every_byte(alloc)?;
    for call in 0..4 {
        let count = if call < 2 { 1 } else { 257 };
        assert_eq!(rt;
            opening_leaves(alloc, call, &all)?,
            (true, count),
            "call {call}"
        );
    }
    Ok(())
}

// A body of one byte on an empty disk, in every way that three values of a byte make, and then each value of its gate.
#[test]
fn first_appends_are_stopped_in_each_call(rt: HostRuntime) -> Result<(), Fail> {
    let alloc = rt.alloc();
    for call in 4..6 {
        assert_eq!(rt;
            counts_after(alloc, call, &[0, 1, 0xa5])?,
            (1093, 0),
            "call {call}"
        );
    }
    let all = every_byte(alloc)?;
    let images = images_after(alloc, 6, &all)?;
    let open_again = all_open_again(alloc, &images, &all);
    drop(images);
    assert!(rt; open_again?);
    Ok(())
}

/// The record of the tick, and zeros up to the room that was made.
const AMPLE: [u8; 21] = [
    0xa5, 0, 0, 0, 9, 1, 0, 0, 1, 0x8c, 0xc2, 0x51, 0xf4, 0, 0, 0, 0, 0, 0, 0, 0,
];

/// Whether keeping the tick fails where this call does, and how many images of the disk that it leaves open to no body, and to one.
fn keep_leaves(
    alloc: Global,
    failing: u64,
    choices: &[u8],
) -> Result<(bool, u64, u64), AllocError> {
    let disk = asking(alloc, &[0], failing)?;
    let (fault, stopped) = keep(alloc, disk, &frame_tick(TICK));
    let (none, one) = counts_of(alloc, stopped, choices)?;
    Ok((fault == Some(DiskFault), none, one))
}

/// Whether a disk of these bytes, of which no call up to this one fails, has the record and the room after the tick is kept.
fn keep_is_whole(alloc: Global, file: &[u8], failing: u64) -> Result<bool, AllocError> {
    let disk = asking(alloc, file, failing)?;
    let (fault, done) = keep(alloc, disk, &frame_tick(TICK));
    let is_whole = fault.is_none() && done.bytes() == AMPLE.as_slice();
    drop(done);
    Ok(is_whole)
}

// Zeros, the body and its gate are a write and a sync each. Where there is room already, no zeros are written.
#[test]
fn a_body_lies_in_room_that_was_made(rt: HostRuntime) -> Result<(), Fail> {
    let alloc = rt.alloc();
    let all = every_byte(alloc)?;
    for call in 3..5 {
        assert_eq!(rt;
            keep_leaves(alloc, call, &[0xa5])?,
            (true, 21, 0),
            "call {call}"
        );
    }
    for call in 5..9 {
        let (failed, none, one) = keep_leaves(alloc, call, if call > 6 { &all } else { &[] })?;
        assert!(rt;
            failed && (call < 7 || (none, one) == (255, 1)),
            "call {call}"
        );
    }
    assert!(rt; keep_is_whole(alloc, &[0], 9)? && keep_is_whole(alloc, &[0; 21], 7)?);
    Ok(())
}
