//! Tests: a disk in memory with each stop of a small write, and a file of the host.

use causes::Failed;
use disk_base::{Disk, FileDisk, MemoryDisk};
use std::alloc::{AllocError, Global};
use std::fs;
use std::test::Fail;

/// Writes, cuts and syncs, and reads what is there.
fn work<D: Disk>(disk: &mut D, buf: &mut [u8]) -> Result<usize, Failed> {
    match disk.write_at(0, b"abcd") {
        Ok(()) => {}
        Err(Failed) => return Err(Failed),
    }
    match disk.sync() {
        Ok(()) => {}
        Err(Failed) => return Err(Failed),
    }
    match disk.write_at(6, b"gh") {
        Ok(()) => {}
        Err(Failed) => return Err(Failed),
    }
    match disk.cut(7) {
        Ok(()) => {}
        Err(Failed) => return Err(Failed),
    }
    match disk.sync() {
        Ok(()) => {}
        Err(Failed) => return Err(Failed),
    }
    disk.read(1, buf)
}

const PATH: &str = "disk_base_test";

/// Whether a new file holds nothing, and then what the work leaves, and refuses the places that no file has.
fn is_made<D: Disk>(disk: &mut D, buf: &mut [u8; 8]) -> bool {
    disk.read(0, buf) == Ok(0)
        && work(disk, buf) == Ok(6)
        && *buf == [98, 99, 100, 0, 0, 103, 9, 9]
        && disk.write_at(u64::MAX - 1, b"abcd") == Err(Failed)
        && disk.write_at((1 << 63) - 3, b"abcd") == Err(Failed)
        && disk.read(u64::MAX, buf) == Ok(0)
}

#[test]
fn a_file_is_made_and_kept(rt: HostRuntime) -> Result<(), Fail> {
    let mut buf = [9; 8];
    let mut disk = FileDisk::open(&rt, PATH)?;
    let made = is_made(&mut disk, &mut buf);
    drop(disk);
    assert!(rt; made);
    let mut again = FileDisk::open(&rt, PATH)?;
    let read = again.read(5, &mut buf);
    drop(again);
    assert_eq!(rt; read, Ok(2));
    assert_eq!(rt; buf, [0, 103, 100, 0, 0, 103, 9, 9]);
    fs::remove_file(&rt, PATH)?;
    Ok(())
}

/// Whether the work goes well over a disk that has room for it, and for no other call that changes anything.
fn has_room(disk: &mut MemoryDisk) -> bool {
    work(disk, &mut [9; 8]) == Ok(6)
        && disk.bytes() == b"abcd\0\0g".as_slice()
        && disk.sync() == Err(Failed)
        && disk.faults() == 1
}

/// Whether the work fails over such a disk where the call of this number does, and one fault is counted.
fn fails_once(alloc: Global, failing: u64) -> Result<bool, AllocError> {
    let mut chosen = Vec::new(alloc);
    chosen.push(failing)?;
    let mut disk = MemoryDisk::new(alloc, b"", 8, 5, chosen)?;
    let fails = work(&mut disk, &mut [9; 8]) == Err(Failed) && disk.faults() == 1;
    drop(disk);
    Ok(fails)
}

#[test]
fn a_disk_in_memory_fails_as_told(rt: HostRuntime) -> Result<(), Fail> {
    let alloc = rt.alloc();
    let mut disk = MemoryDisk::new(alloc, b"", 8, 5, Vec::new(alloc))?;
    let has_room = has_room(&mut disk);
    drop(disk);
    assert!(rt; has_room);
    for failing in 0..6 {
        assert!(rt; fails_once(alloc, failing)?, "call {failing}");
    }
    Ok(())
}

/// How many images a disk has, of which a byte is as it was, 0 or 255.
fn count(alloc: Global, disk: &MemoryDisk) -> usize {
    match disk.images(alloc, &[0, 255]) {
        Ok(images) => {
            let count = images.len();
            drop(images);
            count
        }
        Err(AllocError) => 0,
    }
}

/// Whether the image of this place has these bytes.
fn is_image(alloc: Global, disk: &MemoryDisk, place: usize, bytes: &[u8]) -> bool {
    match disk.images(alloc, &[0, 255]) {
        Ok(images) => {
            let is_so = place < images.len() && images[place].as_slice() == bytes;
            drop(images);
            is_so
        }
        Err(AllocError) => false,
    }
}

/// Whether a disk with the bytes `ab` has one image, and those of a write over a byte: it is as it was, or one of the choices.
fn lists_writes_over(alloc: Global, disk: &mut MemoryDisk) -> bool {
    count(alloc, disk) == 1
        && is_image(alloc, disk, 0, b"ab")
        && disk.write_at(1, b"z") == Ok(())
        && count(alloc, disk) == 3
        && is_image(alloc, disk, 1, &[97, 0])
        && disk.sync() == Ok(())
}

/// Whether it has those of a write at its end, none, one or two bytes more, and then those of a cut, one, two, three or four in all.
fn lists_lengths(alloc: Global, disk: &mut MemoryDisk) -> bool {
    disk.write_at(2, b"yy") == Ok(())
        && count(alloc, disk) == 7
        && disk.cut(1) == Ok(())
        && count(alloc, disk) == 2 + 2 * 3 + 4 * 4
        && disk.sync() == Ok(())
        && count(alloc, disk) == 1
        && is_image(alloc, disk, 0, b"a")
}

#[test]
fn images_are_listed(rt: HostRuntime) -> Result<(), Fail> {
    let alloc = rt.alloc();
    let mut disk = MemoryDisk::new(alloc, b"ab", 8, 8, Vec::new(alloc))?;
    let listed = lists_writes_over(alloc, &mut disk) && lists_lengths(alloc, &mut disk);
    drop(disk);
    assert!(rt; listed);
    Ok(())
}
