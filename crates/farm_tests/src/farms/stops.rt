//! Stops and failed calls of the disk, in each of its calls: what was acknowledged is there when the farm is opened again.
use crate::farms::calls::{config, question};
use disk_base::{Disk, MemoryDisk};
use disk_journal::OpenFault;
use farm_asks::config::Config;
use farm_core::{Counts, Farm};
use farm_desk::Object;
use std::alloc::{AllocError, Global};
use std::test::Fail;

/// A disk of these bytes, of which the call of this number fails.
fn memory(alloc: Global, file: &[u8], failing: u64) -> Result<MemoryDisk, AllocError> {
    let mut calls = Vec::new(alloc);
    calls.push(failing)?;
    if file.len() > 8192 {
        return Err(AllocError);
    }
    MemoryDisk::new(alloc, file, 8192, 64, calls)
}

/// Such a disk, and the configuration of a farm over it.
fn parts(alloc: Global, file: &[u8], failing: u64) -> Result<(MemoryDisk, Config), Fail> {
    let config = config(alloc)?;
    match memory(alloc, file, failing) {
        Ok(disk) => Ok((disk, config)),
        Err(error) => {
            drop(config);
            Err(Fail::from(error))
        }
    }
}

/// A farm over an empty disk, of which the call of this number fails.
fn open_empty(alloc: Global, failing: u64) -> Result<Farm<MemoryDisk>, Fail> {
    let (disk, config) = parts(alloc, &[], failing)?;
    match Farm::open(alloc, disk, config) {
        Ok(farm) => Ok(farm),
        Err((_, disk)) => {
            drop(disk);
            Err(Fail::from("not opened"))
        }
    }
}

/// No call has this number.
const NONE: u64 = 1_000_000;

/// When is asked, in milliseconds after the task is made, and what. The third ask comes when the claim of the second ends.
const SCRIPT: &str = "0|create
10000|claim
1210000|claim
1210001|completed 1
1210002|rerun
1210003|cancel";

/// The state of the task after so many records: those of the six asks, of which the third keeps a tick before its claim.
fn state_after(records: u64) -> &'static str {
    match records {
        1 | 3 | 6 => "pending",
        2 | 4 => "running",
        5 => "completed",
        7 => "exception",
        _ => "",
    }
}

/// How many asks of the script are acknowledged once so many records are kept.
fn acknowledged_after(records: u64) -> u64 {
    match records {
        0 | 1 => records,
        2 | 3 => 2,
        _ => records.saturating_sub(1),
    }
}

/// The status and the body of the reply to this question.
fn ask<D: Disk>(
    alloc: Global,
    farm: &mut Farm<D>,
    after: &str,
    word: &str,
) -> Result<(u16, String), Fail> {
    let asked = farm.ask(question(alloc, after, word)?);
    let status = asked.reply.status().as_u16();
    let body = String::from_str(alloc, asked.reply.body());
    drop(asked);
    Ok((status, body?))
}

/// The same of a row of the script.
fn ask_row<D: Disk>(alloc: Global, farm: &mut Farm<D>, row: &str) -> Result<(u16, String), Fail> {
    let (after, word) = row.split_once('|').ok_or("a moment")?;
    ask(alloc, farm, after, word)
}

/// Asks the script, and says how many asks were answered with 200 before the first that was not; those after it are Halted.
fn run_script<D: Disk>(alloc: Global, farm: &mut Farm<D>) -> Result<u64, Fail> {
    let mut done = 0u64;
    let mut halted = false;
    for row in SCRIPT.split('\n') {
        let (status, body) = ask_row(alloc, farm, row)?;
        if halted && !body.as_str().contains("\"Halted\"") {
            return Err(Fail::from("a farm went on after a disk fault"));
        }
        if status == 200 {
            done = done.saturating_add(1);
        } else {
            halted = true;
        }
    }
    Ok(done)
}

/// How many records a farm was opened with, and the body of the status as the task is made, or why it was not opened.
fn reopen<D: Disk + Drop>(
    alloc: Global,
    disk: D,
    config: Config,
) -> Result<(Result<Counts, OpenFault>, String), Fail> {
    match Farm::open(alloc, disk, config) {
        Ok(farm) => {
            let mut farm = farm;
            let counts = farm.counts();
            let told = ask(alloc, &mut farm, "0", "status");
            drop(farm);
            let (_, body) = told?;
            Ok((Ok(counts), body))
        }
        Err((fault, disk)) => {
            drop(disk);
            Ok((Err(fault), String::new(alloc)))
        }
    }
}

/// Whether a farm opens from an image with so many records, and the task is then in the state that they tell.
fn opens_to(alloc: Global, image: &[u8], least: u64, most: u64) -> Result<bool, Fail> {
    let (disk, config) = parts(alloc, image, NONE)?;
    let (opened, body) = reopen(alloc, disk, config)?;
    let Ok(counts) = opened else {
        return Ok(false);
    };
    if counts.records < least || counts.records > most {
        return Ok(false);
    }
    let state = state_after(counts.records);
    if state.is_empty() {
        return Ok(counts.tasks == 0 && body.as_str().contains("\"ResourceNotFound\""));
    }
    let told = format!(in alloc; "\"schedulerId\":\"-\",\"state\":\"{state}\"")?;
    Ok(counts.tasks == 1 && body.as_str().contains(told.as_str()))
}

/// Whether each image of a disk opens so.
fn all_open_to(
    alloc: Global,
    disk: &MemoryDisk,
    choices: &[u8],
    least: u64,
    most: u64,
) -> Result<bool, Fail> {
    if !opens_to(alloc, disk.bytes(), least, most)? {
        return Ok(false);
    }
    let images = disk.images(alloc, choices)?;
    for image in &images {
        if !opens_to(alloc, image, least, most)? {
            return Ok(false);
        }
    }
    Ok(true)
}

/// Runs the script over an empty disk whose call of this number fails: how many asks were acknowledged, and the disk.
fn stopped(alloc: Global, call: u64) -> Result<(u64, MemoryDisk), Fail> {
    let (disk, config) = parts(alloc, &[], call)?;
    match Farm::open(alloc, disk, config) {
        Ok(farm) => {
            let mut farm = farm;
            let done = run_script(alloc, &mut farm);
            let disk = farm.into_disk();
            match done {
                Ok(done) => Ok((done, disk)),
                Err(error) => {
                    drop(disk);
                    Err(error)
                }
            }
        }
        Err((_, disk)) => Ok((0, disk)),
    }
}

/// Whether as many asks are acknowledged before this call fails as there are records then, and each image of the disk opens to them, or to one
/// more, where the call is one of a gate.
// The opening of an empty disk is four calls: a sync, a read, and the write and sync of its gate. Each record is four: it is written and
// synced, and then its gate is.
fn keeps_what_was_acknowledged(alloc: Global, call: u64) -> Result<bool, Fail> {
    let records = call.saturating_sub(4) / 4;
    let is_gate = call >= 4 && call % 4 > 1;
    let choices: &[u8] = if is_gate { &[0, 0xa5, 0xa6, 0xff] } else { &[] };
    let most = if is_gate {
        records.saturating_add(1)
    } else {
        records
    };
    let (done, disk) = stopped(alloc, call)?;
    let all_open = all_open_to(alloc, &disk, choices, records, most);
    drop(disk);
    Ok(all_open? && done == acknowledged_after(records))
}

#[test]
fn nothing_acknowledged_is_lost_in_any_call(rt: HostRuntime) -> Result<(), Fail> {
    let alloc = rt.alloc();
    for call in 0..33u64 {
        assert!(rt; keeps_what_was_acknowledged(alloc, call)?, "call {call}");
    }
    Ok(())
}

/// The status after the task was claimed, kept for longer, and lost.
const LOST: &str =
    r#"{"status":{"deadline":"2024-01-02T00:00:00.000Z","expires":"2025-01-01T00:00:00.000Z","projectId":"none","provisionerId":"prov","retriesLeft":4,"runs":[{"reasonCreated":"scheduled","reasonResolved":"claim-expired","resolved":"2024-01-01T00:40:09.999Z","runId":0,"scheduled":"2024-01-01T00:00:00.000Z","started":"2024-01-01T00:00:10.000Z","state":"exception","takenUntil":"2024-01-01T00:40:09.999Z","workerGroup":"g","workerId":"w"},{"reasonCreated":"retry","runId":1,"scheduled":"2024-01-01T00:40:09.999Z","state":"pending"}],"schedulerId":"-","state":"pending","taskGroupId":"AAAAAAAAQACAAAAAAAAAAA","taskId":"AAAAAAAAQACAAAAAAAAAAA","taskQueueId":"prov/wt","workerType":"wt"}}"#;

/// Whether a farm replies to the question of this word, so many milliseconds after the task is made, with this status.
fn replies<D: Disk>(
    alloc: Global,
    farm: &mut Farm<D>,
    after: &str,
    word: &str,
    wanted: u16,
) -> Result<bool, Fail> {
    let (status, _) = ask(alloc, farm, after, word)?;
    Ok(status == wanted)
}

/// Whether it replies so up to the report that comes when the claim has ended.
fn loses<D: Disk>(alloc: Global, farm: &mut Farm<D>) -> Result<bool, Fail> {
    Ok(
        replies(alloc, farm, "0", "create", 200)?
            && replies(alloc, farm, "10000", "claim", 200)?
            && replies(alloc, farm, "1209999", "reclaim 0", 200)?
            && replies(alloc, farm, "2409999", "completed 0", 409)?,
    )
}

/// The same, and whether the tasks stand so then.
fn loses_one<D: Disk>(alloc: Global, farm: &mut Farm<D>) -> Result<bool, Fail> {
    let loses = loses(alloc, farm)?;
    let summary = farm.summary();
    Ok(loses && [summary.tasks, summary.completed, summary.runs] == [1, 0, 2])
}

/// The images of the disk of a farm that was asked so.
fn lost_images(alloc: Global) -> Result<Vec<Vec<u8>>, Fail> {
    let mut farm = open_empty(alloc, NONE)?;
    let lost = loses_one(alloc, &mut farm);
    let disk = farm.into_disk();
    let images = disk.images(alloc, &[0, 0xa5]);
    drop(disk);
    if !lost? {
        return Err(Fail::from("the run is not lost"));
    }
    Ok(images?)
}

/// Whether the lost run is told by a farm that opens from an image.
fn tells_lost(alloc: Global, image: &[u8]) -> Result<bool, Fail> {
    let (disk, config) = parts(alloc, image, NONE)?;
    let (opened, body) = reopen(alloc, disk, config)?;
    let Ok(counts) = opened else {
        return Ok(false);
    };
    Ok(counts.records == 4 && counts.tasks == 1 && body.as_str() == LOST)
}

/// Whether there is an image, and each tells the lost run.
fn all_tell_lost(alloc: Global, images: &[Vec<u8>]) -> Result<bool, Fail> {
    for image in images {
        if !tells_lost(alloc, image)? {
            return Ok(false);
        }
    }
    Ok(!images.is_empty())
}

#[test]
fn a_lost_run_is_told_from_any_image(rt: HostRuntime) -> Result<(), Fail> {
    let alloc = rt.alloc();
    let images = lost_images(alloc)?;
    let all_tell = all_tell_lost(alloc, &images);
    drop(images);
    assert!(rt; all_tell?);
    Ok(())
}

const FAULT: &str = r#"{"code":"DiskFault","details":{},"message":"the disk failed"}"#;

const HALTED: &str = r#"{"code":"Halted","details":{},"message":"the disk failed earlier"}"#;

/// Whether a farm replies to the question of this word, as the task is made, with the status 500 and this body.
fn fails<D: Disk>(
    alloc: Global,
    farm: &mut Farm<D>,
    word: &str,
    wanted: &str,
) -> Result<bool, Fail> {
    let (status, body) = ask(alloc, farm, "0", word)?;
    Ok(status == 500 && body.as_str() == wanted)
}

/// Whether a farm whose next sync fails tells so, and that it has halted after that.
fn halts<D: Disk>(alloc: Global, farm: &mut Farm<D>) -> Result<bool, Fail> {
    Ok(fails(alloc, farm, "create", FAULT)? && fails(alloc, farm, "ping", HALTED)?)
}

// The fifth call is the first after the opening; the sixth is the first sync.
#[test]
fn a_farm_halts_where_its_disk_fails(rt: HostRuntime) -> Result<(), Fail> {
    let alloc = rt.alloc();
    let mut farm = open_empty(alloc, 5)?;
    let halts = halts(alloc, &mut farm);
    drop(farm);
    assert!(rt; halts?);
    Ok(())
}
