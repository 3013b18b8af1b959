//! The farm file of a run.
ghost use Rattle.std.specs.Prelude.{◌≡◌, ◌+◌, MatchResult, IfSome};
ghost use Rattle.farm_files.specs.declared.reading.TheConstants.{LONGEST_FILE};
ghost use Rattle.http_wire.specs.Whole.{piece_size, LosesWithin};
ghost use Rattle.farm_cli.specs.FarmFile.{SetsUp, BytesRefused, FileRefused};

use console_commands::{Ended, Status};
use farm_asks::config::Config;
use farm_files::{Fault, FileFault, LONGEST_FILE, Rule, Table, read_farm_with, tell_fault};
use http_wire::{ReadAllFault, Source, read_source};
use std::alloc::{AllocError, Global};

/// What the farm file of this name sets, or how a run over it ends. The file is given back.
pub(crate) fn read_config<S: Source>(
    alloc: Global,
    farm: &str,
    file: S,
) -> (S, Result<Config, Ended>)
    ensures taken { MatchResult result.1
        (λ config. IfSome (S.left file) (λ bytes. SetsUp bytes config) × (S.faults result.0 ≡ S.faults file))
        (λ ended. FileRefused (S.left file) (S.faults file) (S.faults result.0) ended.status) }
    ensures lost { LosesWithin (LONGEST_FILE + piece_size) (S.left file) (S.left result.0) }
{
    let (file, read) = read_source(alloc, file, LONGEST_FILE);
    match read {
        Ok(Some(bytes)) => (file, config_of(alloc, farm, bytes.as_slice())),
        Ok(None) => (file, Err(too_long(alloc, farm))),
        Err(ReadAllFault::Failed) => (file, Err(unread(alloc, farm))),
        Err(ReadAllFault::NoMemory) => (file, Err(Ended::plain(Status::NoMemory))),
    }
}

/// The farm file of this name is too long.
fn too_long(alloc: Global, farm: &str) -> Ended
    ensures { result.status ≡ Status.FarmFile }
{
    let fault = Fault {
        table: Table::File,
        row: 0,
        rule: Rule::TooLong,
    };
    by_fault(alloc, farm, &[], &fault, &[])
}

/// What the bytes of the farm file of this name set.
fn config_of(alloc: Global, farm: &str, bytes: &[u8]) -> Result<Config, Ended>
    ensures { MatchResult result (SetsUp bytes.now) (λ ended. BytesRefused bytes.now ended.status) }
{
    let mut cycle = Vec::new(alloc);
    match read_farm_with(alloc, bytes, &mut cycle) {
        Ok(config) => Ok(config),
        Err(FileFault::Fault(fault)) => Err(by_fault(alloc, farm, bytes, &fault, &cycle)),
        Err(FileFault::NoMemory) => Err(Ended::plain(Status::NoMemory)),
    }
}

/// The farm file of this name is refused by this first fault, which may be a cycle of the roles at these places.
fn by_fault(alloc: Global, farm: &str, bytes: &[u8], fault: &Fault, cycle: &[usize]) -> Ended
    ensures { result.status ≡ Status.FarmFile }
{
    match fault_words(alloc, farm, bytes, fault, cycle) {
        Ok(words) => Ended::told(alloc, Status::FarmFile, words.as_str()),
        Err(AllocError) => Ended::plain(Status::FarmFile),
    }
}

/// The words for a fault of the farm file of this name.
fn fault_words(
    alloc: Global,
    farm: &str,
    bytes: &[u8],
    fault: &Fault,
    cycle: &[usize],
) -> Result<String, AllocError> {
    let words = tell_fault(alloc, bytes, fault, cycle)?;
    format!(in alloc; ": {farm}: {words}")
}

/// A read of the farm file of this name failed.
fn unread(alloc: Global, farm: &str) -> Ended
    ensures { result.status ≡ Status.Read }
{
    match format!(in alloc; ": the farm file {farm}") {
        Ok(words) => Ended::told(alloc, Status::Read, words.as_str()),
        Err(_) => Ended::plain(Status::Read),
    }
}

/// The farm file of this name cannot be opened.
pub(crate) fn unopened(alloc: Global, farm: &str) -> Ended
    ensures { result.status ≡ Status.Opening }
{
    match format!(in alloc; ": {farm}") {
        Ok(words) => Ended::told(alloc, Status::Opening, words.as_str()),
        Err(_) => Ended::plain(Status::Opening),
    }
}
