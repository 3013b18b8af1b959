//! Houses in memory, and runs over them.

use console_commands::Status;
use farm_cli::run;
use farm_text::{ListClock, ListDraws, Moment};
use houses::MemoryHouse;
use http_wire::{Joined, MemoryLink, MemorySink, MemorySource};
use std::alloc::{AllocError, Global};
use std::sync::Wait;
use std::thread::Threads;

/// A command line, what a house has for it, and which reads and writes fail, by their numbers from 0 on.
#[derive(Clone, Copy)]
pub(crate) struct Case<'a> {
    pub(crate) words: &'a [&'a str],
    pub(crate) farm: &'a [u8],
    pub(crate) failing_farm_reads: &'a [u64],
    pub(crate) input: &'a [u8],
    pub(crate) failing_reads: &'a [u64],
    pub(crate) failing_writes: &'a [u64],
}

impl<'a> Case<'a> {
    /// The words `answer farm.toml` over an empty farm file and this input. Nothing fails.
    pub(crate) fn over(input: &'a [u8]) -> Case<'a> {
        Case {
            words: &["answer", "farm.toml"],
            farm: &[],
            failing_farm_reads: &[],
            input,
            failing_reads: &[],
            failing_writes: &[],
        }
    }
}

/// How a run ended, and what it wrote to the console and to the notes.
#[derive(Drop)]
pub(crate) struct Outcome {
    pub(crate) status: Status,
    pub(crate) output: Vec<u8>,
    pub(crate) notes: Vec<u8>,
}

/// A console with the input of a case, and room for so many bytes of replies.
fn console(alloc: Global, case: &Case, room: usize) -> Result<MemoryLink, AllocError> {
    let input = case.input.to_vec(alloc)?;
    let reads = case.failing_reads.to_vec(alloc)?;
    let writes = case.failing_writes.to_vec(alloc)?;
    let sink = MemorySink::new(alloc, room, writes)?;
    let source = MemorySource::new(input, reads, 8192);
    Ok(Joined { source, sink })
}

/// A link with these bytes to read, and room for so many bytes of replies.
pub(crate) fn link(alloc: Global, input: &[u8], room: usize) -> Result<MemoryLink, AllocError> {
    let input = input.to_vec(alloc)?;
    let sink = MemorySink::new(alloc, room, Vec::new(alloc))?;
    let source = MemorySource::new(input, Vec::new(alloc), 8192);
    Ok(Joined { source, sink })
}

/// A farm file of a case.
fn farm_file(alloc: Global, case: &Case) -> Result<MemorySource, AllocError> {
    let bytes = case.farm.to_vec(alloc)?;
    let reads = case.failing_farm_reads.to_vec(alloc)?;
    Ok(MemorySource::new(bytes, reads, 8))
}

/// A farm file of a case, and room for a note.
fn farm_file_and_notes(
    alloc: Global,
    case: &Case,
) -> Result<(MemorySource, MemorySink), AllocError> {
    let file = farm_file(alloc, case)?;
    match MemorySink::new(alloc, 1024, Vec::new(alloc)) {
        Ok(notes) => Ok((file, notes)),
        Err(AllocError) => {
            drop(file);
            Err(AllocError)
        }
    }
}

/// A house with a farm file `farm.toml`, room for so many bytes of replies and for a note, and a clock that tells these moments.
pub(crate) fn house_at(
    alloc: Global,
    case: &Case,
    moments: Vec<Moment>,
    room: usize,
) -> Result<MemoryHouse, AllocError> {
    let farm_name = String::from_str(alloc, "farm.toml")?;
    let console = console(alloc, case, room)?;
    match farm_file_and_notes(alloc, case) {
        Ok((file, notes)) => {
            let clock = ListClock::new(moments);
            let draws = ListDraws::new(Vec::new(alloc));
            Ok(MemoryHouse::new(alloc, farm_name, file, console, notes, clock, draws))
        }
        Err(AllocError) => {
            drop(console);
            Err(AllocError)
        }
    }
}

/// A house with room for some replies, and a clock that tells the first moment.
pub(crate) fn house_of(alloc: Global, case: &Case) -> Result<MemoryHouse, AllocError> {
    house_at(alloc, case, Vec::new(alloc), 1024)
}

/// Runs a case.
pub(crate) fn outcome_of(
    rt: &(impl Threads + Wait + Sync),
    alloc: Global,
    case: &Case,
) -> Result<Outcome, AllocError> {
    let mut house = house_of(alloc, case)?;
    let done = outcome_in(rt, alloc, case, &mut house);
    drop(house);
    done
}

/// Puts the words of a case behind these.
fn put_words(alloc: Global, case: &Case, words: &mut Vec<String>) -> Result<(), AllocError> {
    for word in case.words {
        words.push(String::from_str(alloc, word)?)?;
    }
    Ok(())
}

/// The words of a case.
fn words_of(alloc: Global, case: &Case) -> Result<Vec<String>, AllocError> {
    let mut words = Vec::new(alloc);
    match put_words(alloc, case, &mut words) {
        Ok(()) => Ok(words),
        Err(AllocError) => {
            drop(words);
            Err(AllocError)
        }
    }
}

/// Runs a case over this house.
pub(crate) fn outcome_in(
    rt: &(impl Threads + Wait + Sync),
    alloc: Global,
    case: &Case,
    house: &mut MemoryHouse,
) -> Result<Outcome, AllocError> {
    let words = words_of(alloc, case)?;
    let status = run::run(rt, alloc, &words, house);
    drop(words);
    outcome_with(alloc, status, house)
}

/// The outcome of a run that ended so, with what was written to a house.
fn outcome_with(alloc: Global, status: Status, house: &MemoryHouse) -> Result<Outcome, AllocError> {
    let output = match house.returned_console() {
        Some(console) => console.sink.written(),
        None => &[],
    };
    let notes = match house.returned_notes() {
        Some(notes) => notes.written(),
        None => &[],
    };
    let output = Vec::from_slice(alloc, output)?;
    let notes = Vec::from_slice(alloc, notes)?;
    Ok(Outcome {
        status,
        output,
        notes,
    })
}

pub(crate) const PING: &[u8] = b"GET /api/queue/v1/ping HTTP/1.1\r\n\r\n";
