//! Rows of tables: a run, and what comes of it.

use crate::outcomes::{Case, Outcome, outcome_in, outcome_of};
use houses::MemoryHouse;
use std::alloc::{AllocError, Global};
use std::sync::Wait;
use std::test::Fail;
use std::thread::Threads;

/// The byte that stands for this one behind a backslash.
fn escape_of(byte: u8) -> u8 {
    match byte {
        b'n' => b'\n',
        b'r' => b'\r',
        b't' => b'\t',
        b'e' => 0x1b,
        b'f' => 0xff,
        other => other,
    }
}

/// The bytes of a text, in which a backslash and the byte behind it stand for one.
pub(crate) fn unescaped(alloc: Global, text: &str) -> Result<Vec<u8>, AllocError> {
    let mut bytes = Vec::new(alloc);
    let mut is_escaped = false;
    for byte in text.bytes() {
        if is_escaped {
            bytes.push(escape_of(byte))?;
            is_escaped = false;
        } else if byte == b'\\' {
            is_escaped = true;
        } else {
            bytes.push(byte)?;
        }
    }
    Ok(bytes)
}

/// The calls that fail of an object of this name: the first, where the row says so.
pub(crate) fn failing(fails: &str, name: &str) -> &'static [u64] {
    if fails == name { &[0] } else { &[] }
}

/// Whether bytes are these, or some, where the row says `*`.
fn is_as(alloc: Global, bytes: &[u8], expected: &str) -> Result<bool, AllocError> {
    if expected == "*" {
        return Ok(!bytes.is_empty());
    }
    Ok(bytes == unescaped(alloc, expected)?.as_slice())
}

/// Whether a run ended with this status, and with the output and notes that are told, cut by a bar.
pub(crate) fn is_outcome(
    alloc: Global,
    done: &Outcome,
    code: &str,
    told: &str,
) -> Result<bool, Fail> {
    let (output, notes) = cut(told);
    let code: u8 = code.parse().ok().ok_or("a status")?;
    let is_written = is_as(alloc, done.output.as_slice(), output)?;
    let is_noted = is_as(alloc, done.notes.as_slice(), notes)?;
    Ok(done.status.code() == code && is_written && is_noted)
}

/// Whether a run comes to such an end.
pub(crate) fn comes_to(
    rt: &(impl Threads + Wait + Sync),
    alloc: Global,
    case: &Case,
    code: &str,
    told: &str,
) -> Result<bool, Fail> {
    let done = outcome_of(rt, alloc, case)?;
    let is_so = is_outcome(alloc, &done, code, told);
    drop(done);
    is_so
}

/// The same of a run over this house.
pub(crate) fn house_comes_to(
    rt: &(impl Threads + Wait + Sync),
    alloc: Global,
    case: &Case,
    house: &mut MemoryHouse,
    code: &str,
    told: &str,
) -> Result<bool, Fail> {
    let done = outcome_in(rt, alloc, case, house)?;
    let is_so = is_outcome(alloc, &done, code, told);
    drop(done);
    is_so
}

/// What a row says: the words, the farm file and the input of a run, what of it fails, and its status with what is told.
#[derive(Clone, Copy)]
struct Row<'a> {
    words: &'a str,
    farm: &'a str,
    input: &'a str,
    fails: &'a str,
    code: &'a str,
    told: &'a str,
}

/// What stands before the first bar of a text, and what behind it: all of it and nothing, where it has none.
pub(crate) fn cut(text: &str) -> (&str, &str) {
    text.split_once('|').unwrap_or((text, ""))
}

/// The parts of a row, which bars cut.
fn parts(row: &str) -> Row<'_> {
    let (words, rest) = cut(row);
    let (farm, rest) = cut(rest);
    let (input, rest) = cut(rest);
    let (fails, rest) = cut(rest);
    let (code, told) = cut(rest);
    Row {
        words,
        farm,
        input,
        fails,
        code,
        told,
    }
}

/// The words of a line.
pub(crate) fn words_of(alloc: Global, line: &str) -> Result<Vec<&str>, AllocError> {
    if line.is_empty() {
        return Ok(Vec::new(alloc));
    }
    line.split(' ').collect(alloc)
}

/// Whether these words, this farm file and this input, of which what the row says fails, come to what it says.
fn row_holds(
    rt: &(impl Threads + Wait + Sync),
    alloc: Global,
    row: Row<'_>,
    words: &[&str],
    farm: &[u8],
    input: &[u8],
) -> Result<bool, Fail> {
    let case = Case {
        words,
        farm,
        failing_farm_reads: failing(row.fails, "farm"),
        input,
        failing_reads: failing(row.fails, "read"),
        failing_writes: failing(row.fails, "write"),
    };
    comes_to(rt, alloc, &case, row.code, row.told)
}

/// The same of a line of words.
fn line_holds(
    rt: &(impl Threads + Wait + Sync),
    alloc: Global,
    row: Row<'_>,
    line: &[u8],
    farm: &[u8],
    input: &[u8],
) -> Result<bool, Fail> {
    let words = words_of(alloc, str::from_utf8(line)?)?;
    let is_so = row_holds(rt, alloc, row, &words, farm, input);
    drop(words);
    is_so
}

/// Whether a row holds: a run with its words, farm file and input, of which this fails, has this status, output and notes.
fn holds(rt: &(impl Threads + Wait + Sync), alloc: Global, row: &str) -> Result<bool, Fail> {
    let row = parts(row);
    let line = unescaped(alloc, row.words)?;
    let farm = unescaped(alloc, row.farm)?;
    let input = unescaped(alloc, row.input)?;
    let is_so = line_holds(rt, alloc, row, &line, &farm, &input);
    drop(input);
    drop(farm);
    drop(line);
    is_so
}

/// The first of some rows that does not hold, or `none`.
pub(crate) fn first_other<'a>(
    rt: &(impl Threads + Wait + Sync),
    alloc: Global,
    rows: &'a str,
) -> Result<&'a str, Fail> {
    for row in rows.split('\n') {
        if !holds(rt, alloc, row)? {
            return Ok(row);
        }
    }
    Ok("none")
}
