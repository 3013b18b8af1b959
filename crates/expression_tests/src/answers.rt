//! What rows say of answers.
use farm_text::Doc;
use jsone_values::faults::{Fault, Stop};
use std::alloc::Global;

/// Whether this compact text is the value's.
pub(crate) fn is_written(alloc: Global, value: &Doc, wanted: &str) -> bool {
    match value.write(alloc) {
        Ok(text) => text.as_str() == wanted,
        Err(_) => false,
    }
}

/// Whether `!` and the digits of this number are wanted.
pub(crate) fn is_rule(rule: u8, wanted: &str) -> bool {
    match wanted.strip_prefix('!') {
        Some(digits) => digits.parse::<u8>().ok() == Some(rule),
        None => false,
    }
}

/// Whether this compact text is the value's, or `!` and these digits the fault's. Here alone what was made is owned.
pub(crate) fn is_answer(alloc: Global, made: Result<Doc, Stop>, wanted: &str) -> bool {
    let is_so = is_made(alloc, &made, wanted);
    drop(made);
    is_so
}

fn is_made(alloc: Global, made: &Result<Doc, Stop>, wanted: &str) -> bool {
    match made {
        Ok(value) => is_written(alloc, value, wanted),
        Err(Stop::Fault(fault)) => is_rule(fault.rule(), wanted),
        Err(Stop::NoMemory) => false,
    }
}

/// Whether this is the number that was found, or `!` and these digits the fault's.
pub(crate) fn is_number(found: Result<i64, Fault>, wanted: &str) -> bool {
    match found {
        Ok(number) => wanted.parse::<i64>().ok() == Some(number),
        Err(fault) => is_rule(fault.rule(), wanted),
    }
}
