//! All that the roles of a farm give to the scopes of an input.
ghost use Rattle.std.specs.Prelude.{◌≡◌, ◌≤◌, length, MatchResult};
ghost use Rattle.console_commands.specs.Expanding.{IsExpansion, InputRefused, Expands};
ghost use Rattle.console_commands.specs.Inputs.{longest_input};

use crate::ended::Ended;
use crate::inputs::LONGEST_INPUT;
use crate::status::Status;
use crate::writing::write_text;
use http_wire::{Link, ReadAllFault, read_all};
use role_expand::{ExpandFault, RoleSet};
use scope_lines::{LineFault, read_scopes, scope_fault, write_scopes};
use std::alloc::Global;

/// Reads scopes from the console, one a line, and writes all that they give, rising, one a line.
pub fn expand<L: Link>(alloc: Global, roles: &RoleSet, console: &mut L) -> Ended
    ensures expands { Expands roles.now
        (record { left = L.left console.old; written = L.written console.old; read_faults = L.read_faults console.old; write_faults = L.write_faults console.old })
        (record { left = L.left console.new; written = L.written console.new; read_faults = L.read_faults console.new; write_faults = L.write_faults console.new })
        result.status }
{
    match read_all(alloc, console, LONGEST_INPUT) {
        Ok(Some(input)) => match expansion(alloc, roles, input.as_slice()) {
            Ok(text) => Ended::on_console(alloc, write_text(console, text.as_slice())),
            Err(ended) => ended,
        },
        Ok(None) => Ended::told(alloc, Status::Input, ": it has more than 1048576 bytes"),
        Err(ReadAllFault::Failed) => Ended::on_console(alloc, Status::Read),
        Err(ReadAllFault::NoMemory) => Ended::plain(Status::NoMemory),
    }
}

/// The text of all that an input's scopes give, or how a run over it ends.
fn expansion(alloc: Global, roles: &RoleSet, input: &[u8]) -> Result<Vec<u8>, Ended>
    requires { length input.now ≤ longest_input }
    ensures { MatchResult result
        (λ text. IsExpansion roles.now input.now text.items)
        (λ ended. InputRefused roles.now input.now ended.status) }
{
    let scopes = match read_scopes(alloc, input) {
        Ok(scopes) => scopes,
        Err(LineFault::BadLine(line)) => return Err(at_line(alloc, input, line)),
        Err(LineFault::NoMemory) => return Err(Ended::plain(Status::NoMemory)),
    };
    let set = match roles.expand(alloc, scopes.as_slice()) {
        Ok(set) => set,
        Err(ExpandFault::TooMany) => {
            return Err(Ended::told(
                alloc,
                Status::Input,
                ": its scopes give more than 10000 scopes",
            ));
        },
        Err(ExpandFault::NoMemory) => return Err(Ended::plain(Status::NoMemory)),
    };
    match write_scopes(alloc, set.list()) {
        Ok(text) => Ok(text),
        Err(_) => Err(Ended::plain(Status::NoMemory)),
    }
}

/// An input is refused by the line at this place, counted from 0.
fn at_line(alloc: Global, input: &[u8], place: usize) -> Ended
    ensures { result.status ≡ Status.Input }
{
    let number = place.saturating_add(1);
    let why = line_fault(input, place);
    match format!(in alloc; ": line {number}: {why}") {
        Ok(words) => Ended::told(alloc, Status::Input, words.as_str()),
        Err(_) => Ended::plain(Status::Input),
    }
}

/// What keeps the line at a place from being a scope.
fn line_fault(input: &[u8], place: usize) -> &'static str {
    let Some(line) = input.split(|byte| *byte == b'\n').nth(place) else {
        return "it is no scope";
    };
    if line.ends_with(b"\r".as_slice()) {
        return "it ends with a carriage return, and a scope is printable ASCII";
    }
    match scope_fault(line) {
        Some(why) => why,
        None => "it is no scope",
    }
}
