//! What is told of a farm file that is refused.
ghost use Rattle.std.specs.Prelude.{All, IfOk, string_bytes};
ghost use Rattle.scope_sets.specs.Scopes.{IsPrintable};

use crate::fault::{Fault, Rule, Table};
use crate::faulty::{header_of, id_of, text_at, words_of};
use crate::words::{Quoted, Row};
use plain_text::escape_line;
use std::alloc::{AllocError, Global};
use std::fmt;
use toml::Value;

/// The words for a fault of a farm file, on one line of printable ASCII: the table, the row counted from 1 and by its id, the key, what
/// stands there (its front, where it is long), and what may stand. A client's token is not shown. The file is parsed once more. The roles
/// of a cycle are those at the places that `read_farm_with` left.
pub fn tell_fault(
    alloc: Global,
    bytes: &[u8],
    fault: &Fault,
    cycle: &[usize],
) -> Result<String, AllocError>
    ensures { IfOk result (λ words. All IsPrintable (string_bytes words)) }
{
    let words = told(alloc, bytes, fault, cycle)?;
    escape_line(alloc, words.as_str())
}

/// The same with whatever bytes stand in the file.
fn told(alloc: Global, bytes: &[u8], fault: &Fault, cycle: &[usize]) -> Result<String, AllocError> {
    if fault.rule == Rule::TooLong {
        return String::from_str(alloc, "it has more than 4194304 bytes");
    }
    match toml::table_from_slice(alloc, bytes) {
        Ok(top) => told_of_tables(alloc, &top, fault, cycle),
        Err(error) => told_of_text(alloc, bytes, &error),
    }
}

/// Why a file is not TOML, and in which line.
fn told_of_text(
    alloc: Global,
    bytes: &[u8],
    error: &toml::de::Error,
) -> Result<String, AllocError> {
    let message = error.message();
    match error.span() {
        None => Err(AllocError),
        Some(span) => {
            let line = line_at(bytes, span.start);
            format!(in alloc; "line {line}: not TOML: {message}")
        }
    }
}

/// The number of the line, from 1, in which the byte at a place stands.
fn line_at(bytes: &[u8], place: usize) -> usize {
    let mut line = 1usize;
    for byte in bytes.iter().take(place) {
        if *byte == b'\n' {
            line = line.saturating_add(1);
        }
    }
    line
}

/// What is wrong with the tables of a file.
fn told_of_tables(
    alloc: Global,
    top: &toml::Table,
    fault: &Fault,
    cycle: &[usize],
) -> Result<String, AllocError> {
    let rows = rows_at(top, fault.table);
    match fault.rule {
        Rule::ParameterCycle => told_of_cycle(alloc, rows, fault, cycle),
        Rule::RepeatedId => told_of_repeat(alloc, rows, fault),
        _ => {
            let words = words_of(top, fault);
            format!(in alloc; "{words}")
        }
    }
}

/// The rows of a table.
fn rows_at(top: &toml::Table, table: Table) -> &[Value] {
    let name = match table {
        Table::Client => "client",
        Table::Hook => "hook",
        _ => "role",
    };
    match top.get(name) {
        Some(value) => match value.as_array() {
            Some(rows) => rows,
            None => &[],
        },
        None => &[],
    }
}

/// The row at a place.
fn row_at(rows: &[Value], place: u32) -> Row<'_> {
    Row {
        place,
        id: match rows.get(place as usize) {
            Some(row) => id_of(row),
            None => None,
        },
    }
}

/// The group that a row names, if it is one of a hook.
fn group_of(row: &Value) -> Option<&str> {
    match row.as_table() {
        Some(keys) => text_at(keys, "group"),
        None => None,
    }
}

/// Whether two rows have one id, and one group if they are hooks.
fn have_one_name(table: Table, row: &Value, other: &Value) -> bool {
    id_of(row) == id_of(other) && (table != Table::Hook || group_of(row) == group_of(other))
}

/// The number, from 1, of the first row with the name that the row at a place has.
fn first_named(rows: &[Value], fault: &Fault) -> usize {
    let Some(row) = rows.get(fault.row as usize) else {
        return 0;
    };
    match rows
        .iter()
        .position(|other| have_one_name(fault.table, row, other))
    {
        Some(place) => place.saturating_add(1),
        None => 0,
    }
}

/// Which two rows have one id, or one group and id if they are hooks.
fn told_of_repeat(alloc: Global, rows: &[Value], fault: &Fault) -> Result<String, AllocError> {
    let row = row_at(rows, fault.row);
    let header = header_of(fault.table);
    let earlier = first_named(rows, fault);
    match fault.table {
        Table::Hook => format!(in alloc;
            "{header} {row}: row {earlier} has this group and id, too"
        ),
        _ => format!(in alloc; "{header} {row}: row {earlier} has this id, too"),
    }
}

/// The ids of the roles of a cycle.
#[derive(Clone, Copy)]
struct Cycle<'a> {
    rows: &'a [Value],
    places: &'a [usize],
}

/// How many roles of a cycle are shown.
const MOST_ROLES: usize = 20;

impl fmt::Display for Cycle<'_> {
    fn fmt<W: fmt::Write>(&self, f: &mut fmt::Formatter<W>) -> fmt::Result {
        for place in self.places.iter().take(MOST_ROLES) {
            let id = id_at(self.rows, *place);
            write!(f, "{id} -> ")?;
        }
        if self.places.len() > MOST_ROLES {
            f.write_str(".. -> ")?;
        }
        let first = match self.places.first() {
            Some(place) => id_at(self.rows, *place),
            None => Quoted(""),
        };
        write!(f, "{first}")
    }
}

/// The id of the row at a place.
fn id_at(rows: &[Value], place: usize) -> Quoted<'_> {
    match rows.get(place) {
        Some(row) => match id_of(row) {
            Some(id) => Quoted(id),
            None => Quoted(""),
        },
        None => Quoted(""),
    }
}

/// The roles whose parameters go in a cycle, by their ids.
fn told_of_cycle(
    alloc: Global,
    rows: &[Value],
    fault: &Fault,
    places: &[usize],
) -> Result<String, AllocError> {
    let row = row_at(rows, fault.row);
    if places.is_empty() {
        return format!(in alloc; "[[role]] {row}: the parameters of roles go in a cycle");
    }
    let cycle = Cycle { rows, places };
    format!(in alloc; "[[role]] {row}: the parameters of roles go in a cycle: {cycle}")
}
