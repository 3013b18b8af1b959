//! The words for a fault: where it is, what stands there, and what may stand.

use std::fmt;
use toml::Value;

/// What stands at a place.
#[derive(Clone, Copy)]
pub(crate) enum Found<'a> {
    /// Nothing that is shown.
    Nothing,
    Value(&'a Value),
    /// So many bytes of a text that is a secret.
    Secret(usize),
}

/// A row of a table, counted from 0, and its id where it has one.
#[derive(Clone, Copy)]
pub(crate) struct Row<'a> {
    pub(crate) place: u32,
    pub(crate) id: Option<&'a str>,
}

/// The words for a fault, as `[[role]] row 2 (id "a") scopes, item 1 = "b**": a scope does not end with **`.
#[derive(Clone, Copy)]
pub(crate) struct Words<'a> {
    /// The table's header, empty for the file as a whole.
    pub(crate) table: &'static str,
    pub(crate) row: Option<Row<'a>>,
    /// The key, empty where a whole row or table is meant.
    pub(crate) key: &'a str,
    /// The item of a list, counted from 0.
    pub(crate) item: Option<usize>,
    pub(crate) found: Found<'a>,
    /// What may stand there.
    pub(crate) may: &'a str,
}

/// How many bytes of a text are shown.
const MOST_SHOWN: usize = 60;

/// A text in quotes, of which the front is shown where it is long.
#[derive(Clone, Copy)]
pub(crate) struct Quoted<'a>(pub(crate) &'a str);

impl fmt::Display for Quoted<'_> {
    fn fmt<W: fmt::Write>(&self, f: &mut fmt::Formatter<W>) -> fmt::Result {
        let text = self.0;
        match text.split_at_checked(text.floor_char_boundary(MOST_SHOWN)) {
            Some((front, rest)) if !rest.is_empty() => write!(f, "{front:?}.."),
            _ => write!(f, "{text:?}"),
        }
    }
}

/// A value on a line: a list or a table by what it is.
#[derive(Clone, Copy)]
struct Shown<'a>(&'a Value);

impl fmt::Display for Shown<'_> {
    fn fmt<W: fmt::Write>(&self, f: &mut fmt::Formatter<W>) -> fmt::Result {
        let value = self.0;
        if let Some(text) = value.as_str() {
            let text = Quoted(text);
            return write!(f, "{text}");
        }
        if let Some(items) = value.as_array() {
            let count = items.len();
            return write!(f, "a list of {count}");
        }
        if value.is_table() {
            return f.write_str("a table");
        }
        write!(f, "{value}")
    }
}

impl fmt::Display for Row<'_> {
    fn fmt<W: fmt::Write>(&self, f: &mut fmt::Formatter<W>) -> fmt::Result {
        let number = u64::from(self.place) + 1;
        match self.id {
            None => write!(f, "row {number}"),
            Some(id) => {
                let id = Quoted(id);
                write!(f, "row {number} (id {id})")
            }
        }
    }
}

impl fmt::Display for Found<'_> {
    fn fmt<W: fmt::Write>(&self, f: &mut fmt::Formatter<W>) -> fmt::Result {
        match self {
            Found::Nothing => Ok(()),
            Found::Value(value) => {
                let value = Shown(value);
                write!(f, " = {value}")
            }
            Found::Secret(length) => write!(f, " of {length} bytes"),
        }
    }
}

impl fmt::Display for Words<'_> {
    fn fmt<W: fmt::Write>(&self, f: &mut fmt::Formatter<W>) -> fmt::Result {
        f.write_str(self.table)?;
        if let Some(row) = self.row {
            write!(f, " {row}")?;
        }
        if !self.table.is_empty() && !self.key.is_empty() {
            f.write_str(" ")?;
        }
        let key = Key(self.key);
        write!(f, "{key}")?;
        if let Some(item) = self.item {
            let number = item.saturating_add(1);
            write!(f, ", item {number}")?;
        }
        let found = self.found;
        let may = self.may;
        write!(f, "{found}: {may}")
    }
}

/// A key, of which the front is shown where it is long.
#[derive(Clone, Copy)]
struct Key<'a>(&'a str);

impl fmt::Display for Key<'_> {
    fn fmt<W: fmt::Write>(&self, f: &mut fmt::Formatter<W>) -> fmt::Result {
        let key = self.0;
        if key.len() > MOST_SHOWN {
            let key = Quoted(key);
            return write!(f, "{key}");
        }
        f.write_str(key)
    }
}
