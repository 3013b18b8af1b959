//! The place of a fault in the tables of a file, found from the rule that is broken.

use crate::fault::{Fault, Rule, Table};
use crate::fields::{Field, Kind, fields_of, is_of_kind, kind_words, known_keys};
use crate::forms::{form_words, range_words, scope_words};
use crate::rows::MOST_ROWS;
use crate::words::{Found, Row, Words};
use toml::Value;

/// The table, row and keys in which a fault is looked for.
#[derive(Clone, Copy)]
struct Spot<'a> {
    table: Table,
    row: Option<Row<'a>>,
    keys: &'a toml::Table,
}

impl<'a> Spot<'a> {
    /// The words for what stands at a key.
    fn at(&self, key: &'a str, found: Found<'a>, may: &'a str) -> Words<'a> {
        Words {
            table: header_of(self.table),
            row: self.row,
            key,
            item: None,
            found,
            may,
        }
    }
}

/// The words for the fault that a file with these tables has.
pub(crate) fn words_of<'a>(top: &'a toml::Table, fault: &Fault) -> Words<'a> {
    match fault.table {
        Table::File => unknown_table(top),
        Table::Farm => match top.get("farm") {
            Some(value) => farm_words(value, fault.rule),
            None => unknown_table(top),
        },
        Table::Role => match top.get("role") {
            Some(value) => rows_words("role", value, fault),
            None => unknown_table(top),
        },
        Table::Client => match top.get("client") {
            Some(value) => rows_words("client", value, fault),
            None => unknown_table(top),
        },
        Table::Hook => match top.get("hook") {
            Some(value) => rows_words("hook", value, fault),
            None => unknown_table(top),
        },
    }
}

/// A table's header.
pub(crate) fn header_of(table: Table) -> &'static str {
    match table {
        Table::File => "",
        Table::Farm => "[farm]",
        Table::Role => "[[role]]",
        Table::Client => "[[client]]",
        Table::Hook => "[[hook]]",
    }
}

/// The words for the file as a whole.
fn whole<'a>(key: &'a str, found: Found<'a>, may: &'a str) -> Words<'a> {
    Words {
        table: "",
        row: None,
        key,
        item: None,
        found,
        may,
    }
}

/// The first key of the file that is no known table.
fn unknown_table(top: &toml::Table) -> Words<'_> {
    for key in top.keys() {
        let name = key.as_str();
        if name != "farm" && name != "role" && name != "client" && name != "hook" {
            return whole(
                name,
                Found::Nothing,
                "not known: there are [farm], [[role]], [[client]] and [[hook]]",
            );
        }
    }
    whole("the file", Found::Nothing, "a rule is broken")
}

/// What is wrong with `[farm]`.
fn farm_words<'a>(farm: &'a Value, rule: Rule) -> Words<'a> {
    match farm.as_table() {
        None => whole("farm", Found::Value(farm), "it is a table, [farm]"),
        Some(keys) => {
            let spot = Spot {
                table: Table::Farm,
                row: None,
                keys,
            };
            keys_words(&spot, rule)
        }
    }
}

/// What is wrong with a table of rows.
fn rows_words<'a>(name: &'a str, value: &'a Value, fault: &Fault) -> Words<'a> {
    let Some(rows) = value.as_array() else {
        return whole(
            name,
            Found::Value(value),
            "it is a list of tables, as [[role]], [[client]] and [[hook]] are",
        );
    };
    let place = fault.row as usize;
    let Some(row) = rows.get(place) else {
        return whole(name, Found::Nothing, "a rule is broken");
    };
    let Some(keys) = row.as_table() else {
        let words = whole("", Found::Value(row), "a row is a table");
        return Words {
            table: header_of(fault.table),
            row: Some(Row {
                place: fault.row,
                id: None,
            }),
            ..words
        };
    };
    let spot = Spot {
        table: fault.table,
        row: Some(Row {
            place: fault.row,
            id: id_of(row),
        }),
        keys,
    };
    if fault.rule == Rule::OutOfForm && place >= MOST_ROWS {
        return spot.at("", Found::Nothing, "there may be 10000 rows");
    }
    keys_words(&spot, fault.rule)
}

/// The id of a row.
pub(crate) fn id_of(row: &Value) -> Option<&str> {
    match row.as_table() {
        Some(keys) => text_at(keys, "id"),
        None => None,
    }
}

/// The text at a key.
pub(crate) fn text_at<'a>(keys: &'a toml::Table, key: &str) -> Option<&'a str> {
    match keys.get(key) {
        Some(value) => value.as_str(),
        None => None,
    }
}

/// What is wrong with the keys of a table or of a row.
fn keys_words<'a>(spot: &Spot<'a>, rule: Rule) -> Words<'a> {
    match rule {
        Rule::UnknownKey => unknown_key(spot),
        Rule::MissingKey => missing_key(spot),
        Rule::WrongKind => wrong_kind(spot),
        Rule::NotJson => no_json(spot),
        _ => out_of_form(spot),
    }
}

/// The first key that is not known.
fn unknown_key<'a>(spot: &Spot<'a>) -> Words<'a> {
    for (key, value) in spot.keys {
        let name = key.as_str();
        if !fields_of(spot.table).iter().any(|field| field.name == name) {
            return spot.at(
                name,
                found_under_unknown(spot.table, value),
                known_keys(spot.table),
            );
        }
    }
    spot.at("", Found::Nothing, "a key is not known")
}

/// What is shown of a value whose key is not known: of a client's nothing, since it may be a token.
fn found_under_unknown(table: Table, value: &Value) -> Found<'_> {
    match table {
        Table::Client => Found::Nothing,
        _ => Found::Value(value),
    }
}

/// The first key that is missing.
fn missing_key<'a>(spot: &Spot<'a>) -> Words<'a> {
    for field in fields_of(spot.table) {
        if field.required && !spot.keys.contains_key(field.name) {
            return spot.at(field.name, Found::Nothing, "it is missing");
        }
    }
    spot.at("", Found::Nothing, "a key is missing")
}

/// The first value that is of another kind.
fn wrong_kind<'a>(spot: &Spot<'a>) -> Words<'a> {
    for field in fields_of(spot.table) {
        if let Some(value) = spot.keys.get(field.name) {
            if !is_of_kind(value, field.kind) {
                return wrong_value(spot, field, value);
            }
        }
    }
    spot.at("", Found::Nothing, "a value is of another kind")
}

/// The words for a value of another kind, or for the first item of a list that is no text.
fn wrong_value<'a>(spot: &Spot<'a>, field: &Field, value: &'a Value) -> Words<'a> {
    if field.kind == Kind::Texts {
        if let Some(items) = value.as_array() {
            if let Some(item) = items.iter().position(|one| !one.is_str()) {
                if let Some(one) = items.get(item) {
                    let words = spot.at(field.name, Found::Value(one), "it has to be a text");
                    return Words {
                        item: Some(item),
                        ..words
                    };
                }
            }
        }
    }
    let found = if field.name == "token" {
        Found::Nothing
    } else {
        Found::Value(value)
    };
    spot.at(field.name, found, kind_words(field.kind))
}

/// The template that is no JSON of whole numbers.
fn no_json<'a>(spot: &Spot<'a>) -> Words<'a> {
    let found = match spot.keys.get("task") {
        Some(value) => Found::Value(value),
        None => Found::Nothing,
    };
    spot.at("task", found, "the text is no JSON of whole numbers")
}

/// The first value that is out of its form or range.
fn out_of_form<'a>(spot: &Spot<'a>) -> Words<'a> {
    for field in fields_of(spot.table) {
        if let Some(value) = spot.keys.get(field.name) {
            if let Some(words) = off_form(spot, field.name, value) {
                return words;
            }
        }
    }
    spot.at("", Found::Nothing, "a value is out of its form or range")
}

/// The words for a value, where it is out of its form or range.
fn off_form<'a>(spot: &Spot<'a>, key: &'static str, value: &'a Value) -> Option<Words<'a>> {
    if key == "scopes" {
        return off_scopes(spot, value);
    }
    if let Some(number) = value.as_integer() {
        return match range_words(key, number) {
            Some(may) => Some(spot.at(key, Found::Value(value), may)),
            None => None,
        };
    }
    let Some(text) = value.as_str() else {
        return None;
    };
    let Some(may) = form_words(spot.table, key, text) else {
        return None;
    };
    let found = if key == "token" {
        Found::Secret(text.len())
    } else {
        Found::Value(value)
    };
    Some(spot.at(key, found, may))
}

/// The words for the first scope of a list that is off its form.
fn off_scopes<'a>(spot: &Spot<'a>, value: &'a Value) -> Option<Words<'a>> {
    let Some(items) = value.as_array() else {
        return None;
    };
    let takes_parameter = takes_parameter(spot);
    for (item, one) in items.iter().enumerate() {
        if let Some(text) = one.as_str() {
            if let Some(may) = scope_words(text, takes_parameter) {
                let words = spot.at("scopes", Found::Value(one), may);
                return Some(Words {
                    item: Some(item),
                    ..words
                });
            }
        }
    }
    None
}

/// Whether the row is a role with a parameter: its id ends with `*`.
fn takes_parameter(spot: &Spot<'_>) -> bool {
    match spot.row {
        Some(Row { id: Some(id), .. }) => spot.table == Table::Role && id.ends_with('*'),
        _ => false,
    }
}
