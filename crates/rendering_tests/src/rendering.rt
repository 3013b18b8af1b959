//! Templates against values and faults that were worked by hand from the language's reference and the rules of this project.
use farm_text::Doc;
use jsone_render::{RenderFault, render};
use std::alloc::{AllocError, Global};

mod bindings;
mod conditions;
mod faults;
mod maps;
mod merges;
mod texts;

const NAMES: &str =
    r#"{"a":1,"b":"text","c":[10,20,30],"d":{"k":"v","n":{"m":7}},"e":"","f":[],"g":{},"now":"2024-01-01T00:00:00.000Z","t":true,"z":null,"u":"aé"}"#;

/// Whether this compact text is the value's. `expression_tests` has the same for its own: a crate of tests has nothing that another could use.
fn is_written(alloc: Global, value: &Doc, wanted: &str) -> bool {
    match value.write(alloc) {
        Ok(text) => text.as_str() == wanted,
        Err(_) => false,
    }
}

/// Whether a template comes to this value, as compact JSON, or to the fault of this number and path, as `!3 /then`.
fn comes_to(alloc: Global, template: &Doc, context: &Doc, wanted: &str) -> bool {
    match render(alloc, template, context) {
        Ok(value) => {
            let is_so = is_written(alloc, &value, wanted);
            drop(value);
            is_so
        }
        Err(fault) => is_told(alloc, &fault, wanted),
    }
}

fn is_told(alloc: Global, fault: &RenderFault, wanted: &str) -> bool {
    match words(alloc, fault) {
        Ok(words) => words.as_str().trim_end() == wanted,
        Err(_) => false,
    }
}

fn words(alloc: Global, fault: &RenderFault) -> Result<String, AllocError> {
    match fault {
        RenderFault::Fault(fault) => {
            format!(in alloc; "!{} {}", fault.rule.rule(), fault.path.as_str())
        }
        RenderFault::TooMuchWork => String::from_str(alloc, "too much"),
        RenderFault::NoMemory => String::from_str(alloc, "no memory"),
    }
}

fn gives(alloc: Global, template: &str, context: &Doc, wanted: &str) -> bool {
    match Doc::read(alloc, template.as_bytes()) {
        Ok(template) => {
            let is_so = comes_to(alloc, &template, context, wanted);
            drop(template);
            is_so
        }
        Err(_) => false,
    }
}

fn is_row(alloc: Global, context: &Doc, row: &str) -> bool {
    match row.split_once(" ~ ") {
        Some((template, wanted)) => gives(alloc, template, context, wanted),
        None => false,
    }
}

/// The first row of some that comes to something else than it says, or `none`. A row is a template and what it comes to, with ` ~ ` between
/// them.
fn other_in<'a>(alloc: Global, context: &Doc, rows: &'a str) -> &'a str {
    for row in rows.lines() {
        if !is_row(alloc, context, row) {
            return row;
        }
    }
    "none"
}

fn first_other<'a>(alloc: Global, names: &str, rows: &'a str) -> &'a str {
    match Doc::read(alloc, names.as_bytes()) {
        Ok(names) => {
            let other = other_in(alloc, &names, rows);
            drop(names);
            other
        }
        Err(_) => "no names",
    }
}

/// The tables of templates over these names.
const TABLES: &[&str] = &[
    bindings::BOUND,
    bindings::MAPPED,
    bindings::REDUCED,
    bindings::FOUND,
    bindings::SORTED,
    conditions::EVALUATED,
    conditions::BRANCHES,
    conditions::MOMENTS,
    faults::THE_FIRST_FAULT_IS_TOLD,
    maps::PLAIN_MAPS,
    maps::KEYS_OF_OPERATORS,
    merges::MERGED,
    merges::FLATTENED,
    texts::TEXTS,
    texts::LISTS,
];

#[test]
fn templates_come_to_what_they_say(rt: HostRuntime) {
    for rows in TABLES {
        assert_eq!(rt; first_other(rt.alloc(), NAMES, rows), "none");
    }
}

/// Contexts, and what the template 1 comes to with each: they are maps of names.
const CONTEXTS: &str = r#"{} ~ 1
{"a_1":2,"_":3,"Z9":4} ~ 1
{"a b":2} ~ !12
{"":2} ~ !12
{"1a":2} ~ !12
{"in":2} ~ !12
{"null":2} ~ !12
{"true":2} ~ !12
{"false":2} ~ !12
{"a-b":2} ~ !12
[] ~ !12
null ~ !12"#;

fn is_context(alloc: Global, context: &str, wanted: &str) -> bool {
    match Doc::read(alloc, context.as_bytes()) {
        Ok(context) => {
            let is_so = gives(alloc, "1", &context, wanted);
            drop(context);
            is_so
        }
        Err(_) => false,
    }
}

fn is_context_row(alloc: Global, row: &str) -> bool {
    match row.split_once(" ~ ") {
        Some((context, wanted)) => is_context(alloc, context, wanted),
        None => false,
    }
}

#[test]
fn contexts_are_maps_of_names(rt: HostRuntime) {
    for row in CONTEXTS.lines() {
        assert!(rt; is_context_row(rt.alloc(), row), "{row}");
    }
}
