//! The forms and ranges of values, in words.

use crate::fault::Table;
use crate::settings::has_host_form;
use call_rules::{is_hook_group_id, is_hook_id};
use farm_text::read_moment;
use hawk_auth::{is_client_id, is_token};
use scope_lines::scope_fault;
use scope_sets::LONGEST_SCOPE;
use scope_sets::scopes::is_printable;

/// What may stand in place of a number of `[farm]` that is out of its range.
pub(crate) fn range_words(key: &str, number: i64) -> Option<&'static str> {
    match key {
        "port" if !(1..=65_535).contains(&number) => Some("a port is 1 to 65535"),
        "claim_timeout" if !(1..=86_400).contains(&number) => Some(
            "a claim lasts 1 to 86400 seconds",
        ),
        "max_tasks" if !(1..=1_000_000).contains(&number) => Some(
            "a farm takes 1 to 1000000 tasks",
        ),
        _ => None,
    }
}

/// What may stand in place of a text that is off its form.
pub(crate) fn form_words(table: Table, key: &str, text: &str) -> Option<&'static str> {
    match key {
        "host" if !has_host_form(text) => Some("a host is 1 to 255 bytes of printable ASCII"),
        "id" if table == Table::Role && !has_role_id_form(text) => {
            Some("an id is 1 to 4096 bytes of printable ASCII")
        }
        "id" if table == Table::Client && !is_client_id(text) => {
            Some("an id is 1 to 128 of [A-Za-z0-9!@/:.+|_-]")
        }
        "group" if !is_hook_group_id(text.as_bytes()) => {
            Some("a group is 1 to 1000 of [A-Za-z0-9_-]")
        }
        "id" if table == Table::Hook && !is_hook_id(text.as_bytes()) => {
            Some("an id is 1 to 1000 of [A-Za-z0-9_/-]")
        }
        "token" if !is_token(text) => Some("a token is 22 to 66 of [A-Za-z0-9_-]"),
        "expires" if read_moment(text.as_bytes()).is_none() => {
            Some(
                "it has to be a date and time with an offset, from 1970 to 9998, as 2030-01-01T00:00:00Z",
            )
        }
        _ => None,
    }
}

fn has_role_id_form(id: &str) -> bool {
    !id.is_empty() && id.len() <= LONGEST_SCOPE && is_printable(id.as_bytes())
}

/// What may stand in place of a scope of a row that is off its form.
pub(crate) fn scope_words(text: &str, takes_parameter: bool) -> Option<&'static str> {
    match scope_fault(text.as_bytes()) {
        Some(may) => Some(may),
        None if takes_parameter => hole_words(text),
        None => None,
    }
}

/// The rule on `<..>` that a scope of a role with a parameter breaks.
fn hole_words(text: &str) -> Option<&'static str> {
    match text.split_once("<..>") {
        None => None,
        Some((before, after)) => {
            if after.contains("<..>") {
                return Some("<..> stands in a scope at most once");
            }
            if before.ends_with('*') {
                return Some("<..> does not stand behind a *");
            }
            None
        }
    }
}
