//! The keys of a file's tables.

use crate::fault::Table;
use toml::Value;

/// The kinds of values.
#[derive(Clone, Copy, PartialEq, Eq)]
pub(crate) enum Kind {
    Text,
    Whole,
    Texts,
    Truth,
}

/// A key of a table: its name, whether it has no default, and the kind of its value.
#[derive(Clone, Copy)]
pub(crate) struct Field {
    pub(crate) name: &'static str,
    pub(crate) required: bool,
    pub(crate) kind: Kind,
}

/// The keys of a table.
pub(crate) fn fields_of(table: Table) -> &'static [Field] {
    match table {
        Table::File => &[],
        Table::Farm => &FARM_FIELDS,
        Table::Role => &ROLE_FIELDS,
        Table::Client => &CLIENT_FIELDS,
        Table::Hook => &HOOK_FIELDS,
    }
}

static FARM_FIELDS: [Field; 4] = [
    Field {
        name: "host",
        required: false,
        kind: Kind::Text,
    },
    Field {
        name: "port",
        required: false,
        kind: Kind::Whole,
    },
    Field {
        name: "claim_timeout",
        required: false,
        kind: Kind::Whole,
    },
    Field {
        name: "max_tasks",
        required: false,
        kind: Kind::Whole,
    },
];

static ROLE_FIELDS: [Field; 2] = [
    Field {
        name: "id",
        required: true,
        kind: Kind::Text,
    },
    Field {
        name: "scopes",
        required: true,
        kind: Kind::Texts,
    },
];

static CLIENT_FIELDS: [Field; 5] = [
    Field {
        name: "id",
        required: true,
        kind: Kind::Text,
    },
    Field {
        name: "token",
        required: true,
        kind: Kind::Text,
    },
    Field {
        name: "scopes",
        required: true,
        kind: Kind::Texts,
    },
    Field {
        name: "expires",
        required: true,
        kind: Kind::Text,
    },
    Field {
        name: "disabled",
        required: false,
        kind: Kind::Truth,
    },
];

static HOOK_FIELDS: [Field; 3] = [
    Field {
        name: "group",
        required: true,
        kind: Kind::Text,
    },
    Field {
        name: "id",
        required: true,
        kind: Kind::Text,
    },
    Field {
        name: "task",
        required: true,
        kind: Kind::Text,
    },
];

/// Which keys a table has.
pub(crate) fn known_keys(table: Table) -> &'static str {
    match table {
        Table::File => "not known",
        Table::Farm => "not known: the keys are host, port, claim_timeout and max_tasks",
        Table::Role => "not known: the keys are id and scopes",
        Table::Client => "not known: the keys are id, token, scopes, expires and disabled",
        Table::Hook => "not known: the keys are group, id and task",
    }
}

/// Whether a value is of a kind.
pub(crate) fn is_of_kind(value: &Value, kind: Kind) -> bool {
    match kind {
        Kind::Text => value.is_str(),
        Kind::Whole => value.is_integer(),
        Kind::Truth => value.is_bool(),
        Kind::Texts => match value.as_array() {
            Some(items) => items.iter().all(|one| one.is_str()),
            None => false,
        },
    }
}

/// What has to stand where a value of a kind does.
pub(crate) fn kind_words(kind: Kind) -> &'static str {
    match kind {
        Kind::Text => "it has to be a text",
        Kind::Whole => "it has to be a whole number",
        Kind::Truth => "it has to be true or false",
        Kind::Texts => "it has to be a list of texts",
    }
}
