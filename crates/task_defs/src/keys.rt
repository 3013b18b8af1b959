//! Which keys a definition has, the kinds of their values, and which must stand.
ghost use Rattle.std.specs.Prelude.{◌≡◌, true, Some, not, MatchOption, MatchResult, option_map};
ghost use Rattle.std.specs.List.{find, list_any};
ghost use Rattle.std.specs.Str.{bytes_eq};
ghost use Rattle.farm_text.specs.Document.{object, members_of, get};
ghost use Rattle.farm_text.specs.Doc.{document, entries_of};
ghost use Rattle.task_defs.specs.Faults.{Holds, IsFirstKey, Breaks};
ghost use Rattle.task_defs.specs.Keys.{text_keys, is_among, has_kind, may_stand, has, required, IsUnfit, IsMissing, KeyBreaks};
ghost use Rattle.task_defs.specs.Lesser.{lesser};

use crate::documents::nests_within;
use crate::fault::DefError;
use farm_text::Doc;
use std::alloc::Global;
use std::collections::BTreeMap;

/// Whether a key is one of these.
fn is_among(names: &[&str], key: &str) -> bool
    ensures { result ≡ list_any (λ name. bytes_eq name.now key.now) names.now }
{
    names.iter().any(|name| *name == key)
}

fn is_text_key(key: &str) -> bool
    ensures { result ≡ is_among text_keys key.now }
{
    is_among(
        [
            "created",
            "deadline",
            "expires",
            "priority",
            "projectId",
            "provisionerId",
            "requires",
            "schedulerId",
            "taskGroupId",
            "taskQueueId",
            "workerType",
        ]
        .as_slice(),
        key,
    )
}

/// Whether the value is of the kind that stands at the key.
fn has_kind(key: &str, value: &Doc) -> bool
    ensures { result ≡ has_kind key.now (document value.now) }
{
    match value {
        Doc::Null | Doc::Bool(_) => false,
        Doc::Int(_) => key == "retries",
        Doc::Text(_) => is_text_key(key),
        Doc::List(_) => matches!(key, "dependencies" | "routes" | "scopes"),
        Doc::Map(_) => matches!(key, "extra" | "metadata" | "payload" | "tags"),
    }
}

/// Whether the value may stand at the key.
fn may_stand(key: &str, value: &Doc) -> bool
    ensures { result ≡ may_stand key.now (document value.now) }
{
    has_kind(key, value) && nests_within(value, 126)
}

/// The first key whose value may not stand there.
fn first_unfit(members: &BTreeMap<String, Doc>) -> Option<&str>
    ensures { MatchOption result
        (Holds (IsUnfit (object (members_of (entries_of members.now.entries)))))
        (λ key. IsFirstKey (IsUnfit (object (members_of (entries_of members.now.entries)))) key.now) }
{
    for (key, value) in members.iter() {
        if !may_stand(key.as_str(), value) {
            return Some(key.as_str());
        }
    }
    None
}

/// Whether there is a value at a key.
pub(crate) fn has(doc: &Doc, key: &str) -> bool
    ensures { result ≡ has key.now (document doc.now) }
{
    doc.get(key).is_some()
}

/// The first key that must stand and does not.
fn missing_key(doc: &Doc) -> Option<&'static str>
    ensures { option_map (λ k. k.now) result ≡ find (λ k. not (has k (document doc.now))) (required (document doc.now)) }
{
    let provisioner = has(doc, "provisionerId");
    let worker = has(doc, "workerType");
    if !has(doc, "created") {
        Some("created")
    } else if !has(doc, "deadline") {
        Some("deadline")
    } else if !has(doc, "metadata") {
        Some("metadata")
    } else if !has(doc, "payload") {
        Some("payload")
    } else if worker && !provisioner {
        Some("provisionerId")
    } else if !provisioner && !worker && !has(doc, "taskQueueId") {
        Some("taskQueueId")
    } else if provisioner && !worker {
        Some("workerType")
    } else {
        None
    }
}

fn first_missing(doc: &Doc) -> Option<&'static str>
    ensures { MatchOption result (Holds (IsMissing (document doc.now))) (λ key. IsFirstKey (IsMissing (document doc.now)) key.now) }
{
    missing_key(doc)
}

/// The lesser of two keys, if there are two.
fn lesser<'a>(first: Option<&'a str>, second: Option<&'a str>) -> Option<&'a str>
    ensures { option_map (λ k. k.now) result ≡ lesser (option_map (λ k. k.now) first.entry) (option_map (λ k. k.now) second.entry) }
{
    match (first, second) {
        (None, other) => other,
        (Some(key), None) => Some(key),
        (Some(key), Some(other)) => { if other < key { Some(other) } else { Some(key) } }
    }
}

/// The first key of a map that may not stand, or is missing.
fn broken_key(doc: &Doc) -> Option<&str>
    ensures { MatchOption result (Holds (KeyBreaks (document doc.now))) (λ key. IsFirstKey (KeyBreaks (document doc.now)) key.now) }
{
    let Doc::Map(members) = doc else {
        return Some("");
    };
    lesser(first_unfit(members), first_missing(doc))
}

/// Refuses a definition one of whose keys may not stand, or is missing.
pub(crate) fn check_keys(alloc: Global, doc: &Doc) -> Result<(), DefError>
    ensures { MatchResult result (λ _. Holds (KeyBreaks (document doc.now))) (Breaks 1 (KeyBreaks (document doc.now))) }
{
    match broken_key(doc) {
        None => Ok(()),
        Some(key) => Err(DefError::at(alloc, 1, key)),
    }
}

/// The value at a key where there is one.
pub(crate) fn value<'a>(doc: &'a Doc, key: &str) -> &'a Doc
    requires { has key.now (document doc.now) ≡ true }
    ensures { get key.now (document doc.now) ≡ Some (document result.now) }
{
    match doc.get(key) {
        Some(value) => value,
        None => unreachable!(),
    }
}
