//! What a rendered definition need not say.
ghost use Rattle.std.specs.Prelude.{◌≡◌, ◌+◌, min, is_some, string_bytes, OnOk, IfOk};
ghost use Rattle.farm_text.specs.Doc.{document, entries_of};
ghost use Rattle.farm_text.specs.Document.{member_at, members_of, object, put};
ghost use Rattle.hook_fire.specs.Defaults.{day_after, HasDefault, HasDefaults};

use farm_text::{Doc, LAST_MOMENT, Moment};
use std::alloc::{AllocError, Global};
use std::collections::BTreeMap;

/// A day, in milliseconds.
const DAY: u64 = 86_400_000;

/// The document with both defaults, where it is a map: `created` is the moment, and `deadline` a day after it.
pub(crate) fn with_defaults(alloc: Global, rendered: Doc, moment: Moment) -> Result<Doc, AllocError>
    ensures { IfOk result (λ d. HasDefaults moment (document rendered) (document d)) }
{
    let created = with_default(alloc, rendered, "created", moment)?;
    let whole = with_default(alloc, created, "deadline", a_day_after(moment))?;
    Ok(whole)
}

/// A day after the moment, or the last moment that there is.
fn a_day_after(moment: Moment) -> Moment
    ensures { result ≡ day_after moment }
{
    match Moment::from_millis((moment.millis() + DAY).min(LAST_MOMENT)) {
        Some(moment) => moment,
        None => unreachable!(),
    }
}

/// The document with this moment at the key, where it is a map that has nothing there.
fn with_default(alloc: Global, doc: Doc, key: &str, moment: Moment) -> Result<Doc, AllocError>
    ensures { IfOk result (λ d. HasDefault key.now moment (document doc) (document d)) }
{
    match doc {
        Doc::Map(members) => with_member(alloc, members, key, moment),
        other => Ok(other),
    }
}

fn with_member(
    alloc: Global,
    members: BTreeMap<String, Doc>,
    key: &str,
    moment: Moment,
) -> Result<Doc, AllocError>
    ensures { IfOk result (λ d. HasDefault key.now moment (object (members_of (entries_of members.entries))) (document d)) }
{
    if has_key(&members, key) {
        return Ok(Doc::Map(members));
    }
    let mut members = members;
    let text = moment.to_text(alloc)?;
    insert(alloc, &mut members, key, Doc::Text(text))?;
    Ok(Doc::Map(members))
}

fn has_key(members: &BTreeMap<String, Doc>, key: &str) -> bool
    ensures { result ≡ is_some (member_at key.now (members_of (entries_of members.now.entries))) }
{
    members.contains_key(key)
}

fn insert(
    alloc: Global,
    members: &mut BTreeMap<String, Doc>,
    key: &str,
    value: Doc,
) -> Result<(), AllocError>
    ensures { OnOk result (members_of (entries_of members.new.entries)
        ≡ put key.now (document value) (members_of (entries_of members.old.entries))) }
{
    let name = String::from_str(alloc, key)?;
    drop(members.insert(name, value)?);
    Ok(())
}
