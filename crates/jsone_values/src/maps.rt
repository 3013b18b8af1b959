//! Maps that an expression writes out.
ghost use Rattle.std.specs.Prelude.{◌≡◌, OnOk, is_some, string_bytes};
ghost use Rattle.farm_text.specs.Document.{member_at, members_of, put};
ghost use Rattle.farm_text.specs.Doc.{document, entries_of};
ghost use Rattle.jsone_values.specs.Maps.{map_of};
ghost use Rattle.jsone_values.specs.Meets.{Meets};

use crate::faults::{Fault, Stop};
use farm_text::Doc;
use std::alloc::{AllocError, Global};
use std::collections::BTreeMap;

fn has_key(map: &BTreeMap<String, Doc>, key: &str) -> bool
    ensures { result ≡ is_some (member_at key.now (members_of (entries_of map.now.entries))) }
{
    map.contains_key(key)
}

fn insert(map: &mut BTreeMap<String, Doc>, key: String, value: Doc) -> Result<(), AllocError>
    ensures { OnOk result (members_of (entries_of map.new.entries)
        ≡ put (string_bytes key) (document value) (members_of (entries_of map.old.entries))) }
{
    drop(map.insert(key, value)?);
    Ok(())
}

/// The map of these members, of which no two may have one key.
pub fn map_of(alloc: Global, members: Vec<(String, Doc)>) -> Result<Doc, Stop>
    ensures { Meets (λ r. r ≡ map_of (entries_of members.items)) result }
{
    let mut map = BTreeMap::new(alloc);
    for (key, value) in members {
        if has_key(&map, key.as_str()) {
            return Err(Stop::Fault(Fault::KeyTwice));
        }
        match insert(&mut map, key, value) {
            Ok(()) => {}
            Err(_) => return Err(Stop::NoMemory),
        }
    }
    Ok(Doc::Map(map))
}
