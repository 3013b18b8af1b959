//! Members of maps and lists.
ghost use Rattle.std.specs.Prelude.{◌≡◌, MatchResult, Ok, Err};
ghost use Rattle.farm_text.specs.Doc.{document};
ghost use Rattle.jsone_values.specs.Members.{member_of, item_of};

use crate::faults::Fault;
use crate::places::place_of;
use farm_text::Doc;

/// What a map has at the key.
pub fn member_of<'a>(value: &'a Doc, key: &str) -> Result<&'a Doc, Fault>
    ensures { MatchResult result
        (λ found. member_of key.now (document value.now) ≡ Ok (document found.now))
        (λ fault. member_of key.now (document value.now) ≡ Err fault) }
{
    match value {
        Doc::Map(_) => match value.get(key) {
            Some(found) => Ok(found),
            None => Err(Fault::NoMember),
        },
        _ => Err(Fault::WrongKind),
    }
}

/// What a list has at the index.
pub fn item_of(value: &Doc, index: i64) -> Result<&Doc, Fault>
    ensures { MatchResult result
        (λ found. item_of index (document value.now) ≡ Ok (document found.now))
        (λ fault. item_of index (document value.now) ≡ Err fault) }
{
    match value {
        Doc::List(items) => match place_of(index, items.len()) {
            Some(place) => Ok(&items[place]),
            None => Err(Fault::NoMember),
        },
        _ => Err(Fault::WrongKind),
    }
}
