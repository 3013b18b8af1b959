//! What values weigh.
ghost use Rattle.std.specs.Prelude.{◌≡◌, min};
ghost use Rattle.farm_text.specs.Document.{items_of, members_of};
ghost use Rattle.farm_text.specs.Doc.{document, documents, entries_of};
ghost use Rattle.jsone_values.specs.Weights.{weight, items_weight, members_weight};

use farm_text::Doc;
use std::collections::BTreeMap;

/// What the value weighs; 2^64 - 1 stands for all that is more. It goes as deep as the value nests.
#[cycle(weigh)]
pub fn weight_of(value: &Doc) -> u64
    ensures { result ≡ min (weight (document value.now)) 18446744073709551615 }
{
    match value {
        Doc::Null | Doc::Bool(_) | Doc::Int(_) => 1,
        Doc::Text(text) => (text.as_bytes().len() as u64).saturating_add(1),
        Doc::List(items) => items_weight(items).saturating_add(1),
        Doc::Map(members) => members_weight(members).saturating_add(1),
    }
}

#[cycle(weigh)]
fn items_weight(items: &Vec<Doc>) -> u64
    ensures { result ≡ min (items_weight (items_of (documents items.now.items))) 18446744073709551615 }
{
    let mut total = 0u64;
    for item in items {
        total = total.saturating_add(weight_of(item));
    }
    total
}

#[cycle(weigh)]
fn members_weight(members: &BTreeMap<String, Doc>) -> u64
    ensures { result ≡ min (members_weight (members_of (entries_of members.now.entries))) 18446744073709551615 }
{
    let mut total = 0u64;
    for (key, member) in members.iter() {
        total = total
            .saturating_add(key.as_str().len() as u64)
            .saturating_add(weight_of(member));
    }
    total
}
