//! The roles by their keys: what stands before the `*` of an id, or an id without one.
ghost use Rattle.std.specs.Prelude.{◌≡◌, ◌≢◌, ℕ, ◌-◌, ◌<◌, ◌≤◌, ◌++◌, ◌∷◌, ◌⊎◌, true, false, List, Contains, IfOk, IsTrue, length, slice_index, slice_index_or, string_bytes};
ghost use Rattle.std.specs.Cmp.Lexicographic.{slice_cmp};
ghost use Rattle.std.specs.Ordering.{nat_cmp, is_lt};
ghost use Rattle.role_expand.specs.Roles.{RoleData, role_data, roles_data, assume};
ghost use Rattle.role_expand.specs.Index.{text_of, Begins, AreRising, IsUnder, AreLinks, HasKey, AreKeysOf};

use crate::roles::Role;
use std::alloc::{AllocError, Global};
use std::marker::Model;

/// The key of the role at a place.
#[derive(Debug, PartialEq, Eq, PartialOrd, Ord, Drop)]
pub(crate) struct RoleKey {
    pub(crate) text: String,
    pub(crate) place: usize,
}

/// The keys of roles in rising order, and for each the last one before it that it begins with.
#[derive(Drop)]
pub(crate) struct RoleIndex {
    keys: Vec<RoleKey>,
    links: Vec<usize>,
}

impl Model for RoleIndex {
    ghost use Rattle.std.specs.Prelude.{List};
    ghost use Rattle.role_expand.specs.declared.index.RoleKey.{RoleKey};
    ghost use Rattle.role_expand.specs.Index.{IsIndex};

    ghost Value = { List RoleKey };

    ghost view = { λ s. s.keys.items };

    ghost invariant = { λ s. IsIndex s.keys.items s.links.items };
}

/// What stands before the `*` of an id, or the id where it does not end with one.
fn key_text(id: &str) -> &str
    ensures { HasKey id.now result.now }
{
    match id.strip_suffix('*') {
        Some(front) => front,
        None => id,
    }
}

/// The keys of the roles, in their order.
fn keys_of(alloc: Global, roles: &[Role]) -> Result<Vec<RoleKey>, AllocError>
    ensures { IfOk result (λ keys. AreKeysOf (roles_data roles.now) keys.items) }
{
    let mut keys = Vec::new(alloc);
    for (place, role) in roles.iter().enumerate() {
        let text = String::from_str(alloc, key_text(role.id.as_str()))?;
        keys.push(RoleKey { text, place })?;
    }
    Ok(keys)
}

/// The keys of the roles, rising.
fn rising_keys(alloc: Global, roles: &[Role]) -> Result<Vec<RoleKey>, AllocError>
    ensures { IfOk result (λ keys. AreKeysOf (roles_data roles.now) keys.items × AreRising keys.items) }
{
    let mut keys = keys_of(alloc, roles)?;
    keys.sort_unstable();
    Ok(keys)
}

/// Follows links from before a place to the first key that the text begins with: what stands before that place is passed only
/// where the text does not begin with it. Places are told as one more than the key's own, and 0 is none.
fn nearest(keys: &[RoleKey], links: &[usize], from: usize, text: &str) -> usize
    requires as_long { length links.now ≤ length keys.now }
    requires from_in { from ≤ length links.now }
    requires linked { AreLinks keys.now links.now }
    ensures bound { result ≤ from }
    ensures whole { (j : ℕ) → IsUnder keys.now from j
        → ((d : RoleKey) → Begins text.now (text_of (slice_index_or keys.now j d))) → IsUnder keys.now result j }
{
    let mut at = from;
    while at > 0 && !text.starts_with(keys[at - 1].text.as_str()) {
        at = links[at - 1];
    }
    at
}

/// For each key the last one before it that it begins with.
pub(crate) fn link_all(alloc: Global, keys: &[RoleKey]) -> Result<Vec<usize>, AllocError>
    requires { AreRising keys.now }
    ensures len { IfOk result (λ links. length links.items ≡ length keys.now) }
    ensures linked { IfOk result (λ links. AreLinks keys.now links.items) }
{
    let mut links = Vec::new(alloc);
    for place in 0..keys.len() {
        let at = nearest(keys, &links, place, keys[place].text.as_str());
        links.push(at)?;
    }
    Ok(links)
}

/// How many keys stand no later than a text.
fn count_up_to(keys: &[RoleKey], text: &str) -> usize
    requires { AreRising keys.now }
    ensures bound { result ≤ length keys.now }
    ensures before { (j : ℕ) (d : RoleKey) → j < result
        → is_lt (slice_cmp nat_cmp text.now (text_of (slice_index_or keys.now j d))) ≡ false }
    ensures after { (j : ℕ) (d : RoleKey) → result ≤ j → j < length keys.now
        → is_lt (slice_cmp nat_cmp text.now (text_of (slice_index_or keys.now j d))) ≡ true }
{
    let mut low = 0;
    let mut high = keys.len();
    'halves: while low < high {
        let middle = low + (high - low) / 2;
        if text < keys[middle].text.as_str() {
            high = middle;
        } else {
            low = middle + 1;
        }
    }
    low
}

/// How many keys stand before a text, or begin with it.
fn count_with(keys: &[RoleKey], text: &str) -> usize
    requires { AreRising keys.now }
    ensures bound { result ≤ length keys.now }
    ensures after { (j : ℕ) (d : RoleKey) → result ≤ j → j < length keys.now
        → ¬ Begins (text_of (slice_index_or keys.now j d)) text.now }
{
    let mut low = 0;
    let mut high = keys.len();
    'halves: while low < high {
        let middle = low + (high - low) / 2;
        let key = keys[middle].text.as_str();
        if text < key && !key.starts_with(text) {
            high = middle;
        } else {
            low = middle + 1;
        }
    }
    low
}

/// How many keys stand before a text.
fn count_before(keys: &[RoleKey], text: &str) -> usize
    requires { AreRising keys.now }
    ensures bound { result ≤ length keys.now }
    ensures before { (j : ℕ) (d : RoleKey) → j < result
        → ¬ Begins (text_of (slice_index_or keys.now j d)) text.now }
{
    let mut low = 0;
    let mut high = keys.len();
    'halves: while low < high {
        let middle = low + (high - low) / 2;
        if keys[middle].text.as_str() < text {
            low = middle + 1;
        } else {
            high = middle;
        }
    }
    low
}

impl RoleIndex {
    /// The index of these roles.
    pub(crate) fn build(alloc: Global, roles: &[Role]) -> Result<RoleIndex, AllocError>
        ensures { IfOk result (λ index. AreKeysOf (roles_data roles.now) index) }
    {
        let keys = rising_keys(alloc, roles)?;
        let links = link_all(alloc, &keys)?;
        Ok(RoleIndex { keys, links })
    }

    /// The places of the roles with whose keys a text begins.
    pub(crate) fn fronts_of(&self, alloc: Global, text: &str) -> Result<Vec<usize>, AllocError>
        ensures { IfOk result (λ places. (key : RoleKey) → Contains self.now key → Begins text.now (text_of key)
            → Contains places.items key.place) }
    {
        let mut places = Vec::new(alloc);
        let last = count_up_to(&self.keys, text);
        let mut at = nearest(&self.keys, &self.links, last, text);
        while at > 0 {
            places.push(self.keys[at - 1].place)?;
            at = self.links[at - 1];
        }
        Ok(places)
    }

    /// Adds the places of the roles whose keys begin with a text.
    pub(crate) fn add_beginning(
        &self,
        places: &mut Vec<usize>,
        text: &str,
    ) -> Result<(), AllocError>
        ensures kept { IfOk result (λ _. (place : ℕ) → Contains places.old.items place → Contains places.new.items place) }
        ensures added { IfOk result (λ _. (key : RoleKey) → Contains self.now key → Begins (text_of key) text.now
            → Contains places.new.items key.place) }
    {
        let low = count_before(&self.keys, text);
        let high = count_with(&self.keys, text);
        for at in low..high {
            places.push(self.keys[at].place)?;
        }
        Ok(())
    }

    /// The places of all roles.
    pub(crate) fn all_places(&self, alloc: Global) -> Result<Vec<usize>, AllocError>
        ensures { IfOk result (λ places. (key : RoleKey) → Contains self.now key → Contains places.items key.place) }
    {
        let mut places = Vec::new(alloc);
        for key in &self.keys {
            places.push(key.place)?;
        }
        Ok(places)
    }
}
