ghost use Rattle.std.specs.Prelude.{◌≡◌, ℕ, ◌↔◌, List, ◌∷◌, ◌++◌, [], IsTrue, All, Contains, Any};
ghost use Rattle.scope_sets.specs.Scopes.{star, IsRising, Satisfies, covers};
ghost use Rattle.scope_sets.specs.Walks.{HasFront, rank_at};

use crate::scopes::Scope;
use std::marker::Model;

/// A set of scopes, kept as a list that rises by bytes, each scope once.
#[derive(Drop)]
pub struct ScopeSet {
    scopes: Vec<Scope>,
}

impl Model for ScopeSet {
    ghost use Rattle.std.specs.Prelude.{ℕ, List};
    ghost use Rattle.scope_sets.specs.Scopes.{IsRising};

    ghost Value = { List (List ℕ) };

    ghost view = { λ s. s.scopes.items };

    ghost invariant = { λ s. IsRising s.scopes.items };
}

impl ScopeSet {
    /// The set of these scopes. It sorts and drops repeats in place, and takes no memory.
    pub fn from_list(scopes: Vec<Scope>) -> ScopeSet
        ensures rising { IsRising result }
        ensures keeps { (s : List ℕ) → Contains scopes.items s → Contains result s }
        ensures adds_none { (s : List ℕ) → Contains result s → Contains scopes.items s }
    {
        let mut scopes = scopes;
        scopes.sort_unstable();
        scopes.dedup();
        ScopeSet { scopes }
    }

    /// The scopes of the set, which rise by bytes, each once.
    pub fn list(&self) -> &[Scope]
        ensures value { result.now ≡ self.now }
        ensures rising { IsRising self.now }
    {
        &self.scopes
    }

    /// Whether a scope of the set satisfies this one.
    ///
    /// It walks along the bytes of the scope, beside the part of the list whose scopes begin with the bytes so far, and narrows
    /// that part by binary searches that look at one byte of a scope each. So for n scopes in the set and m bytes in the scope
    /// it takes about 4 m log2 n looks at a byte, however much the scopes have in common.
    pub fn covers(&self, scope: &Scope) -> bool
        ensures meaning { IsTrue result ↔ Any (λ held. Satisfies held scope.now) self.now }
        ensures test { result ≡ covers self.now scope.now }
    {
        let text = scope.as_bytes();
        let mut part = self.list();
        for n in 0..text.len() {
            if has_starred(part, &text[..n]) {
                return true;
            }
            part = with_next(part, &text[..n], text[n]);
        }
        has_starred(part, text) || has_whole(part, text)
    }
}

/// Whether one of these scopes, which begin with this front, is the front and a `*`.
fn has_starred(part: &[Scope], front: &[u8]) -> bool
    requires rising { IsRising part.now }
    requires begin { All (HasFront front.now) part.now }
    ensures { IsTrue result ↔ Contains part.now (front.now ++ star ∷ []) }
{
    match with_next(part, front, b'*').first() {
        None => false,
        Some(first) => first.as_bytes().len() == front.len() + 1,
    }
}

/// Whether one of these scopes, which begin with this front, is the front.
fn has_whole(part: &[Scope], front: &[u8]) -> bool
    requires rising { IsRising part.now }
    requires begin { All (HasFront front.now) part.now }
    ensures { IsTrue result ↔ Contains part.now front.now }
{
    match part.first() {
        None => false,
        Some(first) => first.as_bytes().len() == front.len(),
    }
}

/// Those of the scopes, which begin with this front, that have this byte next.
fn with_next<'a>(part: &'a [Scope], front: &[u8], byte: u8) -> &'a [Scope]
    requires rising { IsRising part.now }
    requires begin { All (HasFront front.now) part.now }
    ensures rising { IsRising result.now }
    ensures members { (s : List ℕ)
        → Contains result.now s ↔ (Contains part.now s × HasFront (front.now ++ byte ∷ []) s) }
{
    let n = front.len();
    let rank = u16::from(byte) + 1;
    let start = part.partition_point(|scope| rank_at(scope.as_bytes(), n) < rank);
    let rest = &part[start..];
    let end = rest.partition_point(|scope| rank_at(scope.as_bytes(), n) <= rank);
    &rest[..end]
}

/// Where a text stands among those that differ at this place: 0 if it ends before, and else its byte there and 1.
fn rank_at(text: &[u8], n: usize) -> u16
    ensures { result ≡ rank_at n text.now }
{
    match text.get(n) {
        None => 0,
        Some(byte) => u16::from(*byte) + 1,
    }
}
