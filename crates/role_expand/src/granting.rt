//! Which roles may give something to whoever has a scope.
ghost use Rattle.std.specs.Prelude.{◌≡◌, ◌≢◌, ℕ, ◌++◌, ◌∷◌, [], ◌↔◌, List, Contains, IsTrue, IfOk, MatchOption};
ghost use Rattle.scope_sets.specs.Scopes.{star};
ghost use Rattle.role_expand.specs.Roles.{RoleData, assume, Gives};
ghost use Rattle.role_expand.specs.Index.{text_of, Begins, HasKey};
ghost use Rattle.role_expand.specs.declared.index.RoleKey.{RoleKey};

use crate::index::RoleIndex;
use scope_sets::Scope;
use std::alloc::{AllocError, Global};

/// What follows `assume:` in a text that begins so.
pub(crate) fn after_assume(text: &str) -> Option<&str>
    ensures { MatchOption result ((rest : List ℕ) → text.now ≢ assume ++ rest)
        (λ rest. text.now ≡ assume ++ rest.now) }
{
    text.strip_prefix("assume:")
}

/// Whether a scope satisfies each scope that begins with `assume:`.
fn grants_each(held: &str) -> bool
    ensures { IsTrue result ↔ ((front : List ℕ) × (held.now ≡ front ++ star ∷ []) × Begins assume front) }
{
    match held.strip_suffix('*') {
        Some(front) => "assume:".starts_with(front),
        None => false,
    }
}

/// The places of all roles that give something to whoever has the scope, and maybe of others: those with whose key the scope
/// goes on after `assume:`, and those whose keys begin with what goes on there before a last `*`.
pub(crate) fn granting(
    alloc: Global,
    index: &RoleIndex,
    held: &Scope,
) -> Result<Vec<usize>, AllocError>
    ensures { IfOk result (λ places. (key : RoleKey) (role : RoleData) (s : List ℕ) → Contains index.now key
        → HasKey role.id (text_of key) → Gives role held.now s → Contains places.items key.place) }
{
    match after_assume(held.as_str()) {
        Some(text) => {
            let places = granted_after(alloc, index, text)?;
            Ok(places)
        }
        None => {
            if grants_each(held.as_str()) {
                return index.all_places(alloc);
            }
            Ok(Vec::new(alloc))
        }
    }
}

/// The places of the roles with whose key the text begins, and of those whose keys begin with the text before its last `*`.
fn granted_after(alloc: Global, index: &RoleIndex, text: &str) -> Result<Vec<usize>, AllocError>
    ensures fronts { IfOk result (λ places. (key : RoleKey) → Contains index.now key → Begins text.now (text_of key)
        → Contains places.items key.place) }
    ensures beginning { IfOk result (λ places. (key : RoleKey) (front : List ℕ) → Contains index.now key
        → text.now ≡ front ++ star ∷ [] → Begins (text_of key) front → Contains places.items key.place) }
{
    let mut places = index.fronts_of(alloc, text)?;
    match text.strip_suffix('*') {
        None => Ok(places),
        Some(front) => {
            index.add_beginning(&mut places, front)?;
            Ok(places)
        }
    }
}
