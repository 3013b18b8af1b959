//! The scopes that are found so far.
ghost use Rattle.std.specs.Prelude.{◌≡◌, ℕ, ◌<◌, ◌++◌, ◌∷◌, [], ◌↔◌, List, Contains, IsTrue, IfOk, length, slice_index_or};

use scope_sets::Scope;
use std::alloc::{AllocError, Global};
use std::collections::BTreeSet;
use std::marker::Model;

/// Scopes in the order in which they were found, and the same scopes as a set.
#[derive(Drop)]
pub(crate) struct Found {
    list: Vec<Scope>,
    set: BTreeSet<Scope>,
}

impl Model for Found {
    ghost use Rattle.std.specs.Prelude.{ℕ, List};
    ghost use Rattle.role_expand.specs.Found.{HasSameScopes};

    ghost Value = { List (List ℕ) };

    ghost view = { λ s. s.list.items };

    ghost invariant = { λ s. HasSameScopes s.set s.list.items };
}

impl Found {
    /// No scopes.
    pub(crate) fn new(alloc: Global) -> Found
        ensures { result ≡ [] }
    {
        Found {
            list: Vec::new(alloc),
            set: BTreeSet::new(alloc),
        }
    }

    /// How many scopes are found.
    pub(crate) fn len(&self) -> usize
        ensures { result ≡ length self.now }
    {
        self.list.len()
    }

    /// Whether the scope is found.
    pub(crate) fn has(&self, scope: &Scope) -> bool
        ensures { IsTrue result ↔ Contains self.now scope.now }
    {
        self.set.contains(scope)
    }

    /// The scope that was found at a place.
    pub(crate) fn at(&self, place: usize) -> &Scope
        requires { place < length self.now }
        ensures { result.now ≡ slice_index_or self.now place result.now }
    {
        &self.list[place]
    }

    /// Puts a scope at the end.
    pub(crate) fn push(&mut self, scope: Scope) -> Result<(), AllocError>
        ensures { IfOk result (λ _. self.new ≡ self.old ++ scope ∷ []) }
    {
        let copy = scope.clone()?;
        self.list.push(scope)?;
        match self.set.insert(copy) {
            Ok(_) => Ok(()),
            Err(full) => {
                self.list.pop();
                Err(AllocError::from(full))
            }
        }
    }

    /// The scopes in the order in which they were found.
    pub(crate) fn into_list(self) -> Vec<Scope>
        ensures { result.items ≡ self }
    {
        self.list
    }
}
