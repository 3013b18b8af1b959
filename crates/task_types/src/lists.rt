//! The lists of a definition.
ghost use Rattle.std.specs.Prelude.{◌≡◌};

use crate::names::Route;
use farm_text::SlugId;
use scope_sets::Scope;
use std::marker::Model;

/// The tasks that a task waits for, each as its id.
#[derive(Drop)]
pub struct Dependencies {
    ids: Vec<SlugId>,
}

impl Model for Dependencies {
    ghost use Rattle.std.specs.Prelude.{ℕ, List};

    ghost Value = { List (List ℕ) };

    ghost view = { λ d. d.ids.items };
}

impl Dependencies {
    /// These ids.
    pub fn from_list(ids: Vec<SlugId>) -> Dependencies
        ensures { result ≡ ids.items }
    {
        Dependencies { ids }
    }

    /// The ids, in their order.
    pub fn list(&self) -> &[SlugId]
        ensures { result.now ≡ self.now }
    {
        &self.ids
    }

    /// The ids, which are not copied.
    pub fn into_list(self) -> Vec<SlugId>
        ensures { result.items ≡ self }
    {
        self.ids
    }
}

/// The routes of a task.
#[derive(Drop)]
pub struct Routes {
    routes: Vec<Route>,
}

impl Model for Routes {
    ghost use Rattle.std.specs.Prelude.{ℕ, List};

    ghost Value = { List (List ℕ) };

    ghost view = { λ r. r.routes.items };
}

impl Routes {
    /// These routes.
    pub fn from_list(routes: Vec<Route>) -> Routes
        ensures { result ≡ routes.items }
    {
        Routes { routes }
    }

    /// The routes, in their order.
    pub fn list(&self) -> &[Route]
        ensures { result.now ≡ self.now }
    {
        &self.routes
    }

    /// The routes, which are not copied.
    pub fn into_list(self) -> Vec<Route>
        ensures { result.items ≡ self }
    {
        self.routes
    }
}

/// The scopes that a task has.
#[derive(Drop)]
pub struct Scopes {
    scopes: Vec<Scope>,
}

impl Model for Scopes {
    ghost use Rattle.std.specs.Prelude.{ℕ, List};

    ghost Value = { List (List ℕ) };

    ghost view = { λ s. s.scopes.items };
}

impl Scopes {
    /// These scopes.
    pub fn from_list(scopes: Vec<Scope>) -> Scopes
        ensures { result ≡ scopes.items }
    {
        Scopes { scopes }
    }

    /// The scopes, in their order.
    pub fn list(&self) -> &[Scope]
        ensures { result.now ≡ self.now }
    {
        &self.scopes
    }

    /// The scopes, which are not copied.
    pub fn into_list(self) -> Vec<Scope>
        ensures { result.items ≡ self }
    {
        self.scopes
    }
}
