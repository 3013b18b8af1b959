//! What roles grant: the closures of start lists that are kept, so that no ask makes one.
ghost use Rattle.std.specs.Prelude.{◌≡◌, IfOk, codes, length};
ghost use Rattle.hawk_auth.specs.Access.{anonymous_scopes};
ghost use Rattle.farm_asks.specs.Grants.{IsKeptOf};

use role_expand::{ExpandFault, RoleSet};
use scope_sets::{Scope, ScopeSet};
use std::alloc::{AllocError, Global};
use std::marker::Model;

/// What is kept of a start list: all scopes that are derivable from it, or that they are too many.
#[derive(Drop)]
pub(crate) enum Closure {
    Whole(ScopeSet),
    TooMany,
}

/// A set of roles, and what they grant to whoever gives no credentials. It is made once and borrowed by each ask.
#[derive(Drop)]
pub struct Grants {
    roles: RoleSet,
    anonymous: Closure,
}

impl Model for Grants {
    ghost use Rattle.std.specs.Prelude.{List};
    ghost use Rattle.role_expand.specs.Roles.{RoleData};
    ghost use Rattle.hawk_auth.specs.Access.{anonymous_scopes};
    ghost use Rattle.farm_asks.specs.Grants.{IsKeptOf};

    ghost Value = { List RoleData };

    ghost view = { λ g. g.roles };

    ghost invariant = { λ g. IsKeptOf g.roles anonymous_scopes g.anonymous };
}

impl Grants {
    /// What these roles grant.
    ///
    /// It follows each scope that is derivable for whoever gives no credentials through all roles.
    pub fn new(alloc: Global, roles: RoleSet) -> Result<Grants, AllocError>
        ensures { IfOk result (λ grants. grants ≡ roles) }
    {
        let anonymous = close(alloc, &roles, &[anonymous(alloc)?])?;
        Ok(Grants { roles, anonymous })
    }

    /// The number of roles.
    pub fn len(&self) -> usize
        ensures { result ≡ length self.now }
    {
        self.roles.len()
    }

    /// The roles. They are borrowed.
    pub fn roles(&self) -> &RoleSet
        ensures { result.now ≡ self.now }
    {
        &self.roles
    }

    /// What is kept of the start list of whoever gives no credentials. It is borrowed.
    pub(crate) fn anonymous(&self) -> &Closure
        ensures { IsKeptOf self.now anonymous_scopes result.now }
    {
        &self.anonymous
    }
}

/// What is kept of a start list over these roles.
fn close(alloc: Global, roles: &RoleSet, start: &[Scope]) -> Result<Closure, AllocError>
    ensures { IfOk result (IsKeptOf roles.now start.now) }
{
    match roles.expand(alloc, start) {
        Ok(scopes) => Ok(Closure::Whole(scopes)),
        Err(ExpandFault::TooMany) => Ok(Closure::TooMany),
        Err(ExpandFault::NoMemory) => Err(AllocError),
    }
}

/// The scope that whoever gives no credentials starts with.
fn anonymous(alloc: Global) -> Result<Scope, AllocError>
    ensures { IfOk result (λ scope. scope ≡ codes "assume:anonymous") }
{
    Ok(Scope::from_printable(String::from_str(alloc, "assume:anonymous")?))
}
