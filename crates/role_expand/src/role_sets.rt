ghost use Rattle.std.specs.Prelude.{◌≡◌, ℕ, ◌↔◌, ◌++◌, List, true, All, Contains, IfOk, MatchResult, length};
ghost use Rattle.std.specs.Str.Iter.{HasSubslice};
ghost use Rattle.role_expand.specs.Roles.{RoleData, role_data, hole, roles_data, HasRoleForm};
ghost use Rattle.role_expand.specs.Closures.{IsClosure, FailsToExpand};
ghost use Rattle.role_expand.specs.Cycles.{IsAccepted};
ghost use Rattle.role_expand.specs.Refusals.{Refuses};
ghost use Rattle.role_expand.specs.Known.{known_data};

use crate::cycles::first_cycle;
use crate::expansion::{ExpandFault, MOST_SCOPES, derive_all};
use crate::index::RoleIndex;
use crate::refusals::{BuildFault, first_bad_role, first_repeat};
use crate::roles::{KnownRole, Role};
use scope_sets::{LONGEST_SCOPE, Scope, ScopeSet};
use std::alloc::{AllocError, Global};
use std::marker::Model;

/// A set of roles: each of its form, no id twice, and no cycle of parameter edges.
///
/// There is a parameter edge from a role `p*` to a role `q*` if a scope of the first has `<..>` and, of the text before it and
/// `assume:q`, one begins with the other: what the first gives may then grant the second, with a longer parameter.
#[derive(Drop)]
pub struct RoleSet {
    roles: Vec<KnownRole>,
    index: RoleIndex,
}

impl Model for RoleSet {
    ghost use Rattle.std.specs.Prelude.{List};
    ghost use Rattle.scope_sets.specs.declared.scopes.TheConstants.{LONGEST_SCOPE};
    ghost use Rattle.role_expand.specs.Roles.{RoleData};
    ghost use Rattle.role_expand.specs.Cycles.{IsAccepted};
    ghost use Rattle.role_expand.specs.Index.{AreKeysOf};
    ghost use Rattle.role_expand.specs.Known.{known_data};

    ghost Value = { List RoleData };

    ghost view = { λ s. known_data s.roles.items };

    ghost invariant = { λ s. IsAccepted LONGEST_SCOPE (known_data s.roles.items) × AreKeysOf (known_data s.roles.items) s.index };
}

impl RoleSet {
    /// The set of these roles, unless it is refused.
    pub fn build(alloc: Global, roles: Vec<Role>) -> Result<RoleSet, BuildFault>
        ensures { MatchResult result
            (λ set. (set ≡ roles_data roles.items) × IsAccepted LONGEST_SCOPE (roles_data roles.items))
            (Refuses LONGEST_SCOPE (roles_data roles.items)) }
    {
        if let Some(place) = first_bad_role(&roles) {
            return Err(BuildFault::BadRole(place));
        }
        if let Some((earlier, later)) = first_repeat(alloc, &roles)? {
            return Err(BuildFault::DuplicateRole(earlier, later));
        }
        if let Some(cycle) = first_cycle(alloc, &roles)? {
            return Err(BuildFault::ParameterCycle(cycle));
        }
        let index = RoleIndex::build(alloc, &roles)?;
        Ok(RoleSet {
            roles: know_all(alloc, roles)?,
            index,
        })
    }

    /// The number of roles.
    pub fn len(&self) -> usize
        ensures { result ≡ length self.now }
    {
        self.roles.len()
    }

    /// All scopes that are derivable from the start list: those of the list, and what the roles give to whoever has one of them,
    /// again and again.
    ///
    /// It follows each scope that it finds to the roles whose keys fit, and looks each scope that they give up among those found
    /// so far: for n roles that is about log2 n comparisons of texts, one for each role that fits, and one for each key that the scope's key begins with
    /// but for its end.
    pub fn expand(&self, alloc: Global, start: &[Scope]) -> Result<ScopeSet, ExpandFault>
        ensures closure { MatchResult result (IsClosure MOST_SCOPES self.now start.now)
            (FailsToExpand MOST_SCOPES self.now start.now) }
        ensures accepted { IsAccepted LONGEST_SCOPE self.now }
    {
        let found = derive_all(alloc, &self.roles, &self.index, start)?;
        Ok(ScopeSet::from_list(found))
    }
}

/// The scopes in two parts: `plain` ones, which have no `<..>` where `starred` says that the id ends with `*`, and the others.
fn part(
    alloc: Global,
    scopes: &[Scope],
    starred: bool,
) -> Result<(Vec<Scope>, Vec<Scope>), AllocError>
    ensures listed { IfOk result (λ parts. (s : List ℕ) → Contains (parts.0.items ++ parts.1.items) s ↔ Contains scopes.now s) }
    ensures free { IfOk result (λ parts. starred ≡ true → All (λ s. ¬ HasSubslice s hole) parts.0.items) }
{
    let mut plain = Vec::new(alloc);
    let mut filled = Vec::new(alloc);
    for scope in scopes {
        let copy = scope.clone()?;
        if starred && scope.as_str().contains("<..>") {
            filled.push(copy)?;
        } else {
            plain.push(copy)?;
        }
    }
    Ok((plain, filled))
}

/// The role with the scope that grants it, and its scopes, each once.
fn know(alloc: Global, role: Role) -> Result<KnownRole, AllocError>
    requires { HasRoleForm LONGEST_SCOPE (role_data role) }
    ensures { IfOk result (λ known. role_data known.role ≡ role_data role) }
{
    let mut grant = String::from_str(alloc, "assume:")?;
    grant.push_str(role.id.as_str())?;
    let starred = role.id.as_str().ends_with('*');
    let (plain, filled) = part(alloc, &role.scopes, starred)?;
    Ok(KnownRole {
        role,
        grant: Scope::from_printable(grant),
        plain: ScopeSet::from_list(plain),
        filled: ScopeSet::from_list(filled),
    })
}

/// The roles, each with the scope that grants it.
fn know_all(alloc: Global, roles: Vec<Role>) -> Result<Vec<KnownRole>, AllocError>
    requires { All (HasRoleForm LONGEST_SCOPE) (roles_data roles.items) }
    ensures { IfOk result (λ known. known_data known.items ≡ roles_data roles.items) }
{
    let mut known = Vec::new(alloc);
    for role in roles {
        known.push(know(alloc, role)?)?;
    }
    Ok(known)
}
