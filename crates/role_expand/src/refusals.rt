//! Why a list of roles is no set of roles: a role off its form, an id twice.
ghost use Rattle.std.specs.Prelude.{◌≡◌, ◌≢◌, ℕ, ◌↔◌, List, All, AllPairs, IfOk, IsTrue, MatchOption, Some, slice_get};
ghost use Rattle.scope_sets.specs.Scopes.{HasHandedInForm};
ghost use Rattle.role_expand.specs.Roles.{RoleData, role_data, roles_data, EndsWithStar, HasHoleForm, HasIdForm, HasRoleForm};
ghost use Rattle.role_expand.specs.Refusals.{IsFirstBadRole, IsFirstRepeat};

use crate::roles::Role;
use scope_sets::scopes::is_printable;
use scope_sets::{LONGEST_SCOPE, Scope};
use std::alloc::{AllocError, Global};
use std::collections::BTreeMap;

/// Why a list of roles is refused: the first of these that strikes.
#[derive(Debug, PartialEq, Eq, Drop)]
pub enum BuildFault {
    /// The role at this place is off its form, and none before it is.
    BadRole(usize),
    /// The role at the second place has the id of the one at the first, and no two before it have one id.
    DuplicateRole(usize, usize),
    /// The places of the shortest cycle of parameter edges from the first role that lies on one; of equal ones the first by its places.
    ParameterCycle(Vec<usize>),
    NoMemory,
}

impl From<AllocError> for BuildFault {
    ghost use Rattle.std.specs.Prelude.{◌≡◌};
    ghost use Rattle.role_expand.specs.declared.refusals.BuildFault.{BuildFault};

    ghost from_gives = { λ _ fault. fault ≡ BuildFault.NoMemory };

    fn from(_error: AllocError) -> BuildFault {
        BuildFault::NoMemory
    }
}

/// Whether `<..>` stands in a scope at most once, and not right after a `*`.
fn has_hole_form(scope: &Scope) -> bool
    ensures { IsTrue result ↔ HasHoleForm scope.now }
{
    match scope.as_str().split_once("<..>") {
        None => true,
        Some((before, after)) => !before.ends_with('*') && !after.contains("<..>"),
    }
}

/// Whether a role's scopes are of the form of scopes that are handed in.
fn has_scopes_form(scopes: &[Scope]) -> bool
    ensures { IsTrue result ↔ All (HasHandedInForm LONGEST_SCOPE) scopes.now }
{
    scopes.iter().all(Scope::has_handed_in_form)
}

/// Whether an id has 1 to `LONGEST_SCOPE` bytes, all printable ASCII.
fn has_id_form(id: &str) -> bool
    ensures { IsTrue result ↔ HasIdForm LONGEST_SCOPE id.now }
{
    !id.is_empty() && id.len() <= LONGEST_SCOPE && is_printable(id.as_bytes())
}

/// Whether `<..>` stands in each scope at most once, and not right after a `*`.
fn have_hole_form(scopes: &[Scope]) -> bool
    ensures { IsTrue result ↔ All HasHoleForm scopes.now }
{
    scopes.iter().all(|scope| has_hole_form(scope))
}

/// Whether the scopes of a role with this id are of the form that it asks of `<..>`.
fn has_holes_form(id: &str, scopes: &[Scope]) -> bool
    ensures { IsTrue result ↔ (EndsWithStar id.now → All HasHoleForm scopes.now) }
{
    !id.ends_with('*') || have_hole_form(scopes)
}

/// Whether a role is of its form.
pub fn has_role_form(role: &Role) -> bool
    ensures { IsTrue result ↔ HasRoleForm LONGEST_SCOPE (role_data role.now) }
{
    let id = role.id.as_str();
    has_id_form(id) && has_scopes_form(&role.scopes) && has_holes_form(id, &role.scopes)
}

/// The first role that is off its form.
pub(crate) fn first_bad_role(roles: &[Role]) -> Option<usize>
    ensures { MatchOption result (All (HasRoleForm LONGEST_SCOPE) (roles_data roles.now))
        (IsFirstBadRole LONGEST_SCOPE (roles_data roles.now)) }
{
    for (place, role) in roles.iter().enumerate() {
        if !has_role_form(role) {
            return Some(place);
        }
    }
    None
}

/// The first role whose id an earlier role has: the earlier place and its own.
pub(crate) fn first_repeat(
    alloc: Global,
    roles: &[Role],
) -> Result<Option<(usize, usize)>, AllocError>
    ensures { IfOk result (λ answer. MatchOption answer (AllPairs (λ p q. p.id ≢ q.id) (roles_data roles.now))
        (λ places. IsFirstRepeat (roles_data roles.now) places.0 places.1)) }
{
    let mut ids = BTreeMap::new(alloc);
    for (later, role) in roles.iter().enumerate() {
        if let Some(earlier) = ids.get(role.id.as_str()) {
            return Ok(Some((*earlier, later)));
        }
        ids.insert(role.id.clone()?, later)?;
    }
    Ok(None)
}
