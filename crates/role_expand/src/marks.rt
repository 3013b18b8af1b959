//! The texts between which parameter edges lead: fronts of ids, and what stands before `<..>`.
ghost use Rattle.std.specs.Prelude.{◌≡◌, ◌+◌, ◌++◌, ℕ, ◌⊎◌, List, All, Contains, IfOk, MatchOption, length, string_bytes};
ghost use Rattle.role_expand.specs.Roles.{role_data, roles_data, assume, HasHoleForm, HasRoleForm};
ghost use Rattle.role_expand.specs.Cycles.{StartAlike, Reaches};
ghost use Rattle.role_expand.specs.Index.{text_of, Begins, AreRising};
ghost use Rattle.role_expand.specs.Marks.{IsTextMark, IsFrontMark, HasTextMarks, AreMarksOf};
ghost use Rattle.role_expand.specs.declared.index.RoleKey.{RoleKey};

use crate::granting::after_assume;
use crate::index::RoleKey;
use crate::roles::Role;
use scope_sets::{LONGEST_SCOPE, Scope};
use std::alloc::{AllocError, Global};

/// What a text has after `assume:`, nothing where it ends inside `assume:`, and `None` where it begins otherwise.
fn edge_text(before: &str) -> Option<&str>
    ensures { MatchOption result ((front : List ℕ) → ¬ StartAlike before.now (assume ++ front))
        (λ text. (front : List ℕ) → StartAlike before.now (assume ++ front) → Begins text.now front ⊎ Begins front text.now) }
{
    match after_assume(before) {
        Some(text) => Some(text),
        None => {
            if "assume:".starts_with(before) {
                return Some("");
            }
            None
        }
    }
}

/// The text from which a scope's parameter edge leads to the fronts that begin with it, and to those with which it begins.
fn hole_text(scope: &Scope) -> Option<&str>
    requires { HasHoleForm scope.now }
    ensures { MatchOption result ((front : List ℕ) → ¬ Reaches scope.now front)
        (λ text. (front : List ℕ) → Reaches scope.now front → Begins text.now front ⊎ Begins front text.now) }
{
    match scope.as_str().split_once("<..>") {
        None => None,
        Some((before, _after)) => edge_text(before),
    }
}

/// Adds the texts of the scopes, each with this place.
fn add_texts(
    alloc: Global,
    marks: &mut Vec<RoleKey>,
    scopes: &[Scope],
    place: usize,
) -> Result<(), AllocError>
    requires { All HasHoleForm scopes.now }
    ensures kept { IfOk result (λ _. (mark : RoleKey) → Contains marks.old.items mark → Contains marks.new.items mark) }
    ensures added { IfOk result (λ _. (scope front : List ℕ) → Contains scopes.now scope → Reaches scope front
        → (mark : RoleKey) × Contains marks.new.items mark × IsTextMark place front mark) }
{
    for scope in scopes {
        add_text(alloc, marks, scope, place)?;
    }
    Ok(())
}

/// Adds the text of the scope with this place, if it has one.
fn add_text(
    alloc: Global,
    marks: &mut Vec<RoleKey>,
    scope: &Scope,
    place: usize,
) -> Result<(), AllocError>
    requires { HasHoleForm scope.now }
    ensures kept { IfOk result (λ _. (mark : RoleKey) → Contains marks.old.items mark → Contains marks.new.items mark) }
    ensures added { IfOk result (λ _. (front : List ℕ) → Reaches scope.now front
        → (mark : RoleKey) × Contains marks.new.items mark × IsTextMark place front mark) }
{
    match hole_text(scope) {
        None => Ok(()),
        Some(text) => {
            let text = String::from_str(alloc, text)?;
            marks.push(RoleKey { text, place })?;
            Ok(())
        }
    }
}

/// Adds the front of the role's id with its place, and its scopes' texts with the place behind all roles.
fn add_marks(
    alloc: Global,
    marks: &mut Vec<RoleKey>,
    role: &Role,
    place: usize,
    behind: usize,
) -> Result<(), AllocError>
    requires { HasRoleForm LONGEST_SCOPE (role_data role.now) }
    ensures kept { IfOk result (λ _. (mark : RoleKey) → Contains marks.old.items mark → Contains marks.new.items mark) }
    ensures front { IfOk result (λ _. IsFrontMark (role_data role.now) place marks.new.items) }
    ensures texts { IfOk result (λ _. HasTextMarks (role_data role.now) behind marks.new.items) }
{
    match role.id.as_str().strip_suffix('*') {
        None => Ok(()),
        Some(front) => {
            let text = String::from_str(alloc, front)?;
            marks.push(RoleKey { text, place })?;
            add_texts(alloc, marks, &role.scopes, behind)?;
            Ok(())
        }
    }
}

/// The marks of the roles: fronts with the places of their roles, and texts with places behind all roles, rising.
pub(crate) fn rising_marks(alloc: Global, roles: &[Role]) -> Result<Vec<RoleKey>, AllocError>
    requires { All (HasRoleForm LONGEST_SCOPE) (roles_data roles.now) }
    ensures { IfOk result (λ marks. AreMarksOf (roles_data roles.now) marks.items × AreRising marks.items) }
{
    let mut marks = marks_of(alloc, roles)?;
    marks.sort_unstable();
    Ok(marks)
}

/// The marks of the roles in their order.
fn marks_of(alloc: Global, roles: &[Role]) -> Result<Vec<RoleKey>, AllocError>
    requires { All (HasRoleForm LONGEST_SCOPE) (roles_data roles.now) }
    ensures { IfOk result (λ marks. AreMarksOf (roles_data roles.now) marks.items) }
{
    let mut marks = Vec::new(alloc);
    for (place, role) in roles.iter().enumerate() {
        add_marks(alloc, &mut marks, role, place, roles.len() + place)?;
    }
    Ok(marks)
}
