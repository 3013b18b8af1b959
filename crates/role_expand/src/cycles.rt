//! The first cycle of parameter edges.
ghost use Rattle.std.specs.Prelude.{◌≡◌, ◌≢◌, ℕ, suc, ◌+◌, ◌<◌, ◌≤◌, ◌^◌, ◌++◌, ◌∷◌, ◌↔◌, List, All, Contains, IsTrue, IfOk, MatchOption, length, slice_index};
ghost use Rattle.scope_sets.specs.Scopes.{star};
ghost use Rattle.role_expand.specs.Roles.{role_data, roles_data, assume, HasHoleForm, HasRoleForm};
ghost use Rattle.role_expand.specs.Cycles.{StartAlike, Reaches, HasEdge, EdgeAt, IsCycle, IsFirstCycle};
ghost use Rattle.role_expand.specs.Levels.{LeadsInto, IsNextLevel, AreSteps, IsLeastWalk};

use crate::granting::after_assume;
use crate::index::link_all;
use crate::marks::rising_marks;
use crate::order::{get, rank_roles};
use crate::ranks::slack_of;
use crate::roles::Role;
use scope_sets::{LONGEST_SCOPE, Scope};
use std::alloc::{AllocError, Global};

/// Whether one of two texts begins with the other: the first, and `assume:` followed by the front.
fn start_alike(before: &str, front: &str) -> bool
    ensures { IsTrue result ↔ StartAlike before.now (assume ++ front.now) }
{
    match after_assume(before) {
        Some(rest) => rest.starts_with(front) || front.starts_with(rest),
        None => "assume:".starts_with(before),
    }
}

/// Whether the text before `<..>` in the scope and `assume:` followed by the front start alike.
fn reaches(scope: &Scope, front: &str) -> bool
    requires { HasHoleForm scope.now }
    ensures { IsTrue result ↔ Reaches scope.now front.now }
{
    match scope.as_str().split_once("<..>") {
        None => false,
        Some((before, _after)) => start_alike(before, front),
    }
}

/// Whether one of the scopes reaches the front.
fn one_reaches(scopes: &[Scope], front: &str) -> bool
    requires { All HasHoleForm scopes.now }
    ensures { IsTrue result ↔ ((scope : List ℕ) × Contains scopes.now scope × Reaches scope front.now) }
{
    for scope in scopes {
        if reaches(scope, front) {
            return true;
        }
    }
    false
}

/// Whether a parameter edge leads from the one role to the other.
fn has_edge(from: &Role, to: &Role) -> bool
    requires { HasRoleForm LONGEST_SCOPE (role_data from.now) }
    ensures { IsTrue result ↔ HasEdge (role_data from.now) (role_data to.now) }
{
    if !from.id.as_str().ends_with('*') {
        return false;
    }
    match to.id.as_str().strip_suffix('*') {
        None => false,
        Some(front) => one_reaches(&from.scopes, front),
    }
}

/// Whether an edge leads from the role at a place to one of those at these places.
fn leads_into(roles: &[Role], from: usize, level: &[usize]) -> bool
    requires forms { All (HasRoleForm LONGEST_SCOPE) (roles_data roles.now) }
    requires from_in { from < length roles.now }
    requires level_in { All (λ to. to < length roles.now) level.now }
    ensures { IsTrue result ↔ LeadsInto (roles_data roles.now) level.now from }
{
    for to in level {
        if has_edge(&roles[from], &roles[*to]) {
            return true;
        }
    }
    false
}

/// Gives the number `count` to each place without one from which an edge leads into the level, and returns these places.
fn next_level(
    alloc: Global,
    roles: &[Role],
    steps: &mut Vec<usize>,
    level: &[usize],
    count: usize,
) -> Result<Vec<usize>, AllocError>
    requires forms { All (HasRoleForm LONGEST_SCOPE) (roles_data roles.now) }
    requires steps_len { length steps.old.items ≡ length roles.now }
    requires level_in { All (λ to. to < length roles.now) level.now }
    requires counts { 0 < count }
    ensures { IfOk result (λ next. IsNextLevel (roles_data roles.now) level.now count (length roles.now)
        steps.old.items steps.new.items next.items) }
{
    let mut next = Vec::new(alloc);
    for from in 0..roles.len() {
        if steps[from] == 0 && leads_into(roles, from, level) {
            steps[from] = count;
            next.push(from)?;
        }
    }
    Ok(next)
}

/// For each place the least number of edges of a walk to the target, or 0 where no walk leads there.
fn steps_to(alloc: Global, roles: &[Role], target: usize) -> Result<Vec<usize>, AllocError>
    requires forms { All (HasRoleForm LONGEST_SCOPE) (roles_data roles.now) }
    requires target_in { target < length roles.now }
    ensures { IfOk result (λ steps. AreSteps (roles_data roles.now) target steps.items) }
{
    let mut steps = vec![in alloc; 0; roles.len()]?;
    let mut level = vec![in alloc; target]?;
    let mut count = 1;
    'levels: while !level.is_empty() {
        level = next_level(alloc, roles, &mut steps, &level, count)?;
        count += 1;
    }
    Ok(steps)
}

/// The first place with this number to which an edge leads from the given one.
fn first_toward(roles: &[Role], steps: &[usize], at: usize, left: usize) -> usize
    requires forms { All (HasRoleForm LONGEST_SCOPE) (roles_data roles.now) }
    requires steps_len { length steps.now ≡ length roles.now }
    requires at_in { at < length roles.now }
    requires there { (to : ℕ) × (slice_index steps.now to ≡ left) × EdgeAt (roles_data roles.now) at to }
    ensures number { slice_index steps.now result ≡ left }
    ensures edge { EdgeAt (roles_data roles.now) at result }
    ensures first { (to : ℕ) → slice_index steps.now to ≡ left
        → EdgeAt (roles_data roles.now) at to → result ≤ to }
{
    for to in 0..roles.len() {
        if steps[to] == left && has_edge(&roles[at], &roles[to]) {
            return to;
        }
    }
    unreachable!()
}

/// The shortest cycle from a place that lies on one, of equal ones the first by its places.
fn cycle_from(
    alloc: Global,
    roles: &[Role],
    steps: &[usize],
    place: usize,
) -> Result<Vec<usize>, AllocError>
    requires forms { All (HasRoleForm LONGEST_SCOPE) (roles_data roles.now) }
    requires numbers { AreSteps (roles_data roles.now) place steps.now }
    requires lies { slice_index steps.now place ≢ 0 }
    ensures { IfOk result (λ cycle. (rest : List ℕ) × (cycle.items ≡ place ∷ rest)
        × IsLeastWalk (roles_data roles.now) place place rest) }
{
    let mut cycle = vec![in alloc; place]?;
    let mut at = place;
    let mut left = steps[place] - 1;
    while left > 0 {
        at = first_toward(roles, steps, at, left);
        cycle.push(at)?;
        left -= 1;
    }
    Ok(cycle)
}

/// For each role 0 where no cycle goes from it, as ranks tell, and else 1.
fn may_cycle(alloc: Global, roles: &[Role]) -> Result<Vec<usize>, AllocError>
    requires { All (HasRoleForm LONGEST_SCOPE) (roles_data roles.now) }
    ensures { IfOk result (λ may. (i : ℕ) (rest : List ℕ) → slice_index may.items i ≡ 0
        → ¬ IsCycle (roles_data roles.now) (i ∷ rest)) }
{
    let marks = rising_marks(alloc, roles)?;
    let links = link_all(alloc, &marks)?;
    let ranks = rank_roles(alloc, &marks, &links, roles.len())?;
    if ranks.len() == roles.len()
        && let Some(slack) = slack_of(alloc, &marks, &links, &ranks)?
    {
        return Ok(slack);
    }
    let may = vec![in alloc; 1; roles.len()]?;
    Ok(may)
}

/// The shortest cycle of parameter edges from the first role that lies on one, of equal ones the first by its places.
///
/// Ranks tell which role is the first, in about n log n steps for n scopes: it alone is searched from.
pub(crate) fn first_cycle(alloc: Global, roles: &[Role]) -> Result<Option<Vec<usize>>, AllocError>
    requires { All (HasRoleForm LONGEST_SCOPE) (roles_data roles.now) }
    ensures { IfOk result (λ answer.
        MatchOption answer ((cycle : List ℕ) → ¬ IsCycle (roles_data roles.now) cycle)
        (λ cycle. (i : ℕ) × (rest : List ℕ) × (cycle.items ≡ i ∷ rest)
        × IsFirstCycle (roles_data roles.now) i rest)) }
{
    let may = may_cycle(alloc, roles)?;
    for place in 0..roles.len() {
        if get(&may, place) == 0 {
            continue;
        }
        let steps = steps_to(alloc, roles, place)?;
        if steps[place] != 0 {
            return Ok(Some(cycle_from(alloc, roles, &steps, place)?));
        }
    }
    Ok(None)
}
