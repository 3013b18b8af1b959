//! What follows from the definitions. The functions do nothing: each contract is a law.
ghost use Rattle.std.specs.Prelude.{◌≡◌, ◌≢◌, ℕ, ◌≤◌, ◌⊎◌, List, All, AllPairs, Contains, length};
ghost use Rattle.scope_sets.specs.Scopes.{EndsWithTwoStars};
ghost use Rattle.role_expand.specs.declared.expansion.TheConstants.{MOST_SCOPES};
ghost use Rattle.role_expand.specs.Roles.{RoleData, HasRoleForm};
ghost use Rattle.role_expand.specs.Closures.{Derivable, IsClosure, HasMoreDerivable};
ghost use Rattle.role_expand.specs.Cycles.{IsAccepted, IsFirstCycle};
ghost use Rattle.role_expand.specs.Lengths.{length_bound};
ghost use Rattle.role_expand.specs.Refusals.{IsFirstBadRole, IsFirstRepeat, Refuses, IsSameRefusal};
ghost use Rattle.role_expand.specs.declared.refusals.BuildFault.{BuildFault};
ghost use Rattle.role_expand.specs.declared.refusals.BuildFault.TheVariants.{NoMemory};

/// The closure is one.
pub fn the_closure_is_one()
    ensures { (most : ℕ) (roles : List RoleData) (start set other : List (List ℕ))
        → IsClosure most roles start set → IsClosure most roles start other → set ≡ other }
{}

/// Where there is a closure there are not too many derivable scopes.
pub fn a_closure_is_not_too_many()
    ensures { (most : ℕ) (roles : List RoleData) (start set : List (List ℕ))
        → IsClosure most roles start set → ¬ HasMoreDerivable most roles start }
{}

/// Each start list has a closure over an accepted set of roles, or more scopes are derivable than a closure may have.
pub fn a_start_list_has_a_closure_or_too_many()
    ensures { (most longest : ℕ) (roles : List RoleData) (start : List (List ℕ)) → IsAccepted longest roles
        → ((set : List (List ℕ)) × IsClosure most roles start set) ⊎ HasMoreDerivable most roles start }
{}

/// No derivable scope of an accepted set ends with `**` where no start scope does.
pub fn no_derivable_scope_ends_with_two_stars()
    ensures { (longest : ℕ) (roles : List RoleData) (start : List (List ℕ)) (s : List ℕ)
        → IsAccepted longest roles → ((t : List ℕ) → Contains start t → ¬ EndsWithTwoStars t)
        → Derivable roles start s → ¬ EndsWithTwoStars s }
{}

/// No derivable scope of an accepted set is longer than the longest start or role scope plus the sum of the lengths of all scopes
/// of roles whose ids end with `*`, plus 1.
pub fn derivable_scopes_are_short()
    ensures { (longest : ℕ) (roles : List RoleData) (start : List (List ℕ)) (s : List ℕ)
        → IsAccepted longest roles → Derivable roles start s → length s ≤ length_bound roles start }
{}

/// A list is refused in one way alone, but for want of memory.
pub fn the_refusal_is_one()
    ensures { (longest : ℕ) (roles : List RoleData) (fault other : BuildFault)
        → Refuses longest roles fault → Refuses longest roles other → IsSameRefusal fault other }
{}

/// No refusal but want of memory strikes an accepted list.
pub fn an_accepted_list_is_not_refused()
    ensures { (longest : ℕ) (roles : List RoleData) (fault : BuildFault)
        → IsAccepted longest roles → Refuses longest roles fault → fault ≡ NoMemory }
{}

/// No list of roles is without either: it is accepted, or a role is off its form, or, where none is, an id comes twice, or, where
/// none does, there is a first cycle.
pub fn a_list_is_accepted_or_refused()
    ensures { (longest : ℕ) (roles : List RoleData) → ¬ (¬ IsAccepted longest roles
        × ((i : ℕ) → ¬ IsFirstBadRole longest roles i)
        × (All (HasRoleForm longest) roles → (i j : ℕ) → ¬ IsFirstRepeat roles i j)
        × (All (HasRoleForm longest) roles → AllPairs (λ p q. p.id ≢ q.id) roles
        → (i : ℕ) (rest : List ℕ) → ¬ IsFirstCycle roles i rest)) }
{}

/// A start list expands to ten thousand scopes at most: what the contracts say of `MOST_SCOPES`, they say of that number.
pub fn the_most_scopes()
    ensures { MOST_SCOPES ≡ 10000 }
{}
