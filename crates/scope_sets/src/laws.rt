//! What follows from the definitions. The functions do nothing: each contract is a law.
ghost use Rattle.std.specs.Prelude.{◌≡◌, ℕ, ◌↔◌, List, Some, All, Any, Contains, IsTrue};
ghost use Rattle.scope_sets.specs.Scopes.{Satisfies, satisfies, covers, EndsWithTwoStars, IsRising};
ghost use Rattle.scope_sets.specs.declared.scopes.TheConstants.{LONGEST_SCOPE};
ghost use Rattle.scope_sets.specs.Expressions.{Expression, one, all_of, any_of, members_of, holds, missing, HasNoEmptyAllOf, scopes_in};

/// The tests of satisfying and of covering are true exactly where what they test holds.
pub fn tests_are_exact()
    ensures satisfies { (held asked : List ℕ) → IsTrue (satisfies held asked) ↔ Satisfies held asked }
    ensures covers { (set : List (List ℕ)) (asked : List ℕ)
        → IsTrue (covers set asked) ↔ Any (λ held. Satisfies held asked) set }
{}

/// An expression holds, as the test says, exactly where a scope of the set satisfies it, each of its members holds, or one does.
pub fn expressions_hold_by_their_members()
    ensures scope { (set : List (List ℕ)) (asked : List ℕ)
        → IsTrue (holds set (one asked)) ↔ Any (λ held. Satisfies held asked) set }
    ensures all { (set : List (List ℕ)) (members : List Expression)
        → IsTrue (holds set (all_of (members_of members))) ↔ All (λ e. IsTrue (holds set e)) members }
    ensures any { (set : List (List ℕ)) (members : List Expression)
        → IsTrue (holds set (any_of (members_of members))) ↔ Any (λ e. IsTrue (holds set e)) members }
{}

/// Satisfying is transitive where the first scope does not end with `**`. Hence the form of scopes that are handed in.
pub fn satisfying_is_transitive()
    ensures { (a b c : List ℕ) → ¬ EndsWithTwoStars a → Satisfies a b → Satisfies b c → Satisfies a c }
{}

/// A set is fixed by its members: two rising lists with the same members are the same list.
pub fn a_set_is_its_members()
    ensures { (set other : List (List ℕ)) → IsRising set → IsRising other
        → ((s : List ℕ) → Contains set s ↔ Contains other s) → set ≡ other }
{}

/// Whatever holds still holds with more scopes.
pub fn more_scopes_hold_more()
    ensures { (set more : List (List ℕ)) (e : Expression) → ((s : List ℕ) → Contains set s → Contains more s)
        → IsTrue (holds set e) → IsTrue (holds more e) }
{}

/// What is missing suffices: a set that holds it, joined with the set that lacked it, holds the expression.
pub fn what_is_missing_suffices()
    ensures { (set more joined : List (List ℕ)) (e lack : Expression)
        → ((s : List ℕ) → Contains set s → Contains joined s) → ((s : List ℕ) → Contains more s → Contains joined s)
        → missing set e ≡ Some lack → IsTrue (holds more lack) → IsTrue (holds joined e) }
{}

/// What is missing is not held already: it does not hold as a whole, and no scope that stands in it, at any depth, is covered.
pub fn what_is_missing_is_not_held()
    ensures whole { (set : List (List ℕ)) (e lack : Expression) → missing set e ≡ Some lack → ¬ IsTrue (holds set lack) }
    ensures scopes { (set : List (List ℕ)) (e lack : Expression) → missing set e ≡ Some lack
        → All (λ s. ¬ IsTrue (covers set s)) (scopes_in lack) }
{}

/// No `AllOf` in what is missing is without members, at any depth.
pub fn what_is_missing_has_members()
    ensures { (set : List (List ℕ)) (e lack : Expression) → missing set e ≡ Some lack → HasNoEmptyAllOf lack }
{}

/// A scope that is handed in has at most 4,096 bytes: what the contracts say of `LONGEST_SCOPE`, they say of that number.
pub fn the_longest_scope()
    ensures { LONGEST_SCOPE ≡ 4096 }
{}
