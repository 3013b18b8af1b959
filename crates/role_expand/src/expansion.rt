//! What is derived from scopes that are held: the steps of an expansion.
ghost use Rattle.std.specs.Prelude.{◌≡◌, ◌↔◌, IsTrue, true, false, ℕ, ◌≤◌, ◌<◌, ◌^◌, ◌++◌, ◌∷◌, [], List, All, Contains, IfOk, MatchResult, MatchOption, ◌≢◌, string_bytes};
ghost use Rattle.scope_sets.specs.Scopes.{IsPrintable};
ghost use Rattle.role_expand.specs.Roles.{role_data, assume, EndsWithStar, HasHoleForm, HasRoleForm, FillsHole, Gives};
ghost use Rattle.role_expand.specs.Closures.{GivenBy, IsAllDerivable, FailsToExpand};
ghost use Rattle.role_expand.specs.Index.{AreKeysOf};
ghost use Rattle.role_expand.specs.Growth.{Gains, FailsToGain, IsFilledFrom, KeepsAfter, IsGrantedAsWritten, IsGrantedByFront, IsGrantedWithStar, GivenAt, GivenAtSome};
ghost use Rattle.role_expand.specs.Known.{known_data, filled_data, IsGranted, IsGivenPlain, AllFound, AreGiven};

use crate::found::Found;
use crate::given::Given;
use crate::granting::granting;
use crate::index::RoleIndex;
use crate::roles::KnownRole;
use scope_sets::{LONGEST_SCOPE, Scope, satisfies};
use std::alloc::{AllocError, Global};

/// The greatest number of scopes that a start list may expand to.
pub const MOST_SCOPES: usize = 10_000;

/// Why a start list was not expanded.
#[derive(Clone, Copy, Debug, PartialEq, Eq)]
pub enum ExpandFault {
    /// More than `MOST_SCOPES` scopes are derivable.
    TooMany,
    NoMemory,
}

impl From<AllocError> for ExpandFault {
    ghost use Rattle.std.specs.Prelude.{◌≡◌};
    ghost use Rattle.role_expand.specs.declared.expansion.ExpandFault.{ExpandFault};

    ghost from_gives = { λ _ fault. fault ≡ ExpandFault.NoMemory };

    fn from(_error: AllocError) -> ExpandFault {
        ExpandFault::NoMemory
    }
}

/// Puts a scope at the end of those found so far, unless it is there.
fn add(found: &mut Found, scope: Scope) -> Result<(), ExpandFault>
    ensures { MatchResult result
        (λ _. Gains MOST_SCOPES (λ s. s ≡ scope) found.old found.new)
        (FailsToGain MOST_SCOPES (λ s. s ≡ scope) found.old) }
{
    if found.has(&scope) {
        return Ok(());
    }
    if found.len() >= MOST_SCOPES {
        return Err(ExpandFault::TooMany);
    }
    found.push(scope)?;
    Ok(())
}

/// Adds each of these scopes.
pub(crate) fn add_all(found: &mut Found, scopes: &[Scope]) -> Result<(), ExpandFault>
    ensures { MatchResult result
        (λ _. Gains MOST_SCOPES (Contains scopes.now) found.old found.new)
        (FailsToGain MOST_SCOPES (Contains scopes.now) found.old) }
{
    for scope in scopes {
        add(found, scope.clone()?)?;
    }
    Ok(())
}

/// The scope with the parameter in place of `<..>`. What follows `<..>` is dropped where the parameter ends with `*`.
fn fill(alloc: Global, scope: &Scope, parameter: &str) -> Result<Scope, AllocError>
    requires { All IsPrintable parameter.now }
    ensures { IfOk result (FillsHole parameter.now scope.now) }
{
    match scope.as_str().split_once("<..>") {
        None => scope.clone(),
        Some((before, after)) => {
            let mut text = String::from_str(alloc, before)?;
            text.push_str(parameter)?;
            text.push_str(kept_after(parameter, after))?;
            Ok(Scope::from_printable(text))
        }
    }
}

/// What stays of the text after `<..>`.
fn kept_after<'a>(parameter: &str, after: &'a str) -> &'a str
    ensures { KeepsAfter parameter.now after.now result.now }
{
    if parameter.ends_with('*') { "" } else { after }
}

/// Adds each of these scopes with the parameter in place of `<..>`.
fn add_filled(
    alloc: Global,
    found: &mut Found,
    scopes: &[Scope],
    parameter: &str,
) -> Result<(), ExpandFault>
    requires printable { All IsPrintable parameter.now }
    requires holes { All HasHoleForm scopes.now }
    ensures { MatchResult result
        (λ _. Gains MOST_SCOPES (IsFilledFrom scopes.now parameter.now) found.old found.new)
        (FailsToGain MOST_SCOPES (IsFilledFrom scopes.now parameter.now) found.old) }
{
    for scope in scopes {
        add(found, fill(alloc, scope, parameter)?)?;
    }
    Ok(())
}

/// The parameter with which `assume:`, this front and that parameter grant a role, if the scope is of that form.
fn parameter_of<'a>(held: &'a str, front: &str) -> Option<&'a str>
    ensures { MatchOption result ((parameter : List ℕ) → held.now ≢ assume ++ (front.now ++ parameter))
        (λ parameter. held.now ≡ assume ++ (front.now ++ parameter.now)) }
{
    held.strip_prefix("assume:")?.strip_prefix(front)
}

/// Adds these scopes as written, if the held scope satisfies the one that grants them.
fn add_as_written(
    found: &mut Found,
    scopes: &[Scope],
    held: &Scope,
    grant: &Scope,
) -> Result<(), ExpandFault>
    ensures { MatchResult result
        (λ _. Gains MOST_SCOPES (IsGrantedAsWritten held.now grant.now scopes.now) found.old found.new)
        (FailsToGain MOST_SCOPES (IsGrantedAsWritten held.now grant.now scopes.now) found.old) }
{
    if !satisfies(held, grant) {
        return Ok(());
    }
    add_all(found, scopes)
}

/// Adds these scopes with what follows `assume:` and the front in the held scope, if it begins so.
fn add_by_front(
    alloc: Global,
    found: &mut Found,
    scopes: &[Scope],
    held: &Scope,
    front: &str,
) -> Result<(), ExpandFault>
    requires { All HasHoleForm scopes.now }
    ensures { MatchResult result
        (λ _. Gains MOST_SCOPES (IsGrantedByFront held.now front.now scopes.now) found.old found.new)
        (FailsToGain MOST_SCOPES (IsGrantedByFront held.now front.now scopes.now) found.old) }
{
    match parameter_of(held.as_str(), front) {
        None => Ok(()),
        Some(parameter) => add_filled(alloc, found, scopes, parameter),
    }
}

/// Adds these scopes with the parameter `*`, if the held scope satisfies the one that grants them.
fn add_with_star(
    alloc: Global,
    found: &mut Found,
    scopes: &[Scope],
    held: &Scope,
    grant: &Scope,
) -> Result<(), ExpandFault>
    requires { All HasHoleForm scopes.now }
    ensures { MatchResult result
        (λ _. Gains MOST_SCOPES (IsGrantedWithStar held.now grant.now scopes.now) found.old found.new)
        (FailsToGain MOST_SCOPES (IsGrantedWithStar held.now grant.now scopes.now) found.old) }
{
    if !satisfies(held, grant) {
        return Ok(());
    }
    add_filled(alloc, found, scopes, "*")
}

/// Adds what the role gives of those of its scopes that may depend on the parameter to whoever has the held scope.
fn add_with_parameter(
    alloc: Global,
    found: &mut Found,
    known: &KnownRole,
    held: &Scope,
) -> Result<(), ExpandFault>
    requires { EndsWithStar (filled_data known.now).id → All HasHoleForm (filled_data known.now).scopes }
    ensures { MatchResult result
        (λ _. Gains MOST_SCOPES (Gives (filled_data known.now) held.now) found.old found.new)
        (FailsToGain MOST_SCOPES (Gives (filled_data known.now) held.now) found.old) }
{
    let scopes = known.filled.list();
    match known.role.id.as_str().strip_suffix('*') {
        None => add_as_written(found, scopes, held, &known.grant),
        Some(front) => {
            add_by_front(alloc, found, scopes, held, front)?;
            add_with_star(alloc, found, scopes, held, &known.grant)
        }
    }
}

/// Whether the role is granted to whoever has the held scope.
fn is_granted(known: &KnownRole, held: &Scope) -> bool
    ensures { IsTrue result ↔ IsGranted (string_bytes known.now.role.id) held.now }
{
    match known.role.id.as_str().strip_suffix('*') {
        None => satisfies(held, &known.grant),
        Some(front) => match parameter_of(held.as_str(), front) {
            None => satisfies(held, &known.grant),
            Some(_parameter) => true,
        },
    }
}

/// Adds the role's plain scopes, if it is granted to whoever has the held scope and they are not marked as given; it tells
/// whether they are given now.
fn add_plain(
    found: &mut Found,
    known: &KnownRole,
    held: &Scope,
    given: bool,
) -> Result<bool, ExpandFault>
    requires { given ≡ true → AllFound known.now.plain found.now }
    ensures { MatchResult result
        (λ done. Gains MOST_SCOPES (IsGivenPlain (string_bytes known.now.role.id) known.now.plain held.now) found.old found.new
        × (done ≡ true → AllFound known.now.plain found.new))
        (FailsToGain MOST_SCOPES (IsGivenPlain (string_bytes known.now.role.id) known.now.plain held.now) found.old) }
{
    if given {
        return Ok(true);
    }
    if !is_granted(known, held) {
        return Ok(false);
    }
    add_all(found, known.plain.list())?;
    Ok(true)
}

/// Adds all that a role gives to whoever has the held scope, where its plain scopes may be marked as given; it tells whether
/// they are given now.
pub(crate) fn add_given(
    alloc: Global,
    found: &mut Found,
    known: &KnownRole,
    held: &Scope,
    given: bool,
) -> Result<bool, ExpandFault>
    requires form { HasRoleForm LONGEST_SCOPE (role_data known.now.role) }
    requires marked { given ≡ true → AllFound known.now.plain found.now }
    ensures { MatchResult result
        (λ done. Gains MOST_SCOPES (Gives (role_data known.now.role) held.now) found.old found.new
        × (done ≡ true → AllFound known.now.plain found.new))
        (FailsToGain MOST_SCOPES (Gives (role_data known.now.role) held.now) found.old) }
{
    let done = add_plain(found, known, held, given)?;
    add_with_parameter(alloc, found, known, held)?;
    Ok(done)
}

/// Adds all that the role at a place gives to whoever has the held scope, its plain scopes unless they are marked as given.
fn add_given_at(
    alloc: Global,
    found: &mut Found,
    given: &mut Given,
    roles: &[KnownRole],
    place: usize,
    held: &Scope,
) -> Result<(), ExpandFault>
    requires forms { All (HasRoleForm LONGEST_SCOPE) (known_data roles.now) }
    requires marked { AreGiven roles.now given.now found.now }
    ensures { MatchResult result
        (λ _. Gains MOST_SCOPES (GivenAt (known_data roles.now) held.now place) found.old found.new
        × AreGiven roles.now given.new found.new)
        (FailsToGain MOST_SCOPES (GivenAt (known_data roles.now) held.now place) found.old) }
{
    if place < roles.len() {
        let mark = given.has(place);
        let done = add_given(alloc, found, &roles[place], held, mark)?;
        given.set(place, done);
    }
    Ok(())
}

/// Adds all that the roles at these places give to whoever has the held scope.
fn add_given_at_all(
    alloc: Global,
    found: &mut Found,
    given: &mut Given,
    roles: &[KnownRole],
    places: &[usize],
    held: &Scope,
) -> Result<(), ExpandFault>
    requires forms { All (HasRoleForm LONGEST_SCOPE) (known_data roles.now) }
    requires marked { AreGiven roles.now given.now found.now }
    ensures { MatchResult result
        (λ _. Gains MOST_SCOPES (GivenAtSome (known_data roles.now) held.now places.now) found.old found.new
        × AreGiven roles.now given.new found.new)
        (FailsToGain MOST_SCOPES (GivenAtSome (known_data roles.now) held.now places.now) found.old) }
{
    for place in places {
        add_given_at(alloc, found, given, roles, *place, held)?;
    }
    Ok(())
}

/// Adds all that the roles give to whoever has the held scope.
fn add_given_by_all(
    alloc: Global,
    found: &mut Found,
    given: &mut Given,
    roles: &[KnownRole],
    index: &RoleIndex,
    held: &Scope,
) -> Result<(), ExpandFault>
    requires forms { All (HasRoleForm LONGEST_SCOPE) (known_data roles.now) }
    requires keys { AreKeysOf (known_data roles.now) index.now }
    requires marked { AreGiven roles.now given.now found.now }
    ensures { MatchResult result
        (λ _. Gains MOST_SCOPES (GivenBy (known_data roles.now) held.now) found.old found.new × AreGiven roles.now given.new found.new)
        (FailsToGain MOST_SCOPES (GivenBy (known_data roles.now) held.now) found.old) }
{
    let places = granting(alloc, index, held)?;
    add_given_at_all(alloc, found, given, roles, &places, held)
}

/// All scopes that are derived from the start list, in the order in which they are found: those of the list, and then, for each
/// scope in turn, what the roles give to whoever has it. A role gives its plain scopes once.
pub(crate) fn derive_all(
    alloc: Global,
    roles: &[KnownRole],
    index: &RoleIndex,
    start: &[Scope],
) -> Result<Vec<Scope>, ExpandFault>
    requires forms { All (HasRoleForm LONGEST_SCOPE) (known_data roles.now) }
    requires keys { AreKeysOf (known_data roles.now) index.now }
    ensures { MatchResult result
        (λ found. IsAllDerivable MOST_SCOPES (known_data roles.now) start.now found.items)
        (FailsToExpand MOST_SCOPES (known_data roles.now) start.now) }
{
    let mut found = Found::new(alloc);
    add_all(&mut found, start)?;
    let mut given = Given::new(alloc, roles.len())?;
    let mut next = 0;
    while next < found.len() {
        let held = found.at(next).clone()?;
        add_given_by_all(alloc, &mut found, &mut given, roles, index, &held)?;
        next += 1;
    }
    Ok(found.into_list())
}
