use crate::scopes::scopes;
use role_expand::{BuildFault, ExpandFault, Role, RoleSet};
use scope_sets::{Scope, ScopeSet};
use std::alloc::{AllocError, Global};

/// The role whose id stands before a bar, and its scope after it. Here and below `None` is want of memory, or a text that is off its form.
fn role(alloc: Global, row: &str) -> Option<Role> {
    let (id, scope) = row.split_once('|')?;
    let id = String::from_str(alloc, id).ok()?;
    match scopes(alloc, scope) {
        Some(scopes) => Some(Role { id, scopes }),
        None => None,
    }
}

/// The roles between spaces.
fn roles(alloc: Global, rows: &str) -> Option<Vec<Role>> {
    let mut roles = Vec::new(alloc);
    match add_roles(alloc, &mut roles, rows) {
        Some(()) => Some(roles),
        None => {
            drop(roles);
            None
        }
    }
}

fn add_roles(alloc: Global, roles: &mut Vec<Role>, rows: &str) -> Option<()> {
    for row in rows.split(' ') {
        roles.push(role(alloc, row)?).ok()?;
    }
    Some(())
}

/// Whether these are the scopes of a set.
fn has_all(alloc: Global, found: &ScopeSet, all: &str) -> bool {
    match scopes(alloc, all) {
        Some(all) => found.list() == all.as_slice(),
        None => false,
    }
}

/// Whether some scopes expand to these.
fn expands_to(alloc: Global, roles: &RoleSet, start: &[Scope], all: &str) -> bool {
    match roles.expand(alloc, start) {
        Ok(found) => has_all(alloc, &found, all),
        Err(_) => false,
    }
}

/// Whether a scope expands to these.
fn expands(alloc: Global, roles: &RoleSet, start: &str, all: &str) -> bool {
    match scopes(alloc, start) {
        Some(start) => expands_to(alloc, roles, &start, all),
        None => false,
    }
}

/// The words for why roles are refused.
fn words(alloc: Global, fault: &BuildFault) -> Result<String, AllocError> {
    match fault {
        BuildFault::BadRole(place) => format!(in alloc; "bad {place}"),
        BuildFault::DuplicateRole(first, second) => format!(in alloc; "twice {first} {second}"),
        BuildFault::ParameterCycle(places) => cycle(alloc, places),
        BuildFault::NoMemory => String::from_str(alloc, "no memory"),
    }
}

fn cycle(alloc: Global, places: &[usize]) -> Result<String, AllocError> {
    let mut words = String::from_str(alloc, "cycle")?;
    for place in places {
        words.push_str(format!(in alloc; " {place}")?.as_str())?;
    }
    Ok(words)
}

fn is_told(alloc: Global, fault: &BuildFault, wanted: &str) -> bool {
    match words(alloc, fault) {
        Ok(words) => words.as_str() == wanted,
        Err(_) => false,
    }
}

/// Whether roles come to this: their number, what a scope expands to, or why they are refused. Here alone a set of roles is owned.
fn come_to(alloc: Global, rows: &str, outcome: &str) -> bool {
    match roles(alloc, rows) {
        Some(roles) => match RoleSet::build(alloc, roles) {
            Ok(roles) => {
                let is_so = are_so(alloc, &roles, outcome);
                drop(roles);
                is_so
            }
            Err(fault) => is_told(alloc, &fault, outcome),
        },
        None => false,
    }
}

fn are_so(alloc: Global, roles: &RoleSet, outcome: &str) -> bool {
    match outcome.split_once(' ') {
        Some(("count", count)) => count.parse::<usize>().ok() == Some(roles.len()),
        Some((start, all)) => expands(alloc, roles, start, all),
        None => false,
    }
}

/// Whether the roles of a row come to its outcome, as the row says.
fn is_row(alloc: Global, row: &str) -> bool {
    match row.split_once(" ~ ") {
        Some((rows, outcome)) => match outcome.strip_prefix("not ") {
            Some(other) => !come_to(alloc, rows, other),
            None => come_to(alloc, rows, outcome),
        },
        None => false,
    }
}

/// Roles, and what they come to: plain ones and one with a parameter, one with a text behind its parameter, a cycle of one and of two, one id
/// at two places, and an id off its form.
const ROLES: &str = "a|one ab|two a*|three:<..> ~ count 3
a|one ab|two a*|three:<..> ~ assume:a* assume:a* one three:* two
a|one ab|two a*|three:<..> ~ assume:ab assume:ab three:b two
a|one ab|two a*|three:<..> ~ not assume:a assume:ab three:b two
p:*|x:<..>:y ~ assume:p:q* assume:p:q* x:q*
p:*|x:<..>:y ~ assume:p:q assume:p:q x:q:y
p:*|x:<..>:y ~ * * x:*
a*|assume:aa<..> ~ cycle 0
x|y b*|assume:c<..> c*|assume:b<..> ~ cycle 1 2
x|y b*|assume:c<..> c*|assume:b<..> ~ not cycle 1
x|y z|y x|z ~ twice 0 2
x|y z|y x|z ~ not twice 0 1
x|y x|a** ~ bad 1
x|y x|a** ~ not bad 0";

#[test]
fn roles_come_to_this(rt: HostRuntime) {
    for row in ROLES.lines() {
        assert!(rt; is_row(rt.alloc(), row), "{row}");
    }
}

/// So many scopes, each of them a number.
fn numbered(alloc: Global, count: usize) -> Option<Vec<Scope>> {
    let mut scopes = Vec::new(alloc);
    for number in 0..count {
        scopes.push(number_scope(alloc, number)?).ok()?;
    }
    Some(scopes)
}

fn number_scope(alloc: Global, number: usize) -> Option<Scope> {
    match format!(in alloc; "{number}") {
        Ok(text) => Scope::new(text),
        Err(_) => None,
    }
}

/// How many scopes some expand to by no role; none where they are too many.
fn count_with(alloc: Global, none: &RoleSet, start: &[Scope]) -> Option<usize> {
    match none.expand(alloc, start) {
        Ok(found) => Some(found.list().len()),
        Err(ExpandFault::TooMany) => None,
        Err(ExpandFault::NoMemory) => Some(0),
    }
}

fn count_of(alloc: Global, start: &[Scope]) -> Option<usize> {
    match RoleSet::build(alloc, Vec::new(alloc)) {
        Ok(none) => {
            let count = count_with(alloc, &none, start);
            drop(none);
            count
        }
        Err(_) => Some(0),
    }
}

/// The same of so many numbers.
fn count_of_numbers(alloc: Global, count: usize) -> Option<usize> {
    match numbered(alloc, count) {
        Some(start) => count_of(alloc, &start),
        None => Some(0),
    }
}

#[test]
fn as_many_scopes_as_may_be(rt: HostRuntime) {
    let told = [
        count_of_numbers(rt.alloc(), 10_000) == Some(10_000),
        count_of_numbers(rt.alloc(), 10_001).is_none(),
    ];
    assert_eq!(rt; told, [true; 2]);
}
