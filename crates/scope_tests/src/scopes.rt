//! What a set of scopes covers, holds and lacks.
use scope_sets::{Expr, Scope, ScopeSet, holds, missing};
use std::alloc::Global;
use std::test::Fail;

/// The scope of a text. Here and below `None` is want of memory, or a text that is off its form.
pub(crate) fn scope(alloc: Global, text: &str) -> Option<Scope> {
    match String::from_str(alloc, text) {
        Ok(text) => Scope::new(text),
        Err(_) => None,
    }
}

/// The scopes between spaces.
pub(crate) fn scopes(alloc: Global, texts: &str) -> Option<Vec<Scope>> {
    let mut scopes = Vec::new(alloc);
    for text in texts.split(' ') {
        scopes.push(scope(alloc, text)?).ok()?;
    }
    Some(scopes)
}

/// The set of the scopes between spaces.
fn set(alloc: Global, texts: &str) -> Option<ScopeSet> {
    match scopes(alloc, texts) {
        Some(scopes) => Some(ScopeSet::from_list(scopes)),
        None => None,
    }
}

/// Whether the set of some scopes covers one of this text.
fn covers(alloc: Global, held: &str, text: &str) -> Option<bool> {
    let held = set(alloc, held)?;
    let text = scope(alloc, text)?;
    Some(held.covers(&text))
}

fn add_ones(alloc: Global, members: &mut Vec<Expr>, texts: &str) -> Option<()> {
    for scope in scopes(alloc, texts)? {
        members.push(Expr::One(scope)).ok()?;
    }
    Some(())
}

/// One of the scopes between spaces.
fn any_of(alloc: Global, texts: &str) -> Option<Expr> {
    let mut members = Vec::new(alloc);
    match add_ones(alloc, &mut members, texts) {
        Some(()) => Some(Expr::AnyOf(members)),
        None => {
            drop(members);
            None
        }
    }
}

fn add_any(alloc: Global, members: &mut Vec<Expr>, texts: &str) -> Option<()> {
    members.push(any_of(alloc, texts)?).ok()
}

/// All of these members, and one of the scopes between spaces.
fn with_any(alloc: Global, members: Vec<Expr>, texts: &str) -> Option<Expr> {
    let mut members = members;
    match add_any(alloc, &mut members, texts) {
        Some(()) => Some(Expr::AllOf(members)),
        None => {
            drop(members);
            None
        }
    }
}

/// All of the scopes between spaces, and one of others.
fn all_and_any(alloc: Global, all: &str, any: &str) -> Option<Expr> {
    let mut members = Vec::new(alloc);
    match add_ones(alloc, &mut members, all) {
        Some(()) => with_any(alloc, members, any),
        None => {
            drop(members);
            None
        }
    }
}

const PRIORITIES: &str =
    "queue:create-task:highest:prov/wt queue:create-task:very-high:prov/wt queue:create-task:high:prov/wt";

/// What is asked of who makes a task of priority high.
fn create(alloc: Global) -> Option<Expr> {
    all_and_any(
        alloc,
        "queue:create-task:project:none queue:scheduler-id:-",
        PRIORITIES,
    )
}

/// Whether a set lacks exactly this, and holds all where that is nothing.
fn lacks(alloc: Global, held: &ScopeSet, wanted: &Expr, lack: Option<&Expr>) -> Option<bool> {
    let found = missing(alloc, held, wanted).ok()?;
    let is_lack = found.as_ref() == lack && holds(held, wanted) == lack.is_none();
    drop(found);
    Some(is_lack)
}

/// Whether a caller with these scopes, who makes such a task, lacks one of the scopes of its priority and nothing else.
fn lacks_a_priority(alloc: Global, held: &ScopeSet) -> Option<bool> {
    let lack = with_any(alloc, Vec::new(alloc), PRIORITIES)?;
    let is_lack = wants_one(alloc, held, &lack);
    drop(lack);
    is_lack
}

fn wants_one(alloc: Global, held: &ScopeSet, lack: &Expr) -> Option<bool> {
    let create = create(alloc)?;
    let is_lack = lacks(alloc, held, &create, Some(lack));
    drop(create);
    is_lack
}

/// Whether a caller with these scopes, who makes such a task, lacks nothing.
fn lacks_nothing(alloc: Global, held: &ScopeSet) -> Option<bool> {
    let create = create(alloc)?;
    let is_lack = lacks(alloc, held, &create, None);
    drop(create);
    is_lack
}

/// How many scopes a caller with those between spaces has, and whether it lacks nothing but one of the priority, or nothing at all.
fn held_and_lacking(alloc: Global, texts: &str, priority: bool) -> Option<(usize, bool)> {
    let held = set(alloc, texts)?;
    let count = held.list().len();
    let lacks = if priority {
        lacks_a_priority(alloc, &held)
    } else {
        lacks_nothing(alloc, &held)
    };
    drop(held);
    Some((count, lacks?))
}

const LOWEST: &str =
    "queue:scheduler-id:- queue:create-task:project:none queue:create-task:lowest:prov/wt queue:scheduler-id:-";

/// A task of priority high, made by a caller that may make only tasks of the lowest.
#[test]
fn create_scopes_of_a_high_priority(rt: HostRuntime) {
    let told = [
        held_and_lacking(rt.alloc(), LOWEST, true),
        held_and_lacking(rt.alloc(), "*", false),
    ];
    assert_eq!(rt; told, [Some((3, true)), Some((1, true))]);
}

/// Whether a text is a scope as it may be handed in, if it is a scope at all.
fn is_handed_in(alloc: Global, text: &str) -> Option<bool> {
    let scope = scope(alloc, text)?;
    let is_so = scope.has_handed_in_form();
    drop(scope);
    Some(is_so)
}

#[test]
fn stars(rt: HostRuntime) {
    let alloc = rt.alloc();
    let told = [
        covers(alloc, "a*c ab*", "ab"),
        covers(alloc, "a*c ab*", "a*c"),
        covers(alloc, "a*c ab*", "acc"),
        is_handed_in(alloc, "a**"),
        is_handed_in(alloc, "tab\t"),
    ];
    assert_eq!(rt;
        told,
        [Some(true), Some(true), Some(false), Some(false), None]
    );
}
