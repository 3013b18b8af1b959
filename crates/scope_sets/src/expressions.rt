ghost use Rattle.std.specs.Prelude.{◌≡◌, IfOk, option_map};
ghost use Rattle.scope_sets.specs.Expressions.{view, holds, missing};

use crate::scopes::Scope;
use crate::sets::ScopeSet;
use std::alloc::{AllocError, Global};

/// A scope expression: what a set of scopes has to have.
#[derive(Debug, PartialEq, Drop)]
pub enum Expr {
    /// The set covers this scope.
    One(Scope),
    /// Each of these holds; with none of them it holds.
    AllOf(Vec<Expr>),
    /// One of these holds; with none of them it does not.
    AnyOf(Vec<Expr>),
}

/// Whether the set has what the expression asks for.
pub fn holds(set: &ScopeSet, expression: &Expr) -> bool
    ensures { result ≡ holds set.now (view expression.now) }
{
    match expression {
        Expr::One(scope) => set.covers(scope),
        Expr::AllOf(members) => {
            for member in members {
                if !holds(set, member) {
                    return false;
                }
            }
            true
        }
        Expr::AnyOf(members) => {
            for member in members {
                if holds(set, member) {
                    return true;
                }
            }
            false
        }
    }
}

/// What the set lacks of the expression: `None` exactly where it holds. Else a scope stays, `AllOf` keeps in order the members
/// that do not hold, each reduced, also where one is left, and `AnyOf` keeps all members, each reduced.
pub fn missing(alloc: Global, set: &ScopeSet, expression: &Expr) -> Result<Option<Expr>, AllocError>
    ensures { IfOk result (λ lack. option_map view lack ≡ missing set.now (view expression.now)) }
{
    match expression {
        Expr::One(scope) if set.covers(scope) => Ok(None),
        Expr::One(scope) => Ok(Some(Expr::One(scope.clone()?))),
        Expr::AllOf(members) => {
            let mut lacking = Vec::new(alloc);
            for member in members {
                if let Some(lack) = missing(alloc, set, member)? {
                    lacking.push(lack)?;
                }
            }
            if lacking.is_empty() {
                return Ok(None);
            }
            Ok(Some(Expr::AllOf(lacking)))
        }
        Expr::AnyOf(members) => {
            let mut lacking = Vec::new(alloc);
            for member in members {
                match missing(alloc, set, member)? {
                    None => return Ok(None),
                    Some(lack) => lacking.push(lack)?,
                }
            }
            Ok(Some(Expr::AnyOf(lacking)))
        }
    }
}
