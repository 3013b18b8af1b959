//! Scope expressions as JSON.
ghost use Rattle.std.specs.Prelude.{◌≡◌, [], ◌∷◌, IfOk, map};
ghost use Rattle.scope_sets.specs.Expressions.{view, members_of};
ghost use Rattle.farm_text.specs.Doc.{document, documents};
ghost use Rattle.farm_text.specs.Document.{array, object, items_of as items_in, members_of as member_of};
ghost use Rattle.farm_asks.specs.Expressions.{document_of, items_of};

use farm_text::{Doc, Entries};
use scope_sets::Expr;
use std::alloc::{AllocError, Global};

/// The expression as a document: a scope is a text, the others are objects of one member (the Taskcluster reference).
#[cycle(expression)]
pub(crate) fn expression_doc(alloc: Global, expression: &Expr) -> Result<Doc, AllocError>
    ensures { IfOk result (λ d. document d ≡ document_of (view expression.now)) }
{
    match expression {
        Expr::One(scope) => Doc::text(alloc, scope.as_str()),
        Expr::AllOf(members) => one_member(alloc, "AllOf", member_docs(alloc, members)?),
        Expr::AnyOf(members) => one_member(alloc, "AnyOf", member_docs(alloc, members)?),
    }
}

/// Each of the expressions as a document.
#[cycle(expression)]
fn member_docs(alloc: Global, members: &Vec<Expr>) -> Result<Vec<Doc>, AllocError>
    ensures { IfOk result (λ v. items_in (documents v.items) ≡ items_of (members_of (map view members.now.items))) }
{
    let mut docs = Vec::with_capacity(alloc, members.len())?;
    for member in members {
        docs.push(expression_doc(alloc, member)?)?;
    }
    Ok(docs)
}

/// The object of this one member, a list.
fn one_member(alloc: Global, key: &str, items: Vec<Doc>) -> Result<Doc, AllocError>
    ensures { IfOk result (λ d. document d ≡ object (member_of ((key.now, array (items_in (documents items.items))) ∷ []))) }
{
    Ok(
        Entries::new(alloc)
            .with(alloc, key, Doc::List(items))?
            .into_doc(),
    )
}
