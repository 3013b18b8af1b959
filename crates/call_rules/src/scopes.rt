//! Scopes put together of texts.
ghost use Rattle.std.specs.Prelude.{◌≡◌, ◌∷◌, ◌++◌, All, string_bytes, IsTrue, IfOk};
ghost use Rattle.scope_sets.specs.Scopes.{IsPrintable};
ghost use Rattle.call_rules.specs.Texts.{are_printable};

use scope_sets::Scope;
use std::alloc::{AllocError, Global};

/// The scope that begins so and goes on so.
pub(crate) fn scope_of(alloc: Global, front: &str, rest: &str) -> Result<Scope, AllocError>
    requires front { IsTrue (are_printable front.now) }
    requires rest { All IsPrintable rest.now }
    ensures { IfOk result (λ s. s ≡ front.now ++ rest.now) }
{
    let mut text = String::from_str(alloc, front)?;
    text.push_str(rest)?;
    Ok(Scope::from_printable(text))
}

/// Two texts with a slash between them.
pub(crate) fn joined(alloc: Global, front: &str, rest: &str) -> Result<String, AllocError>
    requires front { All IsPrintable front.now }
    requires rest { All IsPrintable rest.now }
    ensures name { IfOk result (λ t. string_bytes t ≡ front.now ++ 47 ∷ rest.now) }
    ensures printable { IfOk result (λ t. All IsPrintable (string_bytes t)) }
{
    let mut text = String::from_str(alloc, front)?;
    text.push_str("/")?;
    text.push_str(rest)?;
    Ok(text)
}
