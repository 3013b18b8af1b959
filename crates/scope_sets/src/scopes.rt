ghost use Rattle.std.specs.Prelude.{◌≡◌, ℕ, ◌<◌, ◌≤◌, ◌↔◌, All, length, IsTrue, IsSome, IfOk, IfSome, string_bytes};
ghost use Rattle.scope_sets.specs.Scopes.{IsPrintable, Satisfies, satisfies, HasHandedInForm};

use std::alloc::{AllocError, Global};
use std::cmp::Ordering;
use std::convert::AsStr;
use std::fmt;
use std::marker::Model;

/// The greatest number of bytes of a scope that is handed in.
pub const LONGEST_SCOPE: usize = 4096;

/// A scope: printable ASCII, possibly empty.
#[derive(Drop)]
pub struct Scope {
    text: String,
}

impl Model for Scope {
    ghost use Rattle.std.specs.Prelude.{ℕ, List, All, string_bytes};
    ghost use Rattle.scope_sets.specs.Scopes.{IsPrintable};

    ghost Value = { List ℕ };

    ghost view = { λ s. string_bytes s.text };

    ghost invariant = { λ s. All IsPrintable (string_bytes s.text) };
}

impl Scope {
    /// The scope of this text, which is `None` exactly where a byte of it is not printable ASCII.
    pub fn new(text: String) -> Option<Scope>
        ensures printable { IsSome result ↔ All IsPrintable (string_bytes text) }
        ensures value { IfSome result (λ s. s ≡ string_bytes text) }
    {
        if is_printable(text.as_bytes()) {
            Some(Scope { text })
        } else {
            None
        }
    }

    /// The scope of a text that is known to be printable ASCII.
    pub fn from_printable(text: String) -> Scope
        requires { All IsPrintable (string_bytes text) }
        ensures { result ≡ string_bytes text }
    {
        Scope { text }
    }

    /// The text of the scope.
    pub fn as_str(&self) -> &str
        ensures value { result.now ≡ self.now }
        ensures printable { All IsPrintable self.now }
    {
        self.text.as_str()
    }

    /// The bytes of the scope's text.
    pub fn as_bytes(&self) -> &[u8]
        ensures value { result.now ≡ self.now }
        ensures printable { All IsPrintable self.now }
    {
        self.text.as_bytes()
    }

    /// Whether a scope that is handed in may be this one: it has at most `LONGEST_SCOPE` bytes and does not end with `**`.
    ///
    /// Without the second rule satisfying would not be transitive: `a**` satisfies `a*`, which satisfies `ab`, and `a**` does not satisfy `ab`.
    pub fn has_handed_in_form(&self) -> bool
        ensures { IsTrue result ↔ HasHandedInForm LONGEST_SCOPE self.now }
    {
        let text = self.text.as_bytes();
        text.len() <= LONGEST_SCOPE && !matches!(text, [.., b'*', b'*'])
    }
}

/// Whether each byte is printable ASCII, from the space to `~`.
pub fn is_printable(text: &[u8]) -> bool
    ensures { IsTrue result ↔ All IsPrintable text.now }
{
    text.iter().all(|b| (b' '..=b'~').contains(b))
}

/// Whether having the first scope is enough where the second is asked for: they are the same, or `held` ends with `*` and
/// `asked` begins with what stands before that `*`. A `*` elsewhere is an ordinary character.
pub fn satisfies(held: &Scope, asked: &Scope) -> bool
    ensures meaning { IsTrue result ↔ Satisfies held.now asked.now }
    ensures test { result ≡ satisfies held.now asked.now }
{
    match held.as_bytes().strip_suffix(b"*".as_slice()) {
        Some(front) => asked.as_bytes().starts_with(front),
        None => held == asked,
    }
}

impl AsStr for Scope {
    ghost text = { λ s. s };

    fn as_str(&self) -> &str {
        Scope::as_str(self)
    }
}

impl Clone for Scope {
    ghost is_clone = { λ s t. t ≡ s };

    fn clone(&self) -> Result<Scope, AllocError> {
        Ok(Scope {
            text: self.text.clone()?,
        })
    }
}

impl PartialEq for Scope {
    ghost use Rattle.std.specs.Prelude.{nat_eq};
    ghost use Rattle.std.specs.Cmp.{partial_equiv_from_equiv};
    ghost use Rattle.std.specs.Cmp.Lexicographic.{pointwise, nat_list_eq_equiv};

    ghost eq = { pointwise nat_eq };

    ghost laws = { partial_equiv_from_equiv nat_list_eq_equiv };

    fn eq(&self, other: &Scope) -> bool {
        self.as_str() == other.as_str()
    }
}

impl Eq for Scope {
    ghost use Rattle.std.specs.Cmp.Lexicographic.{nat_list_eq_equiv};

    ghost laws = { nat_list_eq_equiv };
}

impl PartialOrd for Scope {
    ghost use Rattle.std.specs.Prelude.{Some};
    ghost use Rattle.std.specs.Ordering.{nat_cmp};
    ghost use Rattle.std.specs.Cmp.Lexicographic.{slice_cmp, texts_po};

    ghost partial_cmp = { λ a b. Some (slice_cmp nat_cmp a b) };

    ghost laws = { texts_po };

    fn partial_cmp(&self, other: &Scope) -> Option<Ordering> {
        Some(self.cmp(other))
    }
}

impl Ord for Scope {
    ghost use Rattle.std.specs.Prelude.{refl};
    ghost use Rattle.std.specs.Ordering.{nat_cmp};
    ghost use Rattle.std.specs.Cmp.Lexicographic.{slice_cmp, nat_list_cmp_total, texts_ties};

    ghost cmp = { slice_cmp nat_cmp };

    ghost total = { nat_list_cmp_total };

    ghost matches_partial_cmp = { λ a b. refl };

    ghost matches_eq = { texts_ties };

    fn cmp(&self, other: &Scope) -> Ordering {
        self.as_str().cmp(other.as_str())
    }
}

impl fmt::Display for Scope {
    ghost use Rattle.std.specs.Prelude.{Some};

    ghost output = { λ s. Some s };

    fn fmt<W: fmt::Write>(&self, f: &mut fmt::Formatter<W>) -> fmt::Result {
        f.write_str(self.as_str())
    }
}

impl fmt::Debug for Scope {
    fn fmt<W: fmt::Write>(&self, f: &mut fmt::Formatter<W>) -> fmt::Result {
        f.write_str(self.as_str())
    }
}
