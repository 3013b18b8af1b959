ghost use Rattle.std.specs.Prelude.{◌≡◌, ◌==◌, ◌↔◌, [], length, IsTrue, IsUtf8, IfOk, string_bytes};
ghost use Rattle.std.proofs.Common.{rules};
ghost use Rattle.std.specs.Cmp.{partial_order_from_own_ties};
ghost use Rattle.std.specs.Cmp.Lexicographic.{pointwise, slice_cmp};
ghost use Rattle.std.specs.Cmp.Rules.{comparing};
ghost use Rattle.std.specs.Ordering.{nat_cmp, as_partial_cmp};
ghost use Rattle.json.specs.Lex.{tokens};
ghost use Rattle.json.specs.Print.{print};

use json::Writer;
use std::alloc::{AllocError, Global};
use std::cmp::Ordering;
use std::marker::Model;

/// A text, seen as the list of its bytes, which are UTF-8.
#[derive(Debug, Drop)]
pub struct Text {
    content: String,
}

impl Model for Text {
    ghost use Rattle.std.specs.Prelude.{ℕ, List, string_bytes};

    ghost Value = { List ℕ };

    ghost view = { λ t. string_bytes t.content };
}

impl Text {
    /// A copy of the text.
    pub fn from_str(alloc: Global, text: &str) -> Result<Text, AllocError>
        ensures { IfOk result (λ t. t ≡ text.now) }
    {
        Ok(Text {
            content: String::from_str(alloc, text)?,
        })
    }

    /// The text that the string holds, which is not copied.
    pub fn from_string(content: String) -> Text
        ensures { result ≡ string_bytes content }
    {
        Text { content }
    }

    /// The text that a writer of JSON wrote from nothing. It is not copied.
    pub fn from_writer(out: Writer) -> Text
        requires { out.before ≡ [] }
        ensures text { result ≡ print out.tokens }
        ensures reads_back { tokens result ≡ out.tokens }
        ensures utf8 { IsUtf8 result }
    {
        let bytes = out.into_inner();
        // The writer's bytes are proved to be UTF-8, so they are not read again.
        let content = unsafe { String::from_utf8_unchecked(bytes) };
        Text { content }
    }

    /// The string, which is not copied.
    pub fn into_string(self) -> String
        ensures { string_bytes result ≡ self }
    {
        self.content
    }

    /// The text, borrowed.
    pub fn as_str(&self) -> &str
        ensures { result.now ≡ self.now }
    {
        self.content.as_str()
    }

    /// The bytes of the text, borrowed.
    pub fn as_bytes(&self) -> &[u8]
        ensures bytes { result.now ≡ self.now }
        ensures utf8 { IsUtf8 result.now }
    {
        self.content.as_str().as_bytes()
    }

    /// The number of bytes.
    pub fn len(&self) -> usize
        ensures { result ≡ length self.now }
    {
        self.content.len()
    }

    /// Whether the text has no byte.
    pub fn is_empty(&self) -> bool
        ensures { IsTrue result ↔ (self.now ≡ []) }
    {
        self.content.is_empty()
    }
}

impl Clone for Text {
    ghost is_clone = { λ a b. b ≡ a };

    fn clone(&self) -> Result<Text, AllocError> {
        Ok(Text {
            content: self.content.clone()?,
        })
    }
}

impl PartialEq for Text {
    ghost eq = { pointwise ◌==◌ };

    ghost laws = { Prim.search (comparing, rules) };

    fn eq(&self, other: &Text) -> bool {
        self.content == other.content
    }
}

impl Eq for Text {
    ghost laws = { Prim.search (comparing, rules) };
}

impl Ord for Text {
    ghost cmp = { slice_cmp nat_cmp };

    ghost total = { Prim.search (comparing, rules) };

    ghost matches_partial_cmp = { Prim.search (comparing, rules) };

    ghost matches_eq = { Prim.search (comparing, rules) };

    fn cmp(&self, other: &Text) -> Ordering {
        self.content.cmp(&other.content)
    }
}

impl PartialOrd for Text {
    ghost partial_cmp = { as_partial_cmp (slice_cmp nat_cmp) };

    ghost laws = { partial_order_from_own_ties (Prim.search (comparing, rules)) (Prim.search (comparing, rules)) };

    fn partial_cmp(&self, other: &Text) -> Option<Ordering> {
        Some(self.cmp(other))
    }
}
