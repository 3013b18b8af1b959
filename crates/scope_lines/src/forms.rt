//! What keeps a text from being a scope, in words.
ghost use Rattle.std.specs.Prelude.{◌↔◌, IsNone, All};
ghost use Rattle.scope_sets.specs.Scopes.{IsPrintable, HasHandedInForm};
ghost use Rattle.scope_sets.specs.declared.scopes.TheConstants.{LONGEST_SCOPE};

use scope_sets::LONGEST_SCOPE;
use scope_sets::scopes::is_printable;

/// The rule that keeps a text from being a scope which may be handed in, in words; `None` exactly where the text is such a scope.
pub fn scope_fault(text: &[u8]) -> Option<&'static str>
    ensures { IsNone result ↔ (All IsPrintable text.now × HasHandedInForm LONGEST_SCOPE text.now) }
{
    if !is_printable(text) {
        return Some("a scope is printable ASCII");
    }
    if text.len() > LONGEST_SCOPE {
        return Some("a scope has at most 4096 bytes");
    }
    if matches!(text, [.., b'*', b'*']) {
        return Some("a scope does not end with **");
    }
    None
}
