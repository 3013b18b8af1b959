//! The scopes of a text's lines, and the text of scopes.
ghost use Rattle.std.specs.Prelude.{◌≡◌, ◌≢◌, ◌++◌, ◌∷◌, [], IfOk, MatchResult, MatchOption};
ghost use Rattle.scope_lines.specs.Lines.{lines_text, IsScope, SaysScopes, RefusesLines};
ghost use Rattle.scope_lines.specs.Steps.{CutsLine};

use scope_sets::Scope;
use std::alloc::{AllocError, Global};

/// Why no scopes were read.
#[derive(Clone, Copy, Debug, PartialEq, Eq)]
pub enum LineFault {
    /// The first line, counted from 0, that is no scope that may be handed in.
    BadLine(usize),
    NoMemory,
}

impl From<AllocError> for LineFault {
    ghost use Rattle.std.specs.Prelude.{◌≡◌};
    ghost use Rattle.scope_lines.specs.declared.lines.LineFault.{LineFault};

    ghost from_gives = { λ _ fault. fault ≡ LineFault.NoMemory };

    fn from(_error: AllocError) -> LineFault {
        LineFault::NoMemory
    }
}

/// The first line of a text that is not empty, without its line feed, and what follows it.
fn cut_line(text: &[u8]) -> (&[u8], &[u8])
    requires { text.now ≢ [] }
    ensures { CutsLine text.now result.0.now result.1.now }
{
    match text.iter().position(|b| *b == b'\n') {
        Some(end) => (&text[..end], &text[end + 1..]),
        None => (text, &text[text.len()..]),
    }
}

/// The scope of a line, if it may be handed in.
fn read_scope(alloc: Global, line: &[u8]) -> Result<Option<Scope>, AllocError>
    ensures { IfOk result (λ read. MatchOption read (¬ IsScope line.now)
        (λ scope. (scope ≡ line.now) × IsScope line.now)) }
{
    let Ok(text) = str::from_utf8(line) else {
        return Ok(None);
    };
    match Scope::new(String::from_str(alloc, text)?) {
        Some(scope) if scope.has_handed_in_form() => Ok(Some(scope)),
        _ => Ok(None),
    }
}

/// Puts a scope at the end of the list.
fn add(scopes: &mut Vec<Scope>, scope: Scope) -> Result<(), AllocError>
    ensures { IfOk result (λ _. scopes.new.items ≡ scopes.old.items ++ scope ∷ []) }
{
    scopes.push(scope)?;
    Ok(())
}

/// The scopes of the lines of a text, in their order.
pub fn read_scopes(alloc: Global, text: &[u8]) -> Result<Vec<Scope>, LineFault>
    ensures { MatchResult result (λ scopes. SaysScopes text.now scopes.items) (RefusesLines text.now) }
{
    let mut scopes = Vec::new(alloc);
    let mut rest = text;
    'lines: while !rest.is_empty() {
        let (line, after) = cut_line(rest);
        match read_scope(alloc, line)? {
            Some(scope) => add(&mut scopes, scope)?,
            None => return Err(LineFault::BadLine(scopes.len())),
        }
        rest = after;
    }
    Ok(scopes)
}

/// The scopes, each as a line.
pub fn write_scopes(alloc: Global, scopes: &[Scope]) -> Result<Vec<u8>, AllocError>
    ensures { IfOk result (λ text. text.items ≡ lines_text scopes.now) }
{
    let mut text = Vec::new(alloc);
    for scope in scopes {
        text.extend_from_slice(scope.as_bytes())?;
        text.push(b'\n')?;
    }
    Ok(text)
}
