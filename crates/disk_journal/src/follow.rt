//! Following the open records of a file.
ghost use Rattle.std.specs.Prelude.{◌≡◌, ◌↔◌, IsTrue, ℕ, ◌+◌, ◌<◌, ◌≤◌, ◌^◌, ◌⊎◌, List, [], ◌++◌, ◌∷◌, length, take, drop, map, IfSome, IsNone, IfOk, MatchOption, MatchResult};
ghost use Rattle.disk_journal.specs.Records.{sized};
ghost use Rattle.disk_journal.specs.Following.{IsFollowed};

use crate::journal::OPEN;
use crate::spans::{Followed, Span};
use std::alloc::{AllocError, Global};

// The size of the whole record that begins a text (behind its gate), where a gate byte stands behind it too.
fn whole(text: &[u8]) -> Option<usize>
    ensures some { IfSome result (λ size. (text.now ≡ sized (take size (drop 4 text.now)) ++ drop (4 + size) text.now) × (4 + size < length text.now) × (size < 2 ^ 32)) }
    ensures none { result ≡ None → (body more : List ℕ) → length body < 2 ^ 32 → text.now ≡ sized body ++ more → more ≡ [] }
{
    if text.len() < 5 {
        return None;
    }
    let size = u32::from_be_bytes([text[0], text[1], text[2], text[3]]) as usize;
    if size < text.len() - 4 {
        Some(size)
    } else {
        None
    }
}

// What stands behind that place.
fn behind(file: &[u8], at: usize) -> &[u8]
    requires { at < length file.now }
    ensures { result.now ≡ drop (at + 1) file.now }
{
    &file[at + 1..]
}

// Whether a gate is open.
fn is_open(gate: u8) -> bool
    ensures { IsTrue result ↔ (gate ≡ 165) }
{
    gate == OPEN
}

/// Follows the open records of a file from its start. Each byte of a length and each gate is read once, and no body is.
pub(crate) fn follow(alloc: Global, file: &[u8]) -> Result<Followed, AllocError>
    ensures { IfOk result (IsFollowed file.now) }
{
    let mut spans = Vec::new(alloc);
    let mut at = 0;
    while at < file.len() && is_open(file[at]) {
        match whole(behind(file, at)) {
            Some(size) => {
                spans.push(Span { gate: at, size })?;
                at += 5 + size;
            }
            None => {
                if at == 0 && file.len() < 6 {
                    return Ok(Followed::End { spans, end: at });
                }
                return Ok(Followed::Damaged { spans, place: at });
            }
        }
    }
    Ok(Followed::End { spans, end: at })
}
