//! The hash of a body.
ghost use Rattle.std.specs.Prelude.{◌≡◌, ◌==◌, ℕ, List, ◌++◌, map};
ghost use Rattle.std.specs.Char.{to_ascii_lowercase};
ghost use Rattle.std.specs.List.{before_first};
ghost use Rattle.std.specs.Option.{option_copied};
ghost use Rattle.sha2.specs.Hashers.{Holds256};
ghost use Rattle.hawk_auth.specs.Mac.{payload_hash_of, line, or_empty, trimmed};

use crate::hmac::base64_of;
use crate::spaces::trim;
use sha2::{Digest, Sha256};

/// The hash of a body, in base64: SHA-256 of `hawk.1.payload`, the content type before any `;`, in lower case and without spaces
/// around it, and the body, each ended by a line feed (Hawk, scheme 1). An absent content type is empty.
pub fn payload_hash(content_type: Option<&[u8]>, body: &[u8]) -> [u8; 44]
    ensures { result ≡ payload_hash_of (option_copied content_type.entry) body.now }
{
    let mut hasher = Sha256::new();
    add_line(&mut hasher, b"hawk.1.payload");
    add_line_in_lower_case(&mut hasher, media_type(or_empty(content_type)));
    add_line(&mut hasher, body);
    base64_of(&hasher.finalize())
}

fn add_line(hasher: &mut Sha256, text: &[u8])
    ensures { (message : List ℕ) → Holds256 hasher.old message
        → Holds256 hasher.new (message ++ line text.now) }
{
    hasher.update(text);
    hasher.update(b"\n");
}

fn add_line_in_lower_case(hasher: &mut Sha256, text: &[u8])
    ensures { (message : List ℕ) → Holds256 hasher.old message
        → Holds256 hasher.new (message ++ line (map to_ascii_lowercase text.now)) }
{
    for byte in text {
        hasher.update([byte.to_ascii_lowercase()].as_slice());
    }
    hasher.update(b"\n");
}

/// The text, or the empty one where there is none.
fn or_empty(text: Option<&[u8]>) -> &[u8]
    ensures { result.now ≡ or_empty (option_copied text.entry) }
{
    match text {
        Some(text) => text,
        None => b"",
    }
}

/// What stands before any `;`, without the spaces around it.
fn media_type(content_type: &[u8]) -> &[u8]
    ensures { result.now ≡ trimmed (before_first (λ b. b == 59) content_type.now) }
{
    trim(before_semicolon(content_type))
}

/// What stands before any `;`.
fn before_semicolon(text: &[u8]) -> &[u8]
    ensures { result.now ≡ before_first (λ b. b == 59) text.now }
{
    for (place, byte) in text.iter().enumerate() {
        if *byte == b';' {
            return &text[..place];
        }
    }
    text
}
