//! The MAC of a request.
ghost use Rattle.std.specs.Prelude.{◌≡◌, ℕ, List, ◌++◌, All, map, decimal};
ghost use Rattle.std.specs.Char.{to_ascii_lowercase, to_ascii_uppercase};
ghost use Rattle.std.specs.Option.{option_copied};
ghost use Rattle.hawk_auth.specs.Header.{IsValueByte};
ghost use Rattle.hawk_auth.specs.Hashing.{Authenticates};
ghost use Rattle.hawk_auth.specs.Mac.{parts_data, mac_of, line, or_empty, signed_text};

use crate::hmac::{Hmac, base64_of};
use itoa::Buffer;

/// What a request is signed with: the client's id and token, and what of the request is authenticated.
#[derive(Clone, Copy)]
pub struct Parts<'a> {
    pub id: &'a str,
    pub token: &'a str,
    /// Whole seconds since 1970, as 1 to 12 digits.
    pub ts: &'a str,
    pub nonce: &'a str,
    /// The method, in any case: the MAC is over it in capitals.
    pub method: &'a [u8],
    /// The request target as it is sent, with its query, not decoded.
    pub target: &'a [u8],
    /// The host, in any case: the MAC is over it in lower case.
    pub host: &'a str,
    pub port: u16,
    /// The hash of the body, in base64.
    pub hash: Option<&'a str>,
    pub ext: Option<&'a str>,
}

/// The MAC of a request under the token, in base64: HMAC-SHA-256 of `hawk.1.header`, the ts, the nonce, the method in capitals, the
/// target, the host in lower case, the port, the hash and the ext, each ended by a line feed, an absent one empty (Hawk, scheme 1).
pub fn mac(parts: &Parts) -> [u8; 44]
    ensures value { result ≡ mac_of (parts_data parts.now) }
    ensures plain { All IsValueByte result }
{
    let hmac = signed(parts);
    base64_of(&hmac.finish())
}

/// The hasher that was given what is authenticated.
fn signed(parts: &Parts) -> Hmac
    ensures { Authenticates (parts_data parts.now).token (signed_text (parts_data parts.now)) result }
{
    let mut hmac = Hmac::new(parts.token.as_bytes());
    hmac.line(b"hawk.1.header");
    hmac.text_line(parts.ts);
    hmac.text_line(parts.nonce);
    line_in_capitals(&mut hmac, parts.method);
    hmac.line(parts.target);
    line_in_lower_case(&mut hmac, parts.host);
    line_of_number(&mut hmac, parts.port);
    line_or_empty(&mut hmac, parts.hash);
    line_or_empty(&mut hmac, parts.ext);
    hmac
}

fn line_in_capitals(hmac: &mut Hmac, text: &[u8])
    ensures { (key message : List ℕ) → Authenticates key message hmac.old
        → Authenticates key (message ++ line (map to_ascii_uppercase text.now)) hmac.new }
{
    for byte in text {
        hmac.update([byte.to_ascii_uppercase()].as_slice());
    }
    hmac.update(b"\n");
}

fn line_in_lower_case(hmac: &mut Hmac, text: &str)
    ensures { (key message : List ℕ) → Authenticates key message hmac.old
        → Authenticates key (message ++ line (map to_ascii_lowercase text.now)) hmac.new }
{
    for byte in text.as_bytes() {
        hmac.update([byte.to_ascii_lowercase()].as_slice());
    }
    hmac.update(b"\n");
}

fn line_of_number(hmac: &mut Hmac, number: u16)
    ensures { (key message : List ℕ) → Authenticates key message hmac.old
        → Authenticates key (message ++ line (decimal number)) hmac.new }
{
    let mut buffer = Buffer::new();
    hmac.line(buffer.format(number).as_bytes());
}

/// Adds the text as a line, an empty line where there is none.
fn line_or_empty(hmac: &mut Hmac, text: Option<&str>)
    ensures { (key message : List ℕ) → Authenticates key message hmac.old
        → Authenticates key (message ++ line (or_empty (option_copied text.entry))) hmac.new }
{
    match text {
        Some(text) => hmac.text_line(text),
        None => hmac.text_line(""),
    }
}
