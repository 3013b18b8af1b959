//! HMAC-SHA-256 (RFC 2104), without memory.
ghost use Rattle.std.specs.Prelude.{◌≡◌, ◌≤◌, ◌-◌, ℕ, List, [], ◌++◌, All, length, replicate};
ghost use Rattle.base64.specs.Engines.{standard};
ghost use Rattle.base64.specs.GeneralPurpose.{encode_of};
ghost use Rattle.hawk_auth.specs.Header.{IsValueByte};
ghost use Rattle.hawk_auth.specs.Hashing.{Authenticates};
ghost use Rattle.hawk_auth.specs.Mac.{hmac, key_block, masked, line};

use base64::engine::general_purpose::STANDARD;
use sha2::{Digest, Sha256};

/// A hasher that makes the HMAC-SHA-256 of a message that it is given piece by piece.
#[derive(Drop)]
pub(crate) struct Hmac {
    inner: Sha256,
    outer: Sha256,
}

impl Hmac {
    /// A hasher of the empty message, under this key.
    pub(crate) fn new(key: &[u8]) -> Hmac
        ensures { Authenticates key.now [] result }
    {
        let block = block_of(key);
        let mut inner = Sha256::new();
        inner.update(mask(&block, 0x36).as_slice());
        let mut outer = Sha256::new();
        outer.update(mask(&block, 0x5c).as_slice());
        Hmac { inner, outer }
    }

    /// Adds these bytes to the message.
    pub(crate) fn update(&mut self, bytes: &[u8])
        ensures { (key message : List ℕ) → Authenticates key message self.old
            → Authenticates key (message ++ bytes.now) self.new }
    {
        self.inner.update(bytes);
    }

    /// Adds a line to the message.
    pub(crate) fn line(&mut self, text: &[u8])
        ensures { (key message : List ℕ) → Authenticates key message self.old
            → Authenticates key (message ++ line text.now) self.new }
    {
        self.inner.update(text);
        self.inner.update(b"\n");
    }

    /// Adds a line to the message.
    pub(crate) fn text_line(&mut self, text: &str)
        ensures { (key message : List ℕ) → Authenticates key message self.old
            → Authenticates key (message ++ line text.now) self.new }
    {
        self.line(text.as_bytes());
    }

    /// The MAC of the message.
    pub(crate) fn finish(self) -> [u8; 32]
        ensures { (key message : List ℕ) → Authenticates key message self → result ≡ hmac key message }
    {
        let Hmac { inner, mut outer } = self;
        let digest = inner.finalize();
        outer.update(digest.as_slice());
        outer.finalize()
    }
}

/// The key as a block of 64 bytes.
fn block_of(key: &[u8]) -> [u8; 64]
    ensures { result ≡ key_block key.now }
{
    if key.len() <= 64 {
        return with_zeros(key);
    }
    let digest = Sha256::digest(key);
    with_zeros(digest.as_slice())
}

/// The bytes, and zeros up to a block.
fn with_zeros(key: &[u8]) -> [u8; 64]
    requires { length key.now ≤ 64 }
    ensures { result ≡ key.now ++ replicate (64 - length key.now) 0 }
{
    let mut block = [0u8; 64];
    for i in 0..key.len() {
        block[i] = key[i];
    }
    block
}

/// The block with each byte xored with this one.
fn mask(block: &[u8; 64], byte: u8) -> [u8; 64]
    ensures { result ≡ masked byte block.now }
{
    let mut out = [0u8; 64];
    for i in 0..64 {
        out[i] = block[i] ^ byte;
    }
    out
}

/// The HMAC-SHA-256 of a message under a key of any length (RFC 2104, RFC 4231).
pub fn hmac_sha256(key: &[u8], message: &[u8]) -> [u8; 32]
    ensures { result ≡ hmac key.now message.now }
{
    let mut hmac = Hmac::new(key);
    hmac.update(message);
    hmac.finish()
}

/// A digest in base64, with padding (RFC 4648).
pub(crate) fn base64_of(digest: &[u8; 32]) -> [u8; 44]
    ensures value { result ≡ encode_of standard digest.now }
    ensures plain { All IsValueByte result }
{
    let mut text = [0u8; 44];
    let Ok(_) = STANDARD.encode_slice(digest, &mut text) else {
        unreachable!();
    };
    text
}
