ghost use Rattle.std.specs.Prelude.{◌≡◌, ℕ, [], ◌∷◌, ◌++◌, OnOk, ◌/◌, ◌↔◌, List, length, slice_index, IsTrue, IsSome, IfSome, IfOk};
ghost use Rattle.json.specs.Token.{string};
ghost use Rattle.farm_text.specs.Slug.{IsUuid4, IsSlug, slug_text, slug_of};
ghost use Rattle.farm_text.specs.Told.{first_uuid};

use crate::text::Text;
use base64::engine::general_purpose::URL_SAFE_NO_PAD;
use json::Writer;
use std::alloc::{AllocError, Global};
use std::marker::Model;
use std::str;

const UUID_LEN: usize = 16;

const SLUG_LEN: usize = 22;

// What base64 may write for the longest text of `SLUG_LEN` characters.
const DECODED_LEN: usize = 18;

/// An id: a version 4 UUID (RFC 9562), written as a slugid.
#[derive(Clone, Copy, Debug, PartialEq, Eq, PartialOrd, Ord, Hash)]
pub struct SlugId {
    uuid: [u8; UUID_LEN],
}

impl Model for SlugId {
    ghost Value = { List ℕ };

    ghost view = { λ s. s.uuid };

    ghost invariant = { λ s. IsUuid4 s.uuid };

    ghost inverse = { λ bytes. record { uuid = bytes } };
}

impl SlugId {
    /// The id 00000000-0000-4000-8000-000000000000.
    pub(crate) fn first() -> SlugId
        ensures { result ≡ first_uuid }
    {
        SlugId {
            uuid: [0, 0, 0, 0, 0, 0, 0x40, 0, 0x80, 0, 0, 0, 0, 0, 0, 0],
        }
    }

    /// The id with these bytes, if their version is 4 and their variant 10.
    pub fn of_uuid(uuid: [u8; UUID_LEN]) -> Option<SlugId>
        ensures valid { IsSome result ↔ IsUuid4 uuid }
        ensures some { slice_index uuid 6 / 16 ≡ 4 → slice_index uuid 8 / 64 ≡ 2 → IsSome result }
        ensures value { IfSome result (λ s. s ≡ uuid) }
    {
        if is_uuid4(&uuid) {
            Some(SlugId { uuid })
        } else {
            None
        }
    }

    /// The id whose text this is, if it is a slugid.
    pub fn read(text: &[u8]) -> Option<SlugId>
        ensures valid { IsSome result ↔ IsSlug text.now }
        ensures value { IfSome result (λ s. slug_text s ≡ text.now) }
        ensures exact { result ≡ slug_of text.now }
    {
        SlugId::find(text)
    }

    // What `read` answers.
    fn find(text: &[u8]) -> Option<SlugId>
        ensures valid { IsSome result ↔ IsSlug text.now }
        ensures value { IfSome result (λ s. slug_text s ≡ text.now) }
        ensures uuid { IfSome result IsUuid4 }
    {
        if text.len() != SLUG_LEN {
            return None;
        }
        let mut bytes = [0; DECODED_LEN];
        let Ok(len) = URL_SAFE_NO_PAD.decode_slice_unchecked(text, &mut bytes) else {
            return None;
        };
        if len != UUID_LEN {
            return None;
        }
        let mut uuid = [0; UUID_LEN];
        uuid.copy_from_slice(&bytes[..UUID_LEN]);
        SlugId::of_uuid(uuid)
    }

    /// The id's slugid.
    pub fn text(self) -> [u8; SLUG_LEN]
        ensures value { result ≡ slug_text self }
        ensures slug { IsSlug result }
    {
        let mut text = [0; SLUG_LEN];
        let Ok(_) = URL_SAFE_NO_PAD.encode_slice(&self.uuid, &mut text) else {
            unreachable!();
        };
        text
    }

    /// The id's slugid, as a text of its own.
    pub fn to_text(self, alloc: Global) -> Result<Text, AllocError>
        ensures { IfOk result (λ t. t ≡ slug_text self) }
    {
        let bytes = self.text();
        let Ok(text) = str::from_utf8(&bytes) else {
            unreachable!();
        };
        Text::from_str(alloc, text)
    }

    /// Writes the id's slugid as JSON, behind what the writer has.
    pub fn write_to(self, out: &mut Writer) -> Result<(), AllocError>
        ensures ok { OnOk result (out.new.tokens ≡ out.old.tokens ++ string (slug_text self) ∷ []) }
        ensures before { out.new.before ≡ out.old.before }
    {
        let bytes = self.text();
        let Ok(text) = str::from_utf8(&bytes) else {
            unreachable!();
        };
        out.string(text)
    }

    /// The id's sixteen bytes.
    pub fn uuid(self) -> [u8; UUID_LEN]
        ensures value { result ≡ self }
        ensures valid { IsUuid4 result }
    {
        self.uuid
    }
}

// Whether these are the bytes of a version 4 UUID.
fn is_uuid4(bytes: &[u8]) -> bool
    ensures valid { IsTrue result ↔ IsUuid4 bytes.now }
    ensures enough { length bytes.now ≡ UUID_LEN → slice_index bytes.now 6 / 16 ≡ 4
        → slice_index bytes.now 8 / 64 ≡ 2 → IsTrue result }
{
    bytes.len() == UUID_LEN && bytes[6] >> 4 == 4 && bytes[8] >> 6 == 2
}

/// A text is a slugid exactly where it is the text of a version 4 UUID.
pub fn slugs_are_texts_of_uuids()
    ensures reads { (text : List ℕ) → IsSlug text → (uuid : List ℕ) × IsUuid4 uuid × (text ≡ slug_text uuid) }
    ensures writes { (uuid : List ℕ) → IsUuid4 uuid → IsSlug (slug_text uuid) }
    ensures one { (a b : List ℕ) → IsUuid4 a → IsUuid4 b → slug_text a ≡ slug_text b → a ≡ b }
{}
