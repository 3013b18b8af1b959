//! The ext of a header.
ghost use Rattle.std.specs.Prelude.{◌≡◌, ◌≢◌, ◌↔◌, ℕ, List, [], IfOk, IsTrue, MatchOption, All};
ghost use Rattle.base64.specs.Engines.{standard};
ghost use Rattle.base64.specs.GeneralPurpose.{encode_of, IsBytes};
ghost use Rattle.farm_text.specs.Document.{Document, array, items_of, text as plain_text};
ghost use Rattle.farm_text.specs.Doc.{document, documents};
ghost use Rattle.hawk_auth.specs.Ext.{Allows, AreScopes, IsDocument, IsExt, IsObject, IsScope};
ghost use Rattle.hawk_auth.specs.Read.{IsAllowedBy};

use base64::DecodeAllocError;
use base64::engine::general_purpose::STANDARD;
use farm_text::{Doc, ReadFault, a_text_is_of_one_document};
use scope_sets::Scope;
use std::alloc::{AllocError, Global};

/// What an ext allows of the client's scopes.
#[derive(Drop)]
pub(crate) enum Allowed {
    /// All that the client has.
    Everything,
    /// These scopes alone.
    Only(Vec<Scope>),
    /// The ext is off its form.
    Off,
}

/// What an ext allows: it is base64 of a JSON object with or without a list `authorizedScopes`.
pub(crate) fn read_ext(alloc: Global, ext: &str) -> Result<Allowed, AllocError>
    ensures { IfOk result (IsAllowedBy (IsExt ext.now)) }
{
    let Some(content) = decoded(alloc, ext)? else {
        return Ok(Allowed::Off);
    };
    match document_of(alloc, &content)? {
        Some(doc) => allowed_by(alloc, &doc),
        None => Ok(Allowed::Off),
    }
}

/// The bytes whose base64 the text is, in the standard alphabet with padding (RFC 4648).
fn decoded(alloc: Global, text: &str) -> Result<Option<Vec<u8>>, AllocError>
    ensures { IfOk result (λ found. MatchOption found
        ((bytes : List ℕ) → IsBytes bytes → text.now ≢ encode_of standard bytes)
        (λ v. IsBytes v.items × (text.now ≡ encode_of standard v.items)
        × ((bytes : List ℕ) → IsBytes bytes → text.now ≡ encode_of standard bytes → bytes ≡ v.items))) }
{
    match STANDARD.decode(alloc, text.as_bytes()) {
        Ok(bytes) => Ok(Some(bytes)),
        Err(DecodeAllocError::DecodeError(_)) => Ok(None),
        Err(DecodeAllocError::OutOfMemory) => Err(AllocError),
    }
}

/// The document that the bytes are.
fn document_of(alloc: Global, bytes: &[u8]) -> Result<Option<Doc>, AllocError>
    ensures { IfOk result (λ found. MatchOption found ((d : Document) → ¬ IsDocument bytes.now d)
        (λ doc. IsDocument bytes.now (document doc)
        × ((d : Document) → IsDocument bytes.now d → d ≡ document doc))) }
{
    a_text_is_of_one_document();
    match Doc::read(alloc, bytes) {
        Ok(doc) => Ok(Some(doc)),
        Err(ReadFault::NotJson) => Ok(None),
        Err(ReadFault::NotWhole(_)) => Ok(None),
        Err(ReadFault::NoMemory) => Err(AllocError),
    }
}

/// What a document allows.
fn allowed_by(alloc: Global, doc: &Doc) -> Result<Allowed, AllocError>
    ensures { IfOk result (IsAllowedBy (Allows (document doc.now))) }
{
    if !is_object(doc) {
        return Ok(Allowed::Off);
    }
    if doc.get("certificate").is_some() {
        return Ok(Allowed::Off);
    }
    let Some(value) = doc.get("authorizedScopes") else {
        return Ok(Allowed::Everything);
    };
    match scopes_in(alloc, value)? {
        Some(scopes) => Ok(Allowed::Only(scopes)),
        None => Ok(Allowed::Off),
    }
}

fn is_object(doc: &Doc) -> bool
    ensures { IsTrue result ↔ IsObject (document doc.now) }
{
    matches!(doc, Doc::Map(_))
}

/// The scopes that the document is a list of, if it is one.
fn scopes_in(alloc: Global, value: &Doc) -> Result<Option<Vec<Scope>>, AllocError>
    ensures { IfOk result (λ found. MatchOption found
        ((scopes : List (List ℕ)) → ¬ AreScopes (document value.now) scopes)
        (λ v. AreScopes (document value.now) v.items)) }
{
    match value {
        Doc::List(items) => scopes_of(alloc, items),
        _ => Ok(None),
    }
}

fn scopes_of(alloc: Global, items: &[Doc]) -> Result<Option<Vec<Scope>>, AllocError>
    ensures { IfOk result (λ found. MatchOption found
        ((scopes : List (List ℕ)) → ¬ AreScopes (array (items_of (documents items.now))) scopes)
        (λ v. AreScopes (array (items_of (documents items.now))) v.items)) }
{
    let mut scopes = Vec::with_capacity(alloc, items.len())?;
    for item in items {
        match scope_of(alloc, item)? {
            Some(scope) => scopes.push(scope)?,
            None => return Ok(None),
        }
    }
    Ok(Some(scopes))
}

/// The scope that the document is, if it is a text that may be handed in as one.
fn scope_of(alloc: Global, item: &Doc) -> Result<Option<Scope>, AllocError>
    ensures { IfOk result (λ found. MatchOption found
        ((t : List ℕ) → IsScope t → document item.now ≢ plain_text t)
        (λ s. IsScope s × (document item.now ≡ plain_text s))) }
{
    let Doc::Text(text) = item else {
        return Ok(None);
    };
    match Scope::new(String::from_str(alloc, text.as_str())?) {
        Some(scope) if scope.has_handed_in_form() => Ok(Some(scope)),
        _ => Ok(None),
    }
}
