//! The check of who calls.
ghost use Rattle.std.specs.Prelude.{◌≡◌, ◌↔◌, ◌≤◌, ◌/◌, ◌∷◌, ◌++◌, [], ℕ, List, All, IfOk, IsTrue, codes, length, map};
ghost use Rattle.std.specs.Option.{option_copied};
ghost use Rattle.scope_sets.specs.Expressions.{view};
ghost use Rattle.scope_sets.specs.Scopes.{IsPrintable};
ghost use Rattle.hawk_auth.specs.Mac.{mac_of};
ghost use Rattle.hawk_auth.specs.Header.{header_data, IsTs};
ghost use Rattle.hawk_auth.specs.Clients.{client_data, IsBook};
ghost use Rattle.hawk_auth.specs.Access.{head_data, signed_parts, own_scopes, seconds_of, AreFar, HasOtherHash, Limits, all_scopes, anonymous_scopes, conditions, ext_conditions, Expands, HasAccess, HasSignedAccess, IsFirst, UnlessNoMemory};
ghost use Rattle.hawk_auth.specs.Admitted.{within_conditions};
ghost use Rattle.hawk_auth.specs.Read.{IsAllowedBy};

use crate::book::ClientBook;
use crate::client::Client;
use crate::ext::{Allowed, read_ext};
use crate::header::{HawkHeader, HeaderFault};
use crate::macs::{Parts, mac};
use crate::payload::payload_hash;
use farm_text::{Moment, a_text_is_of_one_document};
use role_expand::laws::{a_closure_is_not_too_many, the_closure_is_one};
use role_expand::{ExpandFault, RoleSet};
use scope_sets::{Expr, Scope, ScopeSet, missing};
use std::alloc::{AllocError, Global};

/// What of a request tells who calls.
#[derive(Clone, Copy)]
pub struct AuthHead<'a> {
    /// The value of the first `Authorization` field, if there is one.
    pub header: Option<&'a [u8]>,
    /// The number of `Authorization` fields.
    pub count: usize,
    pub method: &'a [u8],
    /// The request target as it was sent.
    pub target: &'a [u8],
    /// The value of the first `Content-Type` field, if there is one.
    pub content_type: Option<&'a [u8]>,
    pub body: &'a [u8],
    /// The farm's host, in any case.
    pub host: &'a str,
    pub port: u16,
}

/// Why a caller is refused: the first of these conditions that holds. With scopes that the header asks for, `TooMany` comes before `Oversteps` of the client's
/// own scopes, and behind it of those that are asked for.
#[derive(Drop)]
pub enum AuthFault {
    /// The `Authorization` field is off its form, or stands more than once.
    BadHeader,
    /// No client has the id.
    UnknownClient,
    Disabled,
    /// The moment is the client's expiry, or after it.
    Expired,
    /// The header's seconds differ from the moment's by more than 900.
    Skew { ts: u64, now: u64 },
    /// The MAC is not that of the request under the client's token.
    BadMac,
    /// The hash is not that of the body.
    BadHash,
    /// The ext is no base64 of a JSON object that limits scopes.
    BadExt,
    /// The client's closure does not hold the scopes that are asked for: what of them is missing.
    Oversteps(Expr),
    /// More scopes are derivable than a closure may have.
    TooMany,
    NoMemory,
}

impl ClientBook {
    /// The closure of the caller, or the first condition that fails.
    ///
    /// Whoever gives no credentials has what `assume:anonymous` gives. A client has what its scopes and
    /// `assume:client-id:` with its id give, or, with `authorizedScopes` in the ext, what these alone give.
    pub fn check(
        &self,
        alloc: Global,
        roles: &RoleSet,
        head: &AuthHead,
        moment: Moment,
    ) -> Result<ScopeSet, AuthFault>
        ensures access { UnlessNoMemory (HasAccess self.now roles.now (head_data head.now) moment) result }
        ensures book { IsBook self.now }
    {
        self.is_book();
        match head.header {
            None => check_anonymous(alloc, roles),
            Some(value) => self.check_signed(alloc, roles, head, value, moment),
        }
    }

    fn check_signed(
        &self,
        alloc: Global,
        roles: &RoleSet,
        head: &AuthHead,
        value: &[u8],
        moment: Moment,
    ) -> Result<ScopeSet, AuthFault>
        ensures { UnlessNoMemory (HasSignedAccess self.now roles.now (head_data head.now) moment value.now) result }
    {
        if head.count != 1 {
            return Err(AuthFault::BadHeader);
        }
        let header = match HawkHeader::read(alloc, value) {
            Ok(header) => header,
            Err(HeaderFault::BadHeader) => return Err(AuthFault::BadHeader),
            Err(HeaderFault::NoMemory) => return Err(AuthFault::NoMemory),
        };
        match self.find(header.id) {
            Some(client) => admit(alloc, roles, head, &header, client, moment),
            None => Err(AuthFault::UnknownClient),
        }
    }
}

fn check_anonymous(alloc: Global, roles: &RoleSet) -> Result<ScopeSet, AuthFault>
    ensures { UnlessNoMemory (Expands roles.now anonymous_scopes) result }
{
    match scope_of(alloc, "assume:anonymous", "") {
        Ok(scope) => expand(alloc, roles, &[scope]),
        Err(_) => Err(AuthFault::NoMemory),
    }
}

/// What a start list gives.
fn expand(alloc: Global, roles: &RoleSet, start: &[Scope]) -> Result<ScopeSet, AuthFault>
    ensures { UnlessNoMemory (Expands roles.now start.now) result }
{
    match roles.expand(alloc, start) {
        Ok(scopes) => Ok(scopes),
        Err(ExpandFault::TooMany) => Err(AuthFault::TooMany),
        Err(ExpandFault::NoMemory) => Err(AuthFault::NoMemory),
    }
}

/// The scope of two texts, one after the other.
fn scope_of(alloc: Global, front: &str, rest: &str) -> Result<Scope, AllocError>
    requires { All IsPrintable (front.now ++ rest.now) }
    ensures { IfOk result (λ scope. scope ≡ front.now ++ rest.now) }
{
    let mut text = String::from_str(alloc, front)?;
    text.push_str(rest)?;
    Ok(Scope::from_printable(text))
}

/// The access of a client that is known, by the conditions in their order.
fn admit(
    alloc: Global,
    roles: &RoleSet,
    head: &AuthHead,
    header: &HawkHeader,
    client: &Client,
    moment: Moment,
) -> Result<ScopeSet, AuthFault>
    requires ts { IsTs header.now.ts.now }
    requires id { All IsPrintable client.now.id }
    ensures { UnlessNoMemory (IsFirst (conditions roles.now (head_data head.now) moment (header_data header.now) (client_data client.now))) result }
{
    if client.disabled {
        return Err(AuthFault::Disabled);
    }
    if client.expires <= moment {
        return Err(AuthFault::Expired);
    }
    let ts = seconds(header.ts);
    let now = moment.millis() / 1000;
    if are_far(ts, now) {
        return Err(AuthFault::Skew { ts, now });
    }
    if !are_same(
        header.mac.as_bytes(),
        mac_of(head, header, client).as_slice(),
    ) {
        return Err(AuthFault::BadMac);
    }
    if has_other_hash(head, header.hash) {
        return Err(AuthFault::BadHash);
    }
    admit_by_ext(alloc, roles, header, client)
}

/// The access of a client whose request is authentic.
fn admit_by_ext(
    alloc: Global,
    roles: &RoleSet,
    header: &HawkHeader,
    client: &Client,
) -> Result<ScopeSet, AuthFault>
    requires { All IsPrintable client.now.id }
    ensures { UnlessNoMemory (IsFirst (ext_conditions roles.now (header_data header.now) (client_data client.now))) result }
{
    a_text_is_of_one_document();
    let allowed = match limits(alloc, header.ext) {
        Ok(allowed) => allowed,
        Err(_) => return Err(AuthFault::NoMemory),
    };
    let own = match own_scopes(alloc, client) {
        Ok(own) => own,
        Err(_) => return Err(AuthFault::NoMemory),
    };
    match allowed {
        Allowed::Off => Err(AuthFault::BadExt),
        Allowed::Everything => expand(alloc, roles, &own),
        Allowed::Only(scopes) => admit_within(alloc, roles, &own, scopes),
    }
}

/// What the ext allows; where there is none, all.
fn limits(alloc: Global, ext: Option<&str>) -> Result<Allowed, AllocError>
    ensures { IfOk result (IsAllowedBy (Limits (option_copied ext.entry))) }
{
    match ext {
        None => Ok(Allowed::Everything),
        Some(ext) => read_ext(alloc, ext),
    }
}

/// The start list of a client.
fn own_scopes(alloc: Global, client: &Client) -> Result<Vec<Scope>, AllocError>
    requires { All IsPrintable client.now.id }
    ensures { IfOk result (λ v. v.items ≡ own_scopes (client_data client.now)) }
{
    let mut scopes = copy_of(alloc, &client.scopes)?;
    scopes.push(scope_of(alloc, "assume:client-id:", client.id.as_str())?)?;
    Ok(scopes)
}

/// The scopes again.
fn copy_of(alloc: Global, scopes: &[Scope]) -> Result<Vec<Scope>, AllocError>
    ensures { IfOk result (λ copy. copy.items ≡ scopes.now) }
{
    let mut copy = Vec::with_capacity(alloc, scopes.len() + 1)?;
    for scope in scopes {
        copy.push(scope.clone()?)?;
    }
    Ok(copy)
}

/// The access of a client that asks for these scopes alone.
fn admit_within(
    alloc: Global,
    roles: &RoleSet,
    own: &[Scope],
    scopes: Vec<Scope>,
) -> Result<ScopeSet, AuthFault>
    ensures { UnlessNoMemory (IsFirst (within_conditions roles.now own.now scopes.items)) result }
{
    the_closure_is_one();
    a_closure_is_not_too_many();
    let set = match expand(alloc, roles, own) {
        Ok(set) => set,
        Err(fault) => return Err(fault),
    };
    let asked = match all_of(alloc, &scopes) {
        Ok(asked) => asked,
        Err(_) => return Err(AuthFault::NoMemory),
    };
    match missing(alloc, &set, &asked) {
        Ok(None) => expand(alloc, roles, &scopes),
        Ok(Some(lack)) => Err(AuthFault::Oversteps(lack)),
        Err(_) => Err(AuthFault::NoMemory),
    }
}

/// All of these scopes, as an expression.
fn all_of(alloc: Global, scopes: &[Scope]) -> Result<Expr, AllocError>
    ensures { IfOk result (λ e. view e ≡ all_scopes scopes.now) }
{
    let mut members = Vec::with_capacity(alloc, scopes.len())?;
    for scope in scopes {
        members.push(Expr::One(scope.clone()?))?;
    }
    Ok(Expr::AllOf(members))
}

/// The MAC of the request, as the client makes it.
fn mac_of(head: &AuthHead, header: &HawkHeader, client: &Client) -> [u8; 44]
    ensures { result ≡ mac_of (signed_parts (head_data head.now) (header_data header.now) (client_data client.now)) }
{
    mac(&Parts {
        id: header.id,
        token: client.token.as_str(),
        ts: header.ts,
        nonce: header.nonce,
        method: head.method,
        target: head.target,
        host: head.host,
        port: head.port,
        hash: header.hash,
        ext: header.ext,
    })
}

fn has_other_hash(head: &AuthHead, hash: Option<&str>) -> bool
    ensures { IsTrue result ↔ HasOtherHash (head_data head.now) (option_copied hash.entry) }
{
    match hash {
        None => false,
        Some(hash) => !are_same(
            hash.as_bytes(),
            payload_hash(head.content_type, head.body).as_slice(),
        ),
    }
}

/// Whether two texts are the same. It looks at each byte, wherever they differ.
fn are_same(a: &[u8], b: &[u8]) -> bool
    ensures { IsTrue result ↔ (a.now ≡ b.now) }
{
    if a.len() != b.len() {
        return false;
    }
    let mut same = true;
    for i in 0..a.len() {
        same &= a[i] == b[i];
    }
    same
}

/// Whether two numbers of seconds differ by more than 900.
fn are_far(a: u64, b: u64) -> bool
    ensures { IsTrue result ↔ AreFar a b }
{
    if a < b { b - a > 900 } else { a - b > 900 }
}

/// The seconds that a ts tells.
fn seconds(ts: &str) -> u64
    requires { IsTs ts.now }
    ensures { result ≡ seconds_of ts.now }
{
    let mut seconds = 0u64;
    for digit in ts.as_bytes() {
        seconds = seconds * 10 + u64::from(*digit - b'0');
    }
    seconds
}
