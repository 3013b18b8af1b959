//! What `sign` is asked to sign.
ghost use Rattle.std.specs.Prelude.{◌≡◌, IfOk, MatchResult, not, is_some, codes, Some};
ghost use Rattle.clap.specs.Walk.{nonempty};
ghost use Rattle.clap.specs.Words.{first_of, found_of, rows_of};
ghost use Rattle.command_line.specs.Refusal.{Refuses};
ghost use Rattle.command_line.specs.Signing.{value_in, are_formed, request_fields, stamp_fields, signing_at, signing_in};

use crate::reading::WordsFault;
use crate::values::{
    are_printable, are_value_bytes, is_host, is_id, is_method, is_nonce, is_target, is_token,
    is_ts, port_of,
};
use clap::ArgMatches;
use farm_text::Text;
use std::alloc::{AllocError, Global};

/// What a request is signed with, each value of its form (Hawk, scheme 1).
#[derive(Drop)]
pub struct Signing {
    /// The client's id: 1 to 128 of `[A-Za-z0-9!@/:.+|_-]`.
    pub id: Text,
    /// The client's access token: 22 to 66 of `[A-Za-z0-9_-]`.
    pub token: Text,
    /// 1 to 32 letters.
    pub method: Text,
    /// The request target as it is sent: 1 to 8,192 printable ASCII bytes without a space.
    pub target: Text,
    /// 1 to 255 printable ASCII bytes.
    pub host: Text,
    /// At least 1.
    pub port: u16,
    /// Whole seconds since 1970, as 1 to 12 digits.
    pub ts: Text,
    /// Printable ASCII without `"` and `\`, at least one byte.
    pub nonce: Text,
    /// Printable ASCII without `"` and `\`, at least one byte.
    pub ext: Option<Text>,
    /// The content type of the body, whose hash then stands in the header: printable ASCII.
    pub content_type: Option<Text>,
}

/// What the matches of `sign` ask to be signed.
///
/// # Errors
///
/// `Usage` exactly where a value is off its form: the text names the option, and what may stand there. Or want of memory.
pub(crate) fn read_signing(alloc: Global, matches: &ArgMatches<'_>) -> Result<Signing, WordsFault>
    ensures { MatchResult result
        (λ signing. signing_in (rows_of (found_of matches.now)) ≡ Some signing)
        (Refuses (signing_in (rows_of (found_of matches.now)))) }
{
    if let Some(text) = off_request(matches) {
        return Err(WordsFault::usage(alloc, text));
    }
    let Some(port) = port_of(value(matches, "port")) else {
        return Err(WordsFault::usage(alloc, "error: --port is a number from 1 to 65535\n"));
    };
    if let Some(text) = off_stamp(matches) {
        return Err(WordsFault::usage(alloc, text));
    }
    match signing_of(alloc, matches, port) {
        Ok(signing) => Ok(signing),
        Err(AllocError) => Err(WordsFault::NoMemory),
    }
}

/// What may stand in the first of these options that is off its form.
fn off_request(matches: &ArgMatches<'_>) -> Option<&'static str>
    ensures { is_some result ≡ not (are_formed request_fields (rows_of (found_of matches.now))) }
{
    if !is_id(value(matches, "id")) {
        return Some("error: --id is 1 to 128 of [A-Za-z0-9!@/:.+|_-]\n");
    }
    if !is_token(value(matches, "token")) {
        return Some("error: --token is 22 to 66 of [A-Za-z0-9_-]\n");
    }
    if !is_method(value(matches, "method")) {
        return Some("error: --method is 1 to 32 letters\n");
    }
    if !is_target(value(matches, "target")) {
        return Some("error: --target is 1 to 8192 bytes of printable ASCII without a space\n");
    }
    if !is_host(value(matches, "host")) {
        return Some("error: --host is 1 to 255 bytes of printable ASCII\n");
    }
    None
}

/// The same of the options behind the port.
fn off_stamp(matches: &ArgMatches<'_>) -> Option<&'static str>
    ensures { is_some result ≡ not (are_formed stamp_fields (rows_of (found_of matches.now))) }
{
    if !is_ts(value(matches, "ts")) {
        return Some("error: --ts is 1 to 12 digits, the seconds since 1970\n");
    }
    if !is_nonce(value(matches, "nonce")) {
        return Some("error: --nonce is printable ASCII without \" and \\, and not empty\n");
    }
    if !are_value_bytes(value(matches, "ext")) {
        return Some("error: --ext is printable ASCII without \" and \\\n");
    }
    if !are_printable(value(matches, "type")) {
        return Some("error: --type is printable ASCII\n");
    }
    None
}

/// Who signs, and what is asked of which host.
#[derive(Drop)]
struct Request {
    id: Text,
    token: Text,
    method: Text,
    target: Text,
    host: Text,
}

fn request_of(alloc: Global, matches: &ArgMatches<'_>) -> Result<Request, AllocError>
    ensures { IfOk result (λ r. (r.id ≡ value_in (rows_of (found_of matches.now)) (codes "id"))
        × (r.token ≡ value_in (rows_of (found_of matches.now)) (codes "token"))
        × (r.method ≡ value_in (rows_of (found_of matches.now)) (codes "method"))
        × (r.target ≡ value_in (rows_of (found_of matches.now)) (codes "target"))
        × (r.host ≡ value_in (rows_of (found_of matches.now)) (codes "host"))) }
{
    Ok(Request {
        id: text(alloc, matches, "id")?,
        token: text(alloc, matches, "token")?,
        method: text(alloc, matches, "method")?,
        target: text(alloc, matches, "target")?,
        host: text(alloc, matches, "host")?,
    })
}

/// When, by which nonce, and what goes with it.
#[derive(Drop)]
struct Stamp {
    ts: Text,
    nonce: Text,
    ext: Option<Text>,
    content_type: Option<Text>,
}

fn stamp_of(alloc: Global, matches: &ArgMatches<'_>) -> Result<Stamp, AllocError>
    ensures { IfOk result (λ s. (s.ts ≡ value_in (rows_of (found_of matches.now)) (codes "ts"))
        × (s.nonce ≡ value_in (rows_of (found_of matches.now)) (codes "nonce"))
        × (s.ext ≡ nonempty (value_in (rows_of (found_of matches.now)) (codes "ext")))
        × (s.content_type ≡ first_of (codes "type") (rows_of (found_of matches.now)))) }
{
    Ok(Stamp {
        ts: text(alloc, matches, "ts")?,
        nonce: text(alloc, matches, "nonce")?,
        ext: ext_of(alloc, matches)?,
        content_type: content_type_of(alloc, matches)?,
    })
}

/// What the values ask to be signed, at this port.
fn signing_of(alloc: Global, matches: &ArgMatches<'_>, port: u16) -> Result<Signing, AllocError>
    ensures { IfOk result (λ signing. signing ≡ signing_at (rows_of (found_of matches.now)) port) }
{
    let request = request_of(alloc, matches)?;
    let stamp = match stamp_of(alloc, matches) {
        Ok(stamp) => stamp,
        Err(error) => {
            drop(request);
            return Err(error);
        }
    };
    Ok(Signing {
        id: request.id,
        token: request.token,
        method: request.method,
        target: request.target,
        host: request.host,
        port,
        ts: stamp.ts,
        nonce: stamp.nonce,
        ext: stamp.ext,
        content_type: stamp.content_type,
    })
}

/// The value of an option, the empty one where it is not there.
pub(crate) fn value<'a>(matches: &ArgMatches<'a>, name: &str) -> &'a str
    ensures { result.now ≡ value_in (rows_of (found_of matches.now)) name.now }
{
    match matches.get_str(name) {
        Some(value) => value,
        None => "",
    }
}

/// A copy of the value of an option.
pub(crate) fn text(alloc: Global, matches: &ArgMatches<'_>, name: &str) -> Result<Text, AllocError>
    ensures { IfOk result (λ text. text ≡ value_in (rows_of (found_of matches.now)) name.now) }
{
    Text::from_str(alloc, value(matches, name))
}

fn ext_of(alloc: Global, matches: &ArgMatches<'_>) -> Result<Option<Text>, AllocError>
    ensures { IfOk result (λ ext. ext ≡ nonempty (value_in (rows_of (found_of matches.now)) (codes "ext"))) }
{
    let ext = value(matches, "ext");
    if ext.is_empty() {
        return Ok(None);
    }
    Ok(Some(Text::from_str(alloc, ext)?))
}

fn content_type_of(alloc: Global, matches: &ArgMatches<'_>) -> Result<Option<Text>, AllocError>
    ensures { IfOk result (λ found. found ≡ first_of (codes "type") (rows_of (found_of matches.now))) }
{
    match matches.get_str("type") {
        Some(found) => Ok(Some(Text::from_str(alloc, found)?)),
        None => Ok(None),
    }
}
