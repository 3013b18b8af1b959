//! The header that signs a request.
ghost use Rattle.std.specs.Prelude.{◌≡◌, ◌++◌, Some, None, IfOk, codes, string_bytes};
ghost use Rattle.std.specs.Option.{option_copied};
ghost use Rattle.hawk_auth.specs.Mac.{parts_data, payload_hash_of};
ghost use Rattle.http_wire.specs.Calls.{state_of};
ghost use Rattle.console_commands.specs.Inputs.{Tells, Turns};
ghost use Rattle.console_commands.specs.Signing.{parts_of, signed_line, IsSigned, IsTooLong, Signs};

use crate::ended::Ended;
use crate::inputs::LONGEST_INPUT;
use crate::status::Status;
use crate::writing::write_text;
use command_line::Signing;
use farm_text::Text;
use hawk_auth::{Parts, payload_hash};
use http_wire::{Link, ReadAllFault, read_all};
use std::alloc::{AllocError, Global};
use std::str;

/// Writes the value of the `Authorization` header that signs a request, and a line feed. With a content type the console is the body, whose
/// hash stands in the header; without one it is not read.
pub fn sign<L: Link>(alloc: Global, signing: &Signing, console: &mut L) -> Ended
    ensures signs { Signs signing.now (state_of L.Link console.old) (state_of L.Link console.new) result.status }
{
    match &signing.content_type {
        Some(content_type) => sign_body(alloc, signing, content_type.as_str(), console),
        None => sign_head(alloc, signing, console),
    }
}

/// Signs a request without a hash of its body.
fn sign_head<L: Link>(alloc: Global, signing: &Signing, console: &mut L) -> Ended
    ensures tells { Tells (signed_line signing.now None) (state_of L.Link console.old) (state_of L.Link console.new) result.status }
{
    match line_of(alloc, signing, None) {
        Ok(line) => Ended::on_console(alloc, write_text(console, line.as_bytes())),
        Err(AllocError) => Ended::plain(Status::NoMemory),
    }
}

/// Signs a request with the hash of its body, which is read from the console.
fn sign_body<L: Link>(
    alloc: Global,
    signing: &Signing,
    content_type: &str,
    console: &mut L,
) -> Ended
    ensures turns { Turns (IsSigned signing.now content_type.now) IsTooLong (state_of L.Link console.old) (state_of L.Link console.new) result.status }
{
    match read_all(alloc, console, LONGEST_INPUT) {
        Ok(Some(body)) => match line_over(alloc, signing, content_type, body.as_slice()) {
            Ok(line) => Ended::on_console(alloc, write_text(console, line.as_bytes())),
            Err(AllocError) => Ended::plain(Status::NoMemory),
        },
        Ok(None) => Ended::told(
            alloc,
            Status::Input,
            ": the body has more than 1048576 bytes",
        ),
        Err(ReadAllFault::Failed) => Ended::on_console(alloc, Status::Read),
        Err(ReadAllFault::NoMemory) => Ended::plain(Status::NoMemory),
    }
}

/// The line that signs a request with the hash of this body.
fn line_over(
    alloc: Global,
    signing: &Signing,
    content_type: &str,
    body: &[u8],
) -> Result<String, AllocError>
    ensures { IfOk result (λ line. string_bytes line ≡ signed_line signing.now (Some (payload_hash_of (Some content_type.now) body.now))) }
{
    let hash = payload_hash(Some(content_type.as_bytes()), body);
    let Ok(hash) = str::from_utf8(&hash) else {
        unreachable!();
    };
    line_of(alloc, signing, Some(hash))
}

/// The line that signs a request with this hash.
fn line_of(alloc: Global, signing: &Signing, hash: Option<&str>) -> Result<String, AllocError>
    ensures { IfOk result (λ line. string_bytes line ≡ signed_line signing.now (option_copied hash.entry)) }
{
    let header = hawk_auth::sign(alloc, &parts_of(signing, hash))?;
    ended_line(alloc, header.as_str())
}

/// The text and a line feed.
fn ended_line(alloc: Global, text: &str) -> Result<String, AllocError>
    ensures { IfOk result (λ line. string_bytes line ≡ text.now ++ codes "\n") }
{
    format!(in alloc; "{text}\n")
}

/// What is signed, with this hash.
fn parts_of<'a>(signing: &'a Signing, hash: Option<&'a str>) -> Parts<'a>
    ensures { parts_data result ≡ parts_of signing.now (option_copied hash.entry) }
{
    Parts {
        id: signing.id.as_str(),
        token: signing.token.as_str(),
        ts: signing.ts.as_str(),
        nonce: signing.nonce.as_str(),
        method: signing.method.as_str().as_bytes(),
        target: signing.target.as_str().as_bytes(),
        host: signing.host.as_str(),
        port: signing.port,
        hash,
        ext: text_of(&signing.ext),
    }
}

/// The text, if there is one.
fn text_of(text: &Option<Text>) -> Option<&str>
    ensures { option_copied result ≡ text.now }
{
    match text {
        Some(text) => Some(text.as_str()),
        None => None,
    }
}
