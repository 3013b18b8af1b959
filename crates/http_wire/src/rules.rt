//! The rules of a head: the length of its body, and the message that it makes.
ghost use Rattle.std.specs.Prelude.{◌≡◌, ℕ, ◌<◌, ◌≤◌, List, [], length, map, take, All, IfOk, option_copied, codes};
ghost use Rattle.httparse.specs.Grammar.{RequestHead};
ghost use Rattle.httparse.specs.Spans.{IsHeaderWithin, IsRequestAt, IsRequestWithin, header_bytes};
ghost use Rattle.http1.specs.Fields.{values_named};
ghost use Rattle.http_wire.specs.Framing.{body_length, length_of};
ghost use Rattle.http_wire.specs.Message.{first_of, closes_after, message_of};

use crate::head::BODY_LIMIT;
use crate::message::{Message, Wire};
use http1::fields::KnownFields;
use http1::text::eq_ignore_case;
use httparse::spans::{HeaderSpan, RequestSpans};
use octets::Bytes;
use std::alloc::{AllocError, Global};

/// What the fields with one name say.
#[derive(Clone, Copy)]
pub(crate) struct Named<'h> {
    /// The value of the first.
    pub first: Option<&'h [u8]>,
    /// How many there are.
    pub count: u64,
}

pub(crate) fn fields_named<'h>(head: &'h [u8], fields: &[HeaderSpan], name: &[u8]) -> Named<'h>
    requires { All (IsHeaderWithin (length head.now)) fields.now }
    ensures first { option_copied result.first
        ≡ first_of (values_named name.now (map (header_bytes head.now) fields.now)) }
    ensures count { result.count
        ≡ length (values_named name.now (map (header_bytes head.now) fields.now)) }
{
    let mut first = None;
    let mut count = 0;
    for field in fields {
        if eq_ignore_case(field.name.of(head), name) {
            if count == 0 {
                first = Some(field.value.of(head));
            }
            count += 1;
        }
    }
    Named { first, count }
}

/// The number that one Content-Length says. Numbers above the limit are not told apart.
pub(crate) fn length_of(value: &[u8]) -> Result<usize, Wire>
    ensures { result ≡ length_of value.now }
{
    if value.is_empty() {
        return Err(Wire::HeadFault);
    }
    let mut length = 0;
    for digit in value {
        if !digit.is_ascii_digit() {
            return Err(Wire::HeadFault);
        }
        length = (length * 10 + usize::from(*digit - b'0')).min(BODY_LIMIT + 1);
    }
    if length <= BODY_LIMIT {
        Ok(length)
    } else {
        Err(Wire::BodyTooLarge)
    }
}

/// The length of the body, or why there is none.
pub(crate) fn body_length(head: &[u8], fields: &[HeaderSpan]) -> Result<usize, Wire>
    requires { All (IsHeaderWithin (length head.now)) fields.now }
    ensures { result ≡ body_length (map (header_bytes head.now) fields.now) }
{
    if fields_named(head, fields, b"transfer-encoding").count > 0 {
        return Err(Wire::NoLength);
    }
    let lengths = fields_named(head, fields, b"content-length");
    if lengths.count > 1 {
        return Err(Wire::HeadFault);
    }
    match lengths.first {
        Some(value) => length_of(value),
        None => Ok(0),
    }
}

/// Whether the connection ends with this message.
pub(crate) fn closes(head: &[u8], fields: &[HeaderSpan], minor: u8) -> bool
    requires { All (IsHeaderWithin (length head.now)) fields.now }
    ensures { result ≡ closes_after minor (map (header_bytes head.now) fields.now) }
{
    minor == 0 || KnownFields::from_spans(head, fields).close
}

fn copied(alloc: Global, bytes: &[u8]) -> Result<Bytes, AllocError>
    ensures { IfOk result (λ b. b ≡ bytes.now) }
{
    Ok(Bytes::from(Vec::from_slice(alloc, bytes)?))
}

fn copied_if(alloc: Global, bytes: Option<&[u8]>) -> Result<Option<Bytes>, AllocError>
    ensures { IfOk result (λ b. b ≡ option_copied bytes.entry) }
{
    match bytes {
        Some(bytes) => Ok(Some(copied(alloc, bytes)?)),
        None => Ok(None),
    }
}

/// The message with this head and an empty body.
pub(crate) fn message_of(
    alloc: Global,
    head: &[u8],
    spans: &[HeaderSpan],
    request: RequestSpans,
) -> Result<Message, AllocError>
    requires { IsRequestWithin head.now spans.now request }
    ensures { IfOk result (λ m. (h : RequestHead) → IsRequestAt head.now spans.now request h
        → m ≡ message_of h []) }
{
    let fields = &spans[..request.headers];
    let authorization = fields_named(head, fields, b"authorization");
    let content_type = fields_named(head, fields, b"content-type");
    Ok(Message {
        method: copied(alloc, request.method.of(head))?,
        target: copied(alloc, request.path.of(head))?,
        authorization: copied_if(alloc, authorization.first)?,
        authorizations: authorization.count,
        content_type: copied_if(alloc, content_type.first)?,
        body: Bytes::from(Vec::new(alloc)),
        closes: closes(head, fields, request.version),
    })
}
