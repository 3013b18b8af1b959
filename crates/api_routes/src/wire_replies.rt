//! The replies to what is no request, or one that is not read. Each closes the connection.
ghost use Rattle.std.specs.Prelude.{◌≡◌};
ghost use Rattle.api_routes.specs.ReplyText.{wire_text};

use http_wire::Wire;

const NOT_A_REQUEST: &[u8] =
    b"HTTP/1.1 400 Bad Request\r\nConnection: close\r\nContent-Length: 57\r\nContent-Type: application/json\r\n\r\n{\"code\":\"BadHead\",\"details\":{},\"message\":\"not a request\"}";

const NO_LENGTH: &[u8] =
    b"HTTP/1.1 411 Length Required\r\nConnection: close\r\nContent-Length: 69\r\nContent-Type: application/json\r\n\r\n{\"code\":\"LengthRequired\",\"details\":{},\"message\":\"a length is needed\"}";

const BODY_TOO_LONG: &[u8] =
    b"HTTP/1.1 413 Payload Too Large\r\nConnection: close\r\nContent-Length: 72\r\nContent-Type: application/json\r\n\r\n{\"code\":\"PayloadTooLarge\",\"details\":{},\"message\":\"the body is too long\"}";

const HEAD_TOO_LONG: &[u8] =
    b"HTTP/1.1 431 Request Header Fields Too Large\r\nConnection: close\r\nContent-Length: 69\r\nContent-Type: application/json\r\n\r\n{\"code\":\"HeadTooLarge\",\"details\":{},\"message\":\"the head is too long\"}";

/// The wire's own reply, which is empty where the stream ends or fails.
pub fn own_reply(reason: Wire) -> &'static [u8]
    ensures { result.now ≡ wire_text reason }
{
    match reason {
        Wire::HeadFault => NOT_A_REQUEST,
        Wire::NoLength => NO_LENGTH,
        Wire::BodyTooLarge => BODY_TOO_LONG,
        Wire::HeadTooLarge => HEAD_TOO_LONG,
        Wire::End | Wire::EndedInside | Wire::ReadFault | Wire::NoMemory => b"",
    }
}
