//! A request, and why there is none.
use octets::Bytes;
use std::error::Error;
use std::fmt;

/// A request with its body. Of several Authorization or Content-Type fields the first value counts; of several Connection fields all do; two
/// Content-Length fields are refused.
#[derive(Drop)]
pub struct Message {
    pub method: Bytes,
    pub target: Bytes,
    pub authorization: Option<Bytes>,
    /// How many Authorization fields there are.
    pub authorizations: u64,
    pub content_type: Option<Bytes>,
    pub body: Bytes,
    /// The connection ends with this message (RFC 9112, section 9.3).
    pub closes: bool,
}

/// Why a stream gives no further message.
#[derive(Clone, Copy, Debug, PartialEq, Eq, Hash)]
pub enum Wire {
    /// The input ended where a message would begin.
    End,
    /// The bytes are no request, or Content-Length is doubled or not digits.
    HeadFault,
    /// No whole head in 16,384 bytes.
    HeadTooLarge,
    /// The request has a Transfer-Encoding.
    NoLength,
    /// Content-Length is above 1,048,576.
    BodyTooLarge,
    /// The input ended inside a message.
    EndedInside,
    /// A read failed.
    ReadFault,
    /// Memory ran out.
    NoMemory,
}

impl fmt::Display for Wire {
    fn fmt<W: fmt::Write>(&self, f: &mut fmt::Formatter<W>) -> fmt::Result {
        f.write_str(match self {
            Wire::End => "the input has ended",
            Wire::HeadFault => "no request begins so",
            Wire::HeadTooLarge => "the head is too large",
            Wire::NoLength => "the length of the body is not stated",
            Wire::BodyTooLarge => "the body is too large",
            Wire::EndedInside => "the input has ended inside a message",
            Wire::ReadFault => "a read has failed",
            Wire::NoMemory => "out of memory",
        })
    }
}

impl Error for Wire {}
