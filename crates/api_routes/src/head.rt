//! The head of a reply.
ghost use Rattle.std.specs.Prelude.{◌≡◌, ◌+◌, ◌≤◌, [], ◌++◌, if◌then◌else◌, length, codes, decimal};
ghost use Rattle.farm_asks.specs.Replies.{answer_of};
ghost use Rattle.api_routes.specs.ReplyText.{line, phrase, head_text};

use farm_asks::reply::Reply;
use farm_asks::status_code::StatusCode;
use itoa::Buffer;
use std::marker::Model;

/// The greatest length of a head.
const HEAD_ROOM: usize = 160;

/// The head of a reply, of at most 160 bytes. A contract sees it as the list of its bytes.
#[derive(Drop)]
pub struct Head {
    bytes: [u8; HEAD_ROOM],
    len: usize,
}

impl Model for Head {
    ghost use Rattle.std.specs.Prelude.{ℕ, ◌≤◌, List, take};

    ghost Value = { List ℕ };

    ghost view = { λ h. take h.len h.bytes };

    ghost invariant = { λ h. h.len ≤ 160 };
}

impl Head {
    fn new() -> Head
        ensures { result ≡ [] }
    {
        Head {
            bytes: [0; HEAD_ROOM],
            len: 0,
        }
    }

    fn push(&mut self, part: &[u8])
        requires { length self.old + length part.now ≤ 160 }
        ensures bytes { self.new ≡ self.old ++ part.now }
        ensures len { length self.new ≡ length self.old + length part.now }
    {
        let end = self.len + part.len();
        self.bytes[self.len..end].copy_from_slice(part);
        self.len = end;
    }

    fn push_status(&mut self, status: StatusCode)
        requires { length self.old + 48 ≤ 160 }
        ensures bytes { self.new ≡ self.old ++ line (codes "HTTP/1.1 " ++ decimal status ++ codes " " ++ phrase status) }
        ensures len { length self.new ≤ length self.old + 48 }
    {
        let mut digits = Buffer::new();
        self.push(b"HTTP/1.1 ");
        self.push(digits.format(status.as_u16()).as_bytes());
        self.push(b" ");
        self.push(phrase_of(status).as_bytes());
        self.push(b"\r\n");
    }

    fn push_close(&mut self, closes: bool)
        requires { length self.old + 19 ≤ 160 }
        ensures bytes { self.new ≡ self.old ++ (if closes then line (codes "Connection: close") else []) }
        ensures len { length self.new ≤ length self.old + 19 }
    {
        if closes {
            self.push(b"Connection: close\r\n");
        }
    }

    fn push_size(&mut self, size: usize)
        requires { length self.old + 38 ≤ 160 }
        ensures bytes { self.new ≡ self.old ++ line (codes "Content-Length: " ++ decimal size) }
        ensures len { length self.new ≤ length self.old + 38 }
    {
        let mut digits = Buffer::new();
        self.push(b"Content-Length: ");
        self.push(digits.format(size).as_bytes());
        self.push(b"\r\n");
    }

    /// The bytes of the head.
    pub fn as_slice(&self) -> &[u8]
        ensures bytes { result.now ≡ self.now }
        ensures short { length result.now ≤ 160 }
    {
        &self.bytes[..self.len]
    }
}

/// The head of a reply, which says whether the reply closes the connection. It takes no memory.
pub fn reply_head(reply: &Reply, closes: bool) -> Head
    ensures { result ≡ head_text (answer_of reply.now).status closes (length (answer_of reply.now).body) }
{
    let mut head = Head::new();
    head.push_status(reply.status());
    head.push_close(closes);
    head.push_size(reply.body().len());
    head.push(b"Content-Type: application/json\r\n\r\n");
    head
}

/// The phrase of a status, which is empty for one that is not answered.
fn phrase_of(status: StatusCode) -> &'static str
    ensures value { result.now ≡ phrase status }
    ensures short { length result.now ≤ 31 }
{
    match status.as_u16() {
        200 => "OK",
        400 => "Bad Request",
        401 => "Unauthorized",
        403 => "Forbidden",
        404 => "Not Found",
        409 => "Conflict",
        411 => "Length Required",
        413 => "Payload Too Large",
        431 => "Request Header Fields Too Large",
        500 => "Internal Server Error",
        503 => "Service Unavailable",
        507 => "Insufficient Storage",
        _ => "",
    }
}
