//! What stands at the front of the bytes held: a whole head, a fault, too much, or too little.
ghost use Rattle.std.specs.Prelude.{◌≡◌, ℕ, ◌<◌, ◌≤◌, length, IsTrue, ◌↔◌};
ghost use Rattle.http_wire.specs.Head.{EndsLine, IsEmptyLines};
ghost use Rattle.http_wire.specs.Front.{Judges, IsFront};

use httparse::Status;
use httparse::spans::{HeaderSpan, RequestSpans, parse_request};

/// The greatest length of a head, with the empty lines before it.
pub const HEAD_LIMIT: usize = 16384;

/// The greatest length of a body.
pub const BODY_LIMIT: usize = 1048576;

/// More fields than stand in a head, since each takes three bytes at least.
pub const FIELD_LIMIT: usize = 5462;

/// What some lines are.
#[derive(Clone, Copy)]
pub(crate) enum Lines {
    Head(RequestSpans),
    Fault,
    Open,
}

/// A head, whose spans are places in the first `lines` bytes held.
#[derive(Clone, Copy)]
pub(crate) struct HeadAt {
    pub lines: usize,
    pub request: RequestSpans,
}

/// What the bytes held begin with.
#[derive(Clone, Copy)]
pub(crate) enum Front {
    Head(HeadAt),
    Fault,
    TooLarge,
    Short,
}

/// The place after the last line feed, or 0.
pub(crate) fn lines_end(bytes: &[u8]) -> usize
    ensures within { result ≤ length bytes.now }
    ensures ends { 0 < result → EndsLine bytes.now result }
    ensures last { (n : ℕ) → result < n → EndsLine bytes.now n → ⊥ }
{
    let mut end = bytes.len();
    while end > 0 && bytes[end - 1] != b'\n' {
        end -= 1;
    }
    end
}

/// Whether the bytes are empty lines alone, each of them a carriage return and a line feed.
pub(crate) fn are_empty_lines(bytes: &[u8]) -> bool
    ensures { IsTrue result ↔ IsEmptyLines bytes.now }
{
    let mut rest = bytes;
    while let [first, second, tail @ ..] = rest {
        if *first != b'\r' || *second != b'\n' {
            return false;
        }
        rest = tail;
    }
    rest.is_empty()
}

pub(crate) fn judge(lines: &[u8], spans: &mut [HeaderSpan]) -> Lines
    requires room { length spans.old ≡ FIELD_LIMIT }
    requires fits { length lines.now ≤ HEAD_LIMIT }
    requires ends { 0 < length lines.now → EndsLine lines.now (length lines.now) }
    ensures { Judges lines.now spans.new result }
{
    if lines.is_empty() {
        return Lines::Open;
    }
    match parse_request(lines, spans) {
        Ok(Status::Complete(request)) => Lines::Head(request),
        Ok(Status::Partial) => Lines::Open,
        Err(_) => Lines::Fault,
    }
}

/// What the bytes begin with, asked at the last line feed of the first `HEAD_LIMIT`.
pub(crate) fn look_at(held: &[u8], spans: &mut [HeaderSpan]) -> Front
    requires { length spans.old ≡ FIELD_LIMIT }
    ensures { IsFront held.now spans.new result }
{
    let lines = lines_end(&held[..held.len().min(HEAD_LIMIT)]);
    match judge(&held[..lines], spans) {
        Lines::Head(request) => Front::Head(HeadAt { lines, request }),
        Lines::Fault => Front::Fault,
        Lines::Open if held.len() < HEAD_LIMIT => Front::Short,
        Lines::Open => Front::TooLarge,
    }
}
