//! The reader of requests.
ghost use Rattle.std.specs.Prelude.{◌≡◌, ℕ, ◌<◌, ◌≤◌, List, [], length, vec_len, IsTrue, IfOk, IfErr, OnOk, OnErr, MatchResult, Err, false};
ghost use Rattle.std.specs.Io.KnownBytes.{prepend_known, Keeps, IsAtEnd};
ghost use Rattle.causes.specs.Causes.{Rose};
ghost use Rattle.http_wire.specs.declared.head.TheConstants.{FIELD_LIMIT, HEAD_LIMIT};
ghost use Rattle.http_wire.specs.Head.{IsOpen};
ghost use Rattle.http_wire.specs.Front.{IsHeadAt};
ghost use Rattle.http_wire.specs.Calls.{state_of, OnlyReads};
ghost use Rattle.http_wire.specs.Needed.{IsUnfinished, LosesUnfinished, GrowsOpen, GrowsNeeded};
ghost use Rattle.http_wire.specs.Reading.{Ends, IsFillStop, Leaves};
ghost use Rattle.http_wire.specs.Stream.{TakesOne, Stops};
ghost use Rattle.http_wire.specs.Whole.{piece_size};

use crate::body::{fill, take_body};
use crate::head::{FIELD_LIMIT, Front, HEAD_LIMIT, HeadAt, are_empty_lines, lines_end, look_at};
use crate::link::Link;
use crate::message::{Message, Wire};
use crate::rules::{body_length, message_of};
use httparse::spans::{EMPTY_HEADER_SPAN, HeaderSpan};
use octets::Bytes;
use std::alloc::{AllocError, Global};
use std::marker::Model;

/// Reads pieces until one of them ends a line or the bytes held are as many as a head may have, and says whether that came
/// before the end of the input. No byte is looked at twice.
fn await_line<L: Link>(held: &mut Vec<u8>, link: &mut L) -> Result<bool, Wire>
    requires short { vec_len held.old < HEAD_LIMIT }
    requires open_ { IsOpen held.old.items }
    ensures came { IfOk result (λ came. IsTrue came → vec_len held.old < vec_len held.new) }
    ensures end { IfOk result (λ came. came ≡ false → (vec_len held.new < HEAD_LIMIT) × IsOpen held.new.items × IsAtEnd (L.left link.new)) }
    ensures stop { IfErr result (IsFillStop (L.read_faults link.old) (L.read_faults link.new)) }
    ensures kept { Keeps (prepend_known held.old.items (L.left link.old)) (prepend_known held.new.items (L.left link.new)) }
    ensures only_reads { OnlyReads (state_of L.Link link.old) (state_of L.Link link.new) result }
    ensures grown { GrowsOpen held.old.items held.new.items }
{
    'pieces: loop {
        let len = held.len();
        match fill(held, link) {
            Ok(0) => return Ok(false),
            Ok(_) => {}
            Err(wire) => return Err(wire),
        }
        if held.len() >= HEAD_LIMIT || lines_end(&held[len..]) > 0 {
            return Ok(true);
        }
    }
}

/// Reads from the link until the bytes held begin with a whole head. The head is looked at when a line has ended.
fn read_head<L: Link>(
    held: &mut Vec<u8>,
    spans: &mut [HeaderSpan],
    link: &mut L,
) -> Result<HeadAt, Wire>
    requires { length spans.old ≡ FIELD_LIMIT }
    ensures head { IfOk result (IsHeadAt held.new.items spans.new) }
    ensures stops { IfErr result (Stops (prepend_known held.old.items (L.left link.old))) }
    ensures kept { Keeps (prepend_known held.old.items (L.left link.old)) (prepend_known held.new.items (L.left link.new)) }
    ensures ended { IfErr result (Ends (L.left link.new)) }
    ensures only_reads { OnlyReads (state_of L.Link link.old) (state_of L.Link link.new) result }
    ensures untouched { ¬ IsUnfinished held.old.items → (link.new ≡ link.old) × (held.new.items ≡ held.old.items) }
    ensures grown { GrowsNeeded held.old.items held.new.items }
{
    loop {
        match look_at(held, spans) {
            Front::Head(at) => return Ok(at),
            Front::Fault => return Err(Wire::HeadFault),
            Front::TooLarge => return Err(Wire::HeadTooLarge),
            Front::Short => {}
        }
        match await_line(held, link) {
            Ok(true) => {}
            Ok(false) if are_empty_lines(held) => return Err(Wire::End),
            Ok(false) => return Err(Wire::EndedInside),
            Err(wire) => return Err(wire),
        }
    }
}

/// The next message of the bytes held and those that the link has left.
fn next_message<L: Link>(
    held: &mut Vec<u8>,
    spans: &mut [HeaderSpan],
    alloc: Global,
    link: &mut L,
) -> Result<Message, Wire>
    requires { length spans.old ≡ FIELD_LIMIT }
    ensures message { IfOk result (λ m. TakesOne (prepend_known held.old.items (L.left link.old)) m (prepend_known held.new.items (L.left link.new))) }
    ensures stops { IfErr result (Stops (prepend_known held.old.items (L.left link.old))) }
    ensures leaves { IfErr result (Leaves (prepend_known held.old.items (L.left link.old)) (prepend_known held.new.items (L.left link.new))) }
    ensures ended { IfErr result (Ends (L.left link.new)) }
    ensures only_reads { OnlyReads (state_of L.Link link.old) (state_of L.Link link.new) result }
    ensures untouched { ¬ IsUnfinished held.old.items → link.new ≡ link.old }
    ensures needed { vec_len held.old < piece_size → LosesUnfinished (prepend_known held.old.items (L.left link.old)) (L.left link.new) }
    ensures rest { vec_len held.old < piece_size → OnOk result (vec_len held.new < piece_size) }
{
    let at = match read_head(held, spans, link) {
        Ok(at) => at,
        Err(wire) => return Err(wire),
    };
    let head = &held[..at.lines];
    let size = match body_length(head, &spans[..at.request.headers]) {
        Ok(size) => size,
        Err(wire) => return Err(wire),
    };
    let mut message = match message_of(alloc, head, spans, at.request) {
        Ok(message) => message,
        Err(_) => return Err(Wire::NoMemory),
    };
    match take_body(alloc, held, at.request.len, size, link) {
        Ok(body) => {
            message.body = Bytes::from(body);
            Ok(message)
        }
        Err(wire) => Err(wire),
    }
}

/// Takes the requests of one connection, one after another. Contracts see the bytes that were read and not used yet.
#[derive(Drop)]
pub struct Reader {
    held: Vec<u8>,
    spans: Vec<HeaderSpan>,
}

impl Model for Reader {
    ghost Value = { List ℕ };

    ghost view = { λ r. r.held.items };

    ghost invariant = { λ r. vec_len r.spans ≡ FIELD_LIMIT };
}

impl Reader {
    /// A reader that holds nothing, with room for a head and its fields.
    pub fn new(alloc: Global) -> Result<Reader, AllocError>
        ensures { IfOk result (λ reader. reader ≡ []) }
    {
        Ok(Reader {
            held: Vec::with_capacity(alloc, 2 * HEAD_LIMIT)?,
            spans: Vec::from_elem(alloc, EMPTY_HEADER_SPAN, FIELD_LIMIT)?,
        })
    }

    /// The next request of the stream, which is the bytes held and then those that the link has left; what comes leaves the rest
    /// of the stream. The link is read only while the bytes held are an unfinished message (RFC 9112, section 8): for a head in
    /// pieces of 8,192 bytes at most, for a body what is missing of it. What the clauses say of both is that less than a piece
    /// is held behind the first message, and behind each. Only a read that fails gives `ReadFault`, and nothing is written. After
    /// an error the reader is not used again: inside a body that the end of the input or a failed read cut off, what was read of
    /// it is gone.
    pub fn next_request<L: Link>(&mut self, alloc: Global, link: &mut L) -> Result<Message, Wire>
        ensures message { IfOk result (λ m. TakesOne (prepend_known self.old (L.left link.old)) m (prepend_known self.new (L.left link.new))) }
        ensures stops { IfErr result (Stops (prepend_known self.old (L.left link.old))) }
        ensures leaves { IfErr result (Leaves (prepend_known self.old (L.left link.old)) (prepend_known self.new (L.left link.new))) }
        ensures ended { IfErr result (Ends (L.left link.new)) }
        ensures only_reads { OnlyReads (state_of L.Link link.old) (state_of L.Link link.new) result }
        ensures untouched { ¬ IsUnfinished self.old → link.new ≡ link.old }
        ensures needed { length self.old < piece_size → LosesUnfinished (prepend_known self.old (L.left link.old)) (L.left link.new) }
        ensures rest { length self.old < piece_size → OnOk result (length self.new < piece_size) }
    {
        next_message(&mut self.held, &mut self.spans, alloc, link)
    }
}
