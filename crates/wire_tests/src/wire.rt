//! Streams with what stands in them, by the standard (RFC 9112) and the limits of this crate.

use http_wire::{
    Joined, ListEnd, MemoryLink, MemorySink, MemorySource, Message, ReadAllFault, Reader, Wire,
    read_all, read_messages,
};
use std::alloc::{AllocError, Global};

mod sinks;

const PING: &[u8] = b"GET /api/queue/v1/ping HTTP/1.1\r\n\r\n";

/// A link that has these bytes left, gives so many at a time, and takes none. Chosen reads fail.
fn link_of(
    alloc: Global,
    bytes: &[u8],
    failing: &[u64],
    piece: usize,
) -> Result<MemoryLink, AllocError> {
    let bytes = Vec::from_slice(alloc, bytes)?;
    let failing = Vec::from_slice(alloc, failing)?;
    let source = MemorySource::new(bytes, failing, piece);
    let sink = MemorySink::without_room(alloc);
    Ok(Joined { source, sink })
}

/// Why there is no next message, if there is none.
fn next_end(alloc: Global, reader: &mut Reader, link: &mut MemoryLink) -> Option<Wire> {
    reader.next_request(alloc, link).err()
}

/// How many messages a reader gives, at most four, and why there is no other.
fn count_with(alloc: Global, reader: &mut Reader, link: &mut MemoryLink) -> (u64, Wire) {
    for count in 0..4u64 {
        if let Some(wire) = next_end(alloc, reader, link) {
            return (count, wire);
        }
    }
    (4, Wire::NoMemory)
}

/// How many messages a link gives, and why there is no other.
fn count_messages(alloc: Global, link: &mut MemoryLink) -> (u64, Wire) {
    match Reader::new(alloc) {
        Ok(mut reader) => {
            let counted = count_with(alloc, &mut reader, link);
            drop(reader);
            counted
        }
        Err(_) => (0, Wire::NoMemory),
    }
}

/// Whether there are so many messages in these bytes, and this is why there is no other.
fn ends_so(
    alloc: Global,
    input: &[u8],
    piece: usize,
    failing: &[u64],
    wanted: (u64, Wire),
) -> bool {
    match link_of(alloc, input, failing, piece) {
        Ok(mut link) => {
            let counted = count_messages(alloc, &mut link);
            drop(link);
            counted == wanted
        }
        Err(_) => false,
    }
}

/// Whether it is so, however many bytes come at a time.
fn always_ends_so(alloc: Global, input: &[u8], wanted: (u64, Wire)) -> bool {
    ends_so(alloc, input, 1, &[], wanted)
        && ends_so(alloc, input, 3, &[], wanted)
        && ends_so(alloc, input, 100, &[], wanted)
}

/// The end of this name.
fn wire_of(name: &str) -> Wire {
    match name {
        "End" => Wire::End,
        "EndedInside" => Wire::EndedInside,
        "NoLength" => Wire::NoLength,
        "BodyTooLarge" => Wire::BodyTooLarge,
        "HeadFault" => Wire::HeadFault,
        _ => Wire::NoMemory,
    }
}

/// Whether so many messages are in a stream, and this is why there is no other; or not, where `not` stands before it.
fn is_end(alloc: Global, input: &[u8], wanted: &str) -> bool {
    let (is_so, wanted) = match wanted.strip_prefix("not ") {
        Some(other) => (false, other),
        None => (true, wanted),
    };
    match wanted.split_once(' ') {
        Some((count, name)) => match count.parse::<u64>() {
            Ok(count) => always_ends_so(alloc, input, (count, wire_of(name))) == is_so,
            Err(_) => false,
        },
        None => false,
    }
}

fn is_stream(alloc: Global, row: &str) -> bool {
    match row.split_once('~') {
        Some((input, wanted)) => is_end(alloc, input.as_bytes(), wanted),
        None => false,
    }
}

/// Streams, how many messages are in each and why there is no other, with a `~` before that; bars cut them.
const STREAMS: &str =
    "GET /api/queue/v1/ping HTTP/1.1\r\n\r\n~1 End|GET /api/queue/v1/ping HTTP/1.1\r\n\r\n~not 2 End|GET /api/queue/v1/ping HTTP/1.1\r\n\r\n~not 1 EndedInside|POST / HTTP/1.1\r\nContent-Length: 3\r\n\r\nabcGET / HTTP/1.0\n\n~2 End|POST / HTTP/1.1\r\nContent-Length: 3\r\n\r\nab~0 EndedInside|GET /p HT~0 EndedInside|\r\n~0 End|POST / HTTP/1.1\r\nTransfer-Encoding: chunked\r\n\r\n~0 NoLength|POST / HTTP/1.1\r\nContent-Length: 1048577\r\n\r\n~0 BodyTooLarge|POST / HTTP/1.1\r\nContent-Length: 0\r\ncontent-length: 0\r\n\r\n~0 HeadFault| / HTTP/1.1\r\n~0 HeadFault";

#[test]
fn streams_that_end(rt: HostRuntime) {
    for row in STREAMS.split('|') {
        assert!(rt; is_stream(rt.alloc(), row), "{row}");
    }
}

/// A request whose head has so many bytes more than 32.
fn head(alloc: Global, width: usize) -> Result<Vec<u8>, AllocError> {
    let mut head = Vec::from_slice(alloc, b"GET / HTTP/1.1\r\nwide-field: ")?;
    for _ in 0..width {
        head.push(b'x')?;
    }
    head.extend_from_slice(b"\r\n\r\n")?;
    Ok(head)
}

/// Whether a request with a head of so many bytes ends so.
fn is_long(alloc: Global, len: usize, count: u64, wire: Wire) -> bool {
    match head(alloc, len.saturating_sub(32)) {
        Ok(head) => head.len() == len && ends_so(alloc, &head, 5000, &[], (count, wire)),
        Err(_) => false,
    }
}

/// Whether so many empty lines end so.
fn are_empty(alloc: Global, lines: usize, count: u64, wire: Wire) -> bool {
    match b"\r\n".repeat(alloc, lines) {
        Ok(pairs) => ends_so(alloc, &pairs, 5000, &[], (count, wire)),
        Err(_) => false,
    }
}

#[test]
fn long_heads(rt: HostRuntime) {
    let told = [
        is_long(rt.alloc(), 16384, 1, Wire::End),
        is_long(rt.alloc(), 16385, 0, Wire::HeadTooLarge),
        are_empty(rt.alloc(), 8192, 0, Wire::HeadTooLarge),
    ];
    assert_eq!(rt; told, [true; 3]);
}

#[test]
fn failing_reads(rt: HostRuntime) {
    for failing in 0..8u64 {
        let count = if failing < 7 { 0 } else { 1 };
        let wanted = (count, Wire::ReadFault);
        assert!(rt;
            ends_so(rt.alloc(), PING, 5, &[failing], wanted),
            "read {failing}"
        );
    }
}

fn first_of(alloc: Global, link: &mut MemoryLink) -> Result<Message, Wire> {
    match Reader::new(alloc) {
        Ok(mut reader) => {
            let first = reader.next_request(alloc, link);
            drop(reader);
            first
        }
        Err(_) => Err(Wire::NoMemory),
    }
}

fn is_request(message: &Message, method: &[u8], target: &[u8], body: &[u8]) -> bool {
    message.method.as_slice() == method
        && message.target.as_slice() == target
        && message.body.as_slice() == body
}

fn has_fields(message: &Message, authorization: &[u8], content_type: &[u8]) -> bool {
    match (&message.authorization, &message.content_type) {
        (Some(first), Some(second)) => {
            first.as_slice() == authorization && second.as_slice() == content_type
        }
        _ => false,
    }
}

/// Whether a message has the parts that are wanted.
fn has_parts(message: &Message) -> bool {
    is_request(message, b"PUT", b"/a?b", b"hi")
        && has_fields(message, b"Hawk x", b"text/plain")
        && message.authorizations == 2
        && message.closes
}

/// Whether the first message of a link does.
fn link_begins_so(alloc: Global, link: &mut MemoryLink) -> bool {
    match first_of(alloc, link) {
        Ok(message) => {
            let is_so = has_parts(&message);
            drop(message);
            is_so
        }
        Err(_) => false,
    }
}

/// Whether the first message of these bytes does.
fn begins_so(alloc: Global, input: &[u8]) -> bool {
    match link_of(alloc, input, &[], 9) {
        Ok(mut link) => {
            let is_so = link_begins_so(alloc, &mut link);
            drop(link);
            is_so
        }
        Err(_) => false,
    }
}

#[test]
fn parts_of_a_message(rt: HostRuntime) {
    let input =
        b"\r\nPUT /a?b HTTP/1.1\r\nAuthorization: Hawk x\r\nauthorization: y\r\nContent-Type:text/plain\r\nConnection: keep-alive, CLOSE\r\nContent-Length: 2\r\n\r\nhi";
    assert!(rt; begins_so(rt.alloc(), input));
    let other =
        b"\r\nPUT /a?b HTTP/1.1\r\nAuthorization: Hawk x\r\nauthorization: y\r\nContent-Type:text/plain\r\nConnection: keep-alive\r\nContent-Length: 2\r\n\r\nhi";
    let told = [begins_so(rt.alloc(), other), begins_so(rt.alloc(), PING)];
    assert_eq!(rt; told, [false, false]);
}

const TWO: &[u8] = b"GET /a HTTP/1.1\r\n\r\nGET /b HTTP/1.1\r\nConnection: Close\r\n\r\nGET";

/// Whether the list of a link has so many messages with this room, and ends so.
fn link_lists_so(
    alloc: Global,
    link: &mut MemoryLink,
    room: usize,
    count: usize,
    end: ListEnd,
) -> bool {
    match read_messages(alloc, link, room) {
        Ok(list) => {
            let is_so = list.messages.len() == count && list.end == end;
            drop(list);
            is_so
        }
        Err(_) => false,
    }
}

/// Whether the list of these two has so many with this room, and ends so.
fn lists_so(alloc: Global, room: usize, count: usize, end: ListEnd) -> bool {
    match link_of(alloc, TWO, &[], 7) {
        Ok(mut link) => {
            let is_so = link_lists_so(alloc, &mut link, room, count, end);
            drop(link);
            is_so
        }
        Err(_) => false,
    }
}

#[test]
fn lists_end_as_their_stream_does(rt: HostRuntime) {
    let told = [
        lists_so(rt.alloc(), 1, 1, ListEnd::Full),
        lists_so(rt.alloc(), 2, 2, ListEnd::Full),
        lists_so(rt.alloc(), 3, 2, ListEnd::Closed),
        lists_so(rt.alloc(), 3, 2, ListEnd::Full),
    ];
    assert_eq!(rt; told, [true, true, true, false]);
}

/// What the reading of all answers: the bytes that are wanted, or others, that there are more, or a fault.
fn word_of(read: &Result<Option<Vec<u8>>, ReadAllFault>, wanted: &[u8]) -> &'static str {
    match read {
        Ok(Some(all)) if all.as_slice() == wanted => "same",
        Ok(Some(_)) => "other",
        Ok(None) => "more",
        Err(ReadAllFault::Failed) => "failed",
        Err(ReadAllFault::NoMemory) => "no memory",
    }
}

/// The same of a link.
fn all_of(alloc: Global, link: &mut MemoryLink, most: usize, wanted: &[u8]) -> &'static str {
    let read = read_all(alloc, link, most);
    word_of(&read, wanted)
}

/// The same of a link that has these bytes left and gives seven at a time. Chosen reads fail.
fn left(alloc: Global, bytes: &[u8], failing: &[u64], most: usize, wanted: &[u8]) -> &'static str {
    match link_of(alloc, bytes, failing, 7) {
        Ok(mut link) => {
            let word = all_of(alloc, &mut link, most, wanted);
            drop(link);
            word
        }
        Err(_) => "no link",
    }
}

/// The same where so many times `hello` are left, and these bytes, or `hello` alone, are wanted.
fn left_of(
    alloc: Global,
    times: usize,
    failing: &[u64],
    most: usize,
    is_all: bool,
) -> &'static str {
    match b"hello".repeat(alloc, times) {
        Ok(bytes) if is_all => left(alloc, &bytes, failing, most, &bytes),
        Ok(bytes) => left(alloc, &bytes, failing, most, b"hello"),
        Err(_) => "no memory",
    }
}

#[test]
fn all_that_is_left(rt: HostRuntime) {
    let told = [
        left_of(rt.alloc(), 4_000, &[], 20_000, true) == "same",
        left_of(rt.alloc(), 4_000, &[], 20_000, false) == "other",
        left_of(rt.alloc(), 4_000, &[], 19_999, true) == "more",
        left_of(rt.alloc(), 4_000, &[1], 20_000, true) == "failed",
        left_of(rt.alloc(), 0, &[], 0, true) == "same",
    ];
    assert_eq!(rt; told, [true; 5]);
}
