//! Requests over connections in memory, line by line, with the replies that are wanted.
//!
//! A line has the moment at which a request comes, its method and target, its body, and the status and the body of its reply. The moment is told
//! in milliseconds after the first task's creation, or behind `=` in those since 1970. In the body of a request `~` stands for the smallest
//! definition without its last brace, and in that of a reply for the first task's status while it is pending. Behind ` # ` a target has the
//! value of an Authorization field, and a star at the end of a reply stands for any text.
use super::tasks::{ALL, CREATED, PLAIN, STATUS, farm, written_at};
use super::*;

/// A line of a conversation, cut at its bars.
#[derive(Clone, Copy)]
pub(super) struct Row<'a> {
    /// When the request comes.
    at: &'a str,
    /// Its method and target.
    pub request: &'a str,
    body: &'a str,
    /// The status of the reply, with its reason.
    status: &'a str,
    reply: &'a str,
}

/// What stands before the first bar of a text, and what behind it: all of it and nothing, where it has none.
pub(super) fn cut(text: &str) -> (&str, &str) {
    text.split_once('|').unwrap_or((text, ""))
}

/// The row of a line.
pub(super) fn row_of(line: &str) -> Row<'_> {
    let (at, rest) = cut(line);
    let (request, rest) = cut(rest);
    let (body, rest) = cut(rest);
    let (status, reply) = cut(rest);
    Row {
        at,
        request,
        body,
        status,
        reply,
    }
}

/// When the request of a row comes.
fn moment_of(row: &Row) -> Option<Moment> {
    let millis = match row.at.split_once('=') {
        Some((_, millis)) => millis.parse().ok()?,
        None => CREATED.checked_add(row.at.parse().ok()?)?,
    };
    Moment::from_millis(millis)
}

/// The text with this one where it has its mark.
fn with(alloc: Global, text: &str, marked: &str) -> Result<String, AllocError> {
    match text.split_once('~') {
        Some((before, behind)) => format!(in alloc; "{before}{marked}{behind}"),
        None => String::from_str(alloc, text),
    }
}

/// The body of a row's request.
pub(super) fn body_of(alloc: Global, row: &Row) -> Result<String, AllocError> {
    with(alloc, row.body, PLAIN)
}

/// The bytes of a row's reply.
fn wanted(alloc: Global, row: &Row) -> Result<String, AllocError> {
    let body = with(alloc, row.reply, STATUS)?;
    reply_text(alloc, row.status, body.as_str())
}

/// The bytes of a reply of this status, with its reason, and this body.
pub(super) fn reply_text(alloc: Global, status: &str, body: &str) -> Result<String, AllocError> {
    let length = body.len();
    format!(in alloc;
        "HTTP/1.1 {status}\r\nContent-Length: {length}\r\nContent-Type: application/json\r\n\r\n{body}"
    )
}

/// The bytes of a request.
fn bytes_of(alloc: Global, request: &str, body: &str) -> Result<String, AllocError> {
    let length = body.len();
    match request.split_once(" # ") {
        Some((line, field)) => format!(in alloc;
            "{line} HTTP/1.1\r\nAuthorization: {field}\r\nContent-Length: {length}\r\n\r\n{body}"
        ),
        None => format!(in alloc; "{request} HTTP/1.1\r\nContent-Length: {length}\r\n\r\n{body}"),
    }
}

/// What a desk writes to a request that comes at the first task's creation.
pub(super) fn asked(
    alloc: Global,
    desk: &mut Solo<Bare>,
    request: &str,
    body: &str,
) -> Result<Vec<u8>, Fail> {
    let at = Moment::from_millis(CREATED).ok_or("a moment")?;
    let bytes = bytes_of(alloc, request, body)?;
    written_at(alloc, desk, bytes.as_str().as_bytes(), at)
}

/// Whether these bytes are those of a reply of this status, with its reason, whose body begins so.
fn begins_so(alloc: Global, status: &str, front: &str, written: &[u8]) -> Result<bool, AllocError> {
    let head = format!(in alloc; "HTTP/1.1 {status}\r\n")?;
    let body = format!(in alloc; "\r\n\r\n{front}")?;
    match str::from_utf8(written) {
        Ok(reply) => Ok(reply.starts_with(head.as_str()) && reply.contains(body.as_str())),
        Err(_) => Ok(false),
    }
}

/// Whether these bytes are those of a row's reply.
fn is_reply(alloc: Global, row: &Row, written: &[u8]) -> Result<bool, AllocError> {
    match row.reply.strip_suffix('*') {
        Some(front) => begins_so(alloc, row.status, front, written),
        None => {
            let wanted = wanted(alloc, row)?;
            Ok(written == wanted.as_str().as_bytes())
        }
    }
}

/// Whether a desk gives the reply of a row to this request.
pub(super) fn replies(
    alloc: Global,
    desk: &mut Solo<Bare>,
    row: &Row,
    request: &str,
) -> Result<bool, Fail> {
    let at = moment_of(row).ok_or("a moment")?;
    let written = written_at(alloc, desk, request.as_bytes(), at)?;
    Ok(is_reply(alloc, row, &written)?)
}

/// The bytes of a row's request.
fn request_of(alloc: Global, row: &Row) -> Result<String, AllocError> {
    let body = body_of(alloc, row)?;
    bytes_of(alloc, row.request, body.as_str())
}

/// Whether a desk gives the reply of a row to its request.
fn is_answered(alloc: Global, desk: &mut Solo<Bare>, row: &Row) -> Result<bool, Fail> {
    let request = request_of(alloc, row)?;
    replies(alloc, desk, row, request.as_str())
}

/// The first line of a conversation that is answered otherwise, or `none`.
fn first_other<'a>(alloc: Global, desk: &mut Solo<Bare>, talk: &'a str) -> Result<&'a str, Fail> {
    for line in talk.split('\n') {
        let row = row_of(line);
        if !is_answered(alloc, desk, &row)? {
            return Ok(line);
        }
    }
    Ok("none")
}

/// A conversation with a farm of its own.
#[derive(Clone, Copy)]
pub(super) struct Talk<'a> {
    /// What whoever gives no credentials may do there, as a farm file lists it.
    pub scopes: &'a str,
    /// How many tasks the farm takes.
    pub max_tasks: u32,
    pub lines: &'a str,
}

impl<'a> Talk<'a> {
    /// One with a farm that takes a million tasks and allows all.
    pub(super) fn of(lines: &'a str) -> Talk<'a> {
        Talk {
            scopes: ALL,
            max_tasks: 1_000_000,
            lines,
        }
    }
}

/// The first line of a conversation that is answered otherwise, or `none`. A desk is owned here and in the last function alone, so that the
/// proofs of the tests are short.
fn first_other_in<'a>(alloc: Global, talk: &Talk<'a>) -> Result<&'a str, Fail> {
    let mut desk = farm(alloc, talk.scopes, talk.max_tasks)?;
    let other = first_other(alloc, &mut desk, talk.lines);
    drop(desk);
    other
}

/// Fails with the first line that is answered otherwise, if these conversations have one.
pub(super) fn all_answered(alloc: Global, talks: &[Talk]) -> Result<(), Fail> {
    for talk in talks {
        match first_other_in(alloc, talk)? {
            "none" => {}
            line => return Err(Fail::from(line)),
        }
    }
    Ok(())
}

/// The same of a conversation with a farm that this file sets up.
pub(super) fn first_other_of<'a>(
    alloc: Global,
    file: &str,
    talk: &'a str,
) -> Result<&'a str, Fail> {
    let mut desk = Solo::new(Bare::new(alloc, config_of(alloc, file)?));
    let other = first_other(alloc, &mut desk, talk);
    drop(desk);
    other
}
