//! Bytes from a link: one more piece of a head, and a body.
ghost use Rattle.std.specs.Prelude.{◌≡◌, ℕ, ◌+◌, ◌<◌, ◌≤◌, List, ◌++◌, ◌-◌, length, take, drop, vec_len, IfOk, IfErr, OnOk, OnErr, MatchResult};
ghost use Rattle.std.specs.Io.KnownBytes.{prepend_known, Keeps, Consumes, IsAtEnd};
ghost use Rattle.causes.specs.Causes.{Rose};
ghost use Rattle.http_wire.specs.Calls.{state_of, OnlyReads};
ghost use Rattle.http_wire.specs.Needed.{TakesLacking};
ghost use Rattle.http_wire.specs.Reading.{IsFillStop, IsReadStop, IsBodyStop, Ends, Leaves};
ghost use Rattle.http_wire.specs.Whole.{LosesWithin};

use crate::link::Link;
use crate::message::Wire;
use causes::Failed;
use std::alloc::Global;

/// How many bytes a read asks for.
const PIECE: usize = 8192;

/// Reads one piece to the end of `held`, and says how many bytes came. None are the end of the input.
pub(crate) fn fill<L: Link>(held: &mut Vec<u8>, link: &mut L) -> Result<usize, Wire>
    ensures count { IfOk result (λ n. vec_len held.new ≡ vec_len held.old + n) }
    ensures piece { IfOk result (λ n. n ≤ PIECE) }
    ensures end { IfOk result (λ n. n ≡ 0 → (held.new.items ≡ held.old.items) × IsAtEnd (L.left link.new)) }
    ensures grown { OnOk result ((piece : List ℕ) × (held.new.items ≡ held.old.items ++ piece)) }
    ensures same { OnErr result (held.new.items ≡ held.old.items) }
    ensures stop { IfErr result (IsFillStop (L.read_faults link.old) (L.read_faults link.new)) }
    ensures kept { Keeps (prepend_known held.old.items (L.left link.old)) (prepend_known held.new.items (L.left link.new)) }
    ensures only_reads { OnlyReads (state_of L.Link link.old) (state_of L.Link link.new) result }
{
    let len = held.len();
    match held.resize(len + PIECE, 0) {
        Ok(()) => {}
        Err(_) => return Err(Wire::NoMemory),
    }
    match link.read(&mut held[len..]) {
        Ok(count) => {
            held.truncate(len + count);
            Ok(count)
        }
        Err(Failed) => {
            held.truncate(len);
            Err(Wire::ReadFault)
        }
    }
}

/// Fills `buf`.
fn read_into<L: Link>(buf: &mut [u8], link: &mut L) -> Result<(), Wire>
    ensures bytes { OnOk result (Consumes (L.left link.old) (L.left link.new) buf.new) }
    ensures stop { IfErr result (IsReadStop (length buf.old) (L.left link.old) (L.read_faults link.old) (L.read_faults link.new)) }
    ensures lost { LosesWithin (length buf.old) (L.left link.old) (L.left link.new) }
    ensures ended { IfErr result (Ends (L.left link.new)) }
    ensures only_reads { OnlyReads (state_of L.Link link.old) (state_of L.Link link.new) result }
    ensures untouched { length buf.old ≡ 0 → link.new ≡ link.old }
{
    let mut filled = 0;
    while filled < buf.len() {
        match link.read(&mut buf[filled..]) {
            Ok(0) => return Err(Wire::EndedInside),
            Ok(count) => filled += count,
            Err(Failed) => return Err(Wire::ReadFault),
        }
    }
    Ok(())
}

/// Puts the `size` bytes that stand `by` behind a place there.
fn move_piece(bytes: &mut [u8], at: usize, by: usize, size: usize)
    requires apart { size ≤ by }
    requires within { at + by + size ≤ length bytes.old }
    ensures { bytes.new ≡ take at bytes.old ++ (take size (drop (at + by) bytes.old) ++ drop (at + size) bytes.old) }
{
    let (front, back) = bytes.split_at_mut(at + by);
    front[at..at + size].copy_from_slice(&back[..size]);
}

/// Moves all that stands from `by` on to the front, in pieces that do not lie over each other: each is one copy.
fn move_to_front(bytes: &mut [u8], by: usize)
    requires some { 0 < by }
    requires within { by ≤ length bytes.old }
    ensures size { length bytes.new ≡ length bytes.old }
    ensures moved { take (length bytes.old - by) bytes.new ≡ drop by bytes.old }
{
    let rest = bytes.len() - by;
    let mut at = 0;
    while at < rest {
        let size = by.min(rest - at);
        move_piece(bytes, at, by, size);
        at += size;
    }
}

/// Drops the first `count` bytes.
fn drop_front(bytes: &mut Vec<u8>, count: usize)
    requires { count ≤ vec_len bytes.old }
    ensures { bytes.new.items ≡ drop count bytes.old.items }
{
    if count > 0 {
        let rest = bytes.len() - count;
        move_to_front(bytes.as_mut_slice(), count);
        bytes.truncate(rest);
    }
}

/// Takes the body of `size` bytes that begins at `start` of those held, and drops all up to its end. Its room is taken
/// before anything is read. Where it does not come whole, all that was held is gone.
pub(crate) fn take_body<L: Link>(
    alloc: Global,
    held: &mut Vec<u8>,
    start: usize,
    size: usize,
    link: &mut L,
) -> Result<Vec<u8>, Wire>
    requires { start ≤ vec_len held.old }
    ensures sizes { IfOk result (λ body. (vec_len body ≡ size) × (vec_len held.new ≡ vec_len held.old - (start + size))) }
    ensures bytes { IfOk result (λ body. Consumes (prepend_known (drop start held.old.items) (L.left link.old)) (prepend_known held.new.items (L.left link.new)) body.items) }
    ensures leaves { IfErr result (Leaves (prepend_known held.old.items (L.left link.old)) (prepend_known held.new.items (L.left link.new))) }
    ensures ended { IfErr result (Ends (L.left link.new)) }
    ensures stop { IfErr result (IsBodyStop size (prepend_known (drop start held.old.items) (L.left link.old)) (L.read_faults link.old) (L.read_faults link.new)) }
    ensures only_reads { OnlyReads (state_of L.Link link.old) (state_of L.Link link.new) result }
    ensures untouched { start + size ≤ vec_len held.old → link.new ≡ link.old }
    ensures lacking { TakesLacking (vec_len held.old - start) size (L.left link.old) (L.left link.new) }
{
    let have = (held.len() - start).min(size);
    let mut body = match Vec::from_slice(alloc, &held[start..start + have]) {
        Ok(body) => body,
        Err(_) => return Err(Wire::NoMemory),
    };
    match body.resize(size, 0) {
        Ok(()) => {}
        Err(_) => return Err(Wire::NoMemory),
    }
    if let Err(wire) = read_into(&mut body[have..], link) {
        held.clear();
        return Err(wire);
    }
    drop_front(held, start + have);
    Ok(body)
}
