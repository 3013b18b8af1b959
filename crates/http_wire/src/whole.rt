//! All bytes to a link, and all bytes from one.
ghost use Rattle.std.specs.Prelude.{◌≡◌, ◌+◌, ◌<◌, ◌≤◌, length, vec_len, MatchOption, IfSome, IfOk, IfErr, OnOk, OnErr};
ghost use Rattle.std.specs.Io.KnownBytes.{Appends, IsAtEnd};
ghost use Rattle.causes.specs.Causes.{HasCause};
ghost use Rattle.http_wire.specs.Calls.{state_of};
ghost use Rattle.http_wire.specs.Whole.{AppendsFront, WritesAll, piece_size, LosesWithin, FailsToReadAll};

use crate::body::fill;
use crate::host::{HostSink, HostSource};
use crate::joined::Joined;
use crate::link::{Link, Sink, Source};
use crate::message::Wire;
use causes::Failed;
use std::alloc::Global;
use std::io;

/// Writes all of the bytes. Where a write fails, a front of them is written, and not all.
pub fn write_all<L: Link>(link: &mut L, bytes: &[u8]) -> Result<(), Failed>
    ensures { WritesAll (state_of L.Link link.old) (state_of L.Link link.new) bytes.now result }
{
    let mut rest = bytes;
    while !rest.is_empty() {
        match link.write(rest) {
            Ok(count) => rest = &rest[count..],
            Err(Failed) => return Err(Failed),
        }
    }
    Ok(())
}

/// Why not all bytes could be read.
#[derive(Clone, Copy, Debug, PartialEq, Eq)]
pub enum ReadAllFault {
    /// A read failed.
    Failed,
    /// Memory ran out.
    NoMemory,
}

/// All bytes that the link has left, or `None` where they are more than `most`.
///
/// At most 8 KiB more than `most` are read. Of what was read nothing is given where there are more, or where it fails.
pub fn read_all<L: Link>(
    alloc: Global,
    link: &mut L,
    most: usize,
) -> Result<Option<Vec<u8>>, ReadAllFault>
    // Those that came are all that were left, and no more is left; or there were more than so many.
    ensures whole { IfOk result (λ read. MatchOption read
        (IfSome (L.left link.old) (λ all. most < length all))
        (λ bytes. (vec_len bytes ≤ most) × IfSome (L.left link.old) (λ all. bytes.items ≡ all) × IsAtEnd (L.left link.new))) }
    ensures fault { IfErr result (FailsToReadAll (L.read_faults link.old) (L.read_faults link.new)) }

    // How much is read at most, whatever comes of it. Nothing is written.
    ensures lost { LosesWithin (most + piece_size) (L.left link.old) (L.left link.new) }
    ensures later { L.read_faults link.old ≤ L.read_faults link.new }
    ensures same_reads { OnOk result (L.read_faults link.new ≡ L.read_faults link.old) }
    ensures written { L.written link.new ≡ L.written link.old }
    ensures write_faults { L.write_faults link.new ≡ L.write_faults link.old }
{
    let mut bytes = Vec::new(alloc);
    while bytes.len() <= most {
        match fill(&mut bytes, link) {
            Ok(0) => return Ok(Some(bytes)),
            Ok(_) => {}
            Err(Wire::ReadFault) => return Err(ReadAllFault::Failed),
            Err(_) => return Err(ReadAllFault::NoMemory),
        }
    }
    Ok(None)
}

/// The same of a source alone, which is given back.
pub fn read_source<S: Source>(
    alloc: Global,
    source: S,
    most: usize,
) -> (S, Result<Option<Vec<u8>>, ReadAllFault>)
    ensures whole { IfOk result.1 (λ read. MatchOption read
        (IfSome (S.left source) (λ all. most < length all))
        (λ bytes. (vec_len bytes ≤ most) × IfSome (S.left source) (λ all. bytes.items ≡ all) × IsAtEnd (S.left result.0))) }
    ensures fault { IfErr result.1 (FailsToReadAll (S.faults source) (S.faults result.0)) }
    ensures lost { LosesWithin (most + piece_size) (S.left source) (S.left result.0) }
    ensures later { S.faults source ≤ S.faults result.0 }
    ensures same_reads { OnOk result.1 (S.faults result.0 ≡ S.faults source) }
{
    let mut link = Joined {
        source,
        sink: HostSink::new(io::sink()),
    };
    let read = read_all(alloc, &mut link, most);
    (link.source, read)
}

/// Writes all of the bytes to a sink alone, which is given back. Where a write fails, a front of them is written, and not all.
pub fn write_sink<K: Sink>(sink: K, bytes: &[u8]) -> (K, Result<(), Failed>)
    ensures ok { OnOk result.1 (Appends (K.written sink) (K.written result.0) bytes.now) }
    ensures front { OnErr result.1 (AppendsFront (K.written sink) (K.written result.0) bytes.now) }
    ensures cause { HasCause (K.faults sink) (K.faults result.0) result.1 }
{
    let mut link = Joined {
        source: HostSource::new(io::empty()),
        sink,
    };
    let written = write_all(&mut link, bytes);
    (link.sink, written)
}
