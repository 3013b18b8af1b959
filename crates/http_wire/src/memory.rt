//! Sources, sinks and links in memory, which tell all that they hold.
ghost use Rattle.std.specs.Prelude.{◌≡◌, max, ℕ, ◌+◌, ◌-◌, ◌<◌, ◌≤◌, List, [], ◌++◌, length, Some, IfOk, OnErr, MatchResult, IsErr, Contains, ◌↔◌, ◌⊎◌};
ghost use Rattle.std.specs.Io.{ReadsAtMost, WritesAtMost};
ghost use Rattle.std.specs.Io.KnownBytes.{ReadConsumes, WriteAppends};
ghost use Rattle.causes.specs.Causes.{HasCause};
ghost use Rattle.http_wire.specs.Memory.{next_call, source_left, read_faults, failing_reads, read_number, read_piece, sink_written, write_faults, failing_writes, write_number, room_left};

use crate::joined::Joined;
use crate::link::{Sink, Source};
use causes::{Failed, FaultCount};
use std::alloc::{AllocError, Global};
use std::io::{Cursor, Read};

/// Bytes in memory to read from. Chosen calls of `read` fail.
#[derive(Drop)]
pub struct MemorySource {
    bytes: Cursor<Vec<u8>>,
    failing: Vec<u64>,
    piece: usize,
    calls: u64,
    faults: FaultCount,
}

impl MemorySource {
    /// All of `bytes` are left. The calls of `read` whose numbers, from 0 on, are in `failing` fail, and a read gives
    /// at most `piece` bytes (at least one).
    pub fn new(bytes: Vec<u8>, failing: Vec<u64>, piece: usize) -> Self
        ensures left { source_left result ≡ Some bytes.items }
        ensures faults { read_faults result ≡ 0 }
        ensures failing { failing_reads result ≡ failing.items }
        ensures number { read_number result ≡ 0 }
        ensures piece { read_piece result ≡ max piece 1 }
    {
        MemorySource {
            bytes: Cursor::new(bytes),
            failing,
            piece,
            calls: 0,
            faults: FaultCount::new(),
        }
    }

    /// How many reads have failed.
    pub fn faults(&self) -> u64
        ensures { result ≡ read_faults self.now }
    {
        self.faults.get()
    }
}

impl Source for MemorySource {
    ghost left = { source_left };

    ghost faults = { read_faults };

    fn read(&mut self, buf: &mut [u8]) -> Result<usize, Failed>
        ensures bound { ReadsAtMost result buf.new }
        ensures bytes { ReadConsumes (source_left self.old) (source_left self.new) result buf.new }
        ensures cause { HasCause (read_faults self.old) (read_faults self.new) result }

        // It fails just where its number is among those that fail.
        ensures fails { IsErr result ↔ Contains (failing_reads self.old) (read_number self.old) }
        ensures failing { failing_reads self.new ≡ failing_reads self.old }
        ensures number { read_number self.new ≡ next_call (read_number self.old) }
        ensures count { OnErr result (read_faults self.new ≡ next_call (read_faults self.old)) }
        ensures piece { IfOk result (λ n. n ≤ read_piece self.old) }
        ensures same_piece { read_piece self.new ≡ read_piece self.old }
    {
        let call = self.calls;
        self.calls = call.saturating_add(1);
        if self.failing.contains(&call) {
            self.faults.raise();
            return Err(Failed);
        }
        let most = buf.len().min(self.piece.max(1));
        match self.bytes.read(&mut buf[..most]) {
            Ok(count) => Ok(count),
            Err(_) => {
                self.faults.raise();
                Err(Failed)
            }
        }
    }
}

/// Memory to write to, whose room is taken when it is made. Chosen calls of `write` fail, and those that find no room.
#[derive(Drop)]
pub struct MemorySink {
    bytes: Vec<u8>,
    failing: Vec<u64>,
    calls: u64,
    faults: FaultCount,
}

impl MemorySink {
    /// Nothing is written, and there is room for `room` bytes. The calls of `write` whose numbers, from 0 on, are in
    /// `failing` fail.
    pub fn new(alloc: Global, room: usize, failing: Vec<u64>) -> Result<Self, AllocError>
        ensures written { IfOk result (λ sink. sink_written sink ≡ Some []) }
        ensures faults { IfOk result (λ sink. write_faults sink ≡ 0) }
        ensures room { IfOk result (λ sink. room_left sink ≡ room) }
        ensures failing { IfOk result (λ sink. failing_writes sink ≡ failing.items) }
        ensures number { IfOk result (λ sink. write_number sink ≡ 0) }
    {
        Ok(MemorySink {
            bytes: Vec::with_capacity(alloc, room)?,
            failing,
            calls: 0,
            faults: FaultCount::new(),
        })
    }

    /// Nothing is written, and there is no room for more. It takes no memory.
    pub fn without_room(alloc: Global) -> Self
        ensures written { sink_written result ≡ Some [] }
        ensures faults { write_faults result ≡ 0 }
        ensures room { room_left result ≡ 0 }
        ensures failing { failing_writes result ≡ [] }
        ensures number { write_number result ≡ 0 }
    {
        MemorySink {
            bytes: Vec::new(alloc),
            failing: Vec::new(alloc),
            calls: 0,
            faults: FaultCount::new(),
        }
    }

    /// All that was written.
    pub fn written(&self) -> &[u8]
        ensures { Some result.now ≡ sink_written self.now }
    {
        self.bytes.as_slice()
    }

    /// How many writes have failed.
    pub fn faults(&self) -> u64
        ensures { result ≡ write_faults self.now }
    {
        self.faults.get()
    }
}

impl Sink for MemorySink {
    ghost written = { sink_written };

    ghost faults = { write_faults };

    fn write(&mut self, buf: &[u8]) -> Result<usize, Failed>
        ensures bound { WritesAtMost result buf.now }
        ensures some { IfOk result (λ n. 0 < length buf.now → 0 < n) }
        ensures bytes { WriteAppends (sink_written self.old) (sink_written self.new) result buf.now }
        ensures cause { HasCause (write_faults self.old) (write_faults self.new) result }

        // It takes the whole piece, and fails just where its number is among those that fail or the piece does not fit.
        ensures whole { IfOk result (λ n. n ≡ length buf.now) }
        ensures fails { IsErr result ↔ (Contains (failing_writes self.old) (write_number self.old) ⊎ (room_left self.old < length buf.now)) }
        ensures failing { failing_writes self.new ≡ failing_writes self.old }
        ensures number { write_number self.new ≡ next_call (write_number self.old) }
        ensures count { OnErr result (write_faults self.new ≡ next_call (write_faults self.old)) }
        ensures room { MatchResult result (λ n. room_left self.old ≤ room_left self.new + n) (λ _. room_left self.old ≤ room_left self.new) }
    {
        let call = self.calls;
        self.calls = call.saturating_add(1);
        let room = self.bytes.capacity() - self.bytes.len();
        if room < buf.len() || self.failing.contains(&call) {
            self.faults.raise();
            return Err(Failed);
        }
        match self.bytes.extend_from_slice(buf) {
            Ok(()) => Ok(buf.len()),
            Err(_) => {
                self.faults.raise();
                Err(Failed)
            }
        }
    }
}

/// A link in memory.
pub type MemoryLink = Joined<MemorySource, MemorySink>;
