//! Sinks in memory.
ghost use Rattle.http_wire.specs.Memory.{sink_written, write_faults};

use causes::Failed;
use http_wire::{Joined, MemorySink, MemorySource, Sink, write_all};
use std::alloc::{AllocError, Global};

/// A sink with room for so many bytes, whose writes of these numbers fail.
fn sink_of(alloc: Global, room: usize, failing: &[u64]) -> Result<MemorySink, AllocError> {
    let failing = Vec::from_slice(alloc, failing)?;
    MemorySink::new(alloc, room, failing)
}

/// Whether a sink answers so to this write.
fn takes(sink: &mut MemorySink, bytes: &[u8], wanted: Result<usize, Failed>) -> bool {
    sink.write(bytes) == wanted
}

/// Whether a sink with room for four bytes, whose second write fails, takes `abc` and `d`.
fn takes_four(sink: &mut MemorySink) -> bool {
    takes(sink, b"abc", Ok(3))
        && takes(sink, b"d", Err(Failed))
        && takes(sink, b"de", Err(Failed))
        && takes(sink, b"d", Ok(1))
        && sink.written() == b"abcd".as_slice()
        && sink.faults() == 2
}

/// Whether a sink without room takes nothing.
fn takes_nothing(alloc: Global) -> bool {
    let mut sink = MemorySink::without_room(alloc);
    let is_so = takes(&mut sink, b"a", Err(Failed));
    drop(sink);
    is_so
}

/// Whether one with this room and this failing write does.
fn is_of_four(alloc: Global, room: usize, failing: u64) -> bool {
    match sink_of(alloc, room, &[failing]) {
        Ok(mut sink) => {
            let is_so = takes_four(&mut sink);
            drop(sink);
            is_so
        }
        Err(_) => false,
    }
}

#[test]
fn memory_sink(rt: HostRuntime) {
    let told = [
        is_of_four(rt.alloc(), 4, 1),
        is_of_four(rt.alloc(), 4, 2),
        is_of_four(rt.alloc(), 5, 1),
        takes_nothing(rt.alloc()),
    ];
    assert_eq!(rt; told, [true, false, false, true]);
}

/// A sink that takes two bytes at a time.
#[derive(Drop)]
struct Twos {
    sink: MemorySink,
}

impl Sink for Twos {
    ghost written = { λ twos. sink_written twos.sink };

    ghost faults = { λ twos. write_faults twos.sink };

    fn write(&mut self, buf: &[u8]) -> Result<usize, Failed> {
        let most = buf.len().min(2);
        self.sink.write(&buf[..most])
    }
}

/// Whether a sink that takes two bytes at a time answers so to `hello`, and has this then.
fn takes_hello(alloc: Global, sink: MemorySink, is_ok: bool, written: &[u8]) -> bool {
    let mut link = Joined {
        source: MemorySource::new(Vec::new(alloc), Vec::new(alloc), 1),
        sink: Twos { sink },
    };
    let answer = write_all(&mut link, b"hello");
    let is_so = answer.is_ok() == is_ok && link.sink.sink.written() == written;
    drop(link);
    is_so
}

/// Whether one does whose write of this number fails.
fn writes_so(alloc: Global, failing: u64, is_ok: bool, written: &[u8]) -> bool {
    match sink_of(alloc, 5, &[failing]) {
        Ok(sink) => takes_hello(alloc, sink, is_ok, written),
        Err(_) => false,
    }
}

#[test]
fn writes_of_two_bytes(rt: HostRuntime) {
    let told = [
        writes_so(rt.alloc(), 1, false, b"he"),
        writes_so(rt.alloc(), 2, false, b"hell"),
        writes_so(rt.alloc(), 3, true, b"hello"),
        writes_so(rt.alloc(), 3, true, b"hell"),
    ];
    assert_eq!(rt; told, [true, true, true, false]);
}
