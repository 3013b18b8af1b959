//! Sources, sinks and links over streams of the host.
use causes::Failed;
use http_wire::{HostSink, HostSource, Link, Sink, Source, StreamLink};
use std::alloc::Global;
use std::io;
use std::io::{Cursor, ErrorKind, Read, Write};

/// A stream whose reads fail, and whose writes take nothing.
#[derive(Drop)]
struct Broken;

impl Read for Broken {
    fn read(&mut self, _buf: &mut [u8]) -> io::Result<usize> {
        Err(io::Error::from(ErrorKind::BrokenPipe))
    }
}

impl Write for Broken {
    fn write(&mut self, _buf: &[u8]) -> io::Result<usize> {
        Ok(0)
    }

    fn flush(&mut self) -> io::Result<()> {
        Ok(())
    }
}

/// Whether a source over a stream reads all its five bytes into a buffer of eight.
fn reads_five(bytes: Vec<u8>, wanted: &[u8]) -> bool {
    let mut source = HostSource::new(Cursor::new(bytes));
    let mut buf = [0; 8];
    source.read(&mut buf) == Ok(5) && buf.as_slice() == wanted
}

/// Whether one over a stream of `hello` does.
fn reads_hello(alloc: Global, wanted: &[u8]) -> bool {
    match Vec::from_slice(alloc, b"hello") {
        Ok(bytes) => reads_five(bytes, wanted),
        Err(_) => false,
    }
}

/// Whether a link over a stream reads its two bytes, and writes five after them.
fn reads_two(bytes: Vec<u8>, wanted: &[u8]) -> bool {
    let mut link = StreamLink::new(Cursor::new(bytes));
    let mut buf = [0; 8];
    link.read(&mut buf) == Ok(2) && link.write(b"hello") == Ok(5) && buf.as_slice() == wanted
}

/// Whether one over a stream of `hi` does.
fn reads_and_writes(alloc: Global, wanted: &[u8]) -> bool {
    match Vec::from_slice(alloc, b"hi") {
        Ok(bytes) => reads_two(bytes, wanted),
        Err(_) => false,
    }
}

fn sink_writes(alloc: Global) -> bool {
    let mut sink = HostSink::new(Cursor::new(Vec::new(alloc)));
    sink.write(b"hello") == Ok(5)
}

#[test]
fn host_objects(rt: HostRuntime) {
    let told = [
        reads_hello(rt.alloc(), b"hello\0\0\0"),
        reads_hello(rt.alloc(), b"help!\0\0\0"),
        reads_and_writes(rt.alloc(), b"hi\0\0\0\0\0\0"),
        reads_and_writes(rt.alloc(), b"ho\0\0\0\0\0\0"),
        sink_writes(rt.alloc()),
    ];
    assert_eq!(rt; told, [true, false, true, false, true]);
}

fn source_keeps_its_reason() -> bool {
    let mut source = HostSource::new(Broken);
    source.why().is_none()
        && source.read(&mut [0; 8]) == Err(Failed)
        && source.why() == Some(ErrorKind::BrokenPipe)
}

fn sink_keeps_its_reason() -> bool {
    let mut sink = HostSink::new(Broken);
    sink.why().is_none()
        && sink.write(b"hello") == Err(Failed)
        && sink.why() == Some(ErrorKind::WriteZero)
}

#[test]
fn the_reason_of_a_fault_is_kept(rt: HostRuntime) {
    let told = [source_keeps_its_reason(), sink_keeps_its_reason()];
    assert_eq!(rt; told, [true; 2]);
}

/// A stream whose next reads and writes, so many, are interrupted by a signal. Then a read gives `x`, and a write takes all.
#[derive(Drop)]
struct Interrupted {
    times: u8,
}

impl Interrupted {
    /// Whether this call is interrupted, which is one of them.
    fn is_interrupted(&mut self) -> bool {
        if self.times == 0 {
            return false;
        }
        self.times -= 1;
        true
    }
}

impl Read for Interrupted {
    fn read(&mut self, buf: &mut [u8]) -> io::Result<usize> {
        if self.is_interrupted() {
            return Err(io::Error::from(ErrorKind::Interrupted));
        }
        if buf.is_empty() {
            return Ok(0);
        }
        buf[0] = b'x';
        Ok(1)
    }
}

impl Write for Interrupted {
    fn write(&mut self, buf: &[u8]) -> io::Result<usize> {
        if self.is_interrupted() {
            return Err(io::Error::from(ErrorKind::Interrupted));
        }
        Ok(buf.len())
    }

    fn flush(&mut self) -> io::Result<()> {
        Ok(())
    }
}

fn source_reads_again() -> bool {
    let mut source = HostSource::new(Interrupted { times: 2 });
    let mut buf = [0; 4];
    source.read(&mut buf) == Ok(1)
        && buf.as_slice() == b"x\0\0\0".as_slice()
        && source.why().is_none()
}

fn sink_writes_again() -> bool {
    let mut sink = HostSink::new(Interrupted { times: 2 });
    sink.write(b"hello") == Ok(5) && sink.why().is_none()
}

fn link_reads_again() -> bool {
    let mut link = StreamLink::new(Interrupted { times: 1 });
    link.read(&mut [0; 4]) == Ok(1)
}

fn link_writes_again() -> bool {
    let mut link = StreamLink::new(Interrupted { times: 1 });
    link.write(b"hi") == Ok(2)
}

#[test]
fn what_a_signal_interrupts_is_made_again(rt: HostRuntime) {
    let told = [
        source_reads_again(),
        sink_writes_again(),
        link_reads_again(),
        link_writes_again(),
    ];
    assert_eq!(rt; told, [true; 4]);
}
