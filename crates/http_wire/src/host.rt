//! Sources, sinks and links of the host. They tell as much of what passes through them as the reader or writer below does.
ghost use Rattle.std.specs.Prelude.{◌≡◌, ◌≢◌, ◌<◌, ◌↔◌, length, IfOk, None, Some};
ghost use Rattle.std.specs.Io.{ReadsAtMost, WritesAtMost};
ghost use Rattle.std.specs.Io.KnownBytes.{ReadConsumes, WriteAppends};
ghost use Rattle.std.specs.declared.io.ErrorKind.TheVariants.{Interrupted};
ghost use Rattle.causes.specs.Causes.{HasCause};
ghost use Rattle.http_wire.specs.Host.{untold};

use crate::again::{read_again, write_again};
use crate::link::{Link, Sink, Source};
use causes::{Failed, FaultCount};
use std::io::{ErrorKind, Read, Write};

/// A source over any reader. Each error of a read counts, but that a signal interrupted it: then it is made again.
#[derive(Drop)]
pub struct HostSource<R> {
    inner: R,
    faults: FaultCount,
    why: Option<ErrorKind>,
    ghost told: { ((faults ≡ 0) ↔ (why ≡ None)) × (why ≢ Some Interrupted) },
}

impl<R: Read> HostSource<R> {
    /// All that the reader has left is left, and no read has failed.
    pub fn new(inner: R) -> Self
        ensures left { ⟦<HostSource<R> as Source>⟧.left result ≡ R.remaining inner }
        ensures faults { ⟦<HostSource<R> as Source>⟧.faults result ≡ 0 }
    {
        HostSource {
            inner,
            faults: FaultCount::new(),
            why: None,
        }
    }

    /// Why the last read failed that did, as the reader told it. It is none just where none has, and never
    /// that a signal interrupted it.
    pub fn why(&self) -> Option<ErrorKind>
        ensures told { (⟦<HostSource<R> as Source>⟧.faults self.now ≡ 0) ↔ (result ≡ None) }
        ensures again { result ≢ Some Interrupted }
    {
        self.why
    }
}

impl<R: Read> Source for HostSource<R> {
    ghost left = { λ s. R.remaining s.inner };

    ghost faults = { λ s. s.faults };

    fn read(&mut self, buf: &mut [u8]) -> Result<usize, Failed> {
        match read_again(&mut self.inner, buf) {
            Ok(count) => Ok(count),
            Err(error) => {
                self.faults.raise();
                self.why = Some(error.kind());
                Err(Failed)
            }
        }
    }
}

/// A sink over any writer. Each error of a write counts, and a write that takes nothing, but not that a signal interrupted it: then it is made again.
#[derive(Drop)]
pub struct HostSink<W> {
    inner: W,
    faults: FaultCount,
    why: Option<ErrorKind>,
    ghost told: { ((faults ≡ 0) ↔ (why ≡ None)) × (why ≢ Some Interrupted) },
}

impl<W: Write> HostSink<W> {
    /// What the writer holds is written, and no write has failed.
    pub fn new(inner: W) -> Self
        ensures written { ⟦<HostSink<W> as Sink>⟧.written result ≡ W.contents inner }
        ensures faults { ⟦<HostSink<W> as Sink>⟧.faults result ≡ 0 }
    {
        HostSink {
            inner,
            faults: FaultCount::new(),
            why: None,
        }
    }

    /// Why the last write failed that did, as the writer told it. It is none just where none has, and never
    /// that a signal interrupted it.
    pub fn why(&self) -> Option<ErrorKind>
        ensures told { (⟦<HostSink<W> as Sink>⟧.faults self.now ≡ 0) ↔ (result ≡ None) }
        ensures again { result ≢ Some Interrupted }
    {
        self.why
    }
}

impl<W: Write> Sink for HostSink<W> {
    ghost written = { λ s. W.contents s.inner };

    ghost faults = { λ s. s.faults };

    fn write(&mut self, buf: &[u8]) -> Result<usize, Failed> {
        match write_again(&mut self.inner, buf) {
            Ok(count) if count > 0 || buf.is_empty() => return Ok(count),
            Ok(_) => self.why = Some(ErrorKind::WriteZero),
            Err(error) => self.why = Some(error.kind()),
        }
        self.faults.raise();
        Err(Failed)
    }
}

/// A link over any stream, as a socket. A read or a write that a signal interrupts is made again.
///
/// It tells nothing as a link, since a stream says of a read nothing about what is written, nor the other way; its `read` and `write`
/// say of themselves what the stream does.
#[derive(Drop)]
pub struct StreamLink<S> {
    inner: S,
    read_faults: FaultCount,
    write_faults: FaultCount,
}

impl<S: Read + Write> StreamLink<S> {
    /// No read and no write has failed.
    pub fn new(inner: S) -> Self
        ensures read_faults { ⟦<StreamLink<S> as Link>⟧.read_faults result ≡ 0 }
        ensures write_faults { ⟦<StreamLink<S> as Link>⟧.write_faults result ≡ 0 }
    {
        StreamLink {
            inner,
            read_faults: FaultCount::new(),
            write_faults: FaultCount::new(),
        }
    }
}

impl<S: Read + Write> Link for StreamLink<S> {
    ghost left = { λ _. untold };

    ghost written = { λ _. untold };

    ghost read_faults = { λ s. s.read_faults };

    ghost write_faults = { λ s. s.write_faults };

    fn read(&mut self, buf: &mut [u8]) -> Result<usize, Failed>
        ensures bound { ReadsAtMost result buf.new }
        ensures bytes { ReadConsumes untold untold result buf.new }
        ensures cause { HasCause self.old.read_faults self.new.read_faults result }
        ensures written { untold ≡ untold }
        ensures write_faults { self.new.write_faults ≡ self.old.write_faults }

        // It is a read of the stream below.
        ensures below { ReadConsumes (S.remaining self.old.inner) (S.remaining self.new.inner) result buf.new }
    {
        match read_again(&mut self.inner, buf) {
            Ok(count) => Ok(count),
            Err(_) => {
                self.read_faults.raise();
                Err(Failed)
            }
        }
    }

    fn write(&mut self, buf: &[u8]) -> Result<usize, Failed>
        ensures bound { WritesAtMost result buf.now }
        ensures some { IfOk result (λ n. 0 < length buf.now → 0 < n) }
        ensures bytes { WriteAppends untold untold result buf.now }
        ensures cause { HasCause self.old.write_faults self.new.write_faults result }
        ensures left { untold ≡ untold }
        ensures read_faults { self.new.read_faults ≡ self.old.read_faults }

        // It is a write to the stream below.
        ensures below { WriteAppends (S.contents self.old.inner) (S.contents self.new.inner) result buf.now }
    {
        match write_again(&mut self.inner, buf) {
            Ok(count) if count > 0 || buf.is_empty() => Ok(count),
            _ => {
                self.write_faults.raise();
                Err(Failed)
            }
        }
    }
}
