//! A door of the system: a TCP socket that is listened at.
ghost use Rattle.std.specs.Prelude.{◌≡◌, ◌≤◌, ◌↔◌, IfOk, None};
ghost use Rattle.causes.specs.Causes.{Rose};

use crate::door::Listener;
use causes::{Failed, FaultCount};
use http_wire::StreamLink;
use std::io;
use std::io::ErrorKind;
use std::net::{Net, TcpListener, TcpStream};
use std::rt::Clock;
use std::time::Duration;

/// How many seconds a read or a write of an accepted socket may wait.
const PATIENCE: u64 = 30;

/// How many milliseconds a door rests after an accept that the system refused, as where no file descriptors are left.
const REST: u64 = 10;

/// A door over a listener of the system. It does not tell its links.
#[derive(Drop)]
pub struct HostListener<R: Clock + Copy> {
    rt: R,
    listener: TcpListener,
    out: u64,
    accepts: u64,
    faults: FaultCount,
    why: Option<ErrorKind>,
    ghost told: { (faults ≡ 0) ↔ (why ≡ None) },
}

impl<R: Clock + Copy> HostListener<R> {
    /// Listens at an address and a port, as `127.0.0.1:8080`. Of port 0 the system chooses one.
    ///
    /// # Errors
    ///
    /// What the system says, as that the port is taken or that the address has no such form.
    pub fn bind(rt: R, address: &str) -> io::Result<HostListener<R>>
    where
        R: Net<Listener = TcpListener, Stream = TcpStream>,
        ensures out { IfOk result (λ door. ⟦<HostListener<R> as Listener>⟧.out door ≡ 0) }
        ensures accepts { IfOk result (λ door. ⟦<HostListener<R> as Listener>⟧.accepts door ≡ 0) }
        ensures faults { IfOk result (λ door. ⟦<HostListener<R> as Listener>⟧.faults door ≡ 0) }
    {
        let listener = TcpListener::bind(&rt, address)?;
        Ok(HostListener::over(rt, listener))
    }

    /// A new door over this listener.
    fn over(rt: R, listener: TcpListener) -> HostListener<R>
        ensures out { result.out ≡ 0 }
        ensures accepts { result.accepts ≡ 0 }
        ensures faults { result.faults ≡ 0 }
    {
        HostListener {
            rt,
            listener,
            out: 0,
            accepts: 0,
            faults: FaultCount::new(),
            why: None,
        }
    }

    /// Why the last accept or twin failed that did, as the system told it. It is none just where none has.
    pub fn why(&self) -> Option<ErrorKind>
        ensures { (⟦<HostListener<R> as Listener>⟧.faults self.now ≡ 0) ↔ (result ≡ None) }
    {
        self.why
    }

    /// Counts a failure and keeps its reason.
    fn fail(&mut self, error: &io::Error) -> Failed
        ensures out { self.new.out ≡ self.old.out }
        ensures accepts { self.new.accepts ≡ self.old.accepts }
        ensures rose { Rose self.old.faults self.new.faults }
        ensures later { self.old.faults ≤ self.new.faults }
    {
        self.faults.raise();
        self.why = Some(error.kind());
        Failed
    }
}

/// The next stream of a listener, which sends at once, and whose reads and writes wait no longer than they may.
fn accepted(listener: &TcpListener) -> io::Result<TcpStream> {
    let (stream, _) = listener.accept()?;
    stream.set_nodelay(true)?;
    stream.set_read_timeout(Some(Duration::from_secs(PATIENCE)))?;
    stream.set_write_timeout(Some(Duration::from_secs(PATIENCE)))?;
    Ok(stream)
}

impl<R: Clock + Copy> Listener for HostListener<R> {
    type Peer = StreamLink<TcpStream>;

    ghost given = { λ _. None };

    ghost taken = { λ _. None };

    ghost out = { λ door. door.out };

    ghost accepts = { λ door. door.accepts };

    ghost faults = { λ door. door.faults };

    /// Waits for the next peer. Where the system refuses, the door rests, so that refusals one after the other cost no processor.
    fn accept(&mut self) -> Result<StreamLink<TcpStream>, Failed> {
        self.accepts = self.accepts.saturating_add(1);
        if self.out == u64::MAX {
            self.faults.raise();
            self.why = Some(ErrorKind::QuotaExceeded);
            return Err(Failed);
        }
        match accepted(&self.listener) {
            Ok(stream) => {
                self.out += 1;
                Ok(StreamLink::new(stream))
            }
            Err(error) => {
                self.rt.sleep(Duration::from_millis(REST));
                Err(self.fail(&error))
            }
        }
    }

    /// The socket is closed.
    fn done(&mut self, _peer: StreamLink<TcpStream>, _asked: u64) {
        self.out -= 1;
    }

    fn twin(&mut self) -> Result<HostListener<R>, Failed> {
        match self.listener.try_clone() {
            Ok(listener) => Ok(HostListener::over(self.rt, listener)),
            Err(error) => Err(self.fail(&error)),
        }
    }
}
