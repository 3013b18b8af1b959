//! A link made of a source and a sink.
ghost use Rattle.std.specs.Prelude.{◌≡◌};

use crate::link::{Link, Sink, Source};
use causes::Failed;

/// Reads from the source and writes to the sink.
#[derive(Drop)]
pub struct Joined<S, K> {
    pub source: S,
    pub sink: K,
}

impl<S: Source, K: Sink> Link for Joined<S, K> {
    ghost left = { λ j. S.left j.source };

    ghost written = { λ j. K.written j.sink };

    ghost read_faults = { λ j. S.faults j.source };

    ghost write_faults = { λ j. K.faults j.sink };

    fn read(&mut self, buf: &mut [u8]) -> Result<usize, Failed> {
        self.source.read(buf)
    }

    fn write(&mut self, buf: &[u8]) -> Result<usize, Failed> {
        self.sink.write(buf)
    }
}
