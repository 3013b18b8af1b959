//! The bodies that an opening found.
ghost use Rattle.std.specs.Prelude.{◌≡◌, ◌<◌, ◌+◌, [], length, take, drop, slice_index_or};

use crate::spans::Span;
use std::alloc::Global;

/// The bodies of a journal, in the order of their records. They stand in the file as it was read.
#[derive(Drop)]
pub struct Bodies {
    pub(crate) file: Vec<u8>,
    pub(crate) spans: Vec<Span>,
}

impl Bodies {
    ghost use Rattle.disk_journal.specs.Opened.{opened_bodies, opened_places};

    /// No bodies, of no file.
    pub(crate) fn none(alloc: Global) -> Bodies
        ensures bodies { opened_bodies result ≡ [] }
        ensures places { opened_places result ≡ [] }
    {
        Bodies {
            file: Vec::new(alloc),
            spans: Vec::new(alloc),
        }
    }

    /// How many there are.
    pub fn len(&self) -> usize
        ensures { result ≡ length (opened_bodies self.now) }
    {
        self.spans.len()
    }

    /// A body, which is borrowed from the file.
    pub fn get(&self, index: usize) -> &[u8]
        requires { index < length (opened_bodies self.now) }
        ensures { result.now ≡ slice_index_or (opened_bodies self.now) index [] }
    {
        body_at(&self.file, self.spans[index])
    }

    /// The place of a body's gate.
    pub fn place(&self, index: usize) -> u64
        requires { index < length (opened_bodies self.now) }
        ensures { result ≡ (slice_index_or (opened_places self.now) index (0, [])).0 }
    {
        self.spans[index].gate as u64
    }
}

// The body of a span.
fn body_at(file: &[u8], span: Span) -> &[u8]
    ensures { result.now ≡ take span.size (drop (span.gate + 5) file.now) }
{
    let from = span.gate.saturating_add(5).min(file.len());
    let until = from.saturating_add(span.size).min(file.len());
    &file[from..until]
}
