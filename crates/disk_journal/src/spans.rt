//! Where the bodies of a file stand.

/// One body in a file: the place of its gate, and its length.
#[derive(Clone, Copy)]
pub(crate) struct Span {
    pub(crate) gate: usize,
    pub(crate) size: usize,
}

/// Where the open records of a file end.
pub(crate) enum Followed {
    /// At a gate that is not open, or at the end of a file without one.
    End { spans: Vec<Span>, end: usize },
    /// At an open gate with no whole record and gate byte behind it.
    Damaged { spans: Vec<Span>, place: usize },
}
