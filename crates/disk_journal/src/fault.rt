//! Why a call of a journal failed.

/// A call of the disk failed. What was pending may be on the disk or not, and the journal may append no more.
#[derive(Clone, Copy, Debug, PartialEq, Eq)]
pub struct DiskFault;

/// Why a journal was not opened.
#[derive(Clone, Copy, Debug, PartialEq, Eq)]
pub enum OpenFault {
    /// A call of the disk failed.
    Disk,
    /// An open gate at this place has no whole record and gate byte behind it.
    Damaged(u64),
    /// Memory ran out.
    NoMemory,
}
