//! What a disk in memory keeps of the calls that changed it.
ghost use Rattle.std.specs.Prelude.{◌≡◌, ◌<◌, ◌≤◌, ◌+◌, ◌∷◌, ◌++◌, length, reverse, vec_len, vec_capacity};

/// A call that changed something: a write of that many bytes or a cut, with whether it was done, or a sync that was done.
#[derive(Clone, Copy)]
pub(crate) enum Step {
    Wrote { at: u64, size: usize, done: bool },
    Cut { size: u64, done: bool },
    Synced,
}
