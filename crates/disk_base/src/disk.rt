//! A disk as a journal sees it: bytes at places, and a sync.
ghost use Rattle.std.specs.Prelude.{◌≡◌, ℕ, ◌+◌, ◌^◌, ◌<◌, length, IsErr};
ghost use Rattle.std.specs.Io.{ReadsAtMost};
ghost use Rattle.causes.specs.Causes.{HasCause};
ghost use Rattle.disk_base.specs.Contents.{Contents};
ghost use Rattle.disk_base.specs.Calls.{Reads, Writes, Cuts, Syncs};

use causes::Failed;

/// One file of a disk. Until a sync succeeds, a stop may leave other bytes than a read gives.
///
/// Places are counted from 0. A call that fails is counted, and what was pending stays pending.
pub trait Disk {
    // Whether the disk tells what it holds: one in memory does, one of the host does not.
    ghost tells: { Type 0 };

    // What it holds, and what a stop may leave, where it tells.
    ghost contents: { Self → Contents };

    // How many calls have failed.
    ghost faults: { Self → ℕ };

    /// Reads up to `buf.len()` bytes from `at` on to the front of `buf`. Zero bytes into a buffer that is not empty are the end.
    fn read(&mut self, at: u64, buf: &mut [u8]) -> Result<usize, Failed>
        ensures bound { ReadsAtMost result buf.new }
        ensures reads { tells → Reads at (contents self.old) (contents self.new) result buf.new }
        ensures cause { HasCause (faults self.old) (faults self.new) result };

    /// Writes over what is there, and past the end; a gap is filled with zeros. A write that would end past place 2^63 fails.
    fn write_at(&mut self, at: u64, bytes: &[u8]) -> Result<(), Failed>
        ensures writes { tells → Writes at bytes.now (contents self.old) (contents self.new) result }
        ensures far { 2 ^ 63 < at + length bytes.now → IsErr result }
        ensures cause { HasCause (faults self.old) (faults self.new) result };

    /// Cuts the file to `size` bytes, where it has more.
    fn cut(&mut self, size: u64) -> Result<(), Failed>
        ensures cuts { tells → Cuts size (contents self.old) (contents self.new) result }
        ensures cause { HasCause (faults self.old) (faults self.new) result };

    /// After it a stop leaves what a read gives, where it succeeds.
    fn sync(&mut self) -> Result<(), Failed>
        ensures syncs { tells → Syncs (contents self.old) (contents self.new) result }
        ensures cause { HasCause (faults self.old) (faults self.new) result };

    /// How many bytes whoever writes a record behind the last byte may write ahead of it, so that later records lie where bytes are, and a sync
    /// has no new length to keep. It is a hint: of what a disk holds it says nothing.
    fn ahead(&self) -> usize;
}
