//! A write that is synced at once.
ghost use Rattle.std.specs.Prelude.{◌<◌, ◌+◌, ◌^◌, length, IsErr};
ghost use Rattle.causes.specs.Causes.{HasCause};
ghost use Rattle.disk_base.specs.Contents.{IsSettled};
ghost use Rattle.disk_journal.specs.Keeping.{Puts};

use causes::Failed;
use disk_base::Disk;

/// Writes bytes on a disk where nothing is pending, and syncs.
pub(crate) fn put<D: Disk>(disk: &mut D, at: u64, bytes: &[u8]) -> Result<(), Failed>
    ensures puts { D.tells → IsSettled (D.contents disk.old) → Puts at bytes.now (D.contents disk.old) (D.contents disk.new) result }
    ensures far { 2 ^ 63 < at + length bytes.now → IsErr result }
    ensures cause { HasCause (D.faults disk.old) (D.faults disk.new) result }
{
    match disk.write_at(at, bytes) {
        Ok(()) => {}
        Err(Failed) => return Err(Failed),
    }
    match disk.sync() {
        Ok(()) => Ok(()),
        Err(Failed) => Err(Failed),
    }
}
