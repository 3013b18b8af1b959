//! A journal on a disk, and an append to it.
ghost use Rattle.std.specs.Prelude.{◌≡◌, ◌≢◌, ◌+◌, ◌<◌, ◌≤◌, ◌^◌, ℕ, List, [], ◌∷◌, Option, option_to_list, length, OnOk, OnErr, IfOk, IfErr};
ghost use Rattle.causes.specs.Causes.{HasCause};
ghost use Rattle.disk_base.specs.Contents.{IsSettled, StopsLeave};
ghost use Rattle.disk_journal.specs.declared.fault.OpenFault.TheVariants.{Disk};
ghost use Rattle.disk_journal.specs.Images.{IsImage, IsWithin};
ghost use Rattle.disk_journal.specs.Journals.{disk_after};
ghost use Rattle.disk_journal.specs.Keeping.{IsReady, Keeps};
ghost use Rattle.disk_journal.specs.Opening.{IsStill, HasOpenCause, answer_of};

use crate::bodies::Bodies;
use crate::fault::{DiskFault, OpenFault};
use crate::frames::Frame;
use crate::opening::open_disk;
use crate::put::put;
use causes::Failed;
use disk_base::Disk;
use std::alloc::Global;

/// The most bytes that are written ahead of a record.
const MOST_AHEAD: usize = 65_536;

/// An open gate's byte.
pub(crate) const OPEN: u8 = 0xa5;

/// A journal at work: bodies on a disk, one behind the other.
#[derive(Drop)]
pub struct Journal<D: Disk> {
    pub(crate) disk: D,
    // The place of the closed gate behind the bodies.
    pub(crate) end: u64,
    // Up to where bytes are known to be.
    room: u64,
    ghost within: { end < 2 ^ 63 },
}

impl<D: Disk> Journal<D> {
    ghost use Rattle.disk_journal.specs.Opened.{HasFound, HasBefore};

    /// Opens the journal on a disk: syncs, reads all bytes once, follows the open records, and closes the gate behind them where it
    /// is not. An `Err` hands the disk back, and unless a call of it failed it is as it was, with nothing pending; where it is damaged the bodies
    /// before the damaged gate are beside it, else none.
    ///
    /// Over a file that a stop of an earlier journal left, a stop in it leaves what a stop at its start might have left, or the same bodies, or
    /// these and the one pending behind them.
    pub fn open(alloc: Global, disk: D) -> Result<(Self, Bodies), (OpenFault, D, Bodies)>
        ensures opened { IfOk result (λ o. HasFound D.tells (D.contents disk).bytes (D.contents o.0.disk) o.0.end o.1) }
        ensures refused { IfErr result (λ e. HasBefore D.tells (D.contents disk).bytes e.0 e.2) }
        ensures untouched { D.tells → IfErr result (λ e. e.0 ≢ Disk → IsStill (D.contents disk) (D.contents e.1) × IsSettled (D.contents e.1)) }
        ensures any_moment { D.tells → (bodies : List (List ℕ)) (pending : Option (List ℕ)) → IsImage [] bodies pending (D.contents disk).bytes
            → StopsLeave (D.contents disk) (D.contents (disk_after (λ j. j.disk) result)) (IsWithin [] bodies (option_to_list pending)) }
        ensures cause { HasOpenCause (D.faults disk) (D.faults (disk_after (λ j. j.disk) result)) (answer_of (λ e. e.0) result) }
    {
        let mut disk = disk;
        match open_disk(alloc, &mut disk) {
            Ok((end, bodies)) => {
                let room = bodies.file.len() as u64;
                Ok((Journal { disk, end, room }, bodies))
            }
            Err((fault, before)) => Err((fault, disk, before)),
        }
    }

    /// The disk.
    pub fn into_disk(self) -> D
        ensures { result ≡ self.disk }
    {
        self.disk
    }

    /// Adds a body, in four calls of the disk: it is written behind the closed gate and synced, and then its gate is opened
    /// and synced. A stop in any of them leaves the bodies that were there, or these and this one.
    ///
    /// At `Ok` each image has the body; at `Err` it may be there or not. Over any disk the end moves on by the record's length at `Ok`, and
    /// `Err` comes only where a call of the disk failed. A journal that answered `DiskFault` may append no more.
    pub fn append<F: Frame>(&mut self, frame: &F) -> Result<(), DiskFault>
        requires ready { D.tells → (bodies : List (List ℕ)) × IsReady [] (D.contents self.old.disk) self.old.end bodies }
        ensures kept { D.tells → OnOk result (Keeps [] (D.contents self.old.disk) self.old.end (D.contents self.new.disk) self.new.end (F.body frame.now ∷ []) []) }
        ensures failed { D.tells → OnErr result (Keeps [] (D.contents self.old.disk) self.old.end (D.contents self.new.disk) self.new.end [] (F.body frame.now ∷ [])) }
        ensures moves { OnOk result (self.new.end ≡ self.old.end + 5 + length (F.body frame.now)) }
        ensures cause { HasCause (D.faults self.old.disk) (D.faults self.new.disk) result }
    {
        let text = frame.text();
        match put(&mut self.disk, self.end + 1, text) {
            Ok(()) => {}
            Err(Failed) => return Err(DiskFault),
        }
        match put(&mut self.disk, self.end, &[OPEN]) {
            Ok(()) => {}
            Err(Failed) => return Err(DiskFault),
        }
        self.end += text.len() as u64;
        Ok(())
    }

    /// Adds a body as `append` does, behind which the disk has bytes where it asks for some ahead: then one in many of these calls first writes
    /// zeros, and syncs.
    pub fn keep<F: Frame>(&mut self, frame: &F) -> Result<(), DiskFault>
        requires ready { D.tells → (bodies : List (List ℕ)) × IsReady [] (D.contents self.old.disk) self.old.end bodies }
        ensures kept { D.tells → OnOk result (Keeps [] (D.contents self.old.disk) self.old.end (D.contents self.new.disk) self.new.end (F.body frame.now ∷ []) []) }
        ensures failed { D.tells → OnErr result (Keeps [] (D.contents self.old.disk) self.old.end (D.contents self.new.disk) self.new.end [] (F.body frame.now ∷ [])) }
        ensures moves { OnOk result (self.new.end ≡ self.old.end + 5 + length (F.body frame.now)) }
        ensures cause { HasCause (D.faults self.old.disk) (D.faults self.new.disk) result }
    {
        match self.make_room(frame.text().len()) {
            Ok(()) => self.append(frame),
            Err(DiskFault) => Err(DiskFault),
        }
    }

    /// Writes zeros behind the closed gate where fewer than `size` bytes are there, as many as the disk asks for, if those are enough.
    fn make_room(&mut self, size: usize) -> Result<(), DiskFault>
        ensures kept { D.tells → OnOk result (Keeps [] (D.contents self.old.disk) self.old.end (D.contents self.new.disk) self.new.end [] []) }
        ensures failed { D.tells → (body : List ℕ) → OnErr result (Keeps [] (D.contents self.old.disk) self.old.end (D.contents self.new.disk) self.new.end [] (body ∷ [])) }
        ensures stays { self.new.end ≡ self.old.end }
        ensures cause { HasCause (D.faults self.old.disk) (D.faults self.new.disk) result }
    {
        let count = self.disk.ahead().min(MOST_AHEAD);
        if self.room.saturating_sub(self.end + 1) >= size as u64 || count < size.max(1) {
            return Ok(());
        }
        let zeros = [0; MOST_AHEAD];
        self.write_ahead(&zeros[..count])
    }

    /// Writes bytes that count for nothing behind the closed gate.
    fn write_ahead(&mut self, zeros: &[u8]) -> Result<(), DiskFault>
        requires some { 0 < length zeros.now }
        requires few { length zeros.now ≤ MOST_AHEAD }
        ensures kept { D.tells → OnOk result (Keeps [] (D.contents self.old.disk) self.old.end (D.contents self.new.disk) self.new.end [] []) }
        ensures failed { D.tells → (body : List ℕ) → OnErr result (Keeps [] (D.contents self.old.disk) self.old.end (D.contents self.new.disk) self.new.end [] (body ∷ [])) }
        ensures stays { self.new.end ≡ self.old.end }
        ensures cause { HasCause (D.faults self.old.disk) (D.faults self.new.disk) result }
    {
        match put(&mut self.disk, self.end + 1, zeros) {
            Ok(()) => {
                self.room = self.end + 1 + zeros.len() as u64;
                Ok(())
            }
            Err(Failed) => Err(DiskFault),
        }
    }
}
