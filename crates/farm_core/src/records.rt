//! The records of a farm's changes on its disk.
ghost use Rattle.std.specs.Prelude.{◌≡◌, ◌+◌, ◌≤◌, true, false, ℕ, List, [], ◌∷◌, length, OnOk, OnErr};
ghost use Rattle.causes.specs.Causes.{HasCause};
ghost use Rattle.disk_journal.specs.Keeping.{IsReady, Keeps};

use disk_base::Disk;
use disk_journal::{DiskFault, Frame, Journal};
use std::marker::Model;

/// A journal of records, how many it has, and whether a call of its disk failed. Until one fails it is ready for more.
#[derive(Drop)]
pub struct Records<D: Disk> {
    journal: Journal<D>,
    count: u64,
    halted: bool,
}

impl<D: Disk> Model for Records<D> {
    ghost use Rattle.std.specs.Prelude.{◌≡◌, ◌≤◌, false, ℕ, List, [], length};
    ghost use Rattle.disk_journal.specs.Keeping.{IsReady};
    ghost use Rattle.farm_core.specs.Records.{Recorded};

    ghost Value = { Recorded D };

    ghost view = { λ r. record { disk = r.journal.disk; end = r.journal.end; count = r.count; halted = r.halted } };

    ghost invariant = { λ r. r.halted ≡ false → (r.count ≤ r.journal.end)
        × (D.tells → (bodies : List (List ℕ)) × IsReady [] (D.contents r.journal.disk) r.journal.end bodies × (r.count ≡ length bodies)) };
}

impl<D: Disk> Records<D> {
    /// The records of a journal that was opened with so many bodies.
    pub(crate) fn new(journal: Journal<D>, count: u64) -> Self
        requires few { count ≤ journal.end }
        requires ready { D.tells → (bodies : List (List ℕ)) × IsReady [] (D.contents journal.disk) journal.end bodies × (count ≡ length bodies) }
        ensures { result ≡ record { disk = journal.disk; end = journal.end; count = count; halted = false } }
    {
        Records {
            journal,
            count,
            halted: false,
        }
    }

    /// Whether a call of the disk failed.
    pub(crate) fn halted(&self) -> bool
        ensures { result ≡ self.now.halted }
    {
        self.halted
    }

    /// How many records there are.
    pub(crate) fn count(&self) -> u64
        ensures { result ≡ self.now.count }
    {
        self.count
    }

    /// The disk.
    pub(crate) fn into_disk(self) -> D
        ensures { result ≡ self.disk }
    {
        self.journal.into_disk()
    }

    /// Keeps one record more. At `Ok` each image of the disk has it.
    pub(crate) fn keep<F: Frame>(&mut self, frame: &F) -> Result<(), DiskFault>
        requires { self.old.halted ≡ false }
        ensures kept { D.tells → OnOk result (Keeps [] (D.contents self.old.disk) self.old.end (D.contents self.new.disk) self.new.end (F.body frame.now ∷ []) []) }
        ensures failed { D.tells → OnErr result (Keeps [] (D.contents self.old.disk) self.old.end (D.contents self.new.disk) self.new.end [] (F.body frame.now ∷ [])) }
        ensures counted { OnOk result (self.new.count ≡ self.old.count + 1) }
        ensures stays { OnErr result (self.new.count ≡ self.old.count) }
        ensures works { OnOk result (self.new.halted ≡ false) }
        ensures halts { OnErr result (self.new.halted ≡ true) }
        ensures cause { HasCause (D.faults self.old.disk) (D.faults self.new.disk) result }
    {
        match self.journal.keep(frame) {
            Ok(()) => {
                self.count = self.count.saturating_add(1);
                Ok(())
            }
            Err(DiskFault) => {
                self.halted = true;
                Err(DiskFault)
            }
        }
    }
}
