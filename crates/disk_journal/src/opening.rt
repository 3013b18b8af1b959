//! Opening a journal.
ghost use Rattle.std.specs.Prelude.{◌≡◌, ◌≢◌, ℕ, ◌<◌, ◌≤◌, ◌^◌, List, [], length, Option, option_to_list, Err, IfOk, IfErr, OnOk};
ghost use Rattle.causes.specs.Causes.{HasCause};
ghost use Rattle.disk_base.specs.Contents.{IsSettled, StopsLeave};
ghost use Rattle.disk_journal.specs.declared.fault.OpenFault.TheVariants.{Disk};
ghost use Rattle.disk_journal.specs.Images.{IsImage, IsWithin};
ghost use Rattle.disk_journal.specs.Opened.{HasFound, HasBefore};
ghost use Rattle.disk_journal.specs.Opening.{IsStill, Mends, HasOpenCause, answer_of};

use crate::bodies::Bodies;
use crate::fault::OpenFault;
use crate::follow::follow;
use crate::put::put;
use crate::reading::read_disk;
use crate::spans::Followed;
use causes::Failed;
use disk_base::Disk;
use std::alloc::Global;

// Closes the gate at that place of a disk where nothing is pending and a read gives these bytes.
fn mend<D: Disk>(disk: &mut D, file: &[u8], end: usize) -> Result<(), Failed>
    requires { end ≤ length file.now }
    ensures mends { D.tells → IsSettled (D.contents disk.old) → (D.contents disk.old).bytes ≡ file.now → Mends end file.now (D.contents disk.old) (D.contents disk.new) result }
    ensures cause { HasCause (D.faults disk.old) (D.faults disk.new) result }
{
    if end < file.len() && file[end] == 0 {
        return Ok(());
    }
    put(disk, end as u64, &[0])
}

/// Opens the journal on a disk: syncs, reads, follows the open records, and closes the gate behind them where it is not. Where it is damaged,
/// the bodies before the damage stand beside the fault, else none.
pub(crate) fn open_disk<D: Disk>(
    alloc: Global,
    disk: &mut D,
) -> Result<(u64, Bodies), (OpenFault, Bodies)>
    ensures opened { IfOk result (λ o. HasFound D.tells (D.contents disk.old).bytes (D.contents disk.new) o.0 o.1) }
    ensures refused { IfErr result (λ e. HasBefore D.tells (D.contents disk.old).bytes e.0 e.1) }
    ensures untouched { D.tells → IfErr result (λ e. e.0 ≢ Disk → IsStill (D.contents disk.old) (D.contents disk.new) × IsSettled (D.contents disk.new)) }
    ensures any_moment { D.tells → (bodies : List (List ℕ)) (pending : Option (List ℕ)) → IsImage [] bodies pending (D.contents disk.old).bytes
        → StopsLeave (D.contents disk.old) (D.contents disk.new) (IsWithin [] bodies (option_to_list pending)) }
    ensures cause { HasOpenCause (D.faults disk.old) (D.faults disk.new) (answer_of (λ e. e.0) result) }
    ensures within { IfOk result (λ o. o.0 < 2 ^ 63) }
{
    match disk.sync() {
        Ok(()) => {}
        Err(Failed) => return Err((OpenFault::Disk, Bodies::none(alloc))),
    }
    let file = match read_disk(alloc, disk) {
        Ok(file) => file,
        Err(fault) => return Err((fault, Bodies::none(alloc))),
    };
    let (spans, end) = match follow(alloc, &file) {
        Ok(Followed::End { spans, end }) => (spans, end),
        Ok(Followed::Damaged { spans, place }) => {
            return Err((OpenFault::Damaged(place as u64), Bodies { file, spans }));
        }
        Err(_) => return Err((OpenFault::NoMemory, Bodies::none(alloc))),
    };
    match mend(disk, &file, end) {
        Ok(()) => Ok((end as u64, Bodies { file, spans })),
        Err(Failed) => Err((OpenFault::Disk, Bodies::none(alloc))),
    }
}
