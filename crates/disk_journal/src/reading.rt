//! Reading all of a disk.
ghost use Rattle.std.specs.Prelude.{◌≡◌, ℕ, ◌<◌, ◌≤◌, length, take, vec_len, true, false, Ok, Err, IfOk};
ghost use Rattle.disk_journal.specs.declared.fault.OpenFault.TheVariants.{Damaged};
ghost use Rattle.disk_journal.specs.Opening.{IsStill, HasOpenCause};

use crate::fault::OpenFault;
use causes::Failed;
use disk_base::Disk;
use std::alloc::Global;

const PIECE: usize = 8192;

// Adds what one read gives to the bytes before it, and says whether it gave some.
fn read_piece<D: Disk>(
    disk: &mut D,
    bytes: &mut Vec<u8>,
    piece: &mut [u8],
) -> Result<bool, OpenFault>
    requires { 0 < length piece.old }
    ensures still { D.tells → IsStill (D.contents disk.old) (D.contents disk.new) }
    ensures front { D.tells → bytes.old.items ≡ take (vec_len bytes.old) (D.contents disk.old).bytes → bytes.new.items ≡ take (vec_len bytes.new) (D.contents disk.old).bytes }
    ensures more { result ≡ Ok true → vec_len bytes.old < vec_len bytes.new }
    ensures end { D.tells → result ≡ Ok false → length (D.contents disk.old).bytes ≤ vec_len bytes.new }
    ensures cause { HasOpenCause (D.faults disk.old) (D.faults disk.new) result }
    ensures undamaged { (place : ℕ) → result ≡ Err (Damaged place) → ⊥ }
{
    match disk.read(bytes.len() as u64, piece) {
        Ok(0) => Ok(false),
        Ok(count) => match bytes.extend_from_slice(&piece[..count]) {
            Ok(()) => Ok(true),
            Err(_) => Err(OpenFault::NoMemory),
        },
        Err(Failed) => Err(OpenFault::Disk),
    }
}

/// All bytes of a disk, each read once.
pub(crate) fn read_disk<D: Disk>(alloc: Global, disk: &mut D) -> Result<Vec<u8>, OpenFault>
    ensures still { D.tells → IsStill (D.contents disk.old) (D.contents disk.new) }
    ensures bytes { D.tells → IfOk result (λ bytes. bytes.items ≡ (D.contents disk.old).bytes) }
    ensures cause { HasOpenCause (D.faults disk.old) (D.faults disk.new) result }
    ensures undamaged { (place : ℕ) → result ≡ Err (Damaged place) → ⊥ }
{
    let mut bytes = Vec::new(alloc);
    let mut piece = [0; PIECE];
    loop {
        match read_piece(disk, &mut bytes, &mut piece) {
            Ok(true) => {}
            Ok(false) => return Ok(bytes),
            Err(fault) => return Err(fault),
        }
    }
}
