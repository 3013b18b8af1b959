//! Replaying the records of a journal.
ghost use Rattle.std.specs.Prelude.{◌≡◌};
ghost use Rattle.disk_journal.specs.Opened.{opened_bodies, opened_places};
ghost use Rattle.disk_journal.specs.Records.{placed};
ghost use Rattle.farm_core.specs.Reading.{IsRead, IsRestored, IsFirstFault};

use disk_journal::{Bodies, OpenFault};
use farm_machine::replay::replay;
use farm_machine::tables::Tables;
use farm_record::read_record;
use std::alloc::{AllocError, Global};

/// Replays the change that a body is the record of, and says whether it is one that may come there.
fn restore_one(alloc: Global, tables: &mut Tables, body: &[u8]) -> Result<bool, AllocError>
    ensures { IsRead tables.old body.now result tables.new }
{
    match read_record(alloc, body)? {
        Some(change) => replay(alloc, tables, change),
        None => Ok(false),
    }
}

/// The tables that the replay of all bodies leaves. One that is no record, or whose change may not come behind those before it, is damaged at
/// its gate.
pub(crate) fn restore(alloc: Global, bodies: &Bodies) -> Result<Tables, OpenFault>
    requires { opened_places bodies.now ≡ placed 0 (opened_bodies bodies.now) }
    ensures { IsRestored (opened_bodies bodies.now) result }
{
    let mut tables = Tables::new(alloc);
    for index in 0..bodies.len() {
        match restore_one(alloc, &mut tables, bodies.get(index)) {
            Ok(true) => {}
            Ok(false) => {
                drop(tables);
                return Err(OpenFault::Damaged(bodies.place(index)));
            }
            Err(_) => {
                drop(tables);
                return Err(OpenFault::NoMemory);
            }
        }
    }
    Ok(tables)
}

/// The first fault of a disk whose journal was refused with this one, behind these bodies: where it is damaged, a body before may be broken.
pub(crate) fn first_fault(alloc: Global, fault: OpenFault, before: &Bodies) -> OpenFault
    requires { opened_places before.now ≡ placed 0 (opened_bodies before.now) }
    ensures { IsFirstFault (opened_bodies before.now) fault result }
{
    if !matches!(fault, OpenFault::Damaged(_)) {
        return fault;
    }
    match restore(alloc, before) {
        Ok(tables) => {
            drop(tables);
            fault
        }
        Err(broken) => broken,
    }
}
