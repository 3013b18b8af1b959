//! One connection over which a load is sent.
ghost use Rattle.std.specs.Prelude.{◌≡◌, ◌⊎◌, ◌+◌, ◌≤◌, [], Some, IfOk, IsTrue};
ghost use Rattle.http_wire.specs.Memory.{source_left, sink_written};
ghost use Rattle.farm_server.specs.declared.served.TheConstants.{REQUESTS};
ghost use Rattle.farm_bulk.specs.Complete.{HasMemory, IsComplete};
ghost use Rattle.farm_bulk.specs.Connections.{Converses};

use farm_core::Bare;
use farm_desk::Solo;
use farm_server::{NoGate, REQUESTS, Served, serve_routed};
use http_wire::{Joined, MemoryLink, MemorySink, MemorySource};
use load_requests::{StillClock, StillDraws};
use memchr::memmem;
use route_table::Table;
use std::alloc::{AllocError, Global};

/// How many bytes may be written over a connection: more than the replies to a thousand requests of the load take.
const ROOM: usize = 4_194_304;

/// How many bytes one read gives at most.
const PIECE: usize = 8_192;

/// What stands in the first line of a reply that says that memory ran out, behind the status. No body has a line's end.
const OUT_OF_MEMORY: &[u8] = b" Service Unavailable\r\n";

/// A link on which these bytes come, and no call fails as long as there is room.
fn link(alloc: Global, sent: Vec<u8>) -> Result<MemoryLink, AllocError>
    ensures left { IfOk result (λ link. source_left link.source ≡ Some sent.items) }
    ensures written { IfOk result (λ link. sink_written link.sink ≡ Some []) }
{
    Ok(Joined {
        source: MemorySource::new(sent, Vec::new(alloc), PIECE),
        sink: MemorySink::new(alloc, ROOM, Vec::new(alloc))?,
    })
}

/// Whether a connection ended with all that was sent.
fn is_whole(served: Served) -> bool
    ensures { IsTrue result → (served ≡ Served.Closed) ⊎ (served ≡ Served.Full) }
{
    match served {
        Served::Closed | Served::Full => true,
        _ => false,
    }
}

/// Whether no reply says that memory ran out.
fn has_memory(written: &[u8]) -> bool
    ensures { IsTrue result → HasMemory written.now }
{
    match memmem::find(written, OUT_OF_MEMORY) {
        Some(_) => false,
        None => true,
    }
}

/// Whether all was answered over a connection that ended so, with this written.
fn is_complete(served: Served, clock: &StillClock, draws: &StillDraws, written: &[u8]) -> bool
    ensures { IsTrue result → IsComplete served clock.now draws.now written.now }
{
    is_whole(served) && clock.counts_all() && draws.counts_all() && has_memory(written)
}

/// Sends these bytes over a connection of its own, and gives what was written.
///
/// Whatever keeps a message of them from being answered, on links that do not fail, is want of memory.
pub(crate) fn converse(
    alloc: Global,
    table: &Table,
    desk: &mut Solo<Bare>,
    sent: Vec<u8>,
) -> Result<Vec<u8>, AllocError>
    requires { REQUESTS ≤ desk.old.1 }
    ensures spare { desk.old.1 ≤ desk.new.1 + REQUESTS }
    ensures conversed { IfOk result (λ written. Converses desk.old.0 desk.new.0 sent.items written.items) }
{
    let mut link = link(alloc, sent)?;
    let mut clock = StillClock::new();
    let mut draws = StillDraws::new();
    let served = serve_routed(
        alloc,
        table,
        &mut link,
        desk,
        &mut clock,
        &mut draws,
        &mut NoGate,
    );
    let written = link.sink.written();
    if !is_complete(served, &clock, &draws, written) {
        return Err(AllocError);
    }
    Vec::from_slice(alloc, written)
}
