//! Room for rows by their numbers.
ghost use Rattle.std.specs.Prelude.{◌≡◌, ◌≤◌, ◌<◌, ◌^◌, [], length, vec_len, vec_capacity, MatchResult, OnOk, IfOk};
ghost use Rattle.claim_queue.specs.Held.{up_to};
ghost use Rattle.claim_queue.specs.Heaps.{IsWider};

use crate::queues::Queue;
use crate::turns::Turn;
use std::alloc::AllocError;

/// Makes room for all rows below a number. Where memory runs out, all stays as it was.
fn make_rows<T: Copy>(rows: &mut Vec<Option<T>>, below: u32) -> Result<(), AllocError>
    requires { length rows.old.items < 2 ^ 32 }
    ensures rows { MatchResult result (λ _. rows.new.items ≡ up_to below rows.old.items) (λ _. rows.new.items ≡ rows.old.items) }
    ensures small { length rows.new.items < 2 ^ 32 }
{
    let below = below as usize;
    if below <= rows.len() {
        return Ok(());
    }
    rows.resize(below, None)
}

/// Makes room for the places of all rows below a number. Where memory runs out, all stays as it was.
fn make_places(places: &mut Vec<usize>, below: u32) -> Result<(), AllocError>
    ensures wider { IsWider places.old.items places.new.items }
    ensures below { OnOk result (below ≤ length places.new.items) }
{
    let below = below as usize;
    if below <= places.len() {
        return Ok(());
    }
    places.resize(below, 0)
}

/// Makes room for so many turns. Where memory runs out, all stays as it was.
fn make_turns(heap: &mut Vec<Turn>, room: usize) -> Result<(), AllocError>
    ensures turns { heap.new.items ≡ heap.old.items }
    ensures memory { vec_capacity heap.old ≤ vec_capacity heap.new }
    ensures room { OnOk result (room ≤ vec_capacity heap.new) }
{
    heap.reserve(room.saturating_sub(heap.len()))
}

/// Makes room for so many turns, and for the places and the rows below a number. Where memory runs out, all stays as it was.
pub(crate) fn make_room<T: Copy>(
    heap: &mut Vec<Turn>,
    places: &mut Vec<usize>,
    rows: &mut Vec<Option<T>>,
    room: usize,
    below: u32,
) -> Result<(), AllocError>
    requires { length rows.old.items < 2 ^ 32 }
    ensures turns { heap.new.items ≡ heap.old.items }
    ensures memory { vec_capacity heap.old ≤ vec_capacity heap.new }
    ensures room { OnOk result (room ≤ vec_capacity heap.new) }
    ensures places { IsWider places.old.items places.new.items }
    ensures below { OnOk result (below ≤ length places.new.items) }
    ensures rows { MatchResult result (λ _. rows.new.items ≡ up_to below rows.old.items) (λ _. rows.new.items ≡ rows.old.items) }
    ensures small { length rows.new.items < 2 ^ 32 }
{
    make_turns(heap, room)?;
    make_places(places, below)?;
    make_rows(rows, below)
}

/// An empty heap with room for so many turns, and room for it, its queue, and the places and the rows below a number. Where memory runs
/// out, all stays as it was.
pub(crate) fn make_heap<T: Copy>(
    queues: &mut Vec<Queue>,
    heaps: &mut Vec<Vec<Turn>>,
    places: &mut Vec<usize>,
    rows: &mut Vec<Option<T>>,
    room: usize,
    below: u32,
) -> Result<Vec<Turn>, AllocError>
    requires { length rows.old.items < 2 ^ 32 }
    ensures same { (queues.new.items ≡ queues.old.items) × (heaps.new.items ≡ heaps.old.items) }
    ensures more { OnOk result ((vec_len queues.new < vec_capacity queues.new) × (vec_len heaps.new < vec_capacity heaps.new)) }
    ensures heap { IfOk result (λ heap. (heap.items ≡ []) × (room ≤ vec_capacity heap)) }
    ensures places { IsWider places.old.items places.new.items }
    ensures below { OnOk result (below ≤ length places.new.items) }
    ensures rows { MatchResult result (λ _. rows.new.items ≡ up_to below rows.old.items) (λ _. rows.new.items ≡ rows.old.items) }
    ensures small { length rows.new.items < 2 ^ 32 }
{
    let mut heap = Vec::new(*heaps.allocator());
    queues.reserve(1)?;
    heaps.reserve(1)?;
    make_room(&mut heap, places, rows, room, below)?;
    Ok(heap)
}
