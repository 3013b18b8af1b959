//! The queues for which room was made.
ghost use Rattle.std.specs.Prelude.{◌≡◌, ◌<◌, length, map};
ghost use Rattle.std.specs.Str.{bytes_eq};
ghost use Rattle.claim_queue.specs.Waits.{raised};
ghost use Rattle.claim_queue.specs.Places.{name_at};
ghost use Rattle.claim_queue.specs.WaitHeaps.{room_at, AreNamedApart};

use farm_text::Text;

/// A queue, and for how many rows room was made in it.
#[derive(Drop)]
pub(crate) struct Queue {
    pub(crate) name: Text,
    pub(crate) room: usize,
}

/// Whether a queue has a name.
pub(crate) fn is_named(queue: &Queue, name: &Text) -> bool
    ensures { result ≡ bytes_eq queue.now.name name.now }
{
    queue.name.as_str() == name.as_str()
}

/// For how many rows room was made in the queue at a place.
pub(crate) fn room_at(queues: &[Queue], place: usize) -> usize
    ensures { result ≡ room_at place queues.now }
{
    match queues.get(place) {
        Some(queue) => queue.room,
        None => 0,
    }
}

/// Makes room for so many rows at least in the queue at a place.
pub(crate) fn raise(queues: &mut Vec<Queue>, place: usize, room: usize)
    requires place { place < length queues.old.items }
    requires apart { AreNamedApart queues.old.items }
    ensures { queues.new.items ≡ map (raised (name_at place queues.old.items) room) queues.old.items }
{
    let queue = &mut queues[place];
    queue.room = queue.room.max(room);
}
