//! Room that is taken before it is needed: a list that is longer stands ready wherever one is full. For how many a list has room at least is
//! a function of how many it has, so a plan knows what is wanting from the tasks alone.
ghost use Rattle.std.specs.Prelude.{◌≡◌, ◌+◌, ◌<◌, ◌≤◌, [], ◌∷◌, ◌++◌, max, length, vec_len, vec_capacity, IfOk};
ghost use Rattle.task_index.specs.Plans.{room_for, HasRoom};

use std::alloc::{AllocError, Global};
use std::marker::Model;

/// For how many there is room at least where there are so many.
fn room_for(stand: usize) -> usize
    ensures { result ≡ room_for stand }
{
    match stand {
        0 => 0,
        1..=8 => 8,
        9..=64 => 64,
        65..=512 => 512,
        513..=4_096 => 4_096,
        4_097..=32_768 => 32_768,
        32_769..=262_144 => 262_144,
        _ => 1_048_576,
    }
}

/// An empty list that has room for one more than so many, where lists of so many have none.
pub(crate) fn grown<T: Drop>(alloc: Global, stand: usize) -> Result<Vec<T>, AllocError>
    requires { stand ≤ 1_000_000 }
    ensures { IfOk result (λ v. (v.items ≡ []) × HasRoom stand (vec_capacity v)) }
{
    let room = room_for(stand + 1);
    if room > room_for(stand) {
        Vec::with_capacity(alloc, room)
    } else {
        Ok(Vec::new(alloc))
    }
}

/// Adds an item to a list, which moves into an empty one, where that has more room.
pub fn add<T: Drop>(list: &mut Vec<T>, grown: Vec<T>, item: T)
    requires empty { grown.items ≡ [] }
    requires room { vec_len list.old < max (vec_capacity list.old) (vec_capacity grown) }
    ensures items { list.new.items ≡ list.old.items ++ item ∷ [] }
    ensures capacity { max (vec_capacity list.old) (vec_capacity grown) ≤ vec_capacity list.new }
{
    make_room(list, grown);
    if list.push(item).is_err() {
        unreachable!();
    }
}

/// Moves a list into an empty one, where that has more room.
fn make_room<T: Drop>(list: &mut Vec<T>, mut grown: Vec<T>)
    requires { grown.items ≡ [] }
    ensures items { list.new.items ≡ list.old.items }
    ensures len { vec_len list.new ≡ vec_len list.old }
    ensures capacity { max (vec_capacity list.old) (vec_capacity grown) ≤ vec_capacity list.new }
{
    if grown.capacity() > list.capacity() {
        if grown.append(list).is_err() {
            unreachable!();
        }
        *list = grown;
    }
}

/// A list without places that a plan brings, where one is full; else one without room. It is seen as the number for which it has room.
#[derive(Drop)]
pub struct Spare {
    places: Vec<u32>,
}

impl Model for Spare {
    ghost use Rattle.std.specs.Prelude.{◌≡◌, ℕ, [], vec_capacity};

    ghost Value = { ℕ };

    ghost view = { λ s. vec_capacity s.places };

    ghost invariant = { λ s. s.places.items ≡ [] };
}

impl Spare {
    /// No room, which takes no memory.
    pub(crate) fn none(alloc: Global) -> Spare {
        Spare {
            places: Vec::new(alloc),
        }
    }

    /// Room for one more than so many, where lists of so many have none.
    pub(crate) fn new(alloc: Global, stand: usize) -> Result<Spare, AllocError>
        requires { stand ≤ 1_000_000 }
        ensures { IfOk result (λ spare. HasRoom stand spare) }
    {
        Ok(Spare {
            places: grown(alloc, stand)?,
        })
    }

    /// Adds a place to a list, which moves into this one, where that has more room.
    pub fn add(self, list: &mut Vec<u32>, place: u32)
        requires few { length list.old.items ≤ 1_000_000 }
        requires kept { room_for (length list.old.items) ≤ vec_capacity list.old }
        requires room { HasRoom (length list.old.items) self }
        ensures items { list.new.items ≡ list.old.items ++ place ∷ [] }
        ensures kept { room_for (length list.new.items) ≤ vec_capacity list.new }
    {
        add(list, self.places, place);
    }
}
