//! The doors of a house in memory.
ghost use Rattle.std.specs.Prelude.{◌≡◌, string_bytes, option_map, vec_capacity, IfOk};
ghost use Rattle.houses.specs.House.{CanListen, after_listening, after_leaving, ajar, left_of, refuses, shut};
ghost use Rattle.houses.specs.MemoryHouse.{doors_of, only_file};
ghost use Rattle.houses.specs.declared.memory_doors.MemoryDoors.TheVariants.{Shut};

use causes::Failed;
use listeners::MemoryListener;
use std::alloc::{AllocError, Global};
use std::mem;

/// A door, and its address.
#[derive(Drop)]
pub(crate) struct NamedDoor {
    pub address: String,
    pub door: MemoryListener,
}

/// What a house in memory has of doors: one at most is opened, and those that come back are kept while there is room.
#[derive(Drop)]
pub(crate) enum MemoryDoors {
    /// None was opened. Here is the one that can be, if there is one, and room for those that come back.
    Shut(Option<NamedDoor>, Vec<MemoryListener>),
    /// One was opened, and these came back.
    Opened(Vec<MemoryListener>),
    /// The house does not tell.
    Silent,
}

impl MemoryDoors {
    /// There is no door.
    pub(crate) fn none(alloc: Global) -> MemoryDoors
        ensures { doors_of result ≡ shut 0 (λ address. refuses) }
    {
        MemoryDoors::Shut(None, Vec::new(alloc))
    }

    /// There is this door at this address, and room for so many that come back.
    pub(crate) fn one(
        alloc: Global,
        address: String,
        door: MemoryListener,
        room: usize,
    ) -> Result<MemoryDoors, AllocError>
        ensures { IfOk result (λ doors. doors_of doors ≡ shut room (only_file (string_bytes address) door)) }
    {
        let back = Vec::with_capacity(alloc, room)?;
        Ok(MemoryDoors::Shut(Some(NamedDoor { address, door }), back))
    }

    /// Opens the door at this address, where there is one, and none was opened.
    pub(crate) fn open(&mut self, address: &str) -> Result<MemoryListener, Failed>
        ensures opens { CanListen (doors_of self.old) address.now result }
        ensures after { doors_of self.new ≡ after_listening (doors_of self.old) result }
    {
        match mem::replace(self, MemoryDoors::Silent) {
            MemoryDoors::Shut(door, back) => {
                let (doors, opened) = open_named(door, back, address);
                *self = doors;
                opened
            }
            others => {
                *self = others;
                Err(Failed)
            }
        }
    }

    /// Keeps a door that came back, where one was opened and there is room.
    pub(crate) fn take_back(&mut self, door: MemoryListener)
        ensures { doors_of self.new ≡ after_leaving (doors_of self.old) door }
    {
        *self = match mem::replace(self, MemoryDoors::Silent) {
            MemoryDoors::Opened(back) => kept_in(back, door),
            _ => MemoryDoors::Silent,
        };
    }

    /// The doors that came back, in order, where that is told.
    pub(crate) fn returned(&self) -> Option<&[MemoryListener]>
        ensures { option_map (λ doors. doors.now) result ≡ left_of (doors_of self.now) }
    {
        match self {
            MemoryDoors::Opened(back) => Some(back.as_slice()),
            _ => None,
        }
    }
}

/// Opens a door where it is there, and has this address.
fn open_named(
    door: Option<NamedDoor>,
    back: Vec<MemoryListener>,
    address: &str,
) -> (MemoryDoors, Result<MemoryListener, Failed>)
    ensures opens { CanListen (doors_of (Shut door back)) address.now result.1 }
    ensures after { doors_of result.0 ≡ after_listening (doors_of (Shut door back)) result.1 }
{
    let Some(named) = door else {
        return (MemoryDoors::Shut(None, back), Err(Failed));
    };
    if named.address.as_str() == address {
        let mut kept = back;
        kept.clear();
        (MemoryDoors::Opened(kept), Ok(named.door))
    } else {
        (MemoryDoors::Shut(Some(named), back), Err(Failed))
    }
}

/// These doors came back, and this one, where there is room for it.
fn kept_in(back: Vec<MemoryListener>, door: MemoryListener) -> MemoryDoors
    ensures { doors_of result ≡ after_leaving (ajar (vec_capacity back) back.items) door }
{
    let mut back = back;
    if back.len() < back.capacity() {
        back.push_reserved(door);
        MemoryDoors::Opened(back)
    } else {
        MemoryDoors::Silent
    }
}
