//! A house in memory, which tells all that it lends.
ghost use Rattle.std.specs.Prelude.{◌≡◌, string_bytes, option_map, IfOk};
ghost use Rattle.std.specs.Option.{option_copied};
ghost use Rattle.houses.specs.declared.lending.Lending.TheVariants.{Ready};
ghost use Rattle.houses.specs.House.{after_opening, came_back, unopened, refuses, returned, CanOpenAmong, shut, left_of};
ghost use Rattle.houses.specs.MemoryHouse.{disks_of, doors_of, files_of, only_file};

use crate::house::House;
use crate::lending::Lending;
use crate::memory_doors::MemoryDoors;
use causes::{Failed, FaultCount};
use disk_base::MemoryDisk;
use farm_text::{ListClock, ListDraws};
use http_wire::{Joined, MemoryLink, MemorySink, MemorySource};
use listeners::MemoryListener;
use std::alloc::{AllocError, Global};
use std::io::ErrorKind;

/// A house in memory. It has one farm file, one disk and one door at most, and refuses to open one of another name.
///
/// An object that is asked for when it is out is given as an empty one.
#[derive(Drop)]
pub struct MemoryHouse {
    alloc: Global,
    farm_name: String,
    farm_file: Lending<MemorySource>,
    disk: Option<NamedDisk>,
    console: Lending<MemoryLink>,
    notes: Lending<MemorySink>,
    clock: Lending<ListClock>,
    draws: Lending<ListDraws>,
    doors: MemoryDoors,
    refusals: FaultCount,
}

/// A disk that a house lends, and its name.
#[derive(Drop)]
struct NamedDisk {
    name: String,
    disk: Lending<MemoryDisk>,
}

impl MemoryHouse {
    /// A house that lends these, and whose farm file has this name.
    pub fn new(
        alloc: Global,
        farm_name: String,
        farm_file: MemorySource,
        console: MemoryLink,
        notes: MemorySink,
        clock: ListClock,
        draws: ListDraws,
    ) -> Self
        ensures lends { ⟦<MemoryHouse as House>⟧.lends result ≡ record {
          file = unopened (only_file (string_bytes farm_name) farm_file);
          disk = unopened (λ name. refuses);
          console = Ready console;
          notes = Ready notes;
          clock = Ready clock;
          draws = Ready draws;
          doors = shut 0 (λ address. refuses);
        } }
        ensures refusals { ⟦<MemoryHouse as House>⟧.refusals result ≡ 0 }
    {
        MemoryHouse {
            alloc,
            farm_name,
            farm_file: Lending::Ready(farm_file),
            disk: None,
            console: Lending::Ready(console),
            notes: Lending::Ready(notes),
            clock: Lending::Ready(clock),
            draws: Lending::Ready(draws),
            doors: MemoryDoors::none(alloc),
            refusals: FaultCount::new(),
        }
    }

    /// The house with this disk, which has this name.
    pub fn with_disk(self, name: String, disk: MemoryDisk) -> Self
        ensures lends { ⟦<MemoryHouse as House>⟧.lends result
            ≡ record (⟦<MemoryHouse as House>⟧.lends self) { disk = unopened (only_file (string_bytes name) disk) } }
        ensures refusals { ⟦<MemoryHouse as House>⟧.refusals result ≡ ⟦<MemoryHouse as House>⟧.refusals self }
    {
        let mut house = self;
        let disk = Lending::Ready(disk);
        house.disk = Some(NamedDisk { name, disk });
        house
    }

    /// The house with this door at this address. It keeps as many doors that come back as there is room for.
    ///
    /// # Errors
    ///
    /// Want of memory for that room.
    pub fn with_door(
        self,
        address: String,
        door: MemoryListener,
        room: usize,
    ) -> Result<Self, AllocError>
        ensures lends { IfOk result (λ house. ⟦<MemoryHouse as House>⟧.lends house
            ≡ record (⟦<MemoryHouse as House>⟧.lends self) { doors = shut room (only_file (string_bytes address) door) }) }
        ensures refusals { IfOk result (λ house. ⟦<MemoryHouse as House>⟧.refusals house ≡ ⟦<MemoryHouse as House>⟧.refusals self) }
    {
        let mut house = self;
        match MemoryDoors::one(house.alloc, address, door, room) {
            Ok(doors) => {
                house.doors = doors;
                Ok(house)
            }
            Err(error) => {
                drop(house);
                Err(error)
            }
        }
    }

    /// The doors that came back, in order, where that is told.
    pub fn returned_doors(&self) -> Option<&[MemoryListener]>
        ensures { option_map (λ doors. doors.now) result ≡ left_of (⟦<MemoryHouse as House>⟧.lends self.now).doors }
    {
        self.doors.returned()
    }

    /// The disk, if it came back.
    pub fn returned_disk(&self) -> Option<&MemoryDisk>
        ensures { option_copied result ≡ came_back (⟦<MemoryHouse as House>⟧.lends self.now).disk }
    {
        match &self.disk {
            Some(named) => named.disk.returned(),
            None => None,
        }
    }

    /// The console, if it came back.
    pub fn returned_console(&self) -> Option<&MemoryLink>
        ensures { option_copied result ≡ returned (⟦<MemoryHouse as House>⟧.lends self.now).console }
    {
        self.console.returned()
    }

    /// The notes, if they came back.
    pub fn returned_notes(&self) -> Option<&MemorySink>
        ensures { option_copied result ≡ returned (⟦<MemoryHouse as House>⟧.lends self.now).notes }
    {
        self.notes.returned()
    }

    /// How many openings were refused.
    pub fn refusals(&self) -> u64
        ensures { result ≡ ⟦<MemoryHouse as House>⟧.refusals self.now }
    {
        self.refusals.get()
    }
}

impl House for MemoryHouse {
    type File = MemorySource;

    type Store = MemoryDisk;

    type Console = MemoryLink;

    type Notes = MemorySink;

    type Time = ListClock;

    type Ids = ListDraws;

    type Door = MemoryListener;

    ghost lends = { λ h. record { file = files_of (string_bytes h.farm_name) h.farm_file; disk = disks_of (option_map (λ d. (string_bytes d.name, d.disk)) h.disk); console = h.console; notes = h.notes; clock = h.clock; draws = h.draws; doors = doors_of h.doors } };

    ghost refusals = { λ h. h.refusals };

    fn reason(&self) -> Option<ErrorKind> {
        if self.refusals.get() > 0 {
            Some(ErrorKind::NotFound)
        } else {
            None
        }
    }

    fn farm_file(&mut self, name: &str) -> Result<MemorySource, Failed> {
        if self.farm_name.as_str() == name
            && matches!(self.farm_file, Lending::Ready(_))
            && let Some(file) = self.farm_file.give()
        {
            return Ok(file);
        }
        self.refusals.raise();
        Err(Failed)
    }

    fn back_farm_file(&mut self, file: MemorySource) {
        self.farm_file.take_back(file);
    }

    fn disk(&mut self, name: &str) -> Result<MemoryDisk, Failed> {
        let Some(named) = &mut self.disk else {
            self.refusals.raise();
            return Err(Failed);
        };
        match open_named(named.name.as_str(), &mut named.disk, name) {
            Ok(disk) => Ok(disk),
            Err(Failed) => {
                self.refusals.raise();
                Err(Failed)
            }
        }
    }

    fn back_disk(&mut self, disk: MemoryDisk) {
        match &mut self.disk {
            Some(named) => named.disk.take_back(disk),
            None => {
                self.disk = Some(NamedDisk {
                    name: String::new(self.alloc),
                    disk: Lending::Untold,
                });
            }
        }
    }

    fn console(&mut self) -> MemoryLink {
        match self.console.give() {
            Some(console) => console,
            None => Joined {
                source: MemorySource::new(Vec::new(self.alloc), Vec::new(self.alloc), 1),
                sink: MemorySink::without_room(self.alloc),
            },
        }
    }

    fn back_console(&mut self, console: MemoryLink) {
        self.console.take_back(console);
    }

    fn notes(&mut self) -> MemorySink {
        match self.notes.give() {
            Some(notes) => notes,
            None => MemorySink::without_room(self.alloc),
        }
    }

    fn back_notes(&mut self, notes: MemorySink) {
        self.notes.take_back(notes);
    }

    fn clock(&mut self) -> ListClock {
        match self.clock.give() {
            Some(clock) => clock,
            None => ListClock::new(Vec::new(self.alloc)),
        }
    }

    fn back_clock(&mut self, clock: ListClock) {
        self.clock.take_back(clock);
    }

    fn draws(&mut self) -> ListDraws {
        match self.draws.give() {
            Some(draws) => draws,
            None => ListDraws::new(Vec::new(self.alloc)),
        }
    }

    fn back_draws(&mut self, draws: ListDraws) {
        self.draws.take_back(draws);
    }

    fn listen(&mut self, address: &str) -> Result<MemoryListener, Failed> {
        match self.doors.open(address) {
            Ok(door) => Ok(door),
            Err(Failed) => {
                self.refusals.raise();
                Err(Failed)
            }
        }
    }

    fn back_listen(&mut self, door: MemoryListener) {
        self.doors.take_back(door);
    }
}

/// Gives what has the first name, where it is asked for by that, and is there.
fn open_named<T: Drop>(name: &str, object: &mut Lending<T>, asked: &str) -> Result<T, Failed>
    ensures opens { CanOpenAmong (files_of name.now object.old) asked.now result }
    ensures after { files_of name.now object.new ≡ after_opening (files_of name.now object.old) result }
{
    if name == asked
        && matches!(object, Lending::Ready(_))
        && let Some(given) = object.give()
    {
        return Ok(given);
    }
    Err(Failed)
}
