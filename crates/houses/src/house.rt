ghost use Rattle.std.specs.Prelude.{◌≡◌, ℕ};
ghost use Rattle.causes.specs.Causes.{HasCause};
ghost use Rattle.houses.specs.House.{Lendings, CanGive, after_giving, after_return, CanOpenAmong, after_opening, after_closing, CanListen, after_listening, after_leaving};

use causes::Failed;
use disk_base::Disk;
use farm_text::{Clock, Draws};
use http_wire::{Link, Sink, Source};
use listeners::Listener;
use std::io::ErrorKind;

/// What a run works on. A house lends each of its objects once, and takes it back.
pub trait House {
    /// A file to read.
    type File: Source;
    /// What keeps a farm.
    type Store: Disk + Send;
    /// Where requests come from and replies go to.
    type Console: Link;
    /// Where a run tells why it failed.
    type Notes: Sink;

    /// Tells the moments of requests.
    type Time: Clock + Send + Drop;

    /// Draws an id for each request.
    type Ids: Draws + Send + Drop;

    /// Where links come from.
    type Door: Listener + Send;

    /// What is there, what is out, and what came back, where the house tells.
    ghost lends: { Self → Lendings Self.File Self.Store Self.Console Self.Notes Self.Time Self.Ids Self.Door };

    /// How many openings were refused.
    ghost refusals: { Self → ℕ };

    /// Why the system refused what it refused last, an opening or a read or write of what came back, where that is told.
    fn reason(&self) -> Option<ErrorKind>;

    /// Opens the farm file of this name. A refusal is counted, and changes nothing that the house lends.
    fn farm_file(&mut self, name: &str) -> Result<Self::File, Failed>
        ensures opens { CanOpenAmong (lends self.old).file name.now result }
        ensures lends { lends self.new ≡ record (lends self.old) { file = after_opening (lends self.old).file result } }
        ensures cause { HasCause (refusals self.old) (refusals self.new) result };

    /// Takes a farm file back.
    fn back_farm_file(&mut self, file: Self::File)
        ensures lends { lends self.new ≡ record (lends self.old) { file = after_closing (lends self.old).file file } }
        ensures refusals { refusals self.new ≡ refusals self.old };

    /// Opens the disk of this name, and makes it where it is not there. A refusal is counted, and changes nothing that the house lends.
    fn disk(&mut self, name: &str) -> Result<Self::Store, Failed>
        ensures opens { CanOpenAmong (lends self.old).disk name.now result }
        ensures lends { lends self.new ≡ record (lends self.old) { disk = after_opening (lends self.old).disk result } }
        ensures cause { HasCause (refusals self.old) (refusals self.new) result };

    /// Takes a disk back.
    fn back_disk(&mut self, disk: Self::Store)
        ensures lends { lends self.new ≡ record (lends self.old) { disk = after_closing (lends self.old).disk disk } }
        ensures refusals { refusals self.new ≡ refusals self.old };

    /// Gives the console.
    fn console(&mut self) -> Self::Console
        ensures gives { CanGive (lends self.old).console result }
        ensures lends { lends self.new ≡ record (lends self.old) { console = after_giving (lends self.old).console } }
        ensures refusals { refusals self.new ≡ refusals self.old };

    /// Takes the console back.
    fn back_console(&mut self, console: Self::Console)
        ensures lends { lends self.new ≡ record (lends self.old) { console = after_return (lends self.old).console console } }
        ensures refusals { refusals self.new ≡ refusals self.old };

    /// Gives the notes.
    fn notes(&mut self) -> Self::Notes
        ensures gives { CanGive (lends self.old).notes result }
        ensures lends { lends self.new ≡ record (lends self.old) { notes = after_giving (lends self.old).notes } }
        ensures refusals { refusals self.new ≡ refusals self.old };

    /// Takes the notes back.
    fn back_notes(&mut self, notes: Self::Notes)
        ensures lends { lends self.new ≡ record (lends self.old) { notes = after_return (lends self.old).notes notes } }
        ensures refusals { refusals self.new ≡ refusals self.old };

    /// Gives the clock.
    fn clock(&mut self) -> Self::Time
        ensures gives { CanGive (lends self.old).clock result }
        ensures lends { lends self.new ≡ record (lends self.old) { clock = after_giving (lends self.old).clock } }
        ensures refusals { refusals self.new ≡ refusals self.old };

    /// Takes the clock back.
    fn back_clock(&mut self, clock: Self::Time)
        ensures lends { lends self.new ≡ record (lends self.old) { clock = after_return (lends self.old).clock clock } }
        ensures refusals { refusals self.new ≡ refusals self.old };

    /// Gives the draws.
    fn draws(&mut self) -> Self::Ids
        ensures gives { CanGive (lends self.old).draws result }
        ensures lends { lends self.new ≡ record (lends self.old) { draws = after_giving (lends self.old).draws } }
        ensures refusals { refusals self.new ≡ refusals self.old };

    /// Takes the draws back.
    fn back_draws(&mut self, draws: Self::Ids)
        ensures lends { lends self.new ≡ record (lends self.old) { draws = after_return (lends self.old).draws draws } }
        ensures refusals { refusals self.new ≡ refusals self.old };

    /// Opens a door at this address. A refusal is counted, and changes nothing that the house lends.
    fn listen(&mut self, address: &str) -> Result<Self::Door, Failed>
        ensures opens { CanListen (lends self.old).doors address.now result }
        ensures lends { lends self.new ≡ record (lends self.old) { doors = after_listening (lends self.old).doors result } }
        ensures cause { HasCause (refusals self.old) (refusals self.new) result };

    /// Takes a door back, or a twin of one.
    fn back_listen(&mut self, door: Self::Door)
        ensures lends { lends self.new ≡ record (lends self.old) { doors = after_leaving (lends self.old).doors door } }
        ensures refusals { refusals self.new ≡ refusals self.old };
}
