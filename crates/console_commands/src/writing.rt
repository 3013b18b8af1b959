//! Texts to the console and to notes.
ghost use Rattle.std.specs.Prelude.{◌≡◌};
ghost use Rattle.http_wire.specs.Calls.{state_of};
ghost use Rattle.console_commands.specs.Writing.{WritesFront, WritesText};

use crate::status::Status;
use causes::Failed;
use http_wire::{Link, Sink, write_all, write_sink};

/// Writes a text to the console, and says how that ended.
pub fn write_text<L: Link>(console: &mut L, text: &[u8]) -> Status
    ensures writes { WritesText (state_of L.Link console.old) (state_of L.Link console.new) text.now result }
    ensures left { L.left console.new ≡ L.left console.old }
    ensures read_faults { L.read_faults console.new ≡ L.read_faults console.old }
{
    match write_all(console, text) {
        Ok(()) => Status::Done,
        Err(Failed) => Status::Write,
    }
}

/// Writes a text to the notes, or a front of it where a write fails, and gives them back.
pub fn write_line<N: Sink>(notes: N, text: &str) -> N
    ensures { WritesFront (N.written notes) (N.written result) (N.faults notes) (N.faults result) text.now }
{
    let (notes, _) = write_sink(notes, text.as_bytes());
    notes
}
