//! A generated load, and how its tasks stand then.
ghost use Rattle.std.specs.Prelude.{string_bytes, IfOk};
ghost use Rattle.http_wire.specs.Calls.{state_of};
ghost use Rattle.farm_cli.specs.Loading.{IsLoadLine, Loads};

use command_line::Load;
use console_commands::{Ended, Status, write_text};
use farm_bulk::{bulk, summary_line};
use http_wire::Link;
use std::alloc::{AllocError, Global};

/// Runs a generated load, and writes to the console how its tasks stand then.
pub(crate) fn run_load<L: Link>(alloc: Global, load: Load, console: &mut L) -> Ended
    ensures loads { Loads load (state_of L.Link console.old) (state_of L.Link console.new) result.status }
{
    match load_line(alloc, load) {
        Ok(line) => Ended::on_console(alloc, write_text(console, line.as_bytes())),
        Err(AllocError) => Ended::plain(Status::NoMemory),
    }
}

/// The line of a load.
fn load_line(alloc: Global, load: Load) -> Result<String, AllocError>
    ensures { IfOk result (λ line. IsLoadLine load (string_bytes line)) }
{
    let summary = bulk(alloc, load.seed, load.tasks)?;
    summary_line(alloc, summary)
}
