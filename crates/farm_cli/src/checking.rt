//! What a farm file has, counted.
ghost use Rattle.std.specs.Prelude.{◌≡◌, string_bytes, IfOk};
ghost use Rattle.farm_cli.specs.Checking.{counts_text, counts_disk_text, Checks};
ghost use Rattle.console_commands.specs.Inputs.{Tells};

use console_commands::{Ended, Status, write_text};
use farm_asks::config::{Config, ConfigCounts};
use farm_core::Counts;
use http_wire::Link;
use std::alloc::{AllocError, Global};

/// Writes to the console what the configuration has.
pub(crate) fn check<L: Link>(alloc: Global, config: &Config, console: &mut L) -> Ended
    ensures checks { Checks config.now
        (record { left = L.left console.old; written = L.written console.old; read_faults = L.read_faults console.old; write_faults = L.write_faults console.old })
        (record { left = L.left console.new; written = L.written console.new; read_faults = L.read_faults console.new; write_faults = L.write_faults console.new })
        result.status }
{
    match check_line(alloc, config.counts()) {
        Ok(line) => Ended::on_console(alloc, write_text(console, line.as_bytes())),
        Err(_) => Ended::plain(Status::NoMemory),
    }
}

/// The line of a farm file that breaks no rule and has these rows.
fn check_line(alloc: Global, counts: ConfigCounts) -> Result<String, AllocError>
    ensures { IfOk result (λ line. string_bytes line ≡ counts_text counts) }
{
    format!(in alloc;
        "ok roles={} clients={} hooks={}\n",
        counts.roles, counts.clients, counts.hooks
    )
}

/// Writes to the console what a configuration and a disk have.
pub(crate) fn tell_counts<L: Link>(
    alloc: Global,
    has: ConfigCounts,
    keeps: Counts,
    console: &mut L,
) -> Ended
    ensures tells { Tells (counts_disk_text has keeps.records keeps.tasks)
        (record { left = L.left console.old; written = L.written console.old; read_faults = L.read_faults console.old; write_faults = L.write_faults console.old })
        (record { left = L.left console.new; written = L.written console.new; read_faults = L.read_faults console.new; write_faults = L.write_faults console.new })
        result.status }
{
    match disk_line(alloc, has, keeps) {
        Ok(line) => Ended::on_console(alloc, write_text(console, line.as_bytes())),
        Err(_) => Ended::plain(Status::NoMemory),
    }
}

/// The line of a configuration and a disk that have so many rows, records and tasks.
fn disk_line(alloc: Global, has: ConfigCounts, keeps: Counts) -> Result<String, AllocError>
    ensures { IfOk result (λ line. string_bytes line ≡ counts_disk_text has keeps.records keeps.tasks) }
{
    format!(in alloc;
        "ok roles={} clients={} hooks={} records={} tasks={}\n",
        has.roles, has.clients, has.hooks, keeps.records, keeps.tasks
    )
}
