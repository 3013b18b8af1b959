//! What `serve` is asked to do.
ghost use Rattle.std.specs.Prelude.{◌≡◌, codes, IfOk, MatchResult, Some};
ghost use Rattle.clap.specs.Words.{first_of, found_of, rows_of};
ghost use Rattle.command_line.specs.Refusal.{Refuses};
ghost use Rattle.command_line.specs.Service.{connections_said, service_at, service_in, workers_said};

use crate::reading::WordsFault;
use crate::signing::text;
use crate::values::{connections_of, workers_of};
use clap::ArgMatches;
use farm_text::Text;
use std::alloc::{AllocError, Global};

/// A farm that many connections share.
#[derive(Drop)]
pub struct Service {
    /// The name of the disk that keeps the farm.
    pub disk: Text,
    /// The address that is listened at.
    pub listen: Text,
    /// How many workers serve side by side: 1 to 64.
    pub workers: u8,
    /// How many connections each worker serves, one after the other: 1 to 1,000,000.
    pub connections: u32,
}

/// The service that the matches of `serve` ask for.
///
/// # Errors
///
/// `Usage` exactly where a number is off its form: the text names the option, and what may stand there. Or want of memory.
pub(crate) fn read_service(alloc: Global, matches: &ArgMatches<'_>) -> Result<Service, WordsFault>
    ensures { MatchResult result
        (λ service. service_in (rows_of (found_of matches.now)) ≡ Some service)
        (Refuses (service_in (rows_of (found_of matches.now)))) }
{
    let Some(workers) = workers(matches) else {
        return Err(WordsFault::usage(alloc, "error: --workers is a number from 1 to 64\n"));
    };
    let Some(connections) = connections(matches) else {
        return Err(WordsFault::usage(
            alloc,
            "error: --connections is a number from 1 to 1000000\n",
        ));
    };
    match service_of(alloc, matches, workers, connections) {
        Ok(service) => Ok(service),
        Err(AllocError) => Err(WordsFault::NoMemory),
    }
}

/// How many workers the matches say; where they say none, 4.
fn workers(matches: &ArgMatches<'_>) -> Option<u8>
    ensures { result ≡ workers_said (first_of (codes "workers") (rows_of (found_of matches.now))) }
{
    match matches.get_str("workers") {
        Some(text) => workers_of(text),
        None => Some(4),
    }
}

/// How many connections of each worker the matches say; where they say none, 1,000,000.
fn connections(matches: &ArgMatches<'_>) -> Option<u32>
    ensures { result ≡ connections_said (first_of (codes "connections") (rows_of (found_of matches.now))) }
{
    match matches.get_str("connections") {
        Some(text) => connections_of(text),
        None => Some(1_000_000),
    }
}

/// The service of so many workers and connections, on the disk and at the address that are given.
fn service_of(
    alloc: Global,
    matches: &ArgMatches<'_>,
    workers: u8,
    connections: u32,
) -> Result<Service, AllocError>
    ensures { IfOk result (λ service. service ≡ service_at (rows_of (found_of matches.now)) workers connections) }
{
    Ok(Service {
        disk: text(alloc, matches, "disk")?,
        listen: text(alloc, matches, "listen")?,
        workers,
        connections,
    })
}
