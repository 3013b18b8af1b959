//! What `bulk` is asked to run.
ghost use Rattle.std.specs.Prelude.{◌≡◌, MatchResult, Some};
ghost use Rattle.clap.specs.Words.{found_of, rows_of};
ghost use Rattle.command_line.specs.Load.{load_in};
ghost use Rattle.command_line.specs.Refusal.{Refuses};

use crate::reading::WordsFault;
use crate::signing::value;
use crate::values::{seed_of, tasks_of};
use clap::ArgMatches;
use std::alloc::Global;

/// A load that is generated.
#[derive(Clone, Copy, Debug, PartialEq, Eq)]
pub struct Load {
    /// What its numbers begin with: at most 9,223,372,036,854,775,807.
    pub seed: u64,
    /// How many tasks it creates: at most 100,000.
    pub tasks: u32,
}

/// The load that the matches of `bulk` ask for.
///
/// # Errors
///
/// `Usage` exactly where a value is off its form: the text names the option, and what may stand there. Or want of memory.
pub(crate) fn read_load(alloc: Global, matches: &ArgMatches<'_>) -> Result<Load, WordsFault>
    ensures { MatchResult result
        (λ load. load_in (rows_of (found_of matches.now)) ≡ Some load)
        (Refuses (load_in (rows_of (found_of matches.now)))) }
{
    let Some(seed) = seed_of(value(matches, "seed")) else {
        return Err(WordsFault::usage(
            alloc,
            "error: --seed is a number from 0 to 9223372036854775807\n",
        ));
    };
    let Some(tasks) = tasks_of(value(matches, "tasks")) else {
        return Err(WordsFault::usage(alloc, "error: --tasks is a number from 0 to 100000\n"));
    };
    Ok(Load { seed, tasks })
}
