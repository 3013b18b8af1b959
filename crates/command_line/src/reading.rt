//! What the words ask for, or clap's text where they ask for nothing.
ghost use Rattle.std.specs.Prelude.{◌≡◌, Some, IfOk, MatchResult, Option, List, map, option_map, option_and_then, string_bytes};
ghost use Rattle.clap.specs.Words.{found_of, kind_of, rows_of, subcommand_rows_of};
ghost use Rattle.command_line.specs.Parts.{TellsOf};
ghost use Rattle.command_line.specs.Refusal.{Refuses, RefusesWords};
ghost use Rattle.command_line.specs.Words.{command_in, serve_in, work_in, work_named, reading};

use crate::command::{Command, Work};
use crate::load::read_load;
use crate::program;
use crate::service::read_service;
use crate::signing::read_signing;
use clap::ArgMatches;
use clap::error::{Error, ErrorKind};
use farm_text::Text;
use std::alloc::{AllocError, Global};

/// Why words ask for nothing.
#[derive(Drop)]
pub enum WordsFault {
    /// No command line of the program has these words, or they ask for help: the text for the user, of some lines.
    Usage(Text),
    NoMemory,
}

impl WordsFault {
    /// A text for the user, where there is memory for it.
    pub(crate) fn usage(alloc: Global, text: &str) -> WordsFault {
        match Text::from_str(alloc, text) {
            Ok(text) => WordsFault::Usage(text),
            Err(AllocError) => WordsFault::NoMemory,
        }
    }
}

impl From<AllocError> for WordsFault {
    ghost use Rattle.std.specs.Prelude.{◌≡◌};
    ghost use Rattle.command_line.specs.declared.reading.WordsFault.{WordsFault};

    ghost from_gives = { λ _ fault. fault ≡ WordsFault.NoMemory };

    fn from(_error: AllocError) -> WordsFault {
        WordsFault::NoMemory
    }
}

/// Reads the words of a command line, which come without the program's name.
///
/// # Errors
///
/// `Usage` exactly where the words have no reading: an unknown or a missing command, a word too many or too few, an option that the
/// command does not have, has twice or is without, a value off its form, or a request for help. Or want of memory.
pub fn read_words(alloc: Global, words: &[String]) -> Result<Command, WordsFault>
    ensures { MatchResult result (λ command. reading (map string_bytes words.now) ≡ Some command)
        (RefusesWords (map string_bytes words.now)) }
{
    match program::farm(alloc)?.try_get_matches_from(words) {
        Ok(matches) => command_of(alloc, &matches),
        Err(error) => Err(told(alloc, &error)),
    }
}

/// The command that the matches name.
fn command_of(alloc: Global, matches: &ArgMatches<'_>) -> Result<Command, WordsFault>
    ensures { MatchResult result
        (λ command. option_and_then command_in (subcommand_rows_of matches.now) ≡ Some command)
        (Refuses (option_and_then command_in (subcommand_rows_of matches.now))) }
{
    let Some((name, inner)) = matches.subcommand() else {
        return Err(WordsFault::usage(alloc, "error: the words name no command\n"));
    };
    command_named(alloc, name, inner)
}

/// The command of this name, with what its matches give.
fn command_named(alloc: Global, name: &str, matches: &ArgMatches<'_>) -> Result<Command, WordsFault>
    ensures { MatchResult result
        (λ command. command_in (name.now, rows_of (found_of matches.now)) ≡ Some command)
        (Refuses (command_in (name.now, rows_of (found_of matches.now)))) }
{
    if name == "sign" {
        return match read_signing(alloc, matches) {
            Ok(signing) => Ok(Command::Sign { signing }),
            Err(fault) => Err(fault),
        };
    }
    if name == "bulk" {
        return match read_load(alloc, matches) {
            Ok(load) => Ok(Command::Bulk { load }),
            Err(fault) => Err(fault),
        };
    }
    if name == "render" {
        return Ok(Command::Render);
    }
    if name == "serve" {
        return read_serve(alloc, matches);
    }
    read_work(alloc, name, matches)
}

/// The service over the farm file that the matches of `serve` give.
fn read_serve(alloc: Global, matches: &ArgMatches<'_>) -> Result<Command, WordsFault>
    ensures { MatchResult result
        (λ command. serve_in (rows_of (found_of matches.now)) ≡ Some command)
        (Refuses (serve_in (rows_of (found_of matches.now)))) }
{
    let Some(farm) = matches.get_str("FARM") else {
        return Err(WordsFault::usage(alloc, "error: the words name no farm file\n"));
    };
    let farm = match Text::from_str(alloc, farm) {
        Ok(farm) => farm,
        Err(AllocError) => return Err(WordsFault::NoMemory),
    };
    match read_service(alloc, matches) {
        Ok(service) => Ok(Command::OverFarm {
            farm,
            work: Work::Serve(service),
        }),
        Err(fault) => Err(fault),
    }
}

/// The work of this name, over the farm file and the disk that the matches give.
fn read_work(alloc: Global, name: &str, matches: &ArgMatches<'_>) -> Result<Command, WordsFault>
    ensures { MatchResult result
        (λ command. work_in name.now (rows_of (found_of matches.now)) ≡ Some command)
        (Refuses (work_in name.now (rows_of (found_of matches.now)))) }
{
    let Some(farm) = matches.get_str("FARM") else {
        return Err(WordsFault::usage(alloc, "error: the words name no farm file\n"));
    };
    let (farm, disk) = match texts_of(alloc, farm, matches.get_str("disk")) {
        Ok(texts) => texts,
        Err(AllocError) => return Err(WordsFault::NoMemory),
    };
    match work_named(name, disk) {
        Some(work) => Ok(Command::OverFarm { farm, work }),
        None => Err(WordsFault::usage(alloc, "error: the words name no command\n")),
    }
}

/// Copies of a text, and of another where there is one.
fn texts_of(
    alloc: Global,
    one: &str,
    other: Option<&str>,
) -> Result<(Text, Option<Text>), AllocError>
    ensures { IfOk result (λ texts. (texts.0 ≡ one.now) × (texts.1 ≡ option_map (λ t. t.now) other.entry)) }
{
    let one = Text::from_str(alloc, one)?;
    match other {
        Some(other) => Ok((one, Some(Text::from_str(alloc, other)?))),
        None => Ok((one, None)),
    }
}

/// The work of this name, with this disk.
fn work_named(name: &str, disk: Option<Text>) -> Option<Work>
    ensures { result ≡ work_named name.now disk }
{
    match name {
        "answer" => Some(Work::Answer { disk }),
        "expand" => Some(Work::Expand),
        "check" => Some(Work::Check { disk }),
        _ => None,
    }
}

/// clap's text, or want of memory.
fn told(alloc: Global, error: &Error) -> WordsFault
    ensures { TellsOf (kind_of error.now) result }
{
    if error.kind() == ErrorKind::OutOfMemory {
        return WordsFault::NoMemory;
    }
    match error.to_string(alloc) {
        Ok(text) => WordsFault::Usage(Text::from_string(text)),
        Err(AllocError) => WordsFault::NoMemory,
    }
}
