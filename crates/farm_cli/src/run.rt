//! The top call: a run over a house, by the words of a command line.
ghost use Rattle.std.specs.Prelude.{◌≡◌, ◌+◌, ◌≤◌, map, string_bytes};
ghost use Rattle.farm_files.specs.declared.reading.TheConstants.{LONGEST_FILE};
ghost use Rattle.http_wire.specs.Whole.{piece_size, LosesWithin};
ghost use Rattle.command_line.specs.Words.{reading};
ghost use Rattle.command_line.specs.declared.command.Command.TheVariants.{OverFarm};
ghost use Rattle.farm_cli.specs.Home.{AllHome};
ghost use Rattle.houses.specs.House.{after_closing};
ghost use Rattle.farm_cli.specs.Notes.{TellsStatus};
ghost use Rattle.farm_cli.specs.Run.{Ran, RanCommand, RanOverFile};
ghost use Rattle.farm_cli.specs.Runs.{Runs};
ghost use Rattle.farm_cli.specs.Views.{views_of};

use crate::commands::{load_over, obey, render_over, sign_over};
use crate::farm_file::{read_config, unopened};
use causes::Failed;
use command_line::{Command, WordsFault, Work, read_words};
use console_commands::{Ended, Status, write_line};
use farm_record::a_record_is_of_one_change;
use houses::House;
use listeners::Listener;
use std::alloc::Global;
use std::sync::Wait;
use std::thread::Threads;

/// Runs what the words ask for, over what the house lends: `answer FARM` serves one connection on the console over a farm that begins
/// without tasks, and `answer FARM --disk NAME` over the farm that a disk keeps, `serve FARM --disk NAME --listen ADDR` lets workers serve
/// that farm at a listener, `expand FARM` writes all that the console's scopes give,
/// `check FARM` counts what the farm file has, and with `--disk NAME` what the disk has, `sign` writes the header that signs a request,
/// `bulk` runs a generated load over a farm in memory and writes how its tasks stand then, and `render` writes the value of the template that
/// the console gives with its context. All that was asked for is given back, and the notes are told a line where the status is not `Done`.
///
/// The history that `answer` and `serve` lead through is legal, so the laws of `farm_laws::machine` hold of it: a call is denied exactly where its
/// caller's scopes do not hold what it asks (`a_denial_is_of_scopes_that_are_missing`), a task is created once
/// (`a_task_is_created_once`), and an equal createTask after it is answered with the task's status (`an_equal_call_acts_once`).
pub fn run<R: Threads + Wait + Sync, H: House>(
    rt: &R,
    alloc: Global,
    words: &[String],
    house: &mut H,
) -> Status
where
    <H::Door as Listener>::Peer: Send,
    ensures runs { let views = views_of H.File.Source H.Store.Disk H.Console.Link H.Notes.Sink H.Time.Clock H.Ids.Draws H.Door.Listener in
        Runs views (H.lends house.old) (H.lends house.new) (H.refusals house.old) (H.refusals house.new)
        (reading (map string_bytes words.now)) result }
    ensures notes { TellsStatus H.Notes.written H.Notes.faults (H.lends house.old).notes (H.lends house.new).notes result }
    ensures home { AllHome (H.lends house.old) (H.lends house.new) }
    ensures later { H.refusals house.old ≤ H.refusals house.new }
{
    a_record_is_of_one_change();
    let ended = perform(rt, alloc, words, house);
    tell(alloc, &ended, house);
    ended.status()
}

/// Runs what the words ask for, where they are taken.
fn perform<R: Threads + Wait + Sync, H: House>(
    rt: &R,
    alloc: Global,
    words: &[String],
    house: &mut H,
) -> Ended
where
    <H::Door as Listener>::Peer: Send,
    ensures ran { let views = views_of H.File.Source H.Store.Disk H.Console.Link H.Notes.Sink H.Time.Clock H.Ids.Draws H.Door.Listener in
        Ran views (H.lends house.old) (H.lends house.new) (H.refusals house.old) (H.refusals house.new)
        (reading (map string_bytes words.now)) result.status }
    ensures notes { (H.lends house.new).notes ≡ (H.lends house.old).notes }
    ensures later { H.refusals house.old ≤ H.refusals house.new }
{
    match read_words(alloc, words) {
        Ok(command) => {
            let ended = run_command(rt, alloc, &command, house);
            drop(command);
            ended
        }
        Err(WordsFault::Usage(text)) => Ended::of_usage(text),
        Err(WordsFault::NoMemory) => Ended::plain(Status::NoMemory),
    }
}

/// Runs a command.
fn run_command<R: Threads + Wait + Sync, H: House>(
    rt: &R,
    alloc: Global,
    command: &Command,
    house: &mut H,
) -> Ended
where
    <H::Door as Listener>::Peer: Send,
    ensures ran { let views = views_of H.File.Source H.Store.Disk H.Console.Link H.Notes.Sink H.Time.Clock H.Ids.Draws H.Door.Listener in
        RanCommand views (H.lends house.old) (H.lends house.new) (H.refusals house.old) (H.refusals house.new) command.now result.status }
    ensures notes { (H.lends house.new).notes ≡ (H.lends house.old).notes }
    ensures later { H.refusals house.old ≤ H.refusals house.new }
{
    match command {
        Command::OverFarm { farm, work } => run_over_farm(rt, alloc, farm.as_str(), work, house),
        Command::Sign { signing } => sign_over(alloc, signing, house),
        Command::Bulk { load } => load_over(alloc, *load, house),
        Command::Render => render_over(alloc, house),
    }
}

/// Does work over a farm, where its file can be opened.
fn run_over_farm<R: Threads + Wait + Sync, H: House>(
    rt: &R,
    alloc: Global,
    farm: &str,
    work: &Work,
    house: &mut H,
) -> Ended
where
    <H::Door as Listener>::Peer: Send,
    ensures ran { let views = views_of H.File.Source H.Store.Disk H.Console.Link H.Notes.Sink H.Time.Clock H.Ids.Draws H.Door.Listener in
        RanCommand views (H.lends house.old) (H.lends house.new) (H.refusals house.old) (H.refusals house.new) (OverFarm farm.now work.now) result.status }
    ensures notes { (H.lends house.new).notes ≡ (H.lends house.old).notes }
    ensures later { H.refusals house.old ≤ H.refusals house.new }
{
    match house.farm_file(farm) {
        Ok(file) => run_over_file(rt, alloc, farm, work, file, house),
        Err(Failed) => unopened(alloc, farm),
    }
}

/// Does work over the farm file of this name, which is given back before the work begins.
fn run_over_file<R: Threads + Wait + Sync, H: House>(
    rt: &R,
    alloc: Global,
    farm: &str,
    work: &Work,
    file: H::File,
    house: &mut H,
) -> Ended
where
    <H::Door as Listener>::Peer: Send,
    ensures ran { let views = views_of H.File.Source H.Store.Disk H.Console.Link H.Notes.Sink H.Time.Clock H.Ids.Draws H.Door.Listener in
        (closed : H.File) × ((H.lends house.new).file ≡ after_closing (H.lends house.old).file closed)
        × LosesWithin (LONGEST_FILE + piece_size) (H.File.left file) (H.File.left closed)
        × RanOverFile views (H.lends house.old) (H.lends house.new) (H.refusals house.old) (H.refusals house.new) work.now file closed result.status }
    ensures notes { (H.lends house.new).notes ≡ (H.lends house.old).notes }
    ensures later { H.refusals house.old ≤ H.refusals house.new }
{
    let (file, config) = read_config(alloc, farm, file);
    house.back_farm_file(file);
    match config {
        Ok(config) => obey(rt, alloc, work, config, house),
        Err(ended) => ended,
    }
}

/// Tells notes how a run ended, unless it is done. A fault of theirs changes nothing.
fn tell<H: House>(alloc: Global, ended: &Ended, house: &mut H)
    ensures told { TellsStatus H.Notes.written H.Notes.faults (H.lends house.old).notes (H.lends house.new).notes ended.now.status }
    ensures others { (H.lends house.new) ≡ record (H.lends house.old) { notes = (H.lends house.new).notes } }
    ensures refusals { H.refusals house.new ≡ H.refusals house.old }
{
    if ended.status() != Status::Done {
        let note = ended.note(alloc, house.reason());
        let notes = house.notes();
        let notes = write_line(notes, ended.line(&note));
        house.back_notes(notes);
    }
}
