//! Farms that a disk keeps.
ghost use Rattle.std.specs.Prelude.{◌≡◌, ◌≤◌, ◌⊎◌, MatchResult};
ghost use Rattle.farm_cli.specs.Checking.{CheckedOver};
ghost use Rattle.farm_cli.specs.Disks.{HasFarm, IsMissing, WasUnopened, status_of_fault};
ghost use Rattle.farm_cli.specs.Run.{DidOver};
ghost use Rattle.farm_cli.specs.Serving.{ConversedOver};
ghost use Rattle.farm_cli.specs.Views.{views_of};

use crate::checking::tell_counts;
use crate::ends::after_serving;
use causes::Failed;
use console_commands::{Ended, Status};
use disk_journal::OpenFault;
use farm_asks::config::Config;
use farm_core::Farm;
use farm_desk::Solo;
use farm_server::{NoGate, serve_connection};
use houses::House;
use std::alloc::Global;
use std::io::ErrorKind;

/// Opens the farm that the disk of this name keeps, or says how the run ends; then the disk is given back.
pub(crate) fn open_farm<H: House>(
    alloc: Global,
    name: &str,
    config: Config,
    house: &mut H,
) -> Result<Farm<H::Store>, Ended>
    ensures opened { let views = views_of H.File.Source H.Store.Disk H.Console.Link H.Notes.Sink H.Time.Clock H.Ids.Draws H.Door.Listener in
        MatchResult result
        (λ farm. HasFarm views (H.lends house.old) (H.lends house.new) (H.refusals house.old) (H.refusals house.new) name.now config farm.config farm.tables farm.records)
        (λ ended. IsMissing (H.lends house.old) (H.lends house.new) (H.refusals house.old) (H.refusals house.new) name.now ended.status
        ⊎ WasUnopened views (H.lends house.old) (H.lends house.new) (H.refusals house.old) (H.refusals house.new) name.now ended.status) }
    ensures file { (H.lends house.new).file ≡ (H.lends house.old).file }
    ensures notes { (H.lends house.new).notes ≡ (H.lends house.old).notes }
    ensures later { H.refusals house.old ≤ H.refusals house.new }
{
    let disk = match house.disk(name) {
        Ok(disk) => disk,
        Err(Failed) => {
            drop(config);
            return Err(on_missing(alloc, name, house.reason()));
        }
    };
    match Farm::open(alloc, disk, config) {
        Ok(farm) => Ok(farm),
        Err((fault, disk)) => {
            house.back_disk(disk);
            Err(by_fault(alloc, name, fault))
        }
    }
}

/// So a run ended where the house refused to open the disk of this name, for the reason that it gives.
fn on_missing(alloc: Global, name: &str, reason: Option<ErrorKind>) -> Ended
    ensures { result.status ≡ Status.Disk }
{
    let Some(reason) = reason else {
        return on_disk(alloc, name);
    };
    match format!(in alloc; ": {name}: {reason}") {
        Ok(words) => Ended::told(alloc, Status::Disk, words.as_str()),
        Err(_) => Ended::plain(Status::Disk),
    }
}

/// So a run ended over the disk of this name, of which a call failed.
pub(crate) fn on_disk(alloc: Global, name: &str) -> Ended
    ensures { result.status ≡ Status.Disk }
{
    match format!(in alloc; ": {name}") {
        Ok(words) => Ended::told(alloc, Status::Disk, words.as_str()),
        Err(_) => Ended::plain(Status::Disk),
    }
}

/// So a run ended where the disk of this name has no farm that could be opened.
fn by_fault(alloc: Global, name: &str, fault: OpenFault) -> Ended
    ensures { result.status ≡ status_of_fault fault }
{
    match fault {
        OpenFault::Disk => on_disk(alloc, name),
        OpenFault::Damaged(place) => damaged(alloc, name, place),
        OpenFault::NoMemory => Ended::plain(Status::NoMemory),
    }
}

/// So a run ended where the disk of this name is damaged at this place.
fn damaged(alloc: Global, name: &str, place: u64) -> Ended
    ensures { result.status ≡ Status.Damaged }
{
    match format!(in alloc; ": {name}: at byte {place}") {
        Ok(words) => Ended::told(alloc, Status::Damaged, words.as_str()),
        Err(_) => Ended::plain(Status::Damaged),
    }
}

/// Serves the console over the farm that the disk of this name keeps, and gives the disk back.
pub(crate) fn converse_over<H: House>(
    alloc: Global,
    name: &str,
    config: Config,
    house: &mut H,
) -> Ended
    ensures conversed { let views = views_of H.File.Source H.Store.Disk H.Console.Link H.Notes.Sink H.Time.Clock H.Ids.Draws H.Door.Listener in
        DidOver views (H.lends house.old) (H.lends house.new) (H.refusals house.old) (H.refusals house.new) name.now result.status
        (ConversedOver views (H.lends house.old) (H.lends house.new) (H.refusals house.old) (H.refusals house.new) config name.now result.status) }
    ensures file { (H.lends house.new).file ≡ (H.lends house.old).file }
    ensures notes { (H.lends house.new).notes ≡ (H.lends house.old).notes }
    ensures later { H.refusals house.old ≤ H.refusals house.new }
{
    let farm = match open_farm(alloc, name, config, house) {
        Ok(farm) => farm,
        Err(ended) => return ended,
    };
    let mut console = house.console();
    let mut clock = house.clock();
    let mut draws = house.draws();
    let mut desk = Solo::new(farm);
    let served = serve_connection(
        alloc,
        &mut console,
        &mut desk,
        &mut clock,
        &mut draws,
        &mut NoGate,
    );
    house.back_console(console);
    house.back_clock(clock);
    house.back_draws(draws);
    let farm = desk.into_object();
    let halted = farm.halted();
    house.back_disk(farm.into_disk());
    if halted {
        return on_disk(alloc, name);
    }
    after_serving(alloc, served)
}

/// Counts what a farm and the disk of this name have, on the console, and gives the disk back.
pub(crate) fn check_disk<H: House>(
    alloc: Global,
    name: &str,
    config: Config,
    house: &mut H,
) -> Ended
    ensures checked { let views = views_of H.File.Source H.Store.Disk H.Console.Link H.Notes.Sink H.Time.Clock H.Ids.Draws H.Door.Listener in
        DidOver views (H.lends house.old) (H.lends house.new) (H.refusals house.old) (H.refusals house.new) name.now result.status
        (CheckedOver views (H.lends house.old) (H.lends house.new) (H.refusals house.old) (H.refusals house.new) config name.now result.status) }
    ensures file { (H.lends house.new).file ≡ (H.lends house.old).file }
    ensures notes { (H.lends house.new).notes ≡ (H.lends house.old).notes }
    ensures later { H.refusals house.old ≤ H.refusals house.new }
{
    let has = config.counts();
    let farm = match open_farm(alloc, name, config, house) {
        Ok(farm) => farm,
        Err(ended) => return ended,
    };
    let keeps = farm.counts();
    house.back_disk(farm.into_disk());
    let mut console = house.console();
    let ended = tell_counts(alloc, has, keeps, &mut console);
    house.back_console(console);
    ended
}
