//! `serve`: the farm of a disk is served at a door and its twins.
ghost use Rattle.std.specs.Prelude.{◌≡◌, ◌<◌, ◌≤◌, ◌*◌, [], vec_capacity};
ghost use Rattle.farm_server.specs.declared.served.TheConstants.{REQUESTS};
ghost use Rattle.farm_cli.specs.Heard.{workers_of, ServesLent, KeepsTheRest, ServesDoor, ServedOver};
ghost use Rattle.farm_cli.specs.Run.{DidOver};
ghost use Rattle.farm_crews.specs.Serves.{ServesAll};
ghost use Rattle.farm_cli.specs.Views.{views_of};

use crate::disks::{on_disk, open_farm};
use causes::Failed;
use command_line::Service;
use console_commands::{Ended, Status};
use farm_asks::config::Config;
use farm_core::Farm;
use farm_crews::{HandOf, Left, Shifts, dismiss, serve_object};
use farm_desk::Object;
use farm_machine::tables::farms_tables_cross_threads;
use farm_server::NoGate;
use farm_serving::Worker;
use hook_book::hooks_cross_threads;
use houses::House;
use listeners::Listener;
use std::alloc::Global;
use std::io::ErrorKind;
use std::sync::Wait;
use std::thread::Threads;

/// Lets workers serve a farm at a door that was opened, with what the house lends, and gives all back but the farm.
fn serve_door<R: Threads + Wait + Sync, H: House>(
    rt: &R,
    alloc: Global,
    farm: Farm<H::Store>,
    door: H::Door,
    row: Vec<HandOf<H>>,
    shifts: Shifts,
    house: &mut H,
) -> (Farm<H::Store>, Status)
where
    <H::Door as Listener>::Peer: Send,
    requires none { row.items ≡ [] }
    requires some { 0 < shifts.workers }
    requires room { shifts.workers ≤ vec_capacity row }
    requires few { shifts.workers * (shifts.connections * REQUESTS) ≤ 9223372036854775808 }
    ensures lent { let views = views_of H.File.Source H.Store.Disk H.Console.Link H.Notes.Sink H.Time.Clock H.Ids.Draws H.Door.Listener in
        ServesLent views (H.lends house.old) (H.lends house.new) (H.lends house.old).doors door (λ before after lent crew.
        ServesAll shifts.workers shifts.connections before after lent crew
        (⟦<Farm<H::Store> as Object>⟧.state farm) (⟦<Farm<H::Store> as Object>⟧.state result.0) (⟦<Farm<H::Store> as Object>⟧.holds farm) (⟦<Farm<H::Store> as Object>⟧.holds result.0) result.1) }
    ensures rest { KeepsTheRest (H.lends house.old) (H.lends house.new) (H.refusals house.old) (H.refusals house.new) }
{
    hooks_cross_threads();
    farms_tables_cross_threads();
    let mut console = house.console();
    let clock = house.clock();
    let draws = house.draws();
    let first = Worker {
        door,
        clock,
        draws,
        gate: NoGate,
    };
    let left = serve_object(rt, alloc, farm, &mut console, first, row, shifts);
    let Left {
        object,
        crew,
        status,
    } = left;
    house.back_console(console);
    dismiss(crew, house);
    (object, status)
}

/// Opens the door of a service, where there is memory for its workers, and lets them serve a farm.
fn serve_farm<R: Threads + Wait + Sync, H: House>(
    rt: &R,
    alloc: Global,
    service: &Service,
    farm: Farm<H::Store>,
    house: &mut H,
) -> (Farm<H::Store>, Ended)
where
    <H::Door as Listener>::Peer: Send,
    ensures served { let views = views_of H.File.Source H.Store.Disk H.Console.Link H.Notes.Sink H.Time.Clock H.Ids.Draws H.Door.Listener in
        ServesDoor views (H.lends house.old) (H.lends house.new) (H.refusals house.old) (H.refusals house.new) service.now
        (⟦<Farm<H::Store> as Object>⟧.state farm) (⟦<Farm<H::Store> as Object>⟧.state result.0)
        (⟦<Farm<H::Store> as Object>⟧.holds farm) (⟦<Farm<H::Store> as Object>⟧.holds result.0) result.1.status }
    ensures file { (H.lends house.new).file ≡ (H.lends house.old).file }
    ensures notes { (H.lends house.new).notes ≡ (H.lends house.old).notes }
    ensures later { H.refusals house.old ≤ H.refusals house.new }
{
    let shifts = shifts_of(service);
    let Ok(row) = Vec::with_capacity(alloc, shifts.workers) else {
        return (farm, Ended::plain(Status::NoMemory));
    };
    match house.listen(service.listen.as_str()) {
        Ok(door) => {
            let (farm, status) = serve_door(rt, alloc, farm, door, row, shifts, house);
            (farm, after_workers(alloc, status, service.listen.as_str()))
        }
        Err(Failed) => {
            row.destroy_empty();
            (
                farm,
                unheard(alloc, service.listen.as_str(), house.reason()),
            )
        }
    }
}

/// How many workers and accepts a service has: one worker at least.
fn shifts_of(service: &Service) -> Shifts
    ensures workers { result.workers ≡ workers_of service.now }
    ensures connections { result.connections ≡ service.now.connections }
    ensures some { 0 < result.workers }
    ensures few { result.workers * (result.connections * REQUESTS) ≤ 9223372036854775808 }
{
    Shifts {
        workers: usize::from(service.workers).max(1),
        connections: u64::from(service.connections),
    }
}

/// So a run ended where the house opened no door at this address, for the reason that it gives.
fn unheard(alloc: Global, address: &str, reason: Option<ErrorKind>) -> Ended
    ensures { result.status ≡ Status.Door }
{
    let Some(reason) = reason else {
        return at_door(alloc, address);
    };
    match format!(in alloc; ": {address}: {reason}") {
        Ok(words) => Ended::told(alloc, Status::Door, words.as_str()),
        Err(_) => Ended::plain(Status::Door),
    }
}

/// So a run ended over a door at this address which failed.
fn at_door(alloc: Global, address: &str) -> Ended
    ensures { result.status ≡ Status.Door }
{
    match format!(in alloc; ": {address}") {
        Ok(words) => Ended::told(alloc, Status::Door, words.as_str()),
        Err(_) => Ended::plain(Status::Door),
    }
}

/// So a run ended whose workers left this status, at this address.
fn after_workers(alloc: Global, status: Status, address: &str) -> Ended
    ensures { result.status ≡ status }
{
    match status {
        Status::Door => at_door(alloc, address),
        Status::Read => Ended::without_reason(alloc, Status::Read, ": of a connection"),
        Status::Write => Ended::told(
            alloc,
            Status::Write,
            ": of a connection, or of standard output",
        ),
        Status::Wire => Ended::told(
            alloc,
            Status::Wire,
            ": a connection sent what is no request, or ended inside one",
        ),
        _ => Ended::plain(status),
    }
}

/// Serves the farm that the disk of a service keeps, and gives the disk back.
pub(crate) fn serve_over<R: Threads + Wait + Sync, H: House>(
    rt: &R,
    alloc: Global,
    service: &Service,
    config: Config,
    house: &mut H,
) -> Ended
where
    <H::Door as Listener>::Peer: Send,
    ensures served { let views = views_of H.File.Source H.Store.Disk H.Console.Link H.Notes.Sink H.Time.Clock H.Ids.Draws H.Door.Listener in
        DidOver views (H.lends house.old) (H.lends house.new) (H.refusals house.old) (H.refusals house.new) service.now.disk result.status
        (ServedOver views (H.lends house.old) (H.lends house.new) (H.refusals house.old) (H.refusals house.new) config service.now result.status) }
    ensures file { (H.lends house.new).file ≡ (H.lends house.old).file }
    ensures notes { (H.lends house.new).notes ≡ (H.lends house.old).notes }
    ensures later { H.refusals house.old ≤ H.refusals house.new }
{
    let farm = match open_farm(alloc, service.disk.as_str(), config, house) {
        Ok(farm) => farm,
        Err(ended) => return ended,
    };
    let (farm, ended) = serve_farm(rt, alloc, service, farm, house);
    let halted = farm.halted();
    house.back_disk(farm.into_disk());
    if halted {
        return on_disk(alloc, service.disk.as_str());
    }
    ended
}
