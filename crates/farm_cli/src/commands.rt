//! The commands, over what a house lends.
ghost use Rattle.std.specs.Prelude.{◌≡◌, ◌≤◌};
ghost use Rattle.farm_cli.specs.Checking.{Checks};
ghost use Rattle.console_commands.specs.Expanding.{Expands};
ghost use Rattle.farm_cli.specs.Loading.{Loads};
ghost use Rattle.console_commands.specs.Rendering.{Renders};
ghost use Rattle.farm_cli.specs.Run.{Obeyed};
ghost use Rattle.farm_cli.specs.Used.{UsedConsole};
ghost use Rattle.farm_cli.specs.Serving.{Conversed};
ghost use Rattle.console_commands.specs.Signing.{Signs};
ghost use Rattle.farm_cli.specs.Views.{views_of};

use crate::checking::check;
use crate::disks::{check_disk, converse_over};
use crate::ends::after_serving;
use crate::loading::run_load;
use crate::serve::serve_over;
use command_line::{Load, Signing, Work};
use console_commands::{Ended, expand, render, sign};
use farm_asks::config::Config;
use farm_core::Bare;
use farm_desk::Solo;
use farm_server::{NoGate, serve_connection};
use houses::House;
use listeners::Listener;
use std::alloc::Global;
use std::sync::Wait;
use std::thread::Threads;

/// Does work over a farm that is set up so.
pub(crate) fn obey<R: Threads + Wait + Sync, H: House>(
    rt: &R,
    alloc: Global,
    work: &Work,
    config: Config,
    house: &mut H,
) -> Ended
where
    <H::Door as Listener>::Peer: Send,
    ensures obeyed { let views = views_of H.File.Source H.Store.Disk H.Console.Link H.Notes.Sink H.Time.Clock H.Ids.Draws H.Door.Listener in
        Obeyed views (H.lends house.old) (H.lends house.new) (H.refusals house.old) (H.refusals house.new) config work.now result.status }
    ensures file { (H.lends house.new).file ≡ (H.lends house.old).file }
    ensures notes { (H.lends house.new).notes ≡ (H.lends house.old).notes }
    ensures later { H.refusals house.old ≤ H.refusals house.new }
{
    match work {
        Work::Answer { disk: None } => converse(alloc, config, house),
        Work::Answer { disk: Some(disk) } => converse_over(alloc, disk.as_str(), config, house),
        Work::Expand => {
            let ended = expand_over(alloc, &config, house);
            drop(config);
            ended
        }
        Work::Check { disk: None } => {
            let ended = check_over(alloc, &config, house);
            drop(config);
            ended
        }
        Work::Check { disk: Some(disk) } => check_disk(alloc, disk.as_str(), config, house),
        Work::Serve(service) => serve_over(rt, alloc, service, config, house),
    }
}

/// Serves the console over a farm that begins without tasks.
fn converse<H: House>(alloc: Global, config: Config, house: &mut H) -> Ended
    ensures conversed { let views = views_of H.File.Source H.Store.Disk H.Console.Link H.Notes.Sink H.Time.Clock H.Ids.Draws H.Door.Listener in
        Conversed views (H.lends house.old) (H.lends house.new) config result.status }
    ensures file { (H.lends house.new).file ≡ (H.lends house.old).file }
    ensures notes { (H.lends house.new).notes ≡ (H.lends house.old).notes }
    ensures refusals { H.refusals house.new ≡ H.refusals house.old }
{
    let mut console = house.console();
    let mut clock = house.clock();
    let mut draws = house.draws();
    let mut desk = Solo::new(Bare::new(alloc, config));
    let served = serve_connection(
        alloc,
        &mut console,
        &mut desk,
        &mut clock,
        &mut draws,
        &mut NoGate,
    );
    house.back_console(console);
    house.back_clock(clock);
    house.back_draws(draws);
    let bare = desk.into_object();
    drop(bare);
    after_serving(alloc, served)
}

/// Expands the console's scopes over the roles of a farm.
fn expand_over<H: House>(alloc: Global, config: &Config, house: &mut H) -> Ended
    ensures used { let views = views_of H.File.Source H.Store.Disk H.Console.Link H.Notes.Sink H.Time.Clock H.Ids.Draws H.Door.Listener in
        UsedConsole views (H.lends house.old) (H.lends house.new) (λ before after. Expands config.now.roles before after result.status) }
    ensures file { (H.lends house.new).file ≡ (H.lends house.old).file }
    ensures notes { (H.lends house.new).notes ≡ (H.lends house.old).notes }
    ensures refusals { H.refusals house.new ≡ H.refusals house.old }
{
    let mut console = house.console();
    let ended = expand(alloc, config.roles.roles(), &mut console);
    house.back_console(console);
    ended
}

/// Counts what a farm has, on the console.
fn check_over<H: House>(alloc: Global, config: &Config, house: &mut H) -> Ended
    ensures used { let views = views_of H.File.Source H.Store.Disk H.Console.Link H.Notes.Sink H.Time.Clock H.Ids.Draws H.Door.Listener in
        UsedConsole views (H.lends house.old) (H.lends house.new) (λ before after. Checks config.now before after result.status) }
    ensures file { (H.lends house.new).file ≡ (H.lends house.old).file }
    ensures notes { (H.lends house.new).notes ≡ (H.lends house.old).notes }
    ensures refusals { H.refusals house.new ≡ H.refusals house.old }
{
    let mut console = house.console();
    let ended = check(alloc, config, &mut console);
    house.back_console(console);
    ended
}

/// Signs a request, over the console.
pub(crate) fn sign_over<H: House>(alloc: Global, signing: &Signing, house: &mut H) -> Ended
    ensures used { let views = views_of H.File.Source H.Store.Disk H.Console.Link H.Notes.Sink H.Time.Clock H.Ids.Draws H.Door.Listener in
        UsedConsole views (H.lends house.old) (H.lends house.new) (λ before after. Signs signing.now before after result.status) }
    ensures file { (H.lends house.new).file ≡ (H.lends house.old).file }
    ensures notes { (H.lends house.new).notes ≡ (H.lends house.old).notes }
    ensures refusals { H.refusals house.new ≡ H.refusals house.old }
{
    let mut console = house.console();
    let ended = sign(alloc, signing, &mut console);
    house.back_console(console);
    ended
}

/// Runs a generated load, over the console.
pub(crate) fn load_over<H: House>(alloc: Global, load: Load, house: &mut H) -> Ended
    ensures used { let views = views_of H.File.Source H.Store.Disk H.Console.Link H.Notes.Sink H.Time.Clock H.Ids.Draws H.Door.Listener in
        UsedConsole views (H.lends house.old) (H.lends house.new) (λ before after. Loads load before after result.status) }
    ensures file { (H.lends house.new).file ≡ (H.lends house.old).file }
    ensures notes { (H.lends house.new).notes ≡ (H.lends house.old).notes }
    ensures refusals { H.refusals house.new ≡ H.refusals house.old }
{
    let mut console = house.console();
    let ended = run_load(alloc, load, &mut console);
    house.back_console(console);
    ended
}

/// Renders a template, over the console.
pub(crate) fn render_over<H: House>(alloc: Global, house: &mut H) -> Ended
    ensures used { let views = views_of H.File.Source H.Store.Disk H.Console.Link H.Notes.Sink H.Time.Clock H.Ids.Draws H.Door.Listener in
        UsedConsole views (H.lends house.old) (H.lends house.new) (λ before after. Renders before after result.status) }
    ensures file { (H.lends house.new).file ≡ (H.lends house.old).file }
    ensures notes { (H.lends house.new).notes ≡ (H.lends house.old).notes }
    ensures refusals { H.refusals house.new ≡ H.refusals house.old }
{
    let mut console = house.console();
    let ended = render(alloc, &mut console);
    house.back_console(console);
    ended
}
