//! The command line, as clap reads it and tells it to the user.
ghost use Rattle.std.specs.Prelude.{◌≡◌, ◌∷◌, ◌++◌, true, false, take, IfOk, codes};
ghost use Rattle.clap.specs.Words.{App, app_of, new_app, rule_of, with_rule, with_subcommand};
ghost use Rattle.command_line.specs.Load.{bulk_app};
ghost use Rattle.command_line.specs.Parts.{IsDiskLeaf, IsLeaf, IsPlainLeaf};
ghost use Rattle.command_line.specs.Signing.{option_rule, port_field, request_fields, sign_app, stamp_fields, with_fields};
ghost use Rattle.command_line.specs.Words.{bare_app, farm_app, farm_argument, render_app, serve_app, with_disk, with_farm};

use clap::{Arg, Command};
use std::alloc::{AllocError, Global};

/// FARM, the name of the farm file: required, and in its place.
fn farm_file<'a>(alloc: Global) -> Arg<'a>
    ensures rule { rule_of result ≡ farm_argument }
    ensures local { result.global ≡ false }
{
    Arg::new(alloc, "FARM")
        .required(true)
        .value_name("FARM")
        .help("The farm file (TOML).")
}

/// `--name`, with one value.
fn option<'a>(alloc: Global, name: &'a str, required: bool, help: &'a str) -> Arg<'a>
    ensures rule { rule_of result ≡ option_rule name.entry.now required }
    ensures local { result.global ≡ false }
{
    Arg::new(alloc, name)
        .long(name)
        .required(required)
        .help(help)
}

/// The command with an option more, `--name` with one value, where there was memory for both.
fn with_option<'a>(
    alloc: Global,
    command: Result<Command<'a>, AllocError>,
    name: &'a str,
    required: bool,
    help: &'a str,
) -> Result<Command<'a>, AllocError>
    ensures { (app : App) → IfOk command.entry (IsPlainLeaf app) → IfOk result (IsPlainLeaf (with_rule app (option_rule name.entry.now required))) }
{
    match command {
        Ok(command) => command.arg(option(alloc, name, required, help)),
        Err(error) => Err(error),
    }
}

/// The command with `--disk`, the file that keeps the farm.
fn with_disk<'a>(
    alloc: Global,
    command: Result<Command<'a>, AllocError>,
    required: bool,
) -> Result<Command<'a>, AllocError>
    ensures { (app : App) → IfOk command.entry (IsPlainLeaf app) → IfOk result (IsPlainLeaf (with_rule app (option_rule (codes "disk") required))) }
{
    with_option(
        alloc,
        command,
        "disk",
        required,
        "The file that keeps the farm's records. It is made where it is not there.",
    )
}

/// A command that takes nothing.
fn bare<'a>(alloc: Global, name: &'a str, about: &'a str) -> Command<'a>
    ensures { IsPlainLeaf (new_app name.entry.now) result }
{
    Command::new(alloc, name).about(about)
}

/// A command that takes FARM and nothing else.
fn over_farm<'a>(alloc: Global, name: &'a str, about: &'a str) -> Result<Command<'a>, AllocError>
    ensures { IfOk result (IsLeaf name.entry.now) }
{
    bare(alloc, name, about).arg(farm_file(alloc))
}

fn answer<'a>(alloc: Global) -> Result<Command<'a>, AllocError>
    ensures { IfOk result (IsDiskLeaf (codes "answer")) }
{
    let command = over_farm(
        alloc,
        "answer",
        "Serves one connection: requests on standard input, replies on standard output.",
    );
    with_disk(alloc, command, false)
}

fn expand<'a>(alloc: Global) -> Result<Command<'a>, AllocError>
    ensures { IfOk result (IsLeaf (codes "expand")) }
{
    over_farm(
        alloc,
        "expand",
        "Reads scopes, one a line, and writes all scopes that they give.",
    )
}

fn check<'a>(alloc: Global) -> Result<Command<'a>, AllocError>
    ensures { IfOk result (IsDiskLeaf (codes "check")) }
{
    let command = over_farm(
        alloc,
        "check",
        "Checks the farm file and the disk, and counts what they have.",
    );
    with_disk(alloc, command, false)
}

/// `sign`, with who signs.
fn signer<'a>(alloc: Global) -> Result<Command<'a>, AllocError>
    ensures { IfOk result (IsPlainLeaf (with_fields (new_app (codes "sign")) (take 2 request_fields))) }
{
    let command = bare(
        alloc,
        "sign",
        "Writes the value of the Authorization header that signs a request (Hawk).",
    );
    let command = with_option(alloc, Ok(command), "id", true, "The client's id.");
    with_option(alloc, command, "token", true, "The client's access token.")
}

/// `sign`, with who signs, and what is asked of which host.
fn sign_request<'a>(alloc: Global) -> Result<Command<'a>, AllocError>
    ensures { IfOk result (IsPlainLeaf (with_fields (new_app (codes "sign")) request_fields)) }
{
    let command = with_option(
        alloc,
        signer(alloc),
        "method",
        true,
        "The method of the request.",
    );
    let command = with_option(
        alloc,
        command,
        "target",
        true,
        "The target of the request, as it is sent.",
    );
    with_option(
        alloc,
        command,
        "host",
        true,
        "The host that the farm file names.",
    )
}

/// `sign`, with what has to be there.
fn sign_stamp<'a>(alloc: Global) -> Result<Command<'a>, AllocError>
    ensures { IfOk result (IsPlainLeaf (with_fields (new_app (codes "sign")) (request_fields ++ port_field ∷ take 2 stamp_fields))) }
{
    let command = with_option(
        alloc,
        sign_request(alloc),
        "port",
        true,
        "The port that the farm file names.",
    );
    let command = with_option(alloc, command, "ts", true, "The seconds since 1970.");
    with_option(alloc, command, "nonce", true, "A text that is used once.")
}

/// `sign` with all its options.
fn sign<'a>(alloc: Global) -> Result<Command<'a>, AllocError>
    ensures { IfOk result (IsPlainLeaf sign_app) }
{
    let command = with_option(
        alloc,
        sign_stamp(alloc),
        "ext",
        false,
        "The scopes that are asked for, in base64.",
    );
    with_option(
        alloc,
        command,
        "type",
        false,
        "The content type of the body, which is read from standard input.",
    )
}

fn bulk<'a>(alloc: Global) -> Result<Command<'a>, AllocError>
    ensures { IfOk result (IsPlainLeaf bulk_app) }
{
    let command = bare(
        alloc,
        "bulk",
        "Runs a generated load over a farm in memory, and writes how its tasks ended.",
    );
    let command = with_option(
        alloc,
        Ok(command),
        "seed",
        true,
        "What its numbers begin with.",
    );
    with_option(alloc, command, "tasks", true, "How many tasks it creates.")
}

fn render<'a>(alloc: Global) -> Command<'a>
    ensures { IsPlainLeaf render_app result }
{
    Command::new(alloc, "render").about("Renders the template of an input with its context.")
}

/// `serve`, with the farm file and the disk.
fn served<'a>(alloc: Global) -> Result<Command<'a>, AllocError>
    ensures { IfOk result (IsPlainLeaf (with_rule (with_farm (codes "serve")) (option_rule (codes "disk") true))) }
{
    let command = over_farm(
        alloc,
        "serve",
        "Serves connections that come to an address, over a farm that a disk keeps.",
    );
    with_disk(alloc, command, true)
}

/// `serve` with all its options.
fn serve<'a>(alloc: Global) -> Result<Command<'a>, AllocError>
    ensures { IfOk result (IsPlainLeaf serve_app) }
{
    let command = with_option(
        alloc,
        served(alloc),
        "listen",
        true,
        "The address and the port that are listened at, as 127.0.0.1:8080.",
    );
    let command = with_option(
        alloc,
        command,
        "workers",
        false,
        "How many workers serve side by side: 1 to 64, or else 4.",
    );
    with_option(
        alloc,
        command,
        "connections",
        false,
        "How many connections each worker serves: 1 to 1000000, or else as many.",
    )
}

/// The program without its commands. Its words come without its name.
fn without_commands<'a>(alloc: Global) -> Result<Command<'a>, AllocError>
    ensures { IfOk result (λ program. app_of program ≡ bare_app) }
{
    Ok(
        Command::new(alloc, "farm")
            .bin_name("farm")?
            .about("A build farm's server.")
            .no_binary_name(true)
            .subcommand_required(true)
            .arg_required_else_help(true),
    )
}

/// The program with one command more, where there was memory for that.
fn with<'a>(
    program: Command<'a>,
    command: Result<Command<'a>, AllocError>,
) -> Result<Command<'a>, AllocError>
    ensures { IfOk result (λ more. (app : App) → IfOk command.entry (IsPlainLeaf app) → app_of more ≡ with_subcommand (app_of program.entry) app.top) }
{
    match command {
        Ok(command) => program.subcommand(command),
        Err(error) => {
            drop(program);
            Err(error)
        }
    }
}

/// The same, where there was memory for the program.
fn joined<'a>(
    program: Result<Command<'a>, AllocError>,
    command: Result<Command<'a>, AllocError>,
) -> Result<Command<'a>, AllocError>
    ensures { (whole app : App) → IfOk program.entry (λ p. app_of p ≡ whole) → IfOk command.entry (IsPlainLeaf app)
        → IfOk result (λ more. app_of more ≡ with_subcommand whole app.top) }
{
    match program {
        Ok(program) => with(program, command),
        Err(error) => {
            drop(command);
            Err(error)
        }
    }
}

/// The program with the first three of its commands.
fn first_commands<'a>(alloc: Global) -> Result<Command<'a>, AllocError>
    ensures { IfOk result (λ program. app_of program
        ≡ with_subcommand (with_subcommand (with_subcommand bare_app (with_disk (codes "answer")).top) (with_farm (codes "expand")).top) (with_disk (codes "check")).top) }
{
    let program = joined(without_commands(alloc), answer(alloc));
    let program = joined(program, expand(alloc));
    joined(program, check(alloc))
}

/// The program with its commands.
pub(crate) fn farm<'a>(alloc: Global) -> Result<Command<'a>, AllocError>
    ensures { IfOk result (λ program. app_of program ≡ farm_app) }
{
    let program = joined(first_commands(alloc), sign(alloc));
    let program = joined(program, bulk(alloc));
    let program = joined(program, Ok(render(alloc)));
    joined(program, serve(alloc))
}
