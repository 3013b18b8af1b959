//! Command lines, and what they ask for or what is told of them.
use command_line::{Command, Load, Service, Signing, WordsFault, Work, read_words};
use farm_text::Text;
use std::alloc::{AllocError, Global};

/// The words of a row, which commas cut. A row of none is `(none)`.
fn words_of(alloc: Global, row: &str) -> Result<Vec<String>, AllocError> {
    let mut words = Vec::new(alloc);
    if row == "(none)" {
        return Ok(words);
    }
    for word in row.split(',') {
        words.push(String::from_str(alloc, word)?)?;
    }
    Ok(words)
}

/// Whether the words before a row's ` ~ ` ask for what stands behind it. `SIGN` stands for the words of Hawk's own example.
fn is_row(alloc: Global, row: &str) -> bool {
    match row.split_once(" ~ ") {
        Some((words, wanted)) => match words.strip_prefix("SIGN") {
            Some(more) => signs_with(alloc, more, wanted),
            None => reads(alloc, words, wanted),
        },
        None => false,
    }
}

fn reads(alloc: Global, words: &str, wanted: &str) -> bool {
    match words_of(alloc, words) {
        Ok(words) => is_read(alloc, &words, wanted),
        Err(_) => false,
    }
}

/// Whether the words ask for this, or the text of their refusal contains what stands behind a `?`. Here alone a command is owned.
fn is_read(alloc: Global, words: &[String], wanted: &str) -> bool {
    match read_words(alloc, words) {
        Ok(command) => {
            let is_so = is_asked(alloc, &command, wanted);
            drop(command);
            is_so
        }
        Err(fault) => is_told(&fault, wanted),
    }
}

fn is_told(fault: &WordsFault, wanted: &str) -> bool {
    match (fault, wanted.strip_prefix('?')) {
        (WordsFault::Usage(text), Some(part)) => text.as_str().contains(part),
        _ => false,
    }
}

fn is_asked(alloc: Global, command: &Command, wanted: &str) -> bool {
    match command {
        Command::OverFarm { farm, work } => is_text(&asked(alloc, farm.as_str(), work), wanted),
        Command::Sign { signing } => is_signing(signing, wanted),
        Command::Bulk { load } => is_load(load, wanted),
        Command::Render => wanted == "render",
    }
}

fn is_text(text: &Result<String, AllocError>, wanted: &str) -> bool {
    match text {
        Ok(text) => text.as_str() == wanted,
        Err(_) => false,
    }
}

/// Work over a farm in words: the work and the farm file, and the disk where there is one.
fn asked(alloc: Global, farm: &str, work: &Work) -> Result<String, AllocError> {
    match work {
        Work::Answer { disk } => over(alloc, "answer", farm, disk),
        Work::Expand => over(alloc, "expand", farm, &None),
        Work::Check { disk } => over(alloc, "check", farm, disk),
        Work::Serve(service) => served(alloc, farm, service),
    }
}

fn over(alloc: Global, name: &str, farm: &str, disk: &Option<Text>) -> Result<String, AllocError> {
    match disk {
        Some(disk) => format!(in alloc; "{name} <{farm}> over <{}>", disk.as_str()),
        None => format!(in alloc; "{name} <{farm}>"),
    }
}

/// A service in words: the farm file, the disk, the address, the workers and the connections of each.
fn served(alloc: Global, farm: &str, service: &Service) -> Result<String, AllocError> {
    let (disk, listen) = (service.disk.as_str(), service.listen.as_str());
    let (workers, connections) = (service.workers, service.connections);
    format!(in alloc; "serve <{farm}> over <{disk}> at <{listen}> by {workers} of {connections}")
}

/// The words of `sign` with the options that have to be there, of Hawk's own example.
const SIGN: &str =
    "sign,--id,dh37fgj492je,--token,werxhqb98rpaxn39848xrunpaw3489ruxnpa98w4rxn,--method,GET,--target,/resource/1?b=1&a=2,--host,example.com,--port,8000,--ts,1353832234,--nonce,j4h3g2";

fn signs_with(alloc: Global, more: &str, wanted: &str) -> bool {
    match format!(in alloc; "{SIGN}{more}") {
        Ok(words) => reads(alloc, words.as_str(), wanted),
        Err(_) => false,
    }
}

/// Whether that example is to be signed, with this ext and content type, each behind a `=`, or `none`.
fn is_signing(signing: &Signing, wanted: &str) -> bool {
    signing.id.as_str() == "dh37fgj492je"
        && signing.token.as_str() == "werxhqb98rpaxn39848xrunpaw3489ruxnpa98w4rxn"
        && signing.method.as_str() == "GET"
        && signing.target.as_str() == "/resource/1?b=1&a=2"
        && signing.host.as_str() == "example.com"
        && signing.port == 8000
        && signing.ts.as_str() == "1353832234"
        && signing.nonce.as_str() == "j4h3g2"
        && are_further(signing, wanted)
}

fn are_further(signing: &Signing, wanted: &str) -> bool {
    match wanted.split_once(' ') {
        Some((ext, kind)) => is_option(&signing.ext, ext) && is_option(&signing.content_type, kind),
        None => false,
    }
}

fn is_option(text: &Option<Text>, wanted: &str) -> bool {
    match (text, wanted.strip_prefix('=')) {
        (Some(text), Some(wanted)) => text.as_str() == wanted,
        (None, None) => wanted == "none",
        _ => false,
    }
}

/// Whether the load has this seed and so many tasks.
fn is_load(load: &Load, wanted: &str) -> bool {
    match wanted.split_once(' ') {
        Some((seed, tasks)) => {
            seed.parse::<u64>().ok() == Some(load.seed)
                && tasks.parse::<u32>().ok() == Some(load.tasks)
        }
        None => false,
    }
}

/// Words, and what they ask for: work over a farm, a service, a load, a template, and what is signed.
const READ: &str = "answer,a.toml ~ answer <a.toml>
expand,b.toml ~ expand <b.toml>
check,c.toml ~ check <c.toml>
check,-,-- ~ check <->
answer,--,--disk ~ answer <--disk>
answer,a.toml,--disk,d ~ answer <a.toml> over <d>
answer,--disk,d,a.toml ~ answer <a.toml> over <d>
answer,a.toml,--disk=d,-- ~ answer <a.toml> over <d>
check,--disk=d,--,c.toml ~ check <c.toml> over <d>
check,--disk,-,- ~ check <-> over <->
check,c.toml,--disk= ~ check <c.toml> over <>
check,c.toml,--disk, ~ check <c.toml> over <>
check,c.toml,--disk=-- ~ check <c.toml> over <-->
serve,a.toml,--disk,d,--listen,h:1 ~ serve <a.toml> over <d> at <h:1> by 4 of 1000000
serve,--connections=1,--workers,64,--listen=h:1,--disk=d,--,-a ~ serve <-a> over <d> at <h:1> by 64 of 1
serve,--workers=001,-,--disk,d,--connections,1000000,--listen,[::1]:8080,-- ~ serve <-> over <d> at <[::1]:8080> by 1 of 1000000
serve,--disk,,--listen=,--connections,999999, ~ serve <> over <> at <> by 4 of 999999
serve,a,--disk=--listen,--listen,-,--workers=64 ~ serve <a> over <--listen> at <-> by 64 of 1000000
serve,a,--disk,d,--listen,l,--workers,0000000000000000064 ~ serve <a> over <d> at <l> by 64 of 1000000
serve,a,--listen,l,--disk,d=e,--workers,1 ~ serve <a> over <d=e> at <l> by 1 of 1000000
bulk,--seed,0,--tasks,3 ~ 0 3
bulk,--tasks=100000,--seed=9223372036854775807 ~ 9223372036854775807 100000
bulk,--seed,007,--tasks,0 ~ 7 0
render ~ render
render,-- ~ render
SIGN ~ none none
SIGN,--ext,some-app-ext-data ~ =some-app-ext-data none
SIGN,--ext= ~ none none
SIGN,--type, ~ none =
SIGN,--type=text/plain,--ext=- ~ =- =text/plain
SIGN,-- ~ none none";

#[test]
fn words_are_read(rt: HostRuntime) {
    for row in READ.lines() {
        assert!(rt; is_row(rt.alloc(), row), "{row}");
    }
}

/// Words that get a text, and what it contains: other words, numbers off their form, and help.
const TOLD: &str = "(none) ~ ?
bulk ~ ?
bulk,--seed,1 ~ ?
bulk,--seed,1,--tasks,1,farm.toml ~ ?
answer ~ ?
answer,a,b ~ ?
serve,a ~ ?
help ~ ?
sign,--id,c ~ ?
SIGN,--ext ~ ?
SIGN,--id,other ~ ?
SIGN,farm.toml ~ ?
expand,b.toml,--disk,d ~ ?
bulk,--seed,1,--tasks,1,--disk,d ~ ?
answer,--disk,d ~ ?
answer,a.toml,--disk ~ ?
answer,--disk,--,a.toml ~ ?
answer,a.toml,--,--disk,d ~ ?
answer,a.toml,--disk,d,--disk,d ~ ?
check,--disk,d,c.toml,e ~ ?
check,c.toml,--dis,d ~ ?
--disk,d,check,c.toml ~ ?
render,farm.toml ~ ?
render, ~ ?
render,- ~ ?
render,--,-- ~ ?
render,--,a ~ ?
render,--disk,d ~ ?
rende ~ ?
render,--help ~ ?Renders the template of an input with its context.
serve ~ ?
serve,a.toml ~ ?
serve,a,--disk,d ~ ?
serve,a,--listen,l ~ ?
serve,--disk,d,--listen,l ~ ?
serve,a,b,--disk,d,--listen,l ~ ?
serve,a,--disk,d,--listen,l,--disk,d ~ ?
serve,a,--disk,d,--listen,l,--listen=l ~ ?
serve,a,--disk,d,--listen ~ ?
serve,a,--disk,--listen,l ~ ?
serve,a,--disk,d,--listen,-l ~ ?
serve,a,--disk,d,--listen,l,--worker,4 ~ ?
serve,a,--disk,d,--listen,l,-w,4 ~ ?
serve,a,--disk,d,--listen,l,--,b ~ ?
serve,a,--disk,d,--listen,l,--help ~ ?
answer,a,--listen,l ~ ?
bulk,--seed,,--tasks,1 ~ ?--seed
bulk,--seed,9223372036854775808,--tasks,1 ~ ?--seed
bulk,--seed,+1,--tasks,1 ~ ?--seed
bulk,--seed,00000000000000000001,--tasks,1 ~ ?--seed
bulk,--seed,1,--tasks, ~ ?--tasks
bulk,--seed,1,--tasks,100001 ~ ?--tasks
bulk,--seed,1,--tasks,1.5 ~ ?--tasks
serve,a,--disk,d,--listen,l,--workers,0,--connections,1 ~ ?--workers
serve,a,--disk,d,--listen,l,--workers,65,--connections,1 ~ ?--workers
serve,a,--disk,d,--listen,l,--workers,256,--connections,1 ~ ?--workers
serve,a,--disk,d,--listen,l,--workers,,--connections,1 ~ ?--workers
serve,a,--disk,d,--listen,l,--workers,+4,--connections,1 ~ ?--workers
serve,a,--disk,d,--listen,l,--workers,00000000000000000004,--connections,1 ~ ?--workers
serve,a,--disk,d,--listen,l,--workers,4,--connections,0 ~ ?--connections
serve,a,--disk,d,--listen,l,--workers,4,--connections,1000001 ~ ?--connections
serve,a,--disk,d,--listen,l,--workers,4,--connections,4294967297 ~ ?--connections
serve,a,--disk,d,--listen,l,--workers,4,--connections, ~ ?--connections
serve,a,--disk,d,--listen,l,--workers,4,--connections,1e3 ~ ?--connections
--help ~ ?A build farm's server.
--help ~ ?answer
--help ~ ?expand
--help ~ ?check
--help ~ ?sign
--help ~ ?bulk
--help ~ ?render
--help ~ ?serve
check,--help ~ ?Usage: farm check [OPTIONS] <FARM>
check,--help ~ ?--disk <disk>
check,--help ~ ?The farm file (TOML).";

#[test]
fn other_words_get_a_text(rt: HostRuntime) {
    for row in TOLD.lines() {
        assert!(rt; is_row(rt.alloc(), row), "{row}");
    }
}

/// Options of the example, each with another value behind its `=`, and what is told of it, or what is signed.
const CHANGED: &str = r#"--id= ~ ?--id
--id=a b ~ ?--id
--token=werxhqb98rpaxn39848xr ~ ?--token
--token=werxhqb98rpaxn39848xru. ~ ?--token
--method= ~ ?--method
--method=GET1 ~ ?--method
--method=ABCDEFGHIJKLMNOPQRSTUVWXYZABCDEFG ~ ?--method
--target= ~ ?--target
--target=/a b ~ ?--target
--host= ~ ?--host
--host=hé ~ ?--host
--port=0 ~ ?--port
--port=65536 ~ ?--port
--port=+80 ~ ?--port
--port=00000000000000000080 ~ ?--port
--port=0000000000000008000 ~ none none
--ts= ~ ?--ts
--ts=1353832234567 ~ ?--ts
--ts=1.5 ~ ?--ts
--nonce= ~ ?--nonce
--nonce=a"b ~ ?--nonce
--nonce=a\b ~ ?--nonce"#;

/// The words of the example with another value of an option.
fn changed(alloc: Global, option: &str, value: &str) -> Option<String> {
    let (before, rest) = SIGN.split_once(option)?;
    let (_, rest) = rest.split_once(',')?;
    match rest.split_once(',') {
        Some((_, behind)) => format!(in alloc; "{before}{option},{value},{behind}").ok(),
        None => format!(in alloc; "{before}{option},{value}").ok(),
    }
}

fn is_change(alloc: Global, option: &str, value: &str, wanted: &str) -> bool {
    match changed(alloc, option, value) {
        Some(words) => reads(alloc, words.as_str(), wanted),
        None => false,
    }
}

/// Whether the change of a row comes to what stands behind it.
fn is_changed_row(alloc: Global, row: &str) -> bool {
    match row.split_once(" ~ ") {
        Some((change, wanted)) => match change.split_once('=') {
            Some((option, value)) => is_change(alloc, option, value, wanted),
            None => false,
        },
        None => false,
    }
}

#[test]
fn a_value_off_its_form_is_told(rt: HostRuntime) {
    for row in CHANGED.lines() {
        assert!(rt; is_changed_row(rt.alloc(), row), "{row}");
    }
}
