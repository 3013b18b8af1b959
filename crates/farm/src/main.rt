//! The program: what its words ask for is run over what the system lends.
#![tactic(auto)]

use causes::{Failed, FaultCount};
use console_commands::{Ended, Status};
use farm_cli::run::run;
use houses::HostHouse;
use std::process::ExitCode;
use std::{env, io};

fn main(rt: HostRuntime) -> ExitCode {
    let status = match begin(rt) {
        Ok((words, mut house)) => run(&rt, rt.alloc(), words.as_slice(), &mut house),
        Err(ended) => {
            let note = ended.note(rt.alloc(), None);
            let _ = eprint!(rt; "{}", ended.line(&note));
            ended.status()
        }
    };
    ExitCode::from(status.code())
}

/// The words of the command line, without the program's name, and the house of the system.
fn begin(rt: HostRuntime) -> Result<(Vec<String>, HostHouse), Ended> {
    let alloc = rt.alloc();
    let words = match words_given(&rt) {
        Ok(words) => words,
        Err(error) if error.kind() == io::ErrorKind::OutOfMemory => {
            return Err(Ended::plain(Status::NoMemory));
        }
        Err(_) => {
            let told = "a word of the command line is not UTF-8\n";
            return Err(Ended::told(alloc, Status::Usage, told));
        }
    };
    match HostHouse::new(rt, &mut FaultCount::new()) {
        Ok(house) => Ok((words, house)),
        Err(Failed) => Err(Ended::told(alloc, Status::Read, ": the system's random numbers")),
    }
}

/// The words of the command line, without the program's name. One that is not UTF-8 is an error.
fn words_given(rt: &HostRuntime) -> io::Result<Vec<String>> {
    let words = env::args(rt)?.skip(1).collect(rt.alloc())?;
    Ok(words)
}
