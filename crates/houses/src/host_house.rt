//! The house of the system: its files, its standard streams, its clock, its random numbers and its sockets.
ghost use Rattle.std.specs.Prelude.{◌≡◌, IfOk};
ghost use Rattle.causes.specs.Causes.{HasCause};
ghost use Rattle.houses.specs.House.{silent, untold};
ghost use Rattle.houses.specs.declared.lending.Lending.TheVariants.{Untold};

use crate::house::House;
use causes::{Failed, FaultCount};
use disk_base::FileDisk;
use farm_text::HostClock;
use http_wire::{HostSink, HostSource, Joined};
use listeners::HostListener;
use random_ids::HostDraws;
use std::fs;
use std::fs::File;
use std::io::{ErrorKind, Stderr, Stdin, Stdout};

/// The house of the system, which does not tell what passes through the objects that it lends.
#[derive(Drop)]
pub struct HostHouse {
    rt: HostRuntime,
    draws: HostDraws,
    refusals: FaultCount,
    reason: Option<ErrorKind>,
}

impl HostHouse {
    /// The house of this runtime. It seeds its random numbers: a runtime that gives none is counted among the refused seeds.
    pub fn new(rt: HostRuntime, refused_seeds: &mut FaultCount) -> Result<HostHouse, Failed>
        ensures opened { IfOk result (λ house. ⟦<HostHouse as House>⟧.refusals house ≡ 0) }
        ensures cause { HasCause refused_seeds.old refused_seeds.new result }
    {
        let draws = match HostDraws::new(&rt, refused_seeds) {
            Ok(draws) => draws,
            Err(Failed) => return Err(Failed),
        };
        Ok(HostHouse {
            rt,
            draws,
            refusals: FaultCount::new(),
            reason: None,
        })
    }
}

impl HostHouse {
    /// Keeps a reason, if there is one.
    fn note(&mut self, reason: Option<ErrorKind>)
        ensures { self.new.refusals ≡ self.old.refusals }
    {
        if let Some(reason) = reason {
            self.reason = Some(reason);
        }
    }
}

impl House for HostHouse {
    type File = HostSource<File>;

    type Store = FileDisk;

    type Console = Joined<HostSource<Stdin>, HostSink<Stdout>>;

    type Notes = HostSink<Stderr>;

    type Time = HostClock<HostRuntime>;

    type Ids = HostDraws;

    type Door = HostListener<HostRuntime>;

    ghost lends = { λ _. record { file = untold; disk = untold; console = Untold; notes = Untold; clock = Untold; draws = Untold; doors = silent } };

    ghost refusals = { λ h. h.refusals };

    fn reason(&self) -> Option<ErrorKind> {
        self.reason
    }

    fn farm_file(&mut self, name: &str) -> Result<HostSource<File>, Failed> {
        match fs::open(&self.rt, name) {
            Ok(file) => Ok(HostSource::new(file)),
            Err(error) => {
                self.refusals.raise();
                self.reason = Some(error.kind());
                Err(Failed)
            }
        }
    }

    fn back_farm_file(&mut self, file: HostSource<File>) {
        self.note(file.why());
    }

    fn disk(&mut self, name: &str) -> Result<FileDisk, Failed> {
        match FileDisk::open(&self.rt, name) {
            Ok(disk) => Ok(disk),
            Err(error) => {
                self.refusals.raise();
                self.reason = Some(error.kind());
                Err(Failed)
            }
        }
    }

    fn back_disk(&mut self, _disk: FileDisk) {}

    fn console(&mut self) -> Joined<HostSource<Stdin>, HostSink<Stdout>> {
        Joined {
            source: HostSource::new(self.rt.stdin()),
            sink: HostSink::new(self.rt.stdout()),
        }
    }

    fn back_console(&mut self, console: Joined<HostSource<Stdin>, HostSink<Stdout>>) {
        self.note(console.source.why());
        self.note(console.sink.why());
    }

    fn notes(&mut self) -> HostSink<Stderr> {
        HostSink::new(self.rt.stderr())
    }

    fn back_notes(&mut self, _notes: HostSink<Stderr>) {}

    fn clock(&mut self) -> HostClock<HostRuntime> {
        HostClock::new(self.rt)
    }

    fn back_clock(&mut self, _clock: HostClock<HostRuntime>) {}

    fn draws(&mut self) -> HostDraws {
        self.draws.seed_another()
    }

    fn back_draws(&mut self, _draws: HostDraws) {}

    fn listen(&mut self, address: &str) -> Result<HostListener<HostRuntime>, Failed> {
        match HostListener::bind(self.rt, address) {
            Ok(door) => Ok(door),
            Err(error) => {
                self.refusals.raise();
                self.reason = Some(error.kind());
                Err(Failed)
            }
        }
    }

    fn back_listen(&mut self, door: HostListener<HostRuntime>) {
        self.note(door.why());
    }
}
