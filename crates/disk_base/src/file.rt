//! A disk of the host: one of its files.
ghost use Rattle.std.specs.Prelude.{◌≡◌, ◌↔◌, IfOk, IsOk};
ghost use Rattle.causes.specs.Causes.{HasCause};
ghost use Rattle.disk_base.specs.Untold.{untold};

use crate::disk::Disk;
use causes::{Failed, FaultCount};
use std::fs::{File, OpenOptions};
use std::io::ErrorKind;
use std::os::unix::fs::FileExt;
use std::{fs, io};

/// How many bytes may be written ahead of a record: those of some three hundred records. A new length is a change of the file's own
/// record, which costs a sync about as much again as the bytes.
const AHEAD: usize = 65_536;

/// The place past which no write ends, 2^63.
const LAST_PLACE: u64 = 1 << 63;

/// A file of the host, which does not tell what a stop may leave of it.
///
/// A sync is an `fdatasync` where nothing but bytes in place may have changed since the last one. Else it is an `fsync`, and the
/// first sync after the opening is one of the file and of its folder, since an earlier run may have made the file, or
/// changed its length, and ended before its sync.
#[derive(Drop)]
pub struct FileDisk {
    file: File,
    // The folder, until it has been synced.
    folder: Option<File>,
    // The length that it has: one that a write that failed may have given it is not in it.
    length: u64,
    // Whether the length may have changed since the last sync.
    has_new_length: bool,
    faults: FaultCount,
}

impl FileDisk {
    /// Opens a file to read and write. One that is missing is made, and reads as empty.
    pub fn open(rt: &HostRuntime, path: &str) -> io::Result<FileDisk>
        ensures { IfOk result (λ disk. ⟦<FileDisk as Disk>⟧.faults disk ≡ 0) }
    {
        let file = OpenOptions::new()
            .read(true)
            .write(true)
            .create(true)
            .open(rt, path)?;
        let folder = fs::open(rt, folder_of(path))?;
        let length = file.metadata()?.len();
        Ok(FileDisk {
            file,
            folder: Some(folder),
            length,
            has_new_length: true,
            faults: FaultCount::new(),
        })
    }

    fn cut_file(&mut self, size: u64) -> io::Result<()>
        ensures { self.new.faults ≡ self.old.faults }
    {
        if size < self.file.metadata()?.len() {
            self.has_new_length = true;
            self.file.set_len(size)?;
            self.length = size;
        }
        Ok(())
    }

    fn sync_file(&mut self) -> io::Result<()>
        ensures { self.new.faults ≡ self.old.faults }
    {
        if self.has_new_length {
            self.file.sync_all()?;
        } else {
            self.file.sync_data()?;
        }
        if let Some(folder) = &self.folder {
            folder.sync_all()?;
        }
        self.has_new_length = false;
        self.folder = None;
        Ok(())
    }

    // Counts a call that failed.
    fn count<T: Drop>(&mut self, outcome: io::Result<T>) -> Result<T, Failed>
        ensures cause { HasCause self.old.faults self.new.faults result }
        ensures value { IfOk result (λ x. outcome ≡ Ok x) }
        ensures err { IsOk outcome ↔ IsOk result }
    {
        match outcome {
            Ok(value) => Ok(value),
            Err(_) => {
                self.faults.raise();
                Err(Failed)
            }
        }
    }
}

// The folder that a path's file is in.
fn folder_of(path: &str) -> &str {
    match path.rsplit_once('/') {
        Some(("", _)) => "/",
        Some((folder, _)) => folder,
        None => ".",
    }
}

impl Disk for FileDisk {
    ghost tells = { ⊥ };

    ghost contents = { λ _. untold };

    ghost faults = { λ disk. disk.faults };

    fn read(&mut self, at: u64, buf: &mut [u8]) -> Result<usize, Failed> {
        if at >= LAST_PLACE {
            return Ok(0);
        }
        let most = (buf.len() as u64).min(LAST_PLACE - 1 - at);
        let outcome = self.file.read_at(&mut buf[..most as usize], at);
        self.count(outcome)
    }

    fn write_at(&mut self, at: u64, bytes: &[u8]) -> Result<(), Failed> {
        let size = bytes.len() as u64;
        if at > LAST_PLACE || size > LAST_PLACE - at {
            self.faults.raise();
            return Err(Failed);
        }
        let is_longer = at + size > self.length;
        if is_longer {
            self.has_new_length = true;
        }
        let outcome = self.file.write_all_at(bytes, at);
        if is_longer && outcome.is_ok() {
            self.length = at + size;
        }
        self.count(outcome)
    }

    fn cut(&mut self, size: u64) -> Result<(), Failed> {
        let outcome = self.cut_file(size);
        self.count(outcome)
    }

    fn sync(&mut self) -> Result<(), Failed> {
        let outcome = self.sync_file();
        self.count(outcome)
    }

    fn ahead(&self) -> usize {
        AHEAD
    }
}
