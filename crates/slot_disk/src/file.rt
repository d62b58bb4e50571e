//! A disk over a file of the system.
ghost use Rattle.std.specs.Prelude.{◌≡◌};
ghost use Rattle.omci_core.specs.Causes.{HasCause};

use crate::disk::Disk;
use omci_core::Failed;
use std::fs::{Files, OpenFile, OpenOptions};
use std::io::{Read, Seek, SeekFrom, Write};
use std::marker::Model;
use std::str;

/// A file of the system as a disk: `attach` opens it for reading and writing, and makes an empty
/// one where there is none. It tells nothing of its bytes: what a crash leaves of them is up to the
/// system. Each call that fails is counted, also one before `attach`; at its last value the count
/// stays.
#[derive(Drop)]
pub struct FileDisk<R: Files + Drop> {
    rt: R,
    file: Option<R::File>,
    faults: u64,
}

impl<R: Files + Drop> Model for FileDisk<R> {
    ghost use Rattle.std.specs.Prelude.{ℕ};

    ghost Value = { ℕ };

    ghost view = { λ disk. disk.faults };
}

impl<R: Files + Clone + Drop> FileDisk<R> {
    /// A disk over no file yet, with no faults so far.
    pub fn new(rt: R) -> FileDisk<R>
        ensures faults { result ≡ 0 }
    {
        FileDisk {
            rt,
            file: None,
            faults: 0,
        }
    }

    // What a call came to; one that failed is counted.
    fn counted<T: Drop>(&mut self, answer: Option<T>) -> Result<T, Failed>
        ensures cause { HasCause self.old self.new result }
    {
        match answer {
            Some(value) => Ok(value),
            None => {
                self.faults = self.faults.saturating_add(1);
                Err(Failed)
            }
        }
    }
}

// Opens the file of this name, and makes an empty one where there is none.
fn open<R: Files>(rt: &R, name: &[u8]) -> Option<R::File> {
    let path = str::from_utf8(name).ok()?;
    OpenOptions::new()
        .read(true)
        .write(true)
        .create(true)
        .open(rt, path)
        .ok()
}

// How many bytes the file has.
fn length<F: OpenFile>(file: &F) -> Option<u64> {
    Some(file.metadata().ok()?.len())
}

// Fills the buffer with the bytes from this place on.
fn read<F: Read + Seek>(file: &mut F, at: u64, into: &mut [u8]) -> Option<()> {
    file.seek(SeekFrom::Start(at)).ok()?;
    file.read_exact(into).ok()
}

// Writes the bytes from this place on.
fn write<F: Write + Seek>(file: &mut F, at: u64, from: &[u8]) -> Option<()> {
    file.seek(SeekFrom::Start(at)).ok()?;
    file.write_all(from).ok()
}

impl<R: Files + Clone + Drop> Disk for FileDisk<R> {
    ghost use Rattle.std.specs.Prelude.{None};
    ghost use Rattle.slot_disk.specs.Untold.{untold_reads, untold_cut, untold_seen};

    ghost seen = { λ disk. None };

    ghost may_leave = { λ disk image. ⊥ };

    ghost left_since = { λ disk time image. ⊥ };

    ghost clock = { λ disk. 0 };

    ghost rig = { λ disk. None };

    ghost faults = { λ disk. disk };

    ghost rig_reads = { λ disk r is. untold_reads r is };

    ghost cut_counts = { λ disk r pick is. untold_cut r is };

    ghost leaves_seen = { λ disk bytes is. untold_seen bytes is };

    ghost counts_now = { λ disk time image le now. now };

    ghost only_now = { λ disk image left. left };

    fn attach(&mut self, name: &[u8]) -> Result<u64, Failed> {
        self.file = open(&self.rt, name);
        let size = self.file.as_ref().and_then(|file| length(file));
        self.counted(size)
    }

    fn read_at(&mut self, at: u64, into: &mut [u8]) -> Result<(), Failed> {
        let done = self.file.as_mut().and_then(|file| read(file, at, into));
        self.counted(done)
    }

    fn write_at(&mut self, at: u64, from: &[u8]) -> Result<(), Failed> {
        let done = self.file.as_mut().and_then(|file| write(file, at, from));
        self.counted(done)
    }

    fn sync(&mut self) -> Result<(), Failed> {
        let done = self.file.as_ref().and_then(|file| file.sync_all().ok());
        self.counted(done)
    }
}
