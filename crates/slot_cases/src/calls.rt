//! The calls of a line by name.
ghost use Rattle.slot_spec.specs.Rig.{IsTrap};

use crate::held::DiskCalls;
use crate::said::Said;
use crate::store::StoreCalls;
use case_lines::{Cases, NoMemory, array_of, u8_of, u64_of};
use image_store::Boot;
use slot_disk::{FileDisk, MemDisk, Pick, Trap};
use std::alloc::Global;
use std::fs::{self, Files};

/// A disk in memory with the store of a unit that runs over it, and a disk over a file.
#[derive(Drop)]
pub(crate) struct Calls<R: Files + Clone + Drop> {
    alloc: Global,
    rt: R,
    memory: MemoryCalls,
    file: DiskCalls<FileDisk<R>>,
}

impl<R: Files + Clone + Drop> Calls<R> {
    pub(crate) fn new(alloc: Global, rt: R, disk: FileDisk<R>) -> Calls<R> {
        let mut file = DiskCalls::new(alloc);
        file.put_disk(disk);
        Calls {
            alloc,
            rt,
            memory: MemoryCalls::new(alloc),
            file,
        }
    }

    /// Takes a file away, where there is one.
    fn remove(&self, name: &str) -> Result<String, NoMemory> {
        let _ = fs::remove_file(&self.rt, name);
        Said::Done.text(self.alloc)
    }
}

impl<R: Files + Clone + Drop> Cases for Calls<R> {
    fn answer(&mut self, words: &[&str]) -> Result<String, NoMemory> {
        match *words {
            ["file", "remove", name] => self.remove(name),
            ["file", ref call @ ..] => self.file.answer(call),
            ["cuts", lines, call, ref request @ ..] => {
                self.memory.cuts(u64_of(lines), u64_of(call), request)
            }
            _ => self.memory.answer(words),
        }
    }
}

/// A disk in memory, and the store of a unit that runs over it.
#[derive(Drop)]
pub(crate) struct MemoryCalls {
    pub(crate) alloc: Global,
    pub(crate) disk: DiskCalls<MemDisk>,
    store: StoreCalls,
}

impl MemoryCalls {
    fn new(alloc: Global) -> MemoryCalls {
        MemoryCalls {
            alloc,
            disk: DiskCalls::new(alloc),
            store: StoreCalls::new(alloc),
        }
    }

    /// A new disk of zeros.
    fn new_disk(&mut self, length: u64) -> Result<Said, NoMemory> {
        let disk = MemDisk::new(self.alloc, length)?;
        self.disk.put_disk(disk);
        Ok(Said::Done)
    }

    /// Sets the trap, wherever the disk is.
    fn rig(&mut self, trap: Trap)
        requires trap { IsTrap trap }
    {
        self.disk.rig(trap);
        self.store.rig(trap);
    }

    pub(crate) fn fuse(&mut self, call: u64, pick: Pick) -> Said {
        if call == 0 {
            return Said::Absent;
        }
        self.rig(Trap::Fuse { call, pick });
        Said::Done
    }

    fn fail(&mut self, call: u64) -> Said {
        if call == 0 {
            return Said::Absent;
        }
        self.rig(Trap::Fail { call });
        Said::Done
    }

    /// The power comes back to the disk, without a trap.
    pub(crate) fn power(&mut self) -> Said {
        match self.disk.take_disk() {
            Some(mut disk) => {
                disk.restore();
                disk.disarm();
                self.disk.put_disk(disk);
                Said::Done
            }
            None => Said::Absent,
        }
    }

    /// Starts a unit over the disk.
    fn start(&mut self, boot: Boot, length: u64) -> Said {
        let Some(disk) = self.disk.take_disk() else {
            return Said::Absent;
        };
        let (disk, said) = self.store.start(disk, length, boot);
        if let Some(disk) = disk {
            self.disk.put_disk(disk);
        }
        said
    }

    /// Switches the unit off.
    fn stop(&mut self) -> Said {
        match self.store.stop() {
            Some(disk) => {
                self.disk.put_disk(disk);
                Said::Done
            }
            None => Said::Absent,
        }
    }

    /// A call that changes the disk, a trap or whether a unit runs.
    pub(crate) fn change(&mut self, words: &[&str]) -> Result<Said, NoMemory> {
        match *words {
            ["disk", length] => self.new_disk(u64_of(length)),
            ["fuse", call, pick] => Ok(self.fuse(u64_of(call), pick_of(pick))),
            ["fail", call] => Ok(self.fail(u64_of(call))),
            ["power"] => Ok(self.power()),
            ["start", "power-up", length] => Ok(self.start(Boot::PowerUp, u64_of(length))),
            ["start", slot, length] => Ok(self.start(Boot::Activated(u8_of(slot)), u64_of(length))),
            ["stop"] => Ok(self.stop()),
            _ => self.disk.change(words),
        }
    }

    fn answer(&mut self, words: &[&str]) -> Result<String, NoMemory> {
        match *words {
            ["carry", ..] | ["software"] | ["image", _] => self.store.answer(words),
            ["state"] | ["view", _] | ["read", ..] | ["attach", _] => self.disk.answer(words),
            _ => self.change(words)?.text(self.alloc),
        }
    }
}

/// What a cut gives to bytes that aren't settled: `old`, `new`, or a byte.
fn pick_of(word: &str) -> Pick {
    match word {
        "old" => Pick::Old,
        "new" => Pick::New,
        _ => {
            let [byte]: [u8; 1] = array_of(word);
            Pick::Byte(byte)
        }
    }
}
