//! A disk in one of its states, and the calls that each state has.
ghost use Rattle.slot_spec.specs.Rig.{IsTrap};

use crate::said::{Said, say, view_text};
use crate::slots::{begin, commit, format, mount, put, seal};
use case_lines::{NoMemory, array_of, bytes_of, hex_of, u8_of, u32_of, u64_of};
use image_slots::{Broken, Download, SlotView, Slots};
use slot_disk::{Disk, Rig, Trap};
use std::alloc::Global;

/// A disk, as it stands after the last call.
#[derive(Drop)]
pub(crate) enum Held<D: Disk> {
    Disk(D),
    Slots(Slots<D>),
    Download(Download<D>),
    Broken(Broken<D>),
}

impl<D: Disk> Held<D> {
    fn unmount(self) -> D {
        match self {
            Held::Disk(disk) => disk,
            Held::Slots(slots) => slots.unmount(),
            Held::Download(download) => download.unmount(),
            Held::Broken(broken) => broken.unmount(),
        }
    }

    /// The call of a disk that the words name.
    fn of_disk(self, words: &[&str], image: &[u8]) -> (Held<D>, Said) {
        let Held::Disk(disk) = self else {
            return (self, Said::Absent);
        };
        match *words {
            ["format", room, _] => format(disk, u32_of(room), image),
            ["mount", length] => mount(disk, u64_of(length)),
            _ => (Held::Disk(disk), Said::Absent),
        }
    }

    /// The call of slots that the words name.
    fn of_slots(self, words: &[&str]) -> (Held<D>, Said) {
        let Held::Slots(slots) = self else {
            return (self, Said::Absent);
        };
        match *words {
            ["begin", slot, size] => begin(slots, u8_of(slot), u32_of(size)),
            ["commit", slot] => commit(slots, u8_of(slot)),
            _ => (Held::Slots(slots), Said::Absent),
        }
    }

    /// The call of a download that the words name.
    fn of_download(self, words: &[&str], piece: &[u8]) -> (Held<D>, Said) {
        let Held::Download(download) = self else {
            return (self, Said::Absent);
        };
        match *words {
            ["put", _] => put(download, piece),
            ["seal", crc, size] => seal(download, u32::from_be_bytes(array_of(crc)), u32_of(size)),
            ["abandon"] => (Held::Slots(download.abandon()), Said::Done),
            _ => (Held::Download(download), Said::Absent),
        }
    }

    /// What is known of a slot's image.
    fn view(&self, slot: u8) -> Option<SlotView> {
        if slot > 1 {
            return None;
        }
        match self {
            Held::Slots(slots) => slots.view(slot),
            Held::Download(download) => download.view(slot),
            _ => None,
        }
    }

    /// The committed slot, and the room of slots or what a download has.
    fn text(&self, alloc: Global) -> Result<String, NoMemory> {
        match self {
            Held::Slots(slots) => {
                let room = slots.room();
                let committed = slots.committed();
                Ok(format!(in alloc; "room {room} committed {committed}")?)
            }
            Held::Download(download) => download_text(alloc, download),
            Held::Disk(_) => say(alloc, "disk"),
            Held::Broken(_) => say(alloc, "broken"),
        }
    }
}

fn download_text<D: Disk>(alloc: Global, download: &Download<D>) -> Result<String, NoMemory> {
    let target = download.target();
    let have = download.have();
    let size = download.size();
    let committed = download.committed();
    Ok(format!(in alloc; "target {target} have {have} of {size} committed {committed}")?)
}

/// A disk, and its calls by name.
#[derive(Drop)]
pub(crate) struct DiskCalls<D: Disk> {
    alloc: Global,
    held: Option<Held<D>>,
}

impl<D: Disk> DiskCalls<D> {
    pub(crate) fn new(alloc: Global) -> DiskCalls<D> {
        DiskCalls { alloc, held: None }
    }

    pub(crate) fn put_disk(&mut self, disk: D) {
        self.held = Some(Held::Disk(disk));
    }

    /// The disk, unmounted; none is held then.
    pub(crate) fn take_disk(&mut self) -> Option<D> {
        match self.held.take() {
            Some(held) => Some(held.unmount()),
            None => None,
        }
    }

    fn unmount(&mut self) -> Said {
        match self.take_disk() {
            Some(disk) => {
                self.put_disk(disk);
                Said::Done
            }
            None => Said::Absent,
        }
    }

    fn of_disk(&mut self, words: &[&str], image: &[u8]) -> Said {
        let Some(held) = self.held.take() else {
            return Said::Absent;
        };
        let (held, said) = held.of_disk(words, image);
        self.held = Some(held);
        said
    }

    fn of_slots(&mut self, words: &[&str]) -> Said {
        let Some(held) = self.held.take() else {
            return Said::Absent;
        };
        let (held, said) = held.of_slots(words);
        self.held = Some(held);
        said
    }

    fn of_download(&mut self, words: &[&str], piece: &[u8]) -> Said {
        let Some(held) = self.held.take() else {
            return Said::Absent;
        };
        let (held, said) = held.of_download(words, piece);
        self.held = Some(held);
        said
    }

    pub(crate) fn view(&self, slot: u8) -> Option<SlotView> {
        match &self.held {
            Some(held) => held.view(slot),
            None => None,
        }
    }

    /// The committed slot of slots that are mounted.
    pub(crate) fn committed(&self) -> Option<u8> {
        match &self.held {
            Some(Held::Slots(slots)) => Some(slots.committed()),
            _ => None,
        }
    }

    fn text(&self) -> Result<String, NoMemory> {
        match &self.held {
            Some(held) => held.text(self.alloc),
            None => say(self.alloc, "nothing"),
        }
    }

    /// The bytes that stand at a place of the disk.
    pub(crate) fn read(&mut self, at: u64, count: u32) -> Result<String, NoMemory> {
        let mut bytes = vec![in self.alloc; 0u8; count as usize]?;
        if self.fill(at, &mut bytes) {
            hex_of(self.alloc, &bytes)
        } else {
            say(self.alloc, "fault")
        }
    }

    fn fill(&mut self, at: u64, bytes: &mut [u8]) -> bool {
        match self.take_disk() {
            Some(mut disk) => {
                let is_read = disk.read_at(at, bytes).is_ok();
                self.put_disk(disk);
                is_read
            }
            None => false,
        }
    }

    fn write(&mut self, at: u64, bytes: &[u8]) -> Said {
        match self.take_disk() {
            Some(mut disk) => {
                let is_written = disk.write_at(at, bytes).is_ok();
                self.put_disk(disk);
                done_if(is_written)
            }
            None => Said::Absent,
        }
    }

    fn sync(&mut self) -> Said {
        match self.take_disk() {
            Some(mut disk) => {
                let is_synced = disk.sync().is_ok();
                self.put_disk(disk);
                done_if(is_synced)
            }
            None => Said::Absent,
        }
    }

    fn attached(&mut self, name: &[u8]) -> Option<u64> {
        match self.take_disk() {
            Some(mut disk) => {
                let length = disk.attach(name).ok();
                self.put_disk(disk);
                length
            }
            None => None,
        }
    }

    /// How many bytes the disk of this name has.
    fn attach(&mut self, name: &str) -> Result<String, NoMemory> {
        match self.attached(name.as_bytes()) {
            Some(length) => Ok(format!(in self.alloc; "{length}")?),
            None => say(self.alloc, "fault"),
        }
    }

    /// A call that changes the state.
    pub(crate) fn change(&mut self, words: &[&str]) -> Result<Said, NoMemory> {
        match *words {
            ["format", _, bytes] => {
                let image = bytes_of(self.alloc, bytes)?;
                Ok(self.of_disk(words, &image))
            }
            ["put", bytes] => {
                let piece = bytes_of(self.alloc, bytes)?;
                Ok(self.of_download(words, &piece))
            }
            ["write", at, bytes] => {
                let bytes = bytes_of(self.alloc, bytes)?;
                Ok(self.write(u64_of(at), &bytes))
            }
            ["mount", ..] => Ok(self.of_disk(words, &[])),
            ["begin", ..] | ["commit", ..] => Ok(self.of_slots(words)),
            ["seal", ..] | ["abandon"] => Ok(self.of_download(words, &[])),
            ["sync"] => Ok(self.sync()),
            ["unmount"] => Ok(self.unmount()),
            _ => Ok(Said::Absent),
        }
    }

    /// The answer to the call that the words name.
    pub(crate) fn answer(&mut self, words: &[&str]) -> Result<String, NoMemory> {
        match *words {
            ["state"] => self.text(),
            ["view", slot] => view_text(self.alloc, self.view(u8_of(slot))),
            ["read", at, count] => self.read(u64_of(at), u32_of(count)),
            ["attach", name] => self.attach(name),
            _ => self.change(words)?.text(self.alloc),
        }
    }
}

fn done_if(is_done: bool) -> Said {
    if is_done { Said::Done } else { Said::Fault }
}

impl<D: Rig> DiskCalls<D> {
    /// Sets the trap, wherever the disk is.
    pub(crate) fn rig(&mut self, trap: Trap)
        requires trap { IsTrap trap }
    {
        match &mut self.held {
            Some(Held::Disk(disk)) => disk.rig(trap),
            Some(Held::Slots(slots)) => slots.rig(trap),
            Some(Held::Download(download)) => download.rig(trap),
            Some(Held::Broken(broken)) => broken.rig(trap),
            None => {}
        }
    }
}
