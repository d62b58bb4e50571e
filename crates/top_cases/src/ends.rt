//! What a call finds outside and leaves there, and the lines that set it and look at it.

use crate::call::{Ended, call_over, words_of};
use crate::outside::{Outside, calls_of};
use crate::sink::NarrowSink;
use crate::spelling::{command_text, status_text, written_text};
use case_lines::{Cases, NoMemory, hex_of, u64_of};
use image_slots::{SlotView, Slots};
use omci_core::MemSource;
use omci_link::MemLink;
use omci_top::{Status, command_of};
use slot_disk::{Disk, MemDisk};
use std::alloc::Global;
use std::mem;

/// How many packets a link has room for.
const LINK_ROOM: usize = 8;

/// What stands outside, and what the last call left.
#[derive(Drop)]
pub(crate) struct Ends {
    alloc: Global,
    outside: Outside,
    disk: MemDisk,
    link: MemLink,
    written: Vec<u8>,
    events: Option<u64>,
}

impl Ends {
    /// Nothing outside, and a disk of no bytes.
    pub(crate) fn new(alloc: Global) -> Result<Ends, NoMemory> {
        Ok(Ends {
            alloc,
            outside: Outside::new(alloc),
            disk: MemDisk::new(alloc, 0)?,
            link: MemLink::new(alloc, Vec::new(alloc), 0, Vec::new(alloc))?,
            written: Vec::new(alloc),
            events: None,
        })
    }

    fn say(&self, text: &str) -> Result<String, NoMemory> {
        Ok(String::from_str(self.alloc, text)?)
    }

    /// A disk of so many zeros, whose call of this number fails; there is no call 0.
    fn set_disk(&mut self, length: u64, fails: u64) -> Result<String, NoMemory> {
        self.disk = MemDisk::new(self.alloc, length)?;
        self.fail_disk(fails)
    }

    fn fail_disk(&mut self, call: u64) -> Result<String, NoMemory> {
        if call > 0 {
            self.disk.fail_at(call);
        }
        self.say("")
    }

    /// A call with these words, whose sink takes so many bytes at a time and fails at these calls.
    fn run(&mut self, words: &[&str], width: usize, fails: Vec<u64>) -> Result<Status, NoMemory> {
        let alloc = self.alloc;
        let line = words_of(alloc, words)?;
        let bytes = Vec::from_slice(alloc, &self.outside.bytes)?;
        let read_fails = Vec::from_slice(alloc, &self.outside.read_fails)?;
        let mut source = MemSource::new(bytes, read_fails);
        let mut sink = NarrowSink::new(alloc, width, self.outside.room, fails);
        let arrivals = mem::replace(&mut self.outside.arrivals, Vec::new(alloc));
        let link_fails = Vec::from_slice(alloc, &self.outside.link_fails)?;
        self.link = MemLink::new(alloc, arrivals, LINK_ROOM, link_fails)?;
        let disk = mem::replace(&mut self.disk, MemDisk::new(alloc, 0)?);
        let Ended {
            status,
            disk,
            events,
        } = call_over(alloc, &line, &mut source, &mut sink, disk, &mut self.link);
        self.disk = disk;
        self.events = events;
        self.written = sink.taken;
        Ok(status)
    }

    /// A call with these words: how it ends, and what it writes.
    fn call(&mut self, words: &[&str]) -> Result<String, NoMemory> {
        let fails = Vec::from_slice(self.alloc, &self.outside.write_fails)?;
        let status = self.run(words, usize::MAX, fails)?;
        let status = status_text(self.alloc, status)?;
        if self.written.is_empty() {
            return Ok(status);
        }
        let written = written_text(self.alloc, &self.written)?;
        Ok(format!(in self.alloc; "{status}: {written}")?)
    }

    /// A call over a sink that takes a byte at a time, once for each write that fails: whether each
    /// leaves just the bytes before that write, and one that doesn't fail leaves all.
    fn each_write(&mut self, words: &[&str]) -> Result<String, NoMemory> {
        self.run(words, usize::MAX, Vec::new(self.alloc))?;
        let whole = mem::replace(&mut self.written, Vec::new(self.alloc));
        for place in 0..whole.len() {
            let fails = vec![in self.alloc; (place as u64).saturating_add(1); 1]?;
            let status = self.run(words, 1, fails)?;
            if status != Status::WriteFault || self.written.as_slice() != &whole[..place] {
                return Ok(format!(in self.alloc; "not at byte {place}")?);
            }
        }
        let status = self.run(words, 1, Vec::new(self.alloc))?;
        if status != Status::Done || self.written.as_slice() != whole.as_slice() {
            return self.say("not whole");
        }
        self.say("each")
    }

    fn sync(&mut self) -> Result<String, NoMemory> {
        let is_failed = self.disk.sync().is_err();
        self.say(if is_failed { "failed" } else { "done" })
    }

    fn byte(&mut self, place: u64) -> Result<String, NoMemory> {
        let mut there = [0x5a];
        if self.disk.read_at(place, &mut there).is_err() {
            return self.say("failed");
        }
        hex_of(self.alloc, &there)
    }

    /// Mounts the disk, which goes with it: the room, the committed slot, and what is known of both.
    fn mount(&mut self, length: u64) -> Result<String, NoMemory> {
        let disk = mem::replace(&mut self.disk, MemDisk::new(self.alloc, 0)?);
        let Ok(slots) = Slots::mount(disk, length) else {
            return self.say("refused");
        };
        let (room, committed) = (slots.room(), slots.committed());
        let first = view_text(self.alloc, slots.view(0))?;
        let second = view_text(self.alloc, slots.view(1))?;
        Ok(format!(in self.alloc; "{room} {committed} {first} {second}")?)
    }

    fn sent(&self) -> Result<String, NoMemory> {
        let mut said = String::new(self.alloc);
        for place in 0..self.link.sent() {
            let packet = hex_of(self.alloc, self.link.sent_packet(place).bytes())?;
            said.push_str(packet.as_str())?;
            said.push_str(" ")?;
        }
        Ok(said)
    }

    fn events(&self) -> Result<String, NoMemory> {
        match self.events {
            Some(count) => Ok(format!(in self.alloc; "{count}")?),
            None => self.say("none"),
        }
    }

    /// A line that sets what stands outside.
    fn set(&mut self, words: &[&str]) -> Result<String, NoMemory> {
        match *words {
            ["new"] => *self = Ends::new(self.alloc)?,
            ["text", ref words @ ..] => self.outside.set_text(words)?,
            ["bytes", digits, count] => self.outside.set_bytes(digits, u64_of(count))?,
            ["reads", ref calls @ ..] => self.outside.read_fails = calls_of(self.alloc, calls)?,
            ["room", count] => self.outside.room = u64_of(count) as usize,
            ["writes", ref calls @ ..] => self.outside.write_fails = calls_of(self.alloc, calls)?,
            ["gives", arrival] => self.outside.add_arrival(arrival)?,
            ["link", ref calls @ ..] => self.outside.link_fails = calls_of(self.alloc, calls)?,
            ["disk", length, fails] => return self.set_disk(u64_of(length), u64_of(fails)),
            ["fail", call] => return self.fail_disk(u64_of(call)),
            _ => return self.say("no such line"),
        }
        self.say("")
    }
}

impl Cases for Ends {
    fn answer(&mut self, words: &[&str]) -> Result<String, NoMemory> {
        match *words {
            ["call", ref words @ ..] => self.call(words),
            ["each-write", ref words @ ..] => self.each_write(words),
            ["words", ref words @ ..] => {
                let line = words_of(self.alloc, words)?;
                command_text(self.alloc, command_of(&line))
            }
            ["sync"] => self.sync(),
            ["byte", place] => self.byte(u64_of(place)),
            ["mount", length] => self.mount(u64_of(length)),
            ["sent"] => self.sent(),
            ["events"] => self.events(),
            _ => self.set(words),
        }
    }
}

/// What is known of a slot: the image's length, check value and version.
fn view_text(alloc: Global, view: Option<SlotView>) -> Result<String, NoMemory> {
    match view {
        None => Ok(String::from_str(alloc, "-")?),
        Some(view) => {
            let version = hex_of(alloc, &view.version)?;
            let (length, crc) = (view.length, view.crc);
            Ok(format!(in alloc; "{length}:{crc:08x}:{}", version.as_str())?)
        }
    }
}
