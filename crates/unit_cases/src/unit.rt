//! A unit, and its calls by name.

use crate::texts::{did_text, noticed_text, say};
use case_lines::{Cases, NoMemory, array_of, bytes_of, u8_of, u16_of, u32_of};
use image_slots::Slots;
use omci_core::{Boot, EntityId, Packet};
use onu_agent::{Agent, BITMAP_BYTES, Did, Noticed};
use slot_disk::MemDisk;
use std::alloc::Global;

/// How many bytes the disk has, and each of its slots.
const LENGTH: u64 = 4224;

const ROOM: u32 = 64;

/// The image of one byte that stands in slot 0, committed and active.
const FACTORY: [u8; 1] = [0xff];

/// A unit, where it is on, and what it sent last.
#[derive(Drop)]
pub(crate) struct Unit {
    alloc: Global,
    agent: Option<Agent<MemDisk>>,
    out: Packet,
}

impl Unit {
    pub(crate) fn new(alloc: Global) -> Unit {
        Unit {
            alloc,
            agent: None,
            out: Packet::new(),
        }
    }

    /// A unit on a disk of its own; whether it starts.
    fn start(&mut self) -> Result<String, NoMemory> {
        let disk = MemDisk::new(self.alloc, LENGTH)?;
        self.agent = started(self.alloc, disk);
        say(self.alloc, if self.agent.is_some() { "on" } else { "off" })
    }

    fn did(&mut self, bytes: &[u8]) -> Result<Option<Did>, NoMemory> {
        match &mut self.agent {
            Some(agent) => Ok(Some(agent.packet(bytes, &mut self.out)?)),
            None => Ok(None),
        }
    }

    /// What becomes of a packet, and the reply.
    fn packet(&mut self, bytes: &[u8]) -> Result<String, NoMemory> {
        match self.did(bytes)? {
            Some(did) => did_text(self.alloc, did, self.out.bytes()),
            None => say(self.alloc, "off"),
        }
    }

    fn sensed(
        &mut self,
        entity: EntityId,
        number: u8,
        value: &[u8],
    ) -> Result<Option<Noticed>, NoMemory> {
        match &mut self.agent {
            Some(agent) => Ok(Some(agent.sense(entity, number, value, &mut self.out)?)),
            None => Ok(None),
        }
    }

    fn alarmed(
        &mut self,
        entity: EntityId,
        bitmap: [u8; BITMAP_BYTES],
    ) -> Result<Option<Noticed>, NoMemory> {
        match &mut self.agent {
            Some(agent) => Ok(Some(agent.alarm(entity, bitmap, &mut self.out)?)),
            None => Ok(None),
        }
    }

    /// What becomes of what the unit noticed, and its notice.
    fn notice(&self, noticed: Option<Noticed>) -> Result<String, NoMemory> {
        match noticed {
            Some(noticed) => noticed_text(self.alloc, noticed, self.out.bytes()),
            None => say(self.alloc, "off"),
        }
    }

    /// So many seconds pass.
    fn wait(&mut self, seconds: u32) {
        if let Some(agent) = &mut self.agent {
            for _second in 0..seconds {
                agent.tick();
            }
        }
    }

    /// How many entities have an alarm.
    fn alarms(&self) -> usize {
        match &self.agent {
            Some(agent) => agent.alarms(),
            None => 0,
        }
    }
}

impl Cases for Unit {
    fn answer(&mut self, words: &[&str]) -> Result<String, NoMemory> {
        match *words {
            ["start"] => self.start(),
            ["packet", bytes] => self.packet(&bytes_of(self.alloc, bytes)?),
            ["sense", class, instance, number, value] => {
                let value = bytes_of(self.alloc, value)?;
                let noticed = self.sensed(entity_of(class, instance), u8_of(number), &value)?;
                self.notice(noticed)
            }
            ["alarm", class, instance, bitmap] => {
                let noticed = self.alarmed(entity_of(class, instance), array_of(bitmap))?;
                self.notice(noticed)
            }
            ["ticks", count] => {
                self.wait(u32_of(count));
                say(self.alloc, "")
            }
            ["alarms"] => {
                let count = self.alarms();
                Ok(format!(in self.alloc; "{count}")?)
            }
            _ => say(self.alloc, "no such call"),
        }
    }
}

/// A unit that is powered up with the factory's image.
fn started(alloc: Global, disk: MemDisk) -> Option<Agent<MemDisk>> {
    match Slots::format(disk, ROOM, &FACTORY) {
        Ok(slots) => powered_up(alloc, slots.unmount()),
        Err(_) => None,
    }
}

fn powered_up(alloc: Global, disk: MemDisk) -> Option<Agent<MemDisk>> {
    match Agent::start(alloc, disk, LENGTH, Boot::PowerUp) {
        Ok(agent) => Some(agent),
        Err(_) => None,
    }
}

fn entity_of(class: &str, instance: &str) -> EntityId {
    EntityId {
        class: u16_of(class),
        instance: u16_of(instance),
    }
}
