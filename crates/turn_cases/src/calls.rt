//! The calls of a line by name.

use crate::ends::{no_unit, olt, unit};
use crate::memory::Memory;
use crate::udp::Pair;
use crate::wire::{Wire, frame_of, packet_of};
use crate::words::say;
use case_lines::{Cases, NoMemory, array_of, bytes_of, u16_of, u32_of, u64_of};
use omci_core::EntityId;
use omci_link::{MemArrival, UdpLink};
use std::alloc::Global;
use std::net::Net;

/// What is named of the next link, the orders of the next manager, and links that are there.
#[derive(Drop)]
pub(crate) struct Calls<R: Net + Clone + Drop> {
    alloc: Global,
    wire: Wire,
    orders: String,
    memory: Memory,
    pair: Pair<R>,
}

impl<R: Net + Clone + Drop> Calls<R> {
    pub(crate) fn new(alloc: Global, unit: UdpLink<R>, manager: UdpLink<R>) -> Calls<R> {
        Calls {
            alloc,
            wire: Wire::new(alloc),
            orders: String::new(alloc),
            memory: Memory::new(alloc),
            pair: Pair::new(alloc, unit, manager),
        }
    }

    fn comes(&mut self, words: &[&str]) -> Result<String, NoMemory> {
        match *words {
            ["quiet"] => self.wire.comes(MemArrival::Quiet)?,
            ["closed"] => self.wire.comes(MemArrival::Closed)?,
            ["packet", bytes] => {
                let packet = packet_of(&bytes_of(self.alloc, bytes)?);
                self.wire.comes(MemArrival::Packet(packet))?;
            }
            ["frame", tci, kind, class, instance, contents] => {
                let [kind]: [u8; 1] = array_of(kind);
                let entity = EntityId {
                    class: u16_of(class),
                    instance: u16_of(instance),
                };
                let packet = frame_of(u16_of(tci), kind, entity, array_of(contents));
                self.wire.comes(MemArrival::Packet(packet))?;
            }
            _ => return say(self.alloc, "no such call"),
        }
        say(self.alloc, "")
    }

    fn fails(&mut self, call: u64) -> Result<String, NoMemory> {
        self.wire.fails(call)?;
        say(self.alloc, "")
    }

    /// A line of the next manager's orders.
    fn order(&mut self, words: &[&str]) -> Result<String, NoMemory> {
        let mut is_first = true;
        for word in words {
            if !is_first {
                self.orders.push_str(" ")?;
            }
            self.orders.push_str(word)?;
            is_first = false;
        }
        self.orders.push_str("\n")?;
        say(self.alloc, "")
    }

    fn olt(&mut self, turns: u32, sink_fails: u64) -> Result<String, NoMemory> {
        let mut link = self.wire.link(10)?;
        let said = olt(
            self.alloc,
            turns,
            sink_fails,
            self.orders.as_str(),
            &mut link,
        )?;
        self.orders = String::new(self.alloc);
        Ok(said)
    }

    fn unit(&mut self, turns: u32, disk_fails: u64, sink_fails: u64) -> Result<String, NoMemory> {
        let mut link = self.wire.link(8)?;
        unit(self.alloc, turns, disk_fails, sink_fails, &mut link)
    }

    fn no_unit(&mut self, turns: u32) -> Result<String, NoMemory> {
        let mut link = self.wire.link(8)?;
        no_unit(self.alloc, turns, &mut link)
    }

    fn link(&mut self, room: usize) -> Result<String, NoMemory> {
        let link = self.wire.link(room)?;
        self.memory.put(link)
    }
}

impl<R: Net + Clone + Drop> Cases for Calls<R> {
    fn answer(&mut self, words: &[&str]) -> Result<String, NoMemory> {
        match *words {
            ["comes", ref what @ ..] => self.comes(what),
            ["fails", call] => self.fails(u64_of(call)),
            ["order", ref line @ ..] => self.order(line),
            ["olt", turns, sink_fails] => self.olt(u32_of(turns), u64_of(sink_fails)),
            ["unit", turns, disk_fails, sink_fails] => {
                self.unit(u32_of(turns), u64_of(disk_fails), u64_of(sink_fails))
            }
            ["no-unit", turns] => self.no_unit(u32_of(turns)),
            ["link", room] => self.link(u64_of(room) as usize),
            ["udp", ref call @ ..] => self.pair.answer(call),
            _ => self.memory.answer(words),
        }
    }
}
