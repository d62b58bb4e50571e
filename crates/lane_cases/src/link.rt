//! The link between both ends.

use crate::words::{are_all, no_such_call, number_text, say, truth};
use case_lines::{NoMemory, u64_of};
use link_lanes::{Lanes, Packet};
use std::alloc::Global;

/// A link.
#[derive(Drop)]
pub(crate) struct Link {
    alloc: Global,
    lanes: Lanes,
}

impl Link {
    pub(crate) fn new(alloc: Global) -> Result<Link, NoMemory> {
        Ok(Link {
            alloc,
            lanes: Lanes::new(alloc)?,
        })
    }

    fn start_again(&mut self) -> Result<String, NoMemory> {
        self.lanes = Lanes::new(self.alloc)?;
        say(self.alloc, "")
    }

    /// Sends a packet; its number.
    fn send(&mut self, down: bool, packet: &Packet) -> Result<String, NoMemory> {
        let number = sent(&mut self.lanes, down, packet);
        number_text(self.alloc, number)
    }

    /// How many packets, from 0 on, get their numbers.
    fn send_many(&mut self, count: u64) -> Result<String, NoMemory> {
        let mut right = 0u64;
        for number in 0..count {
            let packet = long_and_short(number);
            if sent(&mut self.lanes, number % 5 == 0, &packet) == number {
                right = right.saturating_add(1);
            }
        }
        number_text(self.alloc, right)
    }

    /// How many packets of these numbers come as they were sent.
    fn deliver_many(&mut self, first: u64, end: u64) -> Result<String, NoMemory> {
        let mut right = 0u64;
        for number in first..end {
            if comes_as(&mut self.lanes, number, &long_and_short(number)) {
                right = right.saturating_add(1);
            }
        }
        number_text(self.alloc, right)
    }

    /// The packet of this number, where it may come.
    fn deliver(&mut self, number: u64) -> Result<String, NoMemory> {
        match self.lanes.deliver(number) {
            Some(packet) => packet_text(self.alloc, packet.bytes()),
            None => say(self.alloc, "none"),
        }
    }

    fn allowed(&self, number: u64) -> Result<String, NoMemory> {
        truth(self.alloc, self.lanes.allowed(number))
    }

    /// Where the packet of this number goes, where it may come.
    fn way(&self, number: u64) -> Result<String, NoMemory> {
        if !self.lanes.allowed(number) {
            return say(self.alloc, "none");
        }
        let way = if self.lanes.down(number) {
            "down"
        } else {
            "up"
        };
        say(self.alloc, way)
    }

    /// The oldest fresh packet for the ends that are on.
    fn fresh(&self, unit_on: bool, olt_on: bool) -> Result<String, NoMemory> {
        match self.lanes.fresh(unit_on, olt_on) {
            Some(number) => number_text(self.alloc, number),
            None => say(self.alloc, "none"),
        }
    }

    fn empty(&mut self) -> Result<String, NoMemory> {
        self.lanes.empty();
        say(self.alloc, "")
    }

    /// The answer to the call that the words name.
    pub(crate) fn answer(&mut self, words: &[&str]) -> Result<String, NoMemory> {
        match *words {
            ["new"] => self.start_again(),
            ["send", way, lane, number, length] => {
                let packet = packet_of(lane == "high", u64_of(number), u64_of(length) as usize);
                self.send(way == "down", &packet)
            }
            ["send-many", count] => self.send_many(u64_of(count)),
            ["deliver-many", first, end] => self.deliver_many(u64_of(first), u64_of(end)),
            ["deliver", number] => self.deliver(u64_of(number)),
            ["allowed", number] => self.allowed(u64_of(number)),
            ["way", number] => self.way(u64_of(number)),
            ["fresh", unit, olt] => self.fresh(unit == "on", olt == "on"),
            ["count"] => number_text(self.alloc, self.lanes.sent()),
            ["empty"] => self.empty(),
            _ => no_such_call(self.alloc),
        }
    }
}

/// A packet of this length whose TCI has the top bit where it is high, and whose other bytes are
/// this number's last.
fn packet_of(high: bool, number: u64, length: usize) -> Packet {
    let mut bytes = [(number % 251) as u8; 1_980];
    bytes[0] = if high { 0x80 } else { 0 };
    let mut packet = Packet::new();
    packet.put(&bytes[..length.min(1_980)]);
    packet
}

/// Short packets and long ones in turn, so that the rings in which they are held come round their
/// ends at different places.
fn long_and_short(number: u64) -> Packet {
    let length = if number % 3 == 0 {
        49 + (number % 1_900) as usize
    } else {
        48
    };
    packet_of(number % 2 == 0, number, length)
}

/// Sends a packet, where it is one that may be sent.
fn sent(lanes: &mut Lanes, down: bool, packet: &Packet) -> u64 {
    if packet.len() < 2 || lanes.sent() >= 1 << 62 {
        return u64::MAX;
    }
    lanes.send(down, packet)
}

/// Delivers a packet, and answers whether it came and is this one.
fn comes_as(lanes: &mut Lanes, number: u64, packet: &Packet) -> bool {
    match lanes.deliver(number) {
        None => false,
        Some(delivered) => delivered.bytes() == packet.bytes(),
    }
}

/// The lane of a packet, the byte that its others are, and its length.
fn packet_text(alloc: Global, bytes: &[u8]) -> Result<String, NoMemory> {
    match bytes {
        [first, second, rest @ ..] if are_all(rest, *second) => {
            let lane = if *first == 0x80 { "high" } else { "low" };
            let length = bytes.len();
            Ok(format!(in alloc; "{lane} {second} {length}")?)
        }
        _ => say(alloc, "another packet"),
    }
}
