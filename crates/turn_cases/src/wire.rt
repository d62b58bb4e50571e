//! What a link in memory is to give, and which of its calls are to fail.

use case_lines::NoMemory;
use omci_core::{EntityId, Packet};
use omci_frames::{Frame, encode};
use omci_link::{MemArrival, MemLink};
use std::alloc::Global;

/// What was named so far of a link that is made next.
#[derive(Drop)]
pub(crate) struct Wire {
    alloc: Global,
    arrivals: Option<Vec<MemArrival>>,
    fails: Option<Vec<u64>>,
}

impl Wire {
    pub(crate) fn new(alloc: Global) -> Wire {
        Wire {
            alloc,
            arrivals: None,
            fails: None,
        }
    }

    /// This comes next.
    pub(crate) fn comes(&mut self, arrival: MemArrival) -> Result<(), NoMemory> {
        let mut arrivals = match self.arrivals.take() {
            Some(arrivals) => arrivals,
            None => Vec::new(self.alloc),
        };
        arrivals.push(arrival)?;
        self.arrivals = Some(arrivals);
        Ok(())
    }

    /// This call fails too.
    pub(crate) fn fails(&mut self, call: u64) -> Result<(), NoMemory> {
        let mut fails = match self.fails.take() {
            Some(fails) => fails,
            None => Vec::new(self.alloc),
        };
        fails.push(call)?;
        self.fails = Some(fails);
        Ok(())
    }

    /// The link of what was named, with room for so many packets that are sent.
    pub(crate) fn link(&mut self, room: usize) -> Result<MemLink, NoMemory> {
        let arrivals = match self.arrivals.take() {
            Some(arrivals) => arrivals,
            None => Vec::new(self.alloc),
        };
        let fails = match self.fails.take() {
            Some(fails) => fails,
            None => Vec::new(self.alloc),
        };
        MemLink::new(self.alloc, arrivals, room, fails)
    }
}

pub(crate) fn packet_of(bytes: &[u8]) -> Packet {
    let mut packet = Packet::new();
    if bytes.len() <= 1_980 {
        packet.put(bytes);
    }
    packet
}

/// The packet of a frame.
pub(crate) fn frame_of(tci: u16, kind: u8, entity: EntityId, contents: [u8; 32]) -> Packet {
    let mut bytes = [0; 48];
    let frame = Frame {
        tci,
        kind,
        entity,
        contents,
    };
    encode(&frame, &mut bytes);
    packet_of(&bytes)
}
