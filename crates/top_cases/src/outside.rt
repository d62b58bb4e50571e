//! What stands outside of a call: what its source gives, which of its calls fail, and what its link
//! gives.

use case_lines::{NoMemory, bytes_of, u64_of};
use omci_core::{MAX_PACKET_BYTES, Packet};
use omci_link::MemArrival;
use std::alloc::Global;

/// The most bytes that a sink has room for where no line says another number.
const ROOM: usize = 1_000_000;

/// What the next calls find outside.
#[derive(Drop)]
pub(crate) struct Outside {
    alloc: Global,
    pub(crate) bytes: Vec<u8>,
    pub(crate) read_fails: Vec<u64>,
    pub(crate) room: usize,
    pub(crate) write_fails: Vec<u64>,
    pub(crate) arrivals: Vec<MemArrival>,
    pub(crate) link_fails: Vec<u64>,
}

impl Outside {
    /// An empty source, a link that gives nothing, and no call that fails.
    pub(crate) fn new(alloc: Global) -> Outside {
        Outside {
            alloc,
            bytes: Vec::new(alloc),
            read_fails: Vec::new(alloc),
            room: ROOM,
            write_fails: Vec::new(alloc),
            arrivals: Vec::new(alloc),
            link_fails: Vec::new(alloc),
        }
    }

    /// The source gives these words, with a space between two, a line feed for `|`, and a carriage
    /// return for `^`.
    pub(crate) fn set_text(&mut self, words: &[&str]) -> Result<(), NoMemory> {
        let mut bytes = Vec::new(self.alloc);
        let mut is_first = true;
        for word in words {
            if *word == "|" {
                bytes.push(b'\n')?;
                is_first = true;
                continue;
            }
            if !is_first {
                bytes.push(b' ')?;
            }
            for byte in word.as_bytes() {
                bytes.push(if *byte == b'^' { b'\r' } else { *byte })?;
            }
            is_first = false;
        }
        self.bytes = bytes;
        Ok(())
    }

    /// The source gives these bytes so many times.
    pub(crate) fn set_bytes(&mut self, digits: &str, count: u64) -> Result<(), NoMemory> {
        let piece = bytes_of(self.alloc, digits)?;
        let mut bytes = Vec::new(self.alloc);
        for _ in 0..count {
            bytes.extend_from_slice(&piece)?;
        }
        self.bytes = bytes;
        Ok(())
    }

    /// The link gives one thing more: `quiet`, `closed`, or a packet of these bytes.
    pub(crate) fn add_arrival(&mut self, word: &str) -> Result<(), NoMemory> {
        let arrival = match word {
            "quiet" => MemArrival::Quiet,
            "closed" => MemArrival::Closed,
            digits => MemArrival::Packet(packet_of(&bytes_of(self.alloc, digits)?)),
        };
        self.arrivals.push(arrival)?;
        Ok(())
    }
}

/// A packet of these bytes, empty where they are too many.
fn packet_of(bytes: &[u8]) -> Packet {
    let mut packet = Packet::new();
    if bytes.len() <= MAX_PACKET_BYTES {
        packet.put(bytes);
    }
    packet
}

/// The numbers of calls that these words name.
pub(crate) fn calls_of(alloc: Global, words: &[&str]) -> Result<Vec<u64>, NoMemory> {
    let mut calls = Vec::new(alloc);
    for word in words {
        calls.push(u64_of(word))?;
    }
    Ok(calls)
}
