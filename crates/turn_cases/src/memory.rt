//! The calls of a link in memory.

use crate::words::{done_text, next_text, say};
use case_lines::{NoMemory, bytes_of, hex_of, u64_of};
use omci_core::MAX_PACKET_BYTES;
use omci_link::{Link, MemLink};
use std::alloc::Global;

/// A link in memory, where there is one.
#[derive(Drop)]
pub(crate) struct Memory {
    alloc: Global,
    link: Option<MemLink>,
}

impl Memory {
    pub(crate) fn new(alloc: Global) -> Memory {
        Memory { alloc, link: None }
    }

    pub(crate) fn put(&mut self, link: MemLink) -> Result<String, NoMemory> {
        self.link = Some(link);
        say(self.alloc, "")
    }

    /// The answer to the call that the words name.
    pub(crate) fn answer(&mut self, words: &[&str]) -> Result<String, NoMemory> {
        match &mut self.link {
            Some(link) => link_answer(self.alloc, link, words),
            None => say(self.alloc, "no link"),
        }
    }
}

fn link_answer(alloc: Global, link: &mut MemLink, words: &[&str]) -> Result<String, NoMemory> {
    match *words {
        ["sent"] => {
            let count = link.sent();
            Ok(format!(in alloc; "{count}")?)
        }
        ["sent", place] => sent_text(alloc, link, u64_of(place) as usize),
        _ => any_answer(alloc, link, words),
    }
}

fn sent_text(alloc: Global, link: &MemLink, place: usize) -> Result<String, NoMemory> {
    if place >= link.sent() {
        return say(alloc, "none");
    }
    hex_of(alloc, link.sent_packet(place).bytes())
}

/// The answer to a call that each link has.
pub(crate) fn any_answer<L: Link>(
    alloc: Global,
    link: &mut L,
    words: &[&str],
) -> Result<String, NoMemory> {
    match *words {
        ["attach", way, address] => {
            let done = link.attach(address.as_bytes(), way == "listen");
            done_text(alloc, done)
        }
        ["attach", way, "bytes", address] => {
            let address = bytes_of(alloc, address)?;
            let done = link.attach(&address, way == "listen");
            done_text(alloc, done)
        }
        ["next"] => next_text(alloc, link),
        ["send", bytes] => {
            let bytes = bytes_of(alloc, bytes)?;
            if bytes.len() > MAX_PACKET_BYTES {
                return say(alloc, "too long for a packet");
            }
            let done = link.send(&bytes);
            done_text(alloc, done)
        }
        _ => say(alloc, "no such call"),
    }
}
