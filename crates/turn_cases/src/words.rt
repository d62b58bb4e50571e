//! Words of several calls.

use case_lines::{NoMemory, hex_of};
use omci_link::{Arrival, Failed, Link, MAX_PACKET_BYTES};
use std::alloc::Global;

pub(crate) fn say(alloc: Global, text: &str) -> Result<String, NoMemory> {
    Ok(String::from_str(alloc, text)?)
}

pub(crate) fn done_text(alloc: Global, done: Result<(), Failed>) -> Result<String, NoMemory> {
    say(alloc, if done.is_ok() { "done" } else { "fault" })
}

/// What comes on a link.
pub(crate) fn next_text<L: Link>(alloc: Global, link: &mut L) -> Result<String, NoMemory> {
    let mut buffer = [0; MAX_PACKET_BYTES];
    match link.next(&mut buffer) {
        Ok(Arrival::Packet(count)) => {
            let packet = hex_of(alloc, front(&buffer, count))?;
            Ok(format!(in alloc; "packet {packet}")?)
        }
        Ok(Arrival::Quiet) => say(alloc, "quiet"),
        Ok(Arrival::Closed) => say(alloc, "closed"),
        Err(_) => say(alloc, "fault"),
    }
}

fn front(bytes: &[u8], count: usize) -> &[u8] {
    if count <= bytes.len() {
        &bytes[..count]
    } else {
        bytes
    }
}

/// What was written, with a bar at the end of each line.
pub(crate) fn lines_text(alloc: Global, bytes: &[u8]) -> Result<String, NoMemory> {
    let mut out = String::new(alloc);
    let Ok(text) = str::from_utf8(bytes) else {
        return say(alloc, "no text");
    };
    for line in text.lines() {
        out.push_str(line)?;
        out.push_str("|")?;
    }
    Ok(out)
}
