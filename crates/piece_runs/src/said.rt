//! What the two commands say of a stream.

use crate::given::Given;
use crate::reader::push_calls;
use omci_contents::{push_bytes, push_number};
use omci_core::{MemSink, MemSource, NoMemory};
use std::alloc::Global;
use stream_show::{StreamEnd, check, push_count_text, show};

/// The most bytes of a stream.
const LIMIT: usize = 16_777_216;

/// The most bytes that are written of a stream.
const ROOM: usize = 65_536;

/// What is said of a stream.
#[derive(Drop, PartialEq)]
pub struct Said {
    /// By `show`.
    pub shown: Vec<u8>,
    /// By `check`.
    pub checked: Vec<u8>,
}

// A source that gives these bytes in pieces of so many.
fn source_of(alloc: Global, stream: &[u8], most: usize) -> Result<Given, NoMemory> {
    let bytes = Vec::from_slice(alloc, stream)?;
    Ok(Given::new(MemSource::new(bytes, Vec::new(alloc)), most))
}

/// Appends the line that says where and why a stream is refused.
pub fn push_refusal(out: &mut Vec<u8>, place: u64, reason: u8) -> Result<(), NoMemory> {
    push_bytes(out, b"input ")?;
    push_number(out, place)?;
    push_bytes(out, b" ")?;
    push_number(out, reason as u64)?;
    push_bytes(out, b"\n")
}

// Appends what ended the reading.
fn push_end(out: &mut Vec<u8>, end: StreamEnd) -> Result<(), NoMemory> {
    match end {
        StreamEnd::Refused { place, reason } => push_refusal(out, place, reason),
        StreamEnd::NoMemory => Err(NoMemory),
        StreamEnd::Read | StreamEnd::Write | StreamEnd::TooLong => push_bytes(out, b"fault\n"),
    }
}

/// What is said of a stream that is given in pieces of so many bytes.
pub fn said_of(alloc: Global, stream: &[u8], most: usize) -> Result<Said, NoMemory> {
    let mut sink = MemSink::new(alloc, ROOM, Vec::new(alloc))?;
    let end = show(
        alloc,
        &mut source_of(alloc, stream, most)?,
        &mut sink,
        LIMIT,
    );
    let mut shown = Vec::from_slice(alloc, sink.bytes())?;
    if let Err(end) = end {
        push_end(&mut shown, end)?;
    }
    let mut checked = Vec::new(alloc);
    match check(alloc, &mut source_of(alloc, stream, most)?, LIMIT) {
        Ok(counts) => push_count_text(&mut checked, counts)?,
        Err(end) => push_end(&mut checked, end)?,
    }
    Ok(Said { shown, checked })
}

/// What a reader of both sets gives of a stream that is offered to it in pieces of so many bytes,
/// as `show` says it.
pub fn said_by_calls(alloc: Global, stream: &[u8], most: usize) -> Result<Vec<u8>, NoMemory> {
    let mut out = Vec::new(alloc);
    push_calls(alloc, &mut out, stream, most)?;
    Ok(out)
}
