//! The bytes of a stream that is read in pieces.

ghost use Rattle.std.specs.Prelude.{◌≡◌, ◌+◌, ◌<◌, ◌≤◌, length, take, drop, IfOk, OnErr};
ghost use Rattle.std.specs.Io.KnownBytes.{Keeps};
ghost use Rattle.omci_core.specs.Causes.{HasCause};
ghost use Rattle.stream_spec.specs.Streams.{first_reader, place_after};
ghost use Rattle.stream_show.specs.Buffer.{ReadsPiece, Fills};

use extended_frames::make_room;
use omci_core::{Failed, MAX_PACKET_BYTES, NoMemory, Source};
use std::alloc::Global;
use std::marker::Model;

/// So many bytes are read at a time.
pub(crate) const PIECE_BYTES: usize = 65_536;

/// A piece has room after the bytes that are held, and these are moved to the front only after as
/// many were passed: no byte is copied more than twice, once into the buffer and once within it.
const BUFFER_BYTES: usize = PIECE_BYTES + 2 * MAX_PACKET_BYTES;

/// The bytes of a stream that were read and not passed. Contracts see them, and the place of the
/// first of them.
#[derive(Debug, Drop)]
pub(crate) struct StreamBuffer {
    bytes: Vec<u8>,
    start: usize,
    len: usize,
    at: u64,
}

impl Model for StreamBuffer {
    ghost use Rattle.std.specs.Prelude.{◌≡◌, ◌+◌, ◌≤◌, length, take, drop};
    ghost use Rattle.stream_show.specs.declared.buffer.TheConstants.{BUFFER_BYTES};
    ghost use Rattle.stream_spec.specs.Streams.{Reader};

    ghost Value = { Reader };

    ghost view = { λ s. record { at = s.at; held = take s.len (drop s.start s.bytes.items) } };

    ghost invariant = { λ s. (s.start + s.len ≤ length s.bytes.items)
        × (length s.bytes.items ≡ BUFFER_BYTES) };
}

// Reads into a part of some bytes, and answers how many were read.
fn read_at<S: Source>(
    source: &mut S,
    bytes: &mut [u8],
    at: usize,
    most: usize,
) -> Result<usize, Failed>
    requires within { at + most ≤ length bytes.old }
    requires some { 0 < most }
    ensures read { IfOk result (λ count. ReadsPiece (S.left source.old) (S.left source.new)
        (take count (drop at bytes.new)) count most) }
    ensures front { take at bytes.new ≡ take at bytes.old }
    ensures kept { length bytes.new ≡ length bytes.old }
    ensures unread { OnErr result (Keeps (S.left source.old) (S.left source.new)) }
    ensures cause { HasCause (S.faults source.old) (S.faults source.new) result }
{
    source.read(&mut bytes[at..at + most])
}

// Reads at most so many bytes after those that are held, and answers where these begin now, and how
// many were read.
fn read_after<S: Source>(
    source: &mut S,
    bytes: &mut [u8],
    start: usize,
    len: usize,
    most: usize,
) -> (usize, Result<usize, Failed>)
    requires within { start + len ≤ length bytes.old }
    requires twice { len + len + most ≤ length bytes.old }
    requires some { 0 < most }
    ensures held { take len (drop result.0 bytes.new) ≡ take len (drop start bytes.old) }
    ensures read { IfOk result.1 (λ count. ReadsPiece (S.left source.old) (S.left source.new)
        (take count (drop (result.0 + len) bytes.new)) count most) }
    ensures room { result.0 + len + most ≤ length bytes.new }
    ensures kept { length bytes.new ≡ length bytes.old }
    ensures unread { OnErr result.1 (Keeps (S.left source.old) (S.left source.new)) }
    ensures cause { HasCause (S.faults source.old) (S.faults source.new) result.1 }
{
    let start = make_room(bytes, start, len, most);
    let read = read_at(source, bytes, start + len, most);
    (start, read)
}

impl StreamBuffer {
    /// No bytes yet. `NoMemory` where there is no room for the buffer.
    pub(crate) fn new(alloc: Global) -> Result<StreamBuffer, NoMemory>
        ensures empty { IfOk result (λ buffer. buffer ≡ first_reader) }
    {
        Ok(StreamBuffer {
            bytes: vec![in alloc; 0u8; BUFFER_BYTES]?,
            start: 0,
            len: 0,
            at: 0,
        })
    }

    /// The bytes that are held.
    pub(crate) fn held(&self) -> &[u8]
        ensures value { result.now ≡ self.now.held }
    {
        &self.bytes[self.start..self.start + self.len]
    }

    /// The place in the stream, from 0, of the first byte held.
    pub(crate) fn place(&self) -> u64
        ensures value { result ≡ self.now.at }
    {
        self.at
    }

    /// Passes so many of the bytes that are held.
    pub(crate) fn pass(&mut self, count: usize)
        requires { count ≤ length self.old.held }
        ensures after { self.new ≡ record {
          at = place_after self.old.at count;
          held = drop count self.old.held;
        } }
    {
        self.start += count;
        self.len -= count;
        self.at = self.at.saturating_add(count as u64);
    }

    /// Reads at most so many bytes, and a piece at most, after those that are held. Answers how
    /// many were read: 0 is the stream's end.
    pub(crate) fn fill<S: Source>(&mut self, source: &mut S, most: usize) -> Result<usize, Failed>
        requires few { length self.old.held ≤ MAX_PACKET_BYTES }
        requires some { 0 < most }
        ensures read { IfOk result (λ count. Fills (S.left source.old) (S.left source.new)
            self.old self.new count most) }
        ensures unread { OnErr result (Keeps (S.left source.old) (S.left source.new)) }
        ensures kept { OnErr result (self.new ≡ self.old) }
        ensures cause { HasCause (S.faults source.old) (S.faults source.new) result }
    {
        let most = most.min(PIECE_BYTES);
        let (start, read) = read_after(source, &mut self.bytes, self.start, self.len, most);
        self.start = start;
        let count = read?;
        self.len += count;
        Ok(count)
    }
}
