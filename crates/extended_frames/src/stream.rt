//! A reader of a stream of frames of both message sets that comes in pieces.

ghost use Rattle.std.specs.Prelude.{◌≡◌, ◌↔◌, ◌+◌, ◌≤◌, ◌++◌, true, [], length, take, drop, IsOk, IfOk, OnOk, OnErr};
ghost use Rattle.stream_spec.specs.Streams.{bytes_taken, with_bytes, after_take, first_reader};
ghost use Rattle.extended_spec.specs.Frames.{is_extended, any_fault_of};
ghost use Rattle.extended_spec.specs.Streams.{any_front, any_taken_from, any_held_bytes_fault, any_finish_from};
ghost use Rattle.extended_frames.specs.Views.{view_of};

use crate::any_frame::AnyFrame;
use crate::buffer::make_room;
use crate::decoding::{any_at, any_bytes};
use crate::front::{Shown, front_shown, is_faulty};
use extended_spec::{AnyFault, AnyStreamFault};
use omci_core::{MAX_PACKET_BYTES, NoMemory, put_at};
use std::alloc::Global;
use std::marker::Model;

/// The buffer is twice as long as what is held at most. So bytes are moved to its front only after
/// as many were given away as may be held: in the reader no byte is copied more than twice.
const BUFFER_BYTES: usize = 2 * MAX_PACKET_BYTES;

/// What a reader of a stream of both sets answers when it is asked for a frame.
#[derive(Debug, Drop)]
pub enum TakenAny {
    /// The frame with which the bytes held began. They are held no longer.
    Frame(AnyFrame),
    /// The bytes held begin with no whole frame yet, and show no fault.
    More,
    /// The bytes held show a fault.
    Fault {
        /// The place in the stream, from 0, of the first byte held.
        at: u64,
        /// What is wrong there. It is never want of memory.
        fault: AnyFault,
    },
}

/// A reader of a stream of frames of both message sets. Bytes are offered to it in pieces of any
/// length, and it gives the frames of the stream one after the other. It holds at most 1,980 bytes.
/// Contracts see the bytes that it holds and the place of the first of them.
#[derive(Debug, Drop)]
pub struct AnyFrames {
    bytes: Vec<u8>,
    start: usize,
    len: usize,
    at: u64,
}

impl Model for AnyFrames {
    ghost use Rattle.std.specs.Prelude.{◌≡◌, ◌+◌, ◌≤◌, length, take, drop};
    ghost use Rattle.frame_spec.specs.declared.TheConstants.{MAX_PACKET_BYTES};
    ghost use Rattle.extended_frames.specs.declared.stream.TheConstants.{BUFFER_BYTES};
    ghost use Rattle.stream_spec.specs.Streams.{Reader};

    ghost Value = { Reader };

    ghost view = { λ s. record { at = s.at; held = take s.len (drop s.start s.bytes.items) } };

    ghost invariant = { λ s. (s.len ≤ MAX_PACKET_BYTES)
        × (s.start + s.len ≤ length s.bytes.items) × (length s.bytes.items ≡ BUFFER_BYTES) };
}

// Whether so many bytes are held that show no fault.
fn held_bytes_fault(len: usize, at: u64) -> Result<(), AnyStreamFault>
    ensures value { result ≡ any_held_bytes_fault len at }
{
    if len == 0 {
        return Ok(());
    }
    let fault = AnyFault::Short { have: len };
    Err(AnyStreamFault { at, fault })
}

// Adds bytes after those that are held, and answers where these begin now.
fn add_bytes(bytes: &mut [u8], start: usize, len: usize, more: &[u8]) -> usize
    requires within { start + len ≤ length bytes.old }
    requires few { len + length more.now ≤ MAX_PACKET_BYTES }
    requires buffer { length bytes.old ≡ BUFFER_BYTES }
    ensures held { take (len + length more.now) (drop result bytes.new)
        ≡ take len (drop start bytes.old) ++ more.now }
    ensures within { result + (len + length more.now) ≤ length bytes.new }
    ensures kept { length bytes.new ≡ length bytes.old }
{
    let start = make_room(bytes, start, len, more.len());
    put_at(bytes, start + len, more);
    start
}

impl AnyFrames {
    /// A reader at the begin of a stream. `NoMemory` where there is no room for its buffer.
    pub fn new(alloc: Global) -> Result<AnyFrames, NoMemory>
        ensures empty { IfOk result (λ reader. reader ≡ first_reader) }
    {
        Ok(AnyFrames {
            bytes: vec![in alloc; 0u8; BUFFER_BYTES]?,
            start: 0,
            len: 0,
            at: 0,
        })
    }

    // The bytes that are held.
    fn held(&self) -> &[u8]
        ensures value { result.now ≡ self.now.held }
        ensures bound { length self.now.held ≤ MAX_PACKET_BYTES }
    {
        &self.bytes[self.start..self.start + self.len]
    }

    // Adds bytes for which there is room at the end of those that are held.
    fn append(&mut self, bytes: &[u8])
        requires { length self.old.held + length bytes.now ≤ MAX_PACKET_BYTES }
        ensures after { self.new ≡ with_bytes bytes.now self.old }
    {
        self.start = add_bytes(&mut self.bytes, self.start, self.len, bytes);
        self.len += bytes.len();
    }

    /// Takes as many bytes of the front of the piece as there is room for, and answers how many;
    /// none where the bytes held show a fault. There is room for 1,980 bytes.
    pub fn feed(&mut self, piece: &[u8]) -> usize
        ensures count { result
            ≡ bytes_taken (any_front self.old.held) MAX_PACKET_BYTES self.old piece.now }
        ensures bound { result ≤ length piece.now }
        ensures after { self.new ≡ with_bytes (take result piece.now) self.old }
    {
        let room = MAX_PACKET_BYTES - self.len;
        if is_faulty(front_shown(self.held())) {
            return 0;
        }
        let count = piece.len().min(room);
        self.append(&piece[..count]);
        count
    }

    /// The frame with which the bytes held begin, which are held no longer; `More` exactly where
    /// they begin with no whole frame and show no fault; and else the fault, with the place of the
    /// first byte held. A fault stands: each further call answers it again. `NoMemory` comes only
    /// for an extended frame, which is then still held.
    pub fn take(&mut self) -> Result<TakenAny, NoMemory>
        ensures value { IfOk result (λ taken. view_of taken
            ≡ any_taken_from (any_front self.old.held) self.old.at) }
        ensures after { OnOk result (self.new ≡ after_take (any_front self.old.held) self.old) }
        ensures kept { OnErr result (self.new ≡ self.old) }
        ensures memory { OnErr result (is_extended self.old.held ≡ true) }
    {
        match front_shown(self.held()) {
            Shown::Whole { .. } => self.take_whole(),
            Shown::Open => Ok(TakenAny::More),
            Shown::Faulty { fault } => Ok(TakenAny::Fault { at: self.at, fault }),
        }
    }

    // Takes the whole frame with which the bytes held begin.
    fn take_whole(&mut self) -> Result<TakenAny, NoMemory>
        requires sound { any_fault_of self.old.held ≡ None }
        ensures value { IfOk result (λ taken. view_of taken
            ≡ any_taken_from (any_front self.old.held) self.old.at) }
        ensures after { OnOk result (self.new ≡ after_take (any_front self.old.held) self.old) }
        ensures kept { OnErr result (self.new ≡ self.old) }
        ensures memory { OnErr result (is_extended self.old.held ≡ true) }
    {
        let frame = any_at(*self.bytes.allocator(), self.held())?;
        let count = any_bytes(self.held());
        self.start += count;
        self.len -= count;
        self.at = self.at.saturating_add(count as u64);
        Ok(TakenAny::Frame(frame))
    }

    /// Whether the stream may end here: exactly where no byte is held.
    ///
    /// # Errors
    ///
    /// The fault that the bytes held show, or [`AnyFault::Short`] with how many are held, also
    /// where they begin with a whole frame that was not taken.
    pub fn finish(&self) -> Result<(), AnyStreamFault>
        ensures value { result ≡ any_finish_from (any_front self.now.held) self.now }
        ensures ok { IsOk result ↔ (self.now.held ≡ []) }
    {
        match front_shown(self.held()) {
            Shown::Whole { .. } | Shown::Open => held_bytes_fault(self.len, self.at),
            Shown::Faulty { fault } => Err(AnyStreamFault { at: self.at, fault }),
        }
    }
}
