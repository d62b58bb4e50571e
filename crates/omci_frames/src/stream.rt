//! A reader of a stream of baseline frames that comes in pieces. It holds at most one frame's
//! bytes.

ghost use Rattle.std.specs.Prelude.{◌≡◌, ◌↔◌, ◌≤◌, [], length, take, IsOk};
ghost use Rattle.stream_spec.specs.Streams.{bytes_taken, with_bytes, after_take, first_reader};
ghost use Rattle.stream_spec.specs.Baseline.{front_of, taken_from, is_fault, held_bytes_fault, finish_from};

use crate::{first_fault, frame_at};
use frame_spec::{FRAME_BYTES, FrameFault};
use omci_core::put_at;
use std::marker::Model;
use stream_spec::{StreamFault, Taken};

/// A reader of a stream of baseline frames. Bytes are offered to it in pieces of any length, and it
/// gives the frames of the stream one after the other. Contracts see the bytes that it holds and
/// the place of the first of them.
#[derive(Debug, Drop)]
pub struct Frames {
    bytes: [u8; FRAME_BYTES],
    len: usize,
    at: u64,
}

impl Model for Frames {
    ghost use Rattle.std.specs.Prelude.{◌≤◌, take};
    ghost use Rattle.frame_spec.specs.declared.TheConstants.{FRAME_BYTES};
    ghost use Rattle.stream_spec.specs.Streams.{Reader};

    ghost Value = { Reader };

    ghost view = { λ s. record { at = s.at; held = take s.len s.bytes } };

    ghost invariant = { λ s. s.len ≤ FRAME_BYTES };
}

// What a reader answers that holds these bytes, the first of them from this place.
#[tactic(auto, unfolding(stream_spec::specs::Baseline::front_of))]
fn answer(held: &[u8], at: u64) -> Taken
    ensures value { result ≡ taken_from (front_of held.now) at }
{
    match first_fault(held) {
        None => Taken::Frame(frame_at(held)),
        Some(FrameFault::Short { .. }) => Taken::More,
        Some(fault) => Taken::Fault { at, fault },
    }
}

// Whether the answer is a fault.
fn is_fault(answer: &Taken) -> bool
    ensures value { result ≡ is_fault answer.now }
{
    matches!(answer, Taken::Fault { .. })
}

// Whether no byte is held, or how many are.
fn held_bytes_fault(len: usize, at: u64) -> Result<(), StreamFault>
    ensures value { result ≡ held_bytes_fault len at }
{
    if len == 0 {
        return Ok(());
    }
    let fault = FrameFault::Short { have: len };
    Err(StreamFault { at, fault })
}

impl Frames {
    /// A reader at the begin of a stream.
    pub fn new() -> Frames
        ensures empty { result ≡ first_reader }
    {
        Frames {
            bytes: [0; FRAME_BYTES],
            len: 0,
            at: 0,
        }
    }

    // The bytes that are held.
    fn held(&self) -> &[u8]
        ensures value { result.now ≡ self.now.held }
        ensures bound { length self.now.held ≤ FRAME_BYTES }
    {
        &self.bytes[..self.len]
    }

    /// Takes as many bytes of the front of the piece as there is room for, and answers how many;
    /// none where the bytes held show a fault. There is room for the 48 bytes of a frame.
    pub fn feed(&mut self, piece: &[u8]) -> usize
        ensures count { result
            ≡ bytes_taken (front_of self.old.held) FRAME_BYTES self.old piece.now }
        ensures bound { result ≤ length piece.now }
        ensures after { self.new ≡ with_bytes (take result piece.now) self.old }
    {
        let room = FRAME_BYTES - self.len;
        if room == 0 || is_fault(&answer(self.held(), self.at)) {
            return 0;
        }
        let count = piece.len().min(room);
        put_at(&mut self.bytes, self.len, &piece[..count]);
        self.len += count;
        count
    }

    /// The frame with which the bytes held begin, which are held no longer; `More` exactly where
    /// they begin with no whole frame and show no fault; and else the fault, with the place of the
    /// first byte held. A fault stands: each further call answers it again.
    pub fn take(&mut self) -> Taken
        ensures value { result ≡ taken_from (front_of self.old.held) self.old.at }
        ensures after { self.new ≡ after_take (front_of self.old.held) self.old }
    {
        let taken = answer(self.held(), self.at);
        if let Taken::Frame(_) = taken {
            self.len = 0;
            self.at = self.at.saturating_add(FRAME_BYTES as u64);
        }
        taken
    }

    /// Whether the stream may end here: exactly where no byte is held.
    ///
    /// # Errors
    ///
    /// The fault that the bytes held show, or [`FrameFault::Short`] with how many are held, also
    /// where they are a whole frame that was not taken.
    pub fn finish(&self) -> Result<(), StreamFault>
        ensures value { result ≡ finish_from (front_of self.now.held) self.now }
        ensures ok { IsOk result ↔ (self.now.held ≡ []) }
    {
        match answer(self.held(), self.at) {
            Taken::Fault { at, fault } => Err(StreamFault { at, fault }),
            Taken::More | Taken::Frame(_) => held_bytes_fault(self.len, self.at),
        }
    }
}

impl Default for Frames {
    ghost is_default = { λ reader. reader ≡ first_reader };

    fn default() -> Frames {
        Frames::new()
    }
}
