//! The command `check`: the frames of a stream are counted.

ghost use Rattle.std.specs.Prelude.{◌≡◌, ◌≢◌, ◌++◌, OnOk, IfErr};
ghost use Rattle.omci_contents.specs.Front.{IsFront};
ghost use Rattle.show_spec.specs.Shown.{count_text};
ghost use Rattle.stream_show.specs.Runs.{CountsTo, CountsHeld, CountsOne};

use crate::buffer::StreamBuffer;
use crate::ends::StreamEnd;
use crate::pieces::{next_piece, refused_at, stream_reason};
use extended_frames::{LongFault, Shown, front_message_fault, front_shown};
use omci_contents::{push_bytes, push_number};
use omci_core::{NoMemory, Source};
use show_spec::{BITS_REASON, CONTENTS_REASON};
use std::alloc::Global;

/// How many frames a stream has.
#[derive(Clone, Copy, Debug, PartialEq, Eq)]
pub struct Counts {
    /// All of them.
    pub frames: u64,
    /// Those whose type is unknown.
    pub unknown: u64,
}

/// Appends the line of a stream in which no frame is refused: `frames N unknown U`. `NoMemory`
/// where `out` can't grow.
#[tactic(auto, unfolding(show_spec::specs::Shown::count_text))]
pub fn push_count_text(out: &mut Vec<u8>, counts: Counts) -> Result<(), NoMemory>
    ensures text { OnOk result (out.new.items
        ≡ out.old.items ++ count_text counts.frames counts.unknown) }
    ensures front { IsFront out.old.items out.new.items }
{
    push_bytes(out, b"frames ")?;
    push_number(out, counts.frames)?;
    push_bytes(out, b" unknown ")?;
    push_number(out, counts.unknown)?;
    push_bytes(out, b"\n")
}

// Counts a frame that is no message for this reason, or is one; or answers why it is refused.
fn count_one(fault: Option<LongFault>, counts: &mut Counts) -> Option<u8>
    ensures one { CountsOne fault result counts.old counts.new }
{
    let unknown = match fault {
        None | Some(LongFault::NoMemory) => 0,
        Some(LongFault::UnknownType { .. }) => 1,
        Some(LongFault::Bits { .. }) => return Some(BITS_REASON),
        Some(LongFault::ContentsShort { .. }) => return Some(CONTENTS_REASON),
    };
    counts.frames = counts.frames.saturating_add(1);
    counts.unknown = counts.unknown.saturating_add(unknown);
    None
}

// Counts the frames that are held whole, and passes them.
fn count_held(buffer: &mut StreamBuffer, counts: &mut Counts) -> Result<(), StreamEnd>
    ensures counted { CountsHeld result buffer.old buffer.new counts.old counts.new }
{
    loop {
        match front_shown(buffer.held()) {
            Shown::Open => return Ok(()),
            Shown::Faulty { fault } => return Err(refused_at(buffer, stream_reason(fault))),
            Shown::Whole { count } => {
                let fault = front_message_fault(buffer.held());
                match count_one(fault, counts) {
                    Some(reason) => return Err(refused_at(buffer, reason)),
                    None => buffer.pass(count),
                }
            }
        }
    }
}

/// Reads a stream of frames of both message sets, in pieces of 64 KiB, and counts them. Frames of
/// unknown type are counted and passed over. The stream may have so many bytes as `limit` says.
///
/// # Errors
///
/// What ends the reading: the first frame that is refused, with its place and the reason, be it as
/// a frame or as a message, or the stream's end within a frame; a fault of the source; a byte past
/// the limit, where nothing before it is refused; want of memory.
pub fn check<S: Source>(alloc: Global, source: &mut S, limit: usize) -> Result<Counts, StreamEnd>
    ensures counts { CountsTo limit result
        (S.left source.old) (S.left source.new) (S.faults source.old) (S.faults source.new) }
    ensures some { IfErr result (λ end. end ≢ StreamEnd.Write) }
{
    let mut buffer = StreamBuffer::new(alloc)?;
    let mut counts = Counts {
        frames: 0,
        unknown: 0,
    };
    let mut left = limit;
    loop {
        let count = next_piece(&mut buffer, source, left)?;
        if count == 0 {
            return Ok(counts);
        }
        left -= count;
        count_held(&mut buffer, &mut counts)?;
    }
}
