//! The next piece of a stream, and the reason of a fault that its bytes show.

ghost use Rattle.std.specs.Prelude.{◌≡◌};
ghost use Rattle.stream_spec.specs.Streams.{Open};
ghost use Rattle.extended_spec.specs.Streams.{any_front};
ghost use Rattle.show_spec.specs.Shown.{stream_reason};
ghost use Rattle.stream_show.specs.Runs.{EndsAt, NextPiece};

use crate::buffer::StreamBuffer;
use crate::ends::StreamEnd;
use extended_frames::AnyFault;
use omci_core::{Failed, Source};
use show_spec::{CHECK_REASON, DEVICE_REASON, LENGTH_REASON, SHORT_REASON, TRAILER_REASON};

/// The reason of a fault of a stream. It is never asked for that of want of memory.
pub(crate) fn stream_reason(fault: AnyFault) -> u8
    ensures value { result ≡ stream_reason fault }
{
    match fault {
        AnyFault::Device { .. } => DEVICE_REASON,
        AnyFault::Short { .. } => SHORT_REASON,
        AnyFault::Trailer { .. } => TRAILER_REASON,
        AnyFault::Check { .. } => CHECK_REASON,
        AnyFault::Length { .. } => LENGTH_REASON,
        AnyFault::NoMemory => 0,
    }
}

/// The end of a stream whose first byte held begins what is refused.
pub(crate) fn refused_at(buffer: &StreamBuffer, reason: u8) -> StreamEnd
    ensures value { result ≡ StreamEnd.Refused buffer.now.at reason }
{
    let place = buffer.place();
    StreamEnd::Refused { place, reason }
}

// Whether the stream may end with the bytes that are held: where there are none.
fn end_of(buffer: &StreamBuffer) -> Result<usize, StreamEnd>
    requires nothing { any_front buffer.now.held ≡ Open }
    ensures end { EndsAt result buffer.now }
{
    if buffer.held().is_empty() {
        return Ok(0);
    }
    Err(refused_at(buffer, SHORT_REASON))
}

/// Reads the next piece of a stream of which so many bytes may still come, and answers how many it
/// has: none at the stream's end, where no byte is held.
pub(crate) fn next_piece<S: Source>(
    buffer: &mut StreamBuffer,
    source: &mut S,
    left: usize,
) -> Result<usize, StreamEnd>
    requires nothing { any_front buffer.old.held ≡ Open }
    ensures next { NextPiece result left buffer.old buffer.new
        (S.left source.old) (S.left source.new) (S.faults source.old) (S.faults source.new) }
{
    match buffer.fill(source, left.max(1)) {
        Err(Failed) => Err(StreamEnd::Read),
        Ok(0) => end_of(buffer),
        Ok(count) if count > left => Err(StreamEnd::TooLong),
        Ok(count) => Ok(count),
    }
}
