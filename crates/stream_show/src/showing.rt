//! The command `show`: the text of each frame of a stream.

ghost use Rattle.std.specs.Prelude.{◌≡◌, ◌++◌, [], None, OnOk};
ghost use Rattle.std.specs.Result.{result_err};
ghost use Rattle.extended_spec.specs.Frames.{any_fault_of, any_of};
ghost use Rattle.show_spec.specs.Shown.{frame_line};
ghost use Rattle.stream_show.specs.Runs.{Shows, ShowsHeld, WritesLines, GathersHeld};

use crate::buffer::{PIECE_BYTES, StreamBuffer};
use crate::ends::StreamEnd;
use crate::pieces::{next_piece, refused_at, stream_reason};
use extended_frames::{AnyFault, Shown, front_shown, push_front_text};
use omci_contents::push_bytes;
use omci_core::{NoMemory, Sink, Source};
use std::alloc::Global;
use whole_writes::write_all;

// Writes all lines that are gathered.
fn write_lines<K: Sink>(lines: &mut Vec<u8>, sink: &mut K) -> Result<(), StreamEnd>
    ensures written { WritesLines (result_err result) lines.old.items lines.new.items
        (K.written sink.old) (K.written sink.new) (K.faults sink.old) (K.faults sink.new) }
    ensures empty { OnOk result (lines.new.items ≡ []) }
{
    if write_all(sink, lines).is_err() {
        return Err(StreamEnd::Write);
    }
    lines.clear();
    Ok(())
}

// Writes the lines that are gathered where they are enough for a piece.
fn write_enough<K: Sink>(lines: &mut Vec<u8>, sink: &mut K) -> Result<(), StreamEnd>
    ensures written { WritesLines (result_err result) lines.old.items lines.new.items
        (K.written sink.old) (K.written sink.new) (K.faults sink.old) (K.faults sink.new) }
{
    if lines.len() < PIECE_BYTES {
        return Ok(());
    }
    write_lines(lines, sink)
}

// Appends the line of the frame that the bytes begin with.
#[tactic(auto, unfolding(show_spec::specs::Shown::frame_line))]
fn push_line(lines: &mut Vec<u8>, bytes: &[u8]) -> Result<(), NoMemory>
    requires sound { any_fault_of bytes.now ≡ None }
    ensures line { OnOk result
        (lines.new.items ≡ lines.old.items ++ frame_line (any_of bytes.now)) }
{
    push_front_text(lines, bytes)?;
    push_bytes(lines, b"\n")
}

// Passes the frames that are held whole, and gathers their lines. Answers the fault that the bytes
// after them show, or none where they show nothing yet.
fn gather<K: Sink>(
    buffer: &mut StreamBuffer,
    lines: &mut Vec<u8>,
    sink: &mut K,
) -> Result<Option<AnyFault>, StreamEnd>
    requires empty { lines.old.items ≡ [] }
    ensures gathered { GathersHeld result buffer.old buffer.new lines.new.items
        (K.written sink.old) (K.written sink.new) (K.faults sink.old) (K.faults sink.new) }
{
    loop {
        match front_shown(buffer.held()) {
            Shown::Whole { count } => {
                push_line(lines, buffer.held())?;
                buffer.pass(count);
                write_enough(lines, sink)?;
            }
            Shown::Open => return Ok(None),
            Shown::Faulty { fault } => return Ok(Some(fault)),
        }
    }
}

// Writes the lines of the frames that are held whole, and passes them.
fn show_held<K: Sink>(
    buffer: &mut StreamBuffer,
    lines: &mut Vec<u8>,
    sink: &mut K,
) -> Result<(), StreamEnd>
    requires empty { lines.old.items ≡ [] }
    ensures shown { ShowsHeld (result_err result) buffer.old buffer.new
        (K.written sink.old) (K.written sink.new) (K.faults sink.old) (K.faults sink.new) }
    ensures empty { OnOk result (lines.new.items ≡ []) }
{
    let fault = gather(buffer, lines, sink)?;
    write_lines(lines, sink)?;
    match fault {
        None => Ok(()),
        Some(fault) => Err(refused_at(buffer, stream_reason(fault))),
    }
}

/// Reads a stream of frames of both message sets, in pieces of 64 KiB, and writes the text of each
/// frame and a line feed. Lines are gathered in pieces of 64 KiB, and all lines of the frames read
/// so far are written before more is read. The stream may have so many bytes as `limit` says.
///
/// # Errors
///
/// What ends the reading: the first frame that is refused, with its place and the reason, or the
/// stream's end within a frame; a fault of the source or of the sink; a byte past the limit, where
/// nothing before it is refused; want of memory. The lines of the frames before it were written, or
/// at a fault of the sink and for want of memory a front of them.
pub fn show<S: Source, K: Sink>(
    alloc: Global,
    source: &mut S,
    sink: &mut K,
    limit: usize,
) -> Result<(), StreamEnd>
    ensures shows { Shows limit (result_err result)
        (S.left source.old) (S.left source.new) (K.written sink.old) (K.written sink.new)
        (S.faults source.old) (S.faults source.new) (K.faults sink.old) (K.faults sink.new) }
{
    let mut buffer = StreamBuffer::new(alloc)?;
    let mut lines = Vec::new(alloc);
    let mut left = limit;
    loop {
        let count = next_piece(&mut buffer, source, left)?;
        if count == 0 {
            return Ok(());
        }
        left -= count;
        show_held(&mut buffer, &mut lines, sink)?;
    }
}
