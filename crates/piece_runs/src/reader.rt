//! A stream that is offered to a reader of both sets in pieces.

use crate::said::push_refusal;
use extended_frames::{AnyFault, AnyFrames, TakenAny, push_text_any};
use omci_contents::push_bytes;
use omci_core::NoMemory;
use show_spec::{CHECK_REASON, DEVICE_REASON, LENGTH_REASON, SHORT_REASON, TRAILER_REASON};
use std::alloc::Global;

// The reason of a fault.
fn reason(fault: AnyFault) -> u8 {
    match fault {
        AnyFault::Device { .. } => DEVICE_REASON,
        AnyFault::Short { .. } => SHORT_REASON,
        AnyFault::Trailer { .. } => TRAILER_REASON,
        AnyFault::Check { .. } => CHECK_REASON,
        AnyFault::Length { .. } => LENGTH_REASON,
        AnyFault::NoMemory => 0,
    }
}

// Takes the frames that are held whole, and says whether the bytes after them show no fault.
fn push_taken(reader: &mut AnyFrames, out: &mut Vec<u8>) -> Result<bool, NoMemory> {
    for _ in 0..usize::MAX {
        match reader.take()? {
            TakenAny::Frame(frame) => {
                push_text_any(out, &frame)?;
                push_bytes(out, b"\n")?;
            }
            TakenAny::More => return Ok(true),
            TakenAny::Fault { at, fault } => {
                push_refusal(out, at, reason(fault))?;
                return Ok(false);
            }
        }
    }
    Ok(false)
}

// Offers a piece until all of it is taken, and says whether no fault was shown.
fn push_piece(reader: &mut AnyFrames, out: &mut Vec<u8>, piece: &[u8]) -> Result<bool, NoMemory> {
    let mut rest = piece;
    for _ in 0..piece.len() {
        let count = reader.feed(rest);
        rest = &rest[count..];
        if !push_taken(reader, out)? {
            return Ok(false);
        }
        if rest.is_empty() {
            break;
        }
    }
    Ok(true)
}

/// Appends the texts of the frames that the reader gives, and where the stream has a fault.
pub fn push_calls(
    alloc: Global,
    out: &mut Vec<u8>,
    stream: &[u8],
    most: usize,
) -> Result<(), NoMemory> {
    let mut reader = AnyFrames::new(alloc)?;
    for piece in stream.chunks(most.max(1)) {
        if !push_piece(&mut reader, out, piece)? {
            return Ok(());
        }
    }
    match reader.finish() {
        Ok(()) => Ok(()),
        Err(end) => push_refusal(out, end.at, reason(end.fault)),
    }
}
