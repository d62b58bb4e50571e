//! A stream of both sets in pieces.

use crate::words::{fault_text, say};
use case_lines::NoMemory;
use extended_frames::{AnyFault, AnyFrame, AnyFrames, TakenAny};
use std::alloc::Global;

/// The TCIs of the frames that a reader gives, fed in pieces of so many bytes, and how the stream
/// ends: `whole`, or the place and the fault.
pub(crate) fn stream(alloc: Global, bytes: &[u8], most: usize) -> Result<String, NoMemory> {
    if most == 0 {
        return say(alloc, "not allowed");
    }
    let mut reader = AnyFrames::new(alloc)?;
    let mut out = String::new(alloc);
    for part in bytes.chunks(most) {
        let _count = reader.feed(part);
        if !push_taken(alloc, &mut reader, &mut out)? {
            return Ok(out);
        }
    }
    match reader.finish() {
        Ok(()) => out.push_str("whole")?,
        Err(end) => push_fault(alloc, &mut out, end.at, end.fault)?,
    }
    Ok(out)
}

/// Appends the TCIs of three frames at most, and says whether no fault was shown.
fn push_taken(alloc: Global, reader: &mut AnyFrames, out: &mut String) -> Result<bool, NoMemory> {
    for _frame in 0..3 {
        match reader.take()? {
            TakenAny::Frame(frame) => push_tci(out, &frame)?,
            TakenAny::More => break,
            TakenAny::Fault { at, fault } => {
                push_fault(alloc, out, at, fault)?;
                return Ok(false);
            }
        }
    }
    Ok(true)
}

fn push_tci(out: &mut String, frame: &AnyFrame) -> Result<(), NoMemory> {
    let tci = match frame {
        AnyFrame::Short(frame) => frame.tci,
        AnyFrame::Long(frame) => frame.tci(),
    };
    write!(out, "{tci} ")?;
    Ok(())
}

fn push_fault(alloc: Global, out: &mut String, at: u64, fault: AnyFault) -> Result<(), NoMemory> {
    let fault = fault_text(alloc, fault)?;
    write!(out, "at {at} {fault}")?;
    Ok(())
}
