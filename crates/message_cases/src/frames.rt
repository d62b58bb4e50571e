//! Check values, and baseline frames both ways.

use crate::texts::say;
use aal5_crc::{Crc, crc_of};
use case_lines::{NoMemory, hex_of, short_hex_of};
use omci_frames::{Frame, FrameFault, decode, encode, four_at, frame_at, number_at, packet_frame};
use std::alloc::Global;

/// The check value of the bytes at once, and of the bytes one by one.
pub(crate) fn check_values(alloc: Global, bytes: &[u8]) -> Result<String, NoMemory> {
    let at_once = hex_of(alloc, &crc_of(bytes).to_be_bytes())?;
    let one_by_one = hex_of(alloc, &value_one_by_one(bytes).to_be_bytes())?;
    Ok(format!(in alloc; "{at_once} {one_by_one}")?)
}

fn value_one_by_one(bytes: &[u8]) -> u32 {
    let mut crc = Crc::new();
    for byte in bytes {
        crc.add(&[*byte]);
    }
    crc.value()
}

/// The bytes of a frame, which are written over other bytes.
pub(crate) fn encoded(alloc: Global, frame: &Frame) -> Result<String, NoMemory> {
    let mut bytes = [0xee; 48];
    encode(frame, &mut bytes);
    hex_of(alloc, &bytes)
}

/// A frame's TCI, type byte, entity and contents.
fn frame_text(alloc: Global, frame: &Frame) -> Result<String, NoMemory> {
    let tci = hex_of(alloc, &frame.tci.to_be_bytes())?;
    let kind = hex_of(alloc, &[frame.kind])?;
    let class = frame.entity.class;
    let instance = frame.entity.instance;
    let contents = short_hex_of(alloc, &frame.contents)?;
    Ok(format!(in alloc; "{tci} {kind} {class} {instance} {contents}")?)
}

/// The frame that the bytes begin with, or their first fault.
pub(crate) fn decoded(alloc: Global, bytes: &[u8]) -> Result<String, NoMemory> {
    match decode(bytes) {
        Ok(frame) => frame_text(alloc, &frame),
        Err(fault) => fault_text(alloc, fault),
    }
}

fn fault_text(alloc: Global, fault: FrameFault) -> Result<String, NoMemory> {
    match fault {
        FrameFault::Device { byte } => Ok(format!(in alloc; "device {byte}")?),
        FrameFault::Short { have } => Ok(format!(in alloc; "short {have}")?),
        FrameFault::Trailer { bytes } => {
            let bytes = hex_of(alloc, &bytes)?;
            Ok(format!(in alloc; "trailer {bytes}")?)
        }
        FrameFault::Check { given, computed } => {
            let given = hex_of(alloc, &given.to_be_bytes())?;
            let computed = hex_of(alloc, &computed.to_be_bytes())?;
            Ok(format!(in alloc; "check {given} {computed}")?)
        }
    }
}

/// The frame that the bytes are, `-` where they are none.
pub(crate) fn packet(alloc: Global, bytes: &[u8]) -> Result<String, NoMemory> {
    match packet_frame(bytes) {
        Some(frame) => frame_text(alloc, &frame),
        None => say(alloc, "-"),
    }
}

/// The fields of 48 bytes without a test, then the number at place 4 and the bytes from place 40.
pub(crate) fn fields(alloc: Global, bytes: &[u8]) -> Result<String, NoMemory> {
    if bytes.len() < 48 {
        return say(alloc, "not allowed");
    }
    let frame = frame_text(alloc, &frame_at(bytes))?;
    let number = number_at(bytes, 4);
    let four = hex_of(alloc, &four_at(bytes, 40))?;
    Ok(format!(in alloc; "{frame}, {number} {four}")?)
}
