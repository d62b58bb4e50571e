//! Frames of both sets, as bytes, as messages and as text.

use crate::words::{fault_text, say};
use case_lines::{NoMemory, hex_of};
use extended_frames::{
    AnyFault, AnyFrame, LongFrame, decode_any, encode_long, fits_long_frame, has_valid_long_window,
    read_long, text_any, write_long,
};
use omci_contents::{has_valid_window, read_message, write_message};
use omci_core::{EntityId, Packet};
use omci_frames::{Frame, decode, encode};
use std::alloc::Global;

/// Whether the baseline frame comes of its bytes, and the message that it is read as is written as
/// a frame of its type that is read as this message.
pub(crate) fn baseline_both_ways(alloc: Global, frame: &Frame) -> Result<String, NoMemory> {
    if !comes_of_its_bytes(frame) {
        return say(alloc, "another frame");
    }
    if message_comes_again(frame) {
        say(alloc, "both ways")
    } else {
        say(alloc, "another message")
    }
}

fn comes_of_its_bytes(frame: &Frame) -> bool {
    let mut bytes = [0; 48];
    encode(frame, &mut bytes);
    decode(&bytes) == Ok(*frame)
}

fn message_comes_again(frame: &Frame) -> bool {
    let Ok(message) = read_message(frame) else {
        return false;
    };
    if !has_valid_window(&message) {
        return false;
    }
    let again = write_message(&message);
    again.kind == frame.kind && read_message(&again) == Ok(message)
}

/// The extended frame, or none where its contents are too long.
pub(crate) fn frame_of(
    alloc: Global,
    tci: u16,
    kind: u8,
    entity: EntityId,
    contents: &[u8],
) -> Result<Option<LongFrame>, NoMemory> {
    if contents.len() > 1966 {
        return Ok(None);
    }
    Ok(Some(LongFrame::new(alloc, tci, kind, entity, contents)?))
}

/// Whether the extended frame comes of its bytes, and the message that it is read as is written as
/// the same frame.
pub(crate) fn long_both_ways(
    alloc: Global,
    tci: u16,
    kind: u8,
    entity: EntityId,
    contents: &[u8],
) -> Result<String, NoMemory> {
    let Some(frame) = frame_of(alloc, tci, kind, entity, contents)? else {
        return say(alloc, "not allowed");
    };
    if !long_comes_of_its_bytes(alloc, &frame)? {
        return say(alloc, "another frame");
    }
    if is_written_again(alloc, &frame)? {
        say(alloc, "both ways")
    } else {
        say(alloc, "another message")
    }
}

fn long_comes_of_its_bytes(alloc: Global, frame: &LongFrame) -> Result<bool, NoMemory> {
    let mut packet = Packet::new();
    encode_long(frame, &mut packet);
    match decode_any(alloc, packet.bytes()) {
        Ok(AnyFrame::Long(read)) => Ok(is_same(frame, &read)),
        Err(AnyFault::NoMemory) => Err(NoMemory),
        _ => Ok(false),
    }
}

fn is_written_again(alloc: Global, frame: &LongFrame) -> Result<bool, NoMemory> {
    let Ok(message) = read_long(alloc, frame) else {
        return Ok(false);
    };
    if !has_valid_long_window(&message) || !fits_long_frame(&message) {
        return Ok(false);
    }
    let again = write_long(alloc, &message)?;
    Ok(is_same(frame, &again))
}

fn is_same(one: &LongFrame, other: &LongFrame) -> bool {
    one.tci() == other.tci()
        && one.kind() == other.kind()
        && one.entity() == other.entity()
        && one.contents() == other.contents()
}

/// The bytes of the extended frame.
pub(crate) fn encoded(
    alloc: Global,
    tci: u16,
    kind: u8,
    entity: EntityId,
    contents: &[u8],
) -> Result<String, NoMemory> {
    let Some(frame) = frame_of(alloc, tci, kind, entity, contents)? else {
        return say(alloc, "not allowed");
    };
    let mut packet = Packet::new();
    encode_long(&frame, &mut packet);
    hex_of(alloc, packet.bytes())
}

/// The set, TCI, type byte, entity and contents of the frame that the bytes are, or their fault.
pub(crate) fn decoded(alloc: Global, bytes: &[u8]) -> Result<String, NoMemory> {
    match decode_any(alloc, bytes) {
        Ok(AnyFrame::Short(frame)) => {
            let parts = parts_text(alloc, frame.tci, frame.kind, frame.entity, &frame.contents)?;
            Ok(format!(in alloc; "baseline {parts}")?)
        }
        Ok(AnyFrame::Long(frame)) => long_text(alloc, &frame),
        Err(fault) => fault_text(alloc, fault),
    }
}

fn long_text(alloc: Global, frame: &LongFrame) -> Result<String, NoMemory> {
    let parts = parts_text(
        alloc,
        frame.tci(),
        frame.kind(),
        frame.entity(),
        frame.contents(),
    )?;
    Ok(format!(in alloc; "extended {parts}")?)
}

/// A frame's TCI, type byte, entity and contents.
pub(crate) fn parts_text(
    alloc: Global,
    tci: u16,
    kind: u8,
    entity: EntityId,
    contents: &[u8],
) -> Result<String, NoMemory> {
    let kind = hex_of(alloc, &[kind])?;
    let class = entity.class;
    let instance = entity.instance;
    let contents = hex_of(alloc, contents)?;
    Ok(format!(in alloc; "{tci} {kind} {class} {instance} {contents}")?)
}

/// The text of the frame that the bytes are, or their fault.
pub(crate) fn text(alloc: Global, bytes: &[u8]) -> Result<String, NoMemory> {
    match decode_any(alloc, bytes) {
        Ok(frame) => text_of(alloc, &frame),
        Err(fault) => fault_text(alloc, fault),
    }
}

fn text_of(alloc: Global, frame: &AnyFrame) -> Result<String, NoMemory> {
    let text = text_any(alloc, frame)?;
    match str::from_utf8(&text) {
        Ok(text) => say(alloc, text),
        Err(_) => say(alloc, "no text"),
    }
}
