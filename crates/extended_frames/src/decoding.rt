//! Reading frames of either set.

ghost use Rattle.std.specs.Prelude.{◌≡◌, ◌+◌, ◌≤◌, ◌⊎◌, true, false, length, Option, Some, None, Ok, Err, IfOk, OnErr, MatchResult};
ghost use Rattle.extended_spec.specs.Frames.{length_at, long_of, long_given, long_computed, long_fault_of, as_any, is_extended, fault_in, frame_in, bytes_in, any_fault_of, any_of, any_bytes, any_decoded};
ghost use Rattle.extended_frames.specs.Views.{any_in};

use crate::any_frame::AnyFrame;
use aal5_crc::crc_of;
use extended_contents::LongFrame;
use extended_spec::{AnyFault, CHECK_BYTES, EXTENDED_DEVICE, HEADER_BYTES, MAX_LONG_CONTENTS};
use omci_core::NoMemory;
use omci_frames::{FRAME_BYTES, FrameFault, first_fault, four_at, frame_at, number_at};
use omci_types::EntityId;
use std::alloc::Global;

// The number of contents bytes that bytes 9 and 10 give.
#[tactic(auto, unfolding(extended_spec::specs::Frames::length_at))]
fn length_at(bytes: &[u8]) -> u16
    requires { HEADER_BYTES ≤ length bytes.now }
    ensures value { result ≡ length_at bytes.now }
{
    number_at(bytes, 8)
}

// Whether byte 4 is there and is the extended set's device.
#[tactic(auto, unfolding(extended_spec::specs::Frames::is_extended))]
pub(crate) fn is_extended(bytes: &[u8]) -> bool
    ensures value { result ≡ is_extended bytes.now }
{
    bytes.len() >= 4 && bytes[3] == EXTENDED_DEVICE
}

// The first fault of bytes with the extended set's device.
#[tactic(auto, unfolding(extended_spec::specs::Frames::long_fault_of, extended_spec::specs::Frames::long_given, extended_spec::specs::Frames::long_computed))]
fn long_fault(bytes: &[u8]) -> Option<AnyFault>
    ensures value { result ≡ long_fault_of bytes.now }
{
    if bytes.len() < HEADER_BYTES {
        return Some(AnyFault::Short { have: bytes.len() });
    }
    let given = length_at(bytes);
    let count = given as usize;
    if count > MAX_LONG_CONTENTS {
        return Some(AnyFault::Length { given });
    }
    if bytes.len() < HEADER_BYTES + count + CHECK_BYTES {
        return Some(AnyFault::Short { have: bytes.len() });
    }
    let given = u32::from_be_bytes(four_at(bytes, HEADER_BYTES + count));
    let computed = crc_of(&bytes[..HEADER_BYTES + count]);
    if given != computed {
        return Some(AnyFault::Check { given, computed });
    }
    None
}

// The first fault of bytes with any other device.
fn baseline_fault(bytes: &[u8]) -> Option<AnyFault>
    ensures value { result ≡ fault_in false bytes.now }
{
    let fault = match first_fault(bytes)? {
        FrameFault::Device { byte } => AnyFault::Device { byte },
        FrameFault::Short { have } => AnyFault::Short { have },
        FrameFault::Trailer { bytes } => AnyFault::Trailer { bytes },
        FrameFault::Check { given, computed } => AnyFault::Check { given, computed },
    };
    Some(fault)
}

// The first fault of bytes, which may be a frame of either set.
#[tactic(auto, unfolding(extended_spec::specs::Frames::any_fault_of))]
pub(crate) fn any_fault(bytes: &[u8]) -> Option<AnyFault>
    ensures value { result ≡ any_fault_of bytes.now }
{
    if is_extended(bytes) {
        long_fault(bytes)
    } else {
        baseline_fault(bytes)
    }
}

// The contents of a whole extended frame.
#[tactic(auto, unfolding(extended_spec::specs::Frames::long_of))]
pub(crate) fn contents_at(bytes: &[u8]) -> &[u8]
    requires whole { HEADER_BYTES + length_at bytes.now + CHECK_BYTES ≤ length bytes.now }
    requires few { length_at bytes.now ≤ MAX_LONG_CONTENTS }
    ensures value { result.now ≡ (long_of bytes.now).contents }
    ensures bound { length result.now ≤ MAX_LONG_CONTENTS }
{
    let count = length_at(bytes) as usize;
    &bytes[HEADER_BYTES..HEADER_BYTES + count]
}

// The entity of a whole extended frame.
#[tactic(auto, unfolding(extended_spec::specs::Frames::long_of))]
pub(crate) fn entity_at(bytes: &[u8]) -> EntityId
    requires { HEADER_BYTES ≤ length bytes.now }
    ensures value { result ≡ (long_of bytes.now).entity }
{
    EntityId {
        class: number_at(bytes, 4),
        instance: number_at(bytes, 6),
    }
}

// What the fields of a whole extended frame say.
#[tactic(auto, unfolding(extended_spec::specs::Frames::long_of))]
fn long_at(alloc: Global, bytes: &[u8]) -> Result<LongFrame, NoMemory>
    requires whole { HEADER_BYTES + length_at bytes.now + CHECK_BYTES ≤ length bytes.now }
    requires few { length_at bytes.now ≤ MAX_LONG_CONTENTS }
    ensures value { IfOk result (λ frame. frame ≡ long_of bytes.now) }
{
    let contents = contents_at(bytes);
    LongFrame::new(
        alloc,
        number_at(bytes, 0),
        bytes[2],
        entity_at(bytes),
        contents,
    )
}

// What the fields of a frame say. There is no fault in the bytes.
#[tactic(auto, unfolding(extended_spec::specs::Frames::any_of))]
pub(crate) fn any_at(alloc: Global, bytes: &[u8]) -> Result<AnyFrame, NoMemory>
    requires sound { any_fault_of bytes.now ≡ None }
    ensures value { IfOk result (λ frame. any_in frame ≡ any_of bytes.now) }
    ensures memory { OnErr result (is_extended bytes.now ≡ true) }
{
    if is_extended(bytes) {
        Ok(AnyFrame::Long(long_at(alloc, bytes)?))
    } else {
        Ok(AnyFrame::Short(frame_at(bytes)))
    }
}

// How many bytes the frame has that the bytes begin with. There is no fault in them.
#[tactic(auto, unfolding(extended_spec::specs::Frames::any_bytes))]
pub(crate) fn any_bytes(bytes: &[u8]) -> usize
    requires sound { any_fault_of bytes.now ≡ None }
    ensures value { result ≡ any_bytes bytes.now }
    ensures within { result ≤ length bytes.now }
{
    if is_extended(bytes) {
        HEADER_BYTES + length_at(bytes) as usize + CHECK_BYTES
    } else {
        FRAME_BYTES
    }
}

/// Reads the frame of either set that the bytes begin with. Bytes after the frame are not looked
/// at.
///
/// # Errors
///
/// The first of these that holds: [`AnyFault::Device`] exactly where at least 4 bytes are there and
/// byte 4 is neither `0x0A` nor `0x0B`; [`AnyFault::Length`] exactly where 10 bytes of an extended
/// frame are there and bytes 9 and 10 give more than 1,966; [`AnyFault::Short`] exactly where the
/// frame isn't whole; [`AnyFault::Trailer`] exactly where bytes 41 to 44 of a baseline frame aren't
/// `00 00 00 28`; [`AnyFault::Check`] exactly where the check value at the frame's end isn't that
/// of the bytes before it. [`AnyFault::NoMemory`] comes only for a whole extended frame.
#[tactic(auto, unfolding(extended_spec::specs::Frames::any_decoded))]
pub fn decode_any(alloc: Global, bytes: &[u8]) -> Result<AnyFrame, AnyFault>
    ensures value { MatchResult result (λ frame. any_decoded bytes.now ≡ Ok (any_in frame))
        (λ fault. (fault ≡ AnyFault.NoMemory) ⊎ (any_decoded bytes.now ≡ Err fault)) }
    ensures memory { result ≡ Err AnyFault.NoMemory →
        (any_fault_of bytes.now ≡ None) × (is_extended bytes.now ≡ true) }
{
    match any_fault(bytes) {
        Some(fault) => Err(fault),
        None => match any_at(alloc, bytes) {
            Ok(frame) => Ok(frame),
            Err(NoMemory) => Err(AnyFault::NoMemory),
        },
    }
}
