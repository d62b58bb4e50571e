//! Baseline frames of ITU-T G.988: a frame written as its one spelling of 48 bytes, and read back
//! from it. No call takes memory.
//!
//! Bytes 1 and 2 are the transaction correlation identifier, byte 3 the kind of message, byte 4 the
//! device `0A`, bytes 5 to 8 the entity's class and instance, bytes 9 to 40 the contents, bytes 41
//! to 44 the trailer `00 00 00 28`, and bytes 45 to 48 the check value of the bytes before them
//! (ITU-T I.363.5). Numbers are big-endian.
#![tactic(auto)]

ghost use Rattle.std.specs.Prelude.{◌≡◌, ℕ, ◌≤◌, List, length, take, slice_index, ◌↔◌, MatchResult, IfSome};
ghost use Rattle.frame_spec.specs.Baseline.{IsFrame, spelling, fault_of, frame_of, decoded, packet_frame};
ghost use Rattle.frame_laws.specs.Faults.{IsDeviceFault, IsShortFault, IsTrailerFault, IsCheckFault};

mod fields;
mod stream;

use fields::{check_of, contents_at, put_check, put_contents, put_kind, put_number, put_trailer};
pub use fields::{four_at, number_at};
use frame_spec::{BASELINE_DEVICE, BASELINE_TRAILER, CHECKED_BYTES};
pub use frame_spec::{FRAME_BYTES, FrameFault};
pub use omci_types::{EntityId, Frame};
pub use stream::Frames;
pub use stream_spec::{StreamFault, Taken};

/// Writes the frame's one spelling.
pub fn encode(frame: &Frame, into: &mut [u8; FRAME_BYTES])
    ensures spelled { into.new ≡ spelling frame.now }
    ensures whole { length into.new ≡ FRAME_BYTES }
{
    put_number(into, 0, frame.tci);
    put_kind(into, frame.kind);
    put_number(into, 4, frame.entity.class);
    put_number(into, 6, frame.entity.instance);
    put_contents(into, &frame.contents);
    put_trailer(into);
    put_check(into);
}

/// Reads the frame that the bytes begin with. Bytes after the 48th are not looked at.
///
/// # Errors
///
/// The first of these that holds: [`FrameFault::Device`] exactly where at least 4 bytes are there
/// and byte 4 isn't `0x0A`; [`FrameFault::Short`] exactly where fewer than 48 are there;
/// [`FrameFault::Trailer`] exactly where bytes 41 to 44 aren't `00 00 00 28`; [`FrameFault::Check`]
/// exactly where bytes 45 to 48 aren't the check value of bytes 1 to 44.
pub fn decode(bytes: &[u8]) -> Result<Frame, FrameFault>
    ensures value { result ≡ decoded bytes.now }

    // What is read is spelled so, and what is spelled so is read.
    ensures exact { MatchResult result (λ f. IsFrame f × (take FRAME_BYTES bytes.now ≡ spelling f))
        (λ e. fault_of bytes.now ≡ Some e) }
    ensures only { (f : Frame) → IsFrame f → take FRAME_BYTES bytes.now ≡ spelling f →
        result ≡ Ok f }

    // Which fault it is.
    ensures device { (byte : ℕ) → (result ≡ Err (FrameFault.Device byte))
        ↔ IsDeviceFault bytes.now byte }
    ensures short { (have : ℕ) → (result ≡ Err (FrameFault.Short have))
        ↔ IsShortFault bytes.now have }
    ensures trailer { (four : List ℕ) → (result ≡ Err (FrameFault.Trailer four))
        ↔ IsTrailerFault bytes.now four }
    ensures check { (given computed : ℕ) → (result ≡ Err (FrameFault.Check given computed))
        ↔ IsCheckFault bytes.now given computed }
{
    match first_fault(bytes) {
        Some(fault) => Err(fault),
        None => Ok(frame_at(bytes)),
    }
}

/// The frame of a packet that is exactly one frame: 48 bytes without a fault.
pub fn packet_frame(bytes: &[u8]) -> Option<Frame>
    ensures value { result ≡ packet_frame bytes.now }
    ensures exact { IfSome result (λ f. IsFrame f × (bytes.now ≡ spelling f)) }
    ensures only { (f : Frame) → IsFrame f → bytes.now ≡ spelling f → result ≡ Some f }
{
    if bytes.len() == FRAME_BYTES {
        decode(bytes).ok()
    } else {
        None
    }
}

/// What the fields of 48 bytes or more say. Nothing is tested and no check value is computed: this
/// is for packets whose bytes [`encode`] has written.
#[tactic(auto, unfolding(frame_spec::specs::Baseline::frame_of))]
pub fn frame_at(bytes: &[u8]) -> Frame
    requires { FRAME_BYTES ≤ length bytes.now }
    ensures value { result ≡ frame_of bytes.now }
{
    Frame {
        tci: number_at(bytes, 0),
        kind: bytes[2],
        entity: EntityId {
            class: number_at(bytes, 4),
            instance: number_at(bytes, 6),
        },
        contents: contents_at(bytes),
    }
}

/// The first fault of the bytes: that of [`decode`], or none where they begin with a frame.
#[tactic(auto, unfolding(frame_spec::specs::Baseline::fault_of, frame_spec::specs::Baseline::trailer_at, frame_spec::specs::Baseline::given_check, frame_spec::specs::Baseline::computed_check))]
pub fn first_fault(bytes: &[u8]) -> Option<FrameFault>
    ensures value { result ≡ fault_of bytes.now }
{
    if bytes.len() >= 4 && bytes[3] != BASELINE_DEVICE {
        return Some(FrameFault::Device { byte: bytes[3] });
    }
    if bytes.len() < FRAME_BYTES {
        return Some(FrameFault::Short { have: bytes.len() });
    }
    let trailer = four_at(bytes, 40);
    if trailer != BASELINE_TRAILER {
        return Some(FrameFault::Trailer { bytes: trailer });
    }
    let given = u32::from_be_bytes(four_at(bytes, CHECKED_BYTES));
    let computed = check_of(bytes);
    if given != computed {
        return Some(FrameFault::Check { given, computed });
    }
    None
}
