//! What bytes show at their front, and what the frame there says. The frame is looked at where it
//! stands: no byte is copied but into its text, and no memory is taken but for that.

ghost use Rattle.std.specs.Prelude.{◌≡◌, ◌≤◌, ◌+◌, ◌++◌, length, None, OnOk};
ghost use Rattle.std.specs.Option.{option_map};
ghost use Rattle.std.specs.Result.{result_err};
ghost use Rattle.frame_spec.specs.Baseline.{IsBytes, frame_of};
ghost use Rattle.message_spec.specs.Reading.{message_of};
ghost use Rattle.extended_spec.specs.Frames.{length_at, any_fault_of, any_of, long_of};
ghost use Rattle.extended_spec.specs.Messages.{any_message_fault, as_long_fault, parts_of};
ghost use Rattle.extended_spec.specs.Streams.{any_front};
ghost use Rattle.extended_spec.specs.Text.{any_text, long_text};
ghost use Rattle.omci_contents.specs.Front.{IsFront};
ghost use Rattle.extended_frames.specs.Views.{shown_by, is_shown_faulty};

use crate::decoding::{any_bytes, any_fault, contents_at, entity_at, is_extended};
use crate::texts::push_fields;
use extended_contents::{kind_at, need};
use extended_spec::{AnyFault, CHECK_BYTES, HEADER_BYTES, LongFault, MAX_LONG_CONTENTS};
use omci_contents::push_text;
use omci_core::NoMemory;
use omci_frames::{FRAME_BYTES, frame_at, number_at};

/// What bytes show at their front.
#[derive(Clone, Copy, Debug, PartialEq, Eq)]
pub enum Shown {
    /// A whole frame, which has so many bytes.
    Whole { count: usize },
    /// No whole frame yet, and no fault.
    Open,
    /// A fault. It is never want of memory.
    Faulty { fault: AnyFault },
}

/// What bytes show at their front.
#[tactic(auto, unfolding(extended_spec::specs::Streams::any_front))]
pub fn front_shown(held: &[u8]) -> Shown
    ensures value { result ≡ shown_by (any_front held.now) }
    ensures fit { IsBytes held.now }
{
    match any_fault(held) {
        None => Shown::Whole {
            count: any_bytes(held),
        },
        Some(AnyFault::Short { .. }) => Shown::Open,
        Some(fault) => Shown::Faulty { fault },
    }
}

// Whether a fault is shown.
pub(crate) fn is_faulty(shown: Shown) -> bool
    ensures value { result ≡ is_shown_faulty shown }
{
    matches!(shown, Shown::Faulty { .. })
}

// Appends the text of a whole extended frame.
#[tactic(auto, unfolding(extended_spec::specs::Frames::long_of))]
fn push_long_front(out: &mut Vec<u8>, bytes: &[u8]) -> Result<(), NoMemory>
    requires whole { HEADER_BYTES + length_at bytes.now + CHECK_BYTES ≤ length bytes.now }
    requires few { length_at bytes.now ≤ MAX_LONG_CONTENTS }
    ensures text { OnOk result (out.new.items ≡ out.old.items ++ long_text (long_of bytes.now)) }
    ensures front { IsFront out.old.items out.new.items }
{
    let contents = contents_at(bytes);
    push_fields(
        out,
        number_at(bytes, 0),
        bytes[2],
        entity_at(bytes),
        contents,
    )
}

/// Appends the text of the frame that the bytes begin with, as [`crate::push_text_any`] does. There
/// is no fault in them.
///
/// `NoMemory` where `out` can't grow; it then still begins with what it held. No other memory is
/// taken.
#[tactic(auto, unfolding(extended_spec::specs::Frames::any_of))]
pub fn push_front_text(out: &mut Vec<u8>, bytes: &[u8]) -> Result<(), NoMemory>
    requires sound { any_fault_of bytes.now ≡ None }
    ensures text { OnOk result (out.new.items ≡ out.old.items ++ any_text (any_of bytes.now)) }
    ensures front { IsFront out.old.items out.new.items }
{
    if is_extended(bytes) {
        push_long_front(out, bytes)
    } else {
        push_text(out, &frame_at(bytes))
    }
}

// Why a whole extended frame is no message.
#[tactic(auto, unfolding(extended_spec::specs::Frames::long_of, extended_spec::specs::Messages::parts_of))]
fn long_message_fault(bytes: &[u8]) -> Option<LongFault>
    requires whole { HEADER_BYTES + length_at bytes.now + CHECK_BYTES ≤ length bytes.now }
    requires few { length_at bytes.now ≤ MAX_LONG_CONTENTS }
    ensures value { result ≡ result_err (parts_of (long_of bytes.now)) }
{
    let contents = contents_at(bytes);
    match kind_at(bytes[2]) {
        Err(fault) => Some(fault),
        Ok(kind) => {
            let have = contents.len();
            need(kind, contents).map(|need| LongFault::ContentsShort { have, need })
        }
    }
}

// Why a baseline frame is no message.
#[tactic(auto, unfolding(frame_spec::specs::Baseline::frame_of, message_spec::specs::Reading::message_of))]
fn baseline_message_fault(bytes: &[u8]) -> Option<LongFault>
    requires { FRAME_BYTES ≤ length bytes.now }
    ensures value { result ≡
        option_map as_long_fault (result_err (message_of (frame_of bytes.now))) }
{
    kind_at(bytes[2]).err()
}

/// Why the frame that the bytes begin with is no message, as `read_message` and
/// [`crate::read_long`] say it. There is no fault in the bytes. No memory is taken, and `NoMemory`
/// is not answered.
#[tactic(auto, unfolding(extended_spec::specs::Frames::any_of))]
pub fn front_message_fault(bytes: &[u8]) -> Option<LongFault>
    requires sound { any_fault_of bytes.now ≡ None }
    ensures value { result ≡ any_message_fault (any_of bytes.now) }
{
    if is_extended(bytes) {
        long_message_fault(bytes)
    } else {
        baseline_message_fault(bytes)
    }
}
