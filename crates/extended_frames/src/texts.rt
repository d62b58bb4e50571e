//! The text of a frame of either set.

ghost use Rattle.std.specs.Prelude.{◌≡◌, ◌++◌, OnOk, IfOk};
ghost use Rattle.message_spec.specs.Text.{hex_or_dash};
ghost use Rattle.extended_spec.specs.Text.{long_text, any_text};
ghost use Rattle.omci_contents.specs.Front.{IsFront};
ghost use Rattle.extended_frames.specs.Views.{any_in};

use crate::any_frame::AnyFrame;
use extended_contents::LongFrame;
use omci_contents::{push_bytes, push_hex, push_kind_text, push_number, push_tci, push_text};
use omci_core::NoMemory;
use omci_types::EntityId;
use std::alloc::Global;

// Appends the hex digits of some bytes, or a dash where there are none.
fn push_hex_or_dash(out: &mut Vec<u8>, bytes: &[u8]) -> Result<(), NoMemory>
    ensures text { OnOk result (out.new.items ≡ out.old.items ++ hex_or_dash bytes.now) }
    ensures front { IsFront out.old.items out.new.items }
{
    if bytes.is_empty() {
        push_bytes(out, b"-")
    } else {
        push_hex(out, bytes)
    }
}

// Appends the text of an extended frame with these fields.
#[tactic(auto, unfolding(extended_spec::specs::Text::long_text))]
pub(crate) fn push_fields(
    out: &mut Vec<u8>,
    tci: u16,
    kind: u8,
    entity: EntityId,
    contents: &[u8],
) -> Result<(), NoMemory>
    ensures text { OnOk result (out.new.items ≡ out.old.items
        ++ long_text (record {
          tci = tci;
          kind = kind;
          entity = entity;
          contents = contents.now;
        })) }
    ensures front { IsFront out.old.items out.new.items }
{
    push_tci(out, tci)?;
    push_bytes(out, b" 0b ")?;
    push_kind_text(out, kind)?;
    push_bytes(out, b" ")?;
    push_number(out, entity.class as u64)?;
    push_bytes(out, b" ")?;
    push_number(out, entity.instance as u64)?;
    push_bytes(out, b" ")?;
    push_hex_or_dash(out, contents)?;
    Ok(())
}

// Appends the text of an extended frame.
fn push_long_text(out: &mut Vec<u8>, frame: &LongFrame) -> Result<(), NoMemory>
    ensures text { OnOk result (out.new.items ≡ out.old.items ++ long_text frame.now) }
    ensures front { IsFront out.old.items out.new.items }
{
    let contents = frame.contents();
    push_fields(out, frame.tci(), frame.kind(), frame.entity(), contents)
}

/// Appends the text of a frame of either set: as of a baseline frame, and of an extended one with
/// the device `0b` and all bytes of its contents in hex, or `-` where there are none.
///
/// `NoMemory` where `out` can't grow; it then still begins with what it held. No other memory is
/// taken.
pub fn push_text_any(out: &mut Vec<u8>, frame: &AnyFrame) -> Result<(), NoMemory>
    ensures text { OnOk result (out.new.items ≡ out.old.items ++ any_text (any_in frame.now)) }
    ensures front { IsFront out.old.items out.new.items }
{
    match frame {
        AnyFrame::Short(frame) => push_text(out, frame),
        AnyFrame::Long(frame) => push_long_text(out, frame),
    }
}

/// The text of a frame of either set, as [`push_text_any`] appends it.
pub fn text_any(alloc: Global, frame: &AnyFrame) -> Result<Vec<u8>, NoMemory>
    ensures value { IfOk result (λ text. text.items ≡ any_text (any_in frame.now)) }
{
    let mut out = Vec::new(alloc);
    push_text_any(&mut out, frame)?;
    Ok(out)
}
