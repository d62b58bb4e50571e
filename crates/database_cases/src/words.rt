//! Words of a line.

use case_lines::{NoMemory, array_of, hex_of, u16_of};
use mib_store::Mask;
use omci_types::{EntityId, SlotView, Software};
use std::alloc::Global;

pub(crate) fn say(alloc: Global, text: &str) -> Result<String, NoMemory> {
    Ok(String::from_str(alloc, text)?)
}

/// A mask of attributes, in four hexadecimal digits.
pub(crate) fn mask_of(word: &str) -> Mask {
    Mask(u16::from_be_bytes(array_of(word)))
}

/// The digits of a mask.
pub(crate) fn mask_text(alloc: Global, mask: Mask) -> Result<String, NoMemory> {
    hex_of(alloc, &mask.0.to_be_bytes())
}

/// The entity that two words name.
pub(crate) fn entity_of(class: &str, instance: &str) -> EntityId {
    EntityId {
        class: u16_of(class),
        instance: u16_of(instance),
    }
}

/// An image by its version, and none by `-`.
fn image_of(word: &str) -> Option<SlotView> {
    if word == "-" {
        return None;
    }
    Some(SlotView {
        length: 1,
        crc: 0xff,
        version: array_of(word),
    })
}

/// Two images by their versions, and which of them is committed and which active.
pub(crate) fn software_of(first: &str, second: &str, committed: u8, active: u8) -> Software {
    Software {
        first: image_of(first),
        second: image_of(second),
        committed,
        active,
    }
}
