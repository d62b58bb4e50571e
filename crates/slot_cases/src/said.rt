//! What calls of a disk of slots answer.

use case_lines::{NoMemory, hex_of, short_hex_of};
use image_slots::SlotView;
use std::alloc::Global;

/// An answer, without the state that comes with it.
#[derive(Clone, Copy)]
pub(crate) enum Said {
    Done,
    /// There is no such call, or none of what is there.
    Absent,
    /// A device call failed.
    Fault,
    InUse,
    NotValid,
    /// A download's or an image's size, and the room.
    Size {
        size: u64,
        room: u32,
    },
    Past {
        have: u32,
        size: u32,
        more: u64,
    },
    /// How many bytes of the image are there, and how many were given.
    Short {
        have: u32,
        given: u32,
    },
    Check {
        computed: u32,
        given: u32,
    },
    NoUnit {
        length: u64,
        magic: [u8; 8],
        room: u32,
    },
    NoImage {
        slot: u8,
        gate: u8,
        size: u32,
    },
}

pub(crate) fn say(alloc: Global, text: &str) -> Result<String, NoMemory> {
    Ok(String::from_str(alloc, text)?)
}

impl Said {
    /// Its text.
    pub(crate) fn text(self, alloc: Global) -> Result<String, NoMemory> {
        match self {
            Said::Done => say(alloc, "done"),
            Said::Absent => say(alloc, "no such call here"),
            Said::Fault => say(alloc, "fault"),
            Said::InUse => say(alloc, "in use"),
            Said::NotValid => say(alloc, "not valid"),
            Said::Size { size, room } => Ok(format!(in alloc; "size {size} {room}")?),
            Said::Past { have, size, more } => Ok(format!(in alloc; "past {have} {size} {more}")?),
            Said::Short { have, given } => Ok(format!(in alloc; "short {have} {given}")?),
            Said::Check { computed, given } => check_text(alloc, computed, given),
            Said::NoUnit {
                length,
                magic,
                room,
            } => unit_text(alloc, length, &magic, room),
            Said::NoImage { slot, gate, size } => {
                Ok(format!(in alloc; "no image {slot} {gate} {size}")?)
            }
        }
    }
}

fn check_text(alloc: Global, computed: u32, given: u32) -> Result<String, NoMemory> {
    let computed = hex_of(alloc, &computed.to_be_bytes())?;
    let given = hex_of(alloc, &given.to_be_bytes())?;
    Ok(format!(in alloc; "check {computed} {given}")?)
}

fn unit_text(alloc: Global, length: u64, magic: &[u8; 8], room: u32) -> Result<String, NoMemory> {
    let magic = hex_of(alloc, magic)?;
    Ok(format!(in alloc; "no unit {length} {magic} {room}")?)
}

/// An image's length, check value and version, `-` where there is none.
pub(crate) fn view_text(alloc: Global, view: Option<SlotView>) -> Result<String, NoMemory> {
    let Some(view) = view else {
        return say(alloc, "-");
    };
    let length = view.length;
    let crc = hex_of(alloc, &view.crc.to_be_bytes())?;
    let version = short_hex_of(alloc, &view.version)?;
    Ok(format!(in alloc; "{length} {crc} {version}")?)
}
