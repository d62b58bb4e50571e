//! What an extended frame is and how its contents are laid out, and what a stream of frames of both
//! message sets is. The crate has definitions, constants and plain types alone.
//!
//! The layout of extended frames is this project's profile of ITU-T G.988, clause 11.2: bytes 1 and
//! 2 TCI, byte 3 the type byte, byte 4 the device `0B`, bytes 5 to 8 class and instance, bytes 9
//! and 10 the number of contents bytes, then the contents, then the check value of all before it.
#![tactic(auto)]

/// Byte 4 of an extended frame: the device identifier of the extended message set.
pub const EXTENDED_DEVICE: u8 = 0x0b;

/// The bytes of an extended frame before its contents.
pub const HEADER_BYTES: usize = 10;

/// The bytes of the check value after the contents.
pub const CHECK_BYTES: usize = 4;

/// The most contents bytes of an extended frame.
pub const MAX_LONG_CONTENTS: usize = 1_966;

/// The bytes of an alarm bitmap.
pub const BITMAP_BYTES: usize = 28;

/// The bytes of an alarm row: class and instance with 2 each, and the bitmap.
pub const ROW_BYTES: usize = 32;

/// The bytes of a piece of the database before its values: their width, class, instance and mask,
/// with 2 each.
pub const PIECE_HEADER_BYTES: usize = 8;

/// Why bytes don't begin with a frame of either message set. Bytes are numbered from 1.
#[derive(Clone, Copy, Debug, PartialEq, Eq)]
pub enum AnyFault {
    /// Byte 4, the device identifier, is neither `0x0A` nor `0x0B`.
    Device { byte: u8 },
    /// The frame isn't whole: there are so many bytes.
    Short { have: usize },
    /// Bytes 41 to 44 of a baseline frame aren't `00 00 00 28`.
    Trailer { bytes: [u8; 4] },
    /// The check value at the frame's end isn't that of the bytes before it.
    Check { given: u32, computed: u32 },
    /// Bytes 9 and 10 of an extended frame give more than 1,966 contents bytes.
    Length { given: u16 },
    /// There was no memory for the contents of an extended frame.
    NoMemory,
}

/// Why a stream of frames of both sets ends with bytes that are no frame.
#[derive(Clone, Copy, Debug, PartialEq, Eq)]
pub struct AnyStreamFault {
    /// The place in the stream, from 0, of the first byte held.
    pub at: u64,
    /// What is wrong there: the fault that the bytes held show, or how many of them there are. It
    /// is never want of memory.
    pub fault: AnyFault,
}

/// Why an extended frame is no message.
#[derive(Clone, Copy, Debug, PartialEq, Eq)]
pub enum LongFault {
    /// The low five bits of the type byte are the number of no message.
    UnknownType { number: u8 },
    /// The high three bits of this type byte are not those of a message of its type.
    Bits { kind: u8 },
    /// The contents have `have` bytes, and end before the message's fields do, which need `need`.
    ContentsShort { have: usize, need: usize },
    /// There was no memory for what the message holds.
    NoMemory,
}
