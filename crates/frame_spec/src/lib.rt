//! What a baseline frame of ITU-T G.988 is: its check value, its one spelling, and the faults of
//! bytes that spell none. The widths and limits of packets and TCIs stand here too. The crate has
//! definitions, constants and a plain type alone.
#![tactic(auto)]

/// The bytes of a baseline frame.
pub const FRAME_BYTES: usize = 48;

/// The first of them, of which the check value is taken.
pub const CHECKED_BYTES: usize = 44;

/// The bytes of a baseline frame's contents, bytes 9 to 40.
pub const CONTENTS_BYTES: usize = 32;

/// Byte 4 of a baseline frame: the device identifier of the baseline message set.
pub const BASELINE_DEVICE: u8 = 0x0a;

/// Bytes 41 to 44 of a baseline frame.
pub const BASELINE_TRAILER: [u8; 4] = [0, 0, 0, 0x28];

/// The most bytes of a packet: so many has the longest extended frame.
pub const MAX_PACKET_BYTES: usize = 1_980;

/// The lowest TCI of high priority. Its other 15 bits are the command's number.
pub const FIRST_HIGH_TCI: u16 = 0x8000;

/// The last number of a command of either priority; the first is 1, and the number after the last
/// is 1 again.
pub const LAST_NUMBER: u16 = 32_767;

/// Why bytes don't begin with a baseline frame. Bytes are numbered from 1, as ITU-T G.988 numbers
/// them.
#[derive(Clone, Copy, Debug, PartialEq, Eq)]
pub enum FrameFault {
    /// Byte 4, the device identifier, isn't `0x0A`.
    Device { byte: u8 },
    /// There are fewer than 48 bytes: so many.
    Short { have: usize },
    /// Bytes 41 to 44 aren't `00 00 00 28`.
    Trailer { bytes: [u8; 4] },
    /// The check value in bytes 45 to 48 isn't that of bytes 1 to 44.
    Check { given: u32, computed: u32 },
}
