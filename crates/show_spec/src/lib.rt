//! What the commands `show` and `check` say of a stream of frames of both message sets: the lines
//! of its frames, the frames that are refused, and the reason where the stream has a fault. The
//! crate has definitions and constants alone.
#![tactic(auto)]

/// Why a stream is refused: byte 4 of a frame is the device of no message set.
pub const DEVICE_REASON: u8 = 11;

/// Why a stream is refused: it ends within a frame.
pub const SHORT_REASON: u8 = 12;

/// Why a stream is refused: bytes 41 to 44 of a baseline frame aren't `00 00 00 28`.
pub const TRAILER_REASON: u8 = 13;

/// Why a stream is refused: a frame's check value isn't that of the bytes before it.
pub const CHECK_REASON: u8 = 14;

/// Why a stream is refused: an extended frame gives more than 1,966 contents bytes.
pub const LENGTH_REASON: u8 = 15;

/// Why `check` refuses a frame: the contents end before the message's fields do.
pub const CONTENTS_REASON: u8 = 16;

/// Why `check` refuses a frame: the high three bits of the type byte are those of no message of its
/// type.
pub const BITS_REASON: u8 = 22;
