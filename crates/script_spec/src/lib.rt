//! What scripts and orders are: one table of their lines, what each line asks for, the grammar of
//! their bytes, and the first fault of bytes that are none. The crate has definitions, two plain
//! types and the limits.
#![tactic(auto)]

/// The kinds of lines, one for each row of the table.
#[derive(Clone, Copy, Debug, PartialEq, Eq)]
pub enum Line {
    Probe,
    Reset,
    Get,
    Create,
    Set,
    Delete,
    Activate,
    Commit,
    Reboot,
    Resync,
    Audit,
    Check,
    Image,
    Deliver,
    Flow,
    CutIn,
    NoiseUnit,
    NoiseOlt,
    Tick,
    Sense,
    Alarm,
    CutUnit,
    CutOlt,
    StartUnit,
    StartOlt,
}

/// What is read from a header to its last line.
#[derive(Clone, Copy, Debug, PartialEq, Eq)]
pub enum Document {
    /// A script: what both ends do, and what happens to the packets between them.
    Script,
    /// Orders: what the manager does.
    Orders,
}

/// The most bytes of a script.
pub const MAX_SCRIPT: usize = 16_777_216;
/// The most digits of a number.
pub const MAX_DIGITS: usize = 18;
/// The largest number of `MAX_DIGITS` digits: the last packet that a line may name.
pub const LAST_PACKET: u64 = 999_999_999_999_999_999;
/// The largest class, and the largest instance.
pub const MAX_ID: u64 = 65_535;
/// The largest mask.
pub const MAX_MASK: u64 = 65_535;
/// The most bytes of values that a create has.
pub const MAX_CREATE: usize = 32;
/// The most bytes of values that a set has.
pub const MAX_SET: usize = 30;
/// The largest number of an attribute.
pub const MAX_ATTRIBUTE: u64 = 16;
/// The most bytes of a measured value.
pub const MAX_SENSED: usize = 25;
/// The most bytes of an entity's alarms.
pub const MAX_BITMAP: usize = 28;
/// The largest number of an image slot.
pub const MAX_SLOT: u64 = 1;
/// The most sections that a download asks for in a window.
pub const MAX_ASKED: u64 = 256;
/// The most bytes of an image that the manager downloads.
pub const MAX_IMAGE: usize = 16_777_216;
/// The most packets that one line lets flow.
pub const MAX_FLOW: u64 = 65_536;
/// The last device call at which a line cuts the power.
pub const MAX_CALL: u64 = 1_000;
/// The most bytes of a line's noise.
pub const MAX_NOISE: usize = 4_096;
/// The most bytes that an image slot has room for.
pub const MAX_ROOM: u64 = 1_048_576;

/// The reason of a word that is unknown, missing or one too many.
pub const WORD_FAULT: u8 = 1;
/// The reason of a number that is malformed or out of range.
pub const NUMBER_FAULT: u8 = 2;
/// The reason of hex that is malformed or of a length that isn't allowed.
pub const HEX_FAULT: u8 = 3;
/// The reason of a header that is missing or has any fault.
pub const HEADER_FAULT: u8 = 4;
/// The reason of noise that decodes as a frame of either message set.
pub const NOISE_FAULT: u8 = 5;
