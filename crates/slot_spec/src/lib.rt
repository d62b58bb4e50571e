//! The two image slots of a unit: what they hold, what a request makes of them, the bytes of a disk
//! that stand for them, and what a crash may leave of a disk. The crate has definitions and plain
//! types alone.
#![tactic(auto)]

use omci_types::SlotView;

/// The first 8 bytes of a disk of slots: `OMCISLT1`.
pub const MAGIC: [u8; 8] = [0x4f, 0x4d, 0x43, 0x49, 0x53, 0x4c, 0x54, 0x31];

/// Where the room of each slot stands, in 4 bytes.
pub const ROOM_PLACE: u64 = 8;

/// Where the commit byte stands. Its lowest bit is the committed slot.
pub const COMMIT_PLACE: u64 = 512;

/// Where the gate of slot 0 stands.
pub const FIRST_GATE: u64 = 1024;

/// Where the gate of slot 1 stands.
pub const SECOND_GATE: u64 = 1536;

/// The byte of an open gate. A gate with any other byte is closed.
pub const OPEN_GATE: u8 = 0xa5;

/// The byte that closes a gate.
pub const CLOSED_GATE: u8 = 0;

/// Where the entry of slot 0 stands: its image's length, check value and version.
pub const FIRST_ENTRY: u64 = 2048;

/// Where the entry of slot 1 stands.
pub const SECOND_ENTRY: u64 = 2560;

/// How many bytes an entry has.
pub const ENTRY_BYTES: usize = 22;

/// How many bytes of an image are its version.
pub const VERSION_BYTES: usize = 14;

/// How many bytes stand before the images: slot 0 begins there.
pub const HEADER_BYTES: u64 = 4096;

/// The most bytes that a slot may have room for.
pub const MAX_ROOM: u32 = 16_777_216;

/// What the first bytes of a disk say of a slot.
#[derive(Clone, Copy, Debug, PartialEq, Eq)]
pub struct SlotHeader {
    /// The gate is open.
    pub opened: bool,
    /// What the entry says, where the slot is valid: the gate is open and the length is in range.
    pub view: Option<SlotView>,
}

/// What the first bytes of a disk say of its slots.
#[derive(Clone, Copy, Debug, PartialEq, Eq)]
pub struct DiskHeader {
    /// How many bytes each slot has room for, 1 to [`MAX_ROOM`].
    pub room: u32,
    /// The committed slot, 0 or 1.
    pub committed: u8,
    pub first: SlotHeader,
    pub second: SlotHeader,
}

/// What a cut of the power gives to each byte that was written since the last sync.
#[derive(Clone, Copy, Debug, PartialEq, Eq)]
pub enum Pick {
    /// Its value at the last sync.
    Old,
    /// Its new value.
    New,
    /// This byte.
    Byte(u8),
}

/// What makes a call of a disk fail. Calls are counted from 1, from when the trap was set; a fuse
/// whose number is 0 was reached.
#[derive(Clone, Copy, Debug, PartialEq, Eq)]
pub enum Trap {
    /// The power stops at this call, and each later call fails.
    Fuse { call: u64, pick: Pick },
    /// This call alone fails, with nothing done.
    Fail { call: u64 },
    /// No call fails.
    Clear,
}
