//! The check of a capture: the packets between an OLT and a unit, in the order in which they were
//! seen, are tested for what ITU-T G.988, clause 11.2.2 asks of repeated commands: that they are
//! answered once. What a run of requests is, which line breaks the rule, what a capture's text says
//! and what is written of it. The crate has types, constants and definitions alone.
#![tactic(auto)]

use omci_types::Frame;

/// The bit of a type byte that asks for a reply: AR.
pub const AR: u8 = 0x40;

/// The bit of a type byte that says that this is a reply: AK.
pub const AK: u8 = 0x20;

/// So many message types are there: the low five bits of a type byte tell which it is.
pub const TYPES: u8 = 32;

/// The type of a download section, the one request that may lack AR.
pub const SECTION: u8 = 20;

/// So many TCIs are there.
pub const TCIS: usize = 65_536;

/// The reason of a line whose 48 bytes don't decode as a baseline frame.
pub const FRAME_FAULT: u8 = 41;

/// The reason of a line whose frame can't go the way that the line says.
pub const WAY_FAULT: u8 = 42;

/// What a line of a capture has.
#[derive(Clone, Copy, Debug, PartialEq, Eq)]
pub enum CaptureItem {
    /// A frame went down to the unit.
    Down(Frame),
    /// A frame came up from the unit. One with TCI 0 is a notice and is passed over.
    Up(Frame),
    /// The unit started again.
    Start,
}

/// A line of a capture.
#[derive(Clone, Copy, Debug, PartialEq, Eq)]
pub struct CaptureLine {
    /// The line's number in its text.
    pub line: u64,
    pub item: CaptureItem,
}

/// What is wrong with a line.
#[derive(Clone, Copy, Debug, PartialEq, Eq)]
pub struct Breach {
    /// 1: a reply that nobody asked for. 2: a reply of another type or entity than was asked. 3: a
    /// second reply that differs from the first. 4: a request that differs from the first one with
    /// its TCI.
    pub kind: u8,
    /// The number of the line that it was compared with; 0 for kind 1.
    pub earlier: u64,
}

/// What the check of a capture says.
#[derive(Clone, Copy, Debug, PartialEq, Eq)]
pub enum Verdict {
    /// No line is a breach. There were so many runs of requests and so many replies.
    Ok { runs: u64, replies: u64 },
    /// The first line that is a breach, with the least of its kinds.
    Breach { line: u64, kind: u8, earlier: u64 },
}
