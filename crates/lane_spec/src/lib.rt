//! One lane of the manager: a command that waits for its reply, when it is sent again and when it
//! is given up. Plain types and definitions alone.
#![tactic(auto)]

/// A command of low priority is sent again when so many seconds have passed since it was last sent.
pub const LOW_TIMEOUT: u8 = 3;

/// A command of high priority is sent again when so many seconds have passed since it was last
/// sent.
pub const HIGH_TIMEOUT: u8 = 1;

/// A command is sent again so many times; the next timeout gives it up.
pub const MOST_REPEATS: u8 = 2;

/// What a second brings to a lane.
#[derive(Clone, Copy, Debug, PartialEq, Eq)]
pub enum LaneTick {
    /// Nothing is due.
    Quiet,
    /// The outstanding command is sent again.
    Repeat,
    /// The outstanding command, which had this TCI, is given up, and the lane is no longer proved.
    GaveUp { tci: u16 },
}

/// Why the manager sends a command, and so what becomes of its reply.
#[derive(Clone, Copy, Debug, PartialEq, Eq)]
pub enum Purpose {
    /// A probe: any frame under its TCI is its reply, and proves the lane.
    Probe,
    /// A caller submitted it, and gets its reply.
    Submission,
    /// It asks for the unit's counter, which is compared with the copy's.
    Check,
    /// The running job sent it.
    Job,
}
