//! Counters that are kept by intervals of 900 ticks, after the performance monitoring of ITU-T
//! G.988, clause I.4: what the counters, the interval's number and the replies are after a list of
//! events. The monitor's class is this project's own. The crate has types and definitions alone.
#![tactic(auto)]

/// The class of the monitors.
pub const MONITOR_CLASS: u16 = 24;

/// The class of the entity that takes a synchronize time: ONU-G.
pub const ONU_CLASS: u16 = 256;

/// The first instance that a monitor may have.
pub const FIRST_MONITOR: u16 = 257;

/// So many instances may a monitor have.
pub const MONITORS: usize = 4;

/// The first attribute that is a counter.
pub const FIRST_COUNTER: u8 = 3;

/// So many counters does a monitor have.
pub const COUNTERS: usize = 14;

/// So many attributes does a monitor have.
pub const ATTRIBUTES: u8 = 16;

/// An interval has so many ticks.
pub const INTERVAL_TICKS: u16 = 900;

/// A reply to a get has room for values of so many bytes.
pub const VALUE_BYTES: usize = 25;

/// Type byte of a create: AR and type 4.
pub const CREATE: u8 = 0x44;

/// Type byte of a delete: AR and type 6.
pub const DELETE: u8 = 0x46;

/// Type byte of a get: AR and type 9.
pub const GET: u8 = 0x49;

/// Type byte of a synchronize time: AR and type 24.
pub const SYNCHRONIZE_TIME: u8 = 0x58;

/// Type byte of a get current data: AR and type 28.
pub const GET_CURRENT_DATA: u8 = 0x5c;

/// A reply's type byte is so much less than its request's: AK in place of AR.
pub const REPLY_STEP: u8 = 0x20;

/// What a request asks of the monitors.
#[derive(Clone, Copy, Debug, PartialEq, Eq)]
pub enum Command {
    /// A monitor is made.
    Create,
    /// A monitor is removed.
    Delete,
    /// The counts of the interval that is over are read.
    Get,
    /// The counts of the interval that runs are read.
    GetCurrent,
    /// A new interval is begun, and intervals are numbered from 0 again.
    SynchronizeTime,
}

/// What a monitor holds.
#[derive(Clone, Copy, Debug, PartialEq, Eq)]
pub struct Monitor {
    /// The number of the interval that is over.
    pub number: u8,
    /// Attribute 2, which the create sets.
    pub setting: [u8; 2],
    /// The counts since the last mark.
    pub running: [u32; 14],
    /// The counts of the interval that is over.
    pub finished: [u32; 14],
}

/// What became of a count.
#[derive(Clone, Copy, Debug, PartialEq, Eq)]
pub enum Counted {
    /// There is no such monitor or no such counter.
    Absent,
    /// It is added.
    Added,
}
