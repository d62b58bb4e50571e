//! The input and the output of a run of the interval counters (ITU-T G.988, clause I.4): lines of
//! requests, counts and ticks, the first fault of bytes that are none, and what is written of the
//! replies. The crate has types and definitions alone.
#![tactic(auto)]

use meter_spec::Command;

/// The greatest number that a line counts.
pub const MAX_COUNT: u64 = 4_294_967_295;

/// The most ticks that a line lets pass.
pub const MAX_TICKS: u64 = 1_000_000;

/// The words that a line may begin with.
#[derive(Clone, Copy, Debug, PartialEq, Eq)]
pub enum Word {
    Create,
    Delete,
    Get,
    Current,
    Sync,
    Count,
    Tick,
}

/// What a line asks for.
#[derive(Clone, Copy, Debug, PartialEq, Eq)]
pub enum MeterLine {
    /// A request is sent. Its mask is 0 where it has none; a synchronize time is sent to instance
    /// 0.
    Request {
        command: Command,
        instance: u16,
        mask: u16,
    },
    /// An instance's attribute is to grow by `n`.
    Count {
        instance: u16,
        attribute: u8,
        n: u32,
    },
    /// So many ticks pass.
    Pass {
        ticks: u32,
    },
}
