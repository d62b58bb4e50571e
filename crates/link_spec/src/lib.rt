//! The link between the two ends: the packets that were sent over it, and how far the deliveries
//! have come. Plain types and definitions alone.
#![tactic(auto)]

/// A packet is forgotten once so many were sent after it.
pub const WINDOW: u64 = 16_384;

/// The way of a packet over the link.
#[derive(Clone, Copy, Debug, PartialEq, Eq)]
pub enum Direction {
    /// From the manager to the unit.
    Down,
    /// From the unit to the manager.
    Up,
}

/// How far the deliveries of one direction and lane have come, in numbers of packets.
#[derive(Clone, Copy, Debug, PartialEq, Eq)]
pub struct Way {
    /// No packet below it is delivered any more.
    pub floor: u64,
    /// No packet below it is fresh.
    pub mark: u64,
}
