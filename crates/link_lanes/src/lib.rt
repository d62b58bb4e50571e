//! The link between the two ends: the packets that were sent over it, and how far the deliveries of
//! each direction and lane have come. The last 16,384 packets are held, and no list of all. Only
//! [`Lanes::new`] takes memory.
#![tactic(auto)]

mod fresh;
mod lanes;
mod latest;
mod ways;

pub use lanes::Lanes;
pub use omci_core::{NoMemory, Packet};
