//! What an end that runs alone talks over: a link that gives packets, quiet seconds and its end,
//! and takes packets. Beside the trait stand a link in memory, whose failing calls are chosen when
//! it is made, and one over UDP.
#![tactic(auto)]

mod arrival;
mod link;
mod memory;
mod udp;

pub use arrival::{Arrival, MemArrival};
pub use link::Link;
pub use memory::MemLink;
pub use omci_core::{Failed, MAX_PACKET_BYTES, NoMemory, Packet};
pub use udp::UdpLink;
