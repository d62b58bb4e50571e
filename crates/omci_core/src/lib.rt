//! What every part of the OMCI channel stands on: its small types, the byte sources and sinks of
//! the outside, and their forms in memory and over std.
#![tactic(auto)]

ghost use Rattle.std.specs.Prelude.{◌≡◌, ◌≢◌, ◌<◌, ◌≤◌};
ghost use Rattle.tci_spec.specs.Tci.{number_after, priority_of};

mod adapters;
mod arrays;
mod bytes;
mod errors;
mod memory;
mod outside;
mod packet;
mod words;

pub use adapters::{StdSink, StdSource};
pub use arrays::{filled, front_filled, put_at};
pub use bytes::Bytes;
pub use errors::{Failed, NoMemory};
pub use frame_spec::{FIRST_HIGH_TCI, LAST_NUMBER, MAX_PACKET_BYTES};
pub use memory::{MemSink, MemSource};
pub use omci_types::{Boot, Code, EntityId, Priority, SlotView, Software};
pub use outside::{Sink, Source};
pub use packet::{Packet, Packets};
pub use words::Words;

/// The number of the next command of a priority. Numbers run from 1 to 32,767 and begin again at 1.
pub fn next_number(n: u16) -> u16
    requires low { 0 < n }
    requires high { n ≤ LAST_NUMBER }
    ensures value { result ≡ number_after n }
    ensures low { 0 < result }
    ensures high { result ≤ LAST_NUMBER }
    ensures differs { result ≢ n }
{
    if n == LAST_NUMBER { 1 } else { n + 1 }
}

/// The priority of a TCI: high exactly where its top bit is set (ITU-T G.988, clause 11.2.2).
pub fn priority_of(tci: u16) -> Priority
    ensures value { result ≡ priority_of tci }
{
    if tci < FIRST_HIGH_TCI {
        Priority::Low
    } else {
        Priority::High
    }
}
