//! What comes on a link: as a link answers it, and as a link in memory holds it.

use omci_core::Packet;

/// What came on a link.
#[derive(Clone, Copy, Debug, PartialEq, Eq)]
pub enum Arrival {
    /// A packet: so many bytes at the buffer's front, at most 1,980.
    Packet(usize),
    /// A second in which no packet came.
    Quiet,
    /// The link's end: nothing more comes.
    Closed,
}

/// What is to come on a link in memory.
#[derive(Debug, Drop)]
pub enum MemArrival {
    /// This packet.
    Packet(Packet),
    /// A second in which no packet comes.
    Quiet,
    /// The link's end.
    Closed,
}
