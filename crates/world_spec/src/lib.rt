//! The machine of both ends over the link, its trace, and its history. Plain types and definitions
//! alone.
#![tactic(auto)]

use link_spec::Direction;
use manager_spec::{Refusal, Report};
use omci_types::{Frame, Software};
use unit_spec::Note;

/// What is seen of the machine. Each is a line of the trace.
#[derive(Clone, Copy, Debug, PartialEq, Eq)]
pub enum Effect {
    /// The unit starts its so-manieth life with this software.
    UnitStarted {
        life: u64,
        software: Software,
    },
    /// A packet goes onto the link under that number.
    PacketSent {
        number: u64,
        direction: Direction,
        frame: Frame,
    },
    /// The unit carried a request out, in that life.
    Carried {
        life: u64,
    },
    /// What else is told of the request that the unit carried out.
    Noted(Note),
    /// The unit gave its kept reply again.
    Kept,
    /// The unit holds a section that isn't its window's last.
    Held,
    /// The unit did nothing with a packet.
    Dropped,
    /// The power of the unit went while a packet came.
    Cut,
    /// The manager did not submit a command.
    Refused(Refusal),
    /// The manager reports something.
    Reported(Report),
    /// The line asks for what can't happen now.
    NotEnabled,
}
