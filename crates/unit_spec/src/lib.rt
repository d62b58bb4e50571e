//! What the unit (the ONU end) is, and what it does with a packet and with a second. Plain types
//! and definitions alone.
#![tactic(auto)]

use omci_types::{Boot, EntityId};

/// ONU-G, the unit as a whole: a reboot names it.
pub const ONU_G: EntityId = EntityId {
    class: 256,
    instance: 0,
};

/// So many seconds after it was taken, or last asked for a piece, a snapshot is dropped.
pub const SNAPSHOT_SECONDS: u8 = 60;

/// What else is told of a request that the unit carried out.
#[derive(Clone, Copy, Debug, PartialEq, Eq)]
pub enum Note {
    /// The unit put its database by for an upload: so many entities, with this counter.
    Snapshot { entities: u16, counter: u8 },
    /// The unit put its alarms by for an audit: so many rows.
    Alarms { rows: u16 },
    /// A download ended, and its slot holds an image of so many bytes with this check value.
    Sealed { slot: u8, length: u32, crc: u32 },
    /// The slot was committed.
    Committed { slot: u8 },
    /// The unit leaves, to start again so with the next second.
    Leaving { boot: Boot },
}

/// What became of a value or of alarms that the unit noticed by itself.
#[derive(Clone, Copy, Debug, PartialEq, Eq)]
pub enum Noticed {
    /// The entity or the attribute takes none, and nothing has changed.
    NotAllowed,
    /// They are held already, and nothing has changed.
    Same,
    /// They are held now, and a notice tells it.
    Sent,
}

/// What the unit did with a packet.
#[derive(Clone, Copy, Debug, PartialEq, Eq)]
pub enum Did {
    /// It asks nothing of the unit, and nothing was done.
    Dropped,
    /// It is a section of an image that isn't its window's last, and is held.
    Held,
    /// It is the request last carried out in its priority: the kept reply was given again.
    Kept,
    /// It is a request, and was carried out.
    Carried { note: Option<Note> },
}
