//! The pieces in which a unit's database is uploaded, the copy that a manager gathers from them,
//! and what its commands do to that copy. The crate has types and definitions alone.
#![tactic(auto)]

use omci_types::EntityId;

/// The bytes of values that a piece carries, after its class, its instance and its mask.
pub const PIECE_ROOM: usize = 26;

/// The bytes of a piece.
pub const PIECE_BYTES: usize = 32;

/// Why a piece was not added to a gathering. The first fault that holds, in this order.
#[derive(Clone, Copy, Debug, PartialEq, Eq)]
pub enum PieceFault {
    /// All of its bytes are zero: the unit has no such piece.
    Empty,
    /// Its class isn't in the class table.
    ClassUnknown { class: u16 },
    /// The known attributes of its mask need more bytes than a piece carries.
    Truncated { entity: EntityId },
    /// An earlier piece gave this attribute; it is the least such.
    Repeated { entity: EntityId, attribute: u8 },
}
