//! Alarms: what the unit holds of them, the notices that it sends, and the table that the manager
//! keeps by those notices and by audits. The crate has types and definitions alone.
#![tactic(auto)]

use omci_types::EntityId;

/// The bytes of an entity's bitmap. Alarm 0 is the highest bit of the first byte.
pub const BITMAP_BYTES: usize = 28;

/// The bytes of a row of the unit's snapshot: class, instance and bitmap.
pub const ROW_BYTES: usize = 32;

/// The number of the last notice before the next is 1 again.
pub const LAST_ALARM_NUMBER: u8 = 255;

/// So many notices wait while rows are gathered, and no more.
pub const MOST_WAITING: usize = 255;

/// What the manager makes of an alarm notice. They are tested in this order.
#[derive(Clone, Copy, Debug, PartialEq, Eq)]
pub enum TakenAlarm {
    /// The table isn't audited, and the notice is let go.
    Unaudited,
    /// The notice that was taken last has come again. Nothing changes.
    Repeat,
    /// Another number was wanted: a notice was lost. The table is unaudited from then on.
    Gap { want: u8, have: u8 },
    /// Rows are gathered, and no further notice may wait. The table is unaudited from then on.
    Overflow,
    /// The notice is in the table, or waits until the rows are gathered.
    Taken,
}

/// Why a row is not gathered. They are tested in this order.
#[derive(Clone, Copy, Debug, PartialEq, Eq)]
pub enum BadRow {
    /// All of its bytes are zero: the unit has no such row.
    Empty,
    /// An earlier row was of this entity.
    Repeated { entity: EntityId },
}
