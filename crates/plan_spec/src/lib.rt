//! How a unit's database is led to one that is wanted: what is wanted, the steps of the plan, and
//! what carrying them out must reach. The crate has types and definitions alone.
#![tactic(auto)]

use omci_types::EntityId;

/// Why something wanted was not added. The first fault that holds, in this order.
#[derive(Clone, Copy, Debug, PartialEq, Eq)]
pub enum WantedFault {
    /// The class isn't in the class table, or is ONU data, whose one attribute is the counter.
    ClassUnknown,
    /// Of the named attributes, those that the class doesn't have or that may not be written.
    NotWritable { mask: u16 },
    /// The named attributes need so many bytes, and there are others.
    Width { need: usize, have: usize },
    /// The entity was added before.
    Repeated,
}

/// Why there is no plan. The first fault that holds, in this order.
#[derive(Clone, Copy, Debug, PartialEq, Eq)]
pub enum PlanFault {
    /// This entity is wanted and only the unit can make it, and the copy doesn't have it; it is the
    /// least such.
    NotMade { entity: EntityId },
    /// So many entities would stand, more than a database has.
    TooMany { count: usize },
}

/// The number of the fault that a class is unknown.
pub const CLASS_UNKNOWN: u8 = 31;

/// The number of the fault that an attribute may not be written.
pub const NOT_WRITABLE: u8 = 32;

/// The number of the fault that the values have another width.
pub const WIDTH: u8 = 33;

/// The number of the fault that an entity comes twice.
pub const REPEATED: u8 = 34;

/// The number of the fault that only the unit can make a wanted entity.
pub const NOT_MADE: u8 = 35;

/// The number of the fault that too many entities would stand.
pub const TOO_MANY: u8 = 36;
