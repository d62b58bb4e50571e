//! The managed entity classes of this profile, the masks of their attributes, and the limits of
//! both. The crate has types and definitions alone.
#![tactic(auto)]

use omci_types::EntityId;

/// Who makes the instances of a class (ITU-T G.988, clause 9): the unit by itself, or the manager
/// by a create.
#[derive(Clone, Copy, Debug, PartialEq, Eq)]
pub enum Maker {
    /// The unit, when it starts. The manager can neither create nor delete such an instance.
    Unit,
    /// The manager, by a create.
    Manager,
}

/// No class has more attributes.
pub const MOST_ATTRIBUTES: u8 = 13;

/// The bytes of the widest attribute.
pub const WIDEST_ATTRIBUTE: usize = 25;

/// The bytes that the values of the widest class have together.
pub const WIDEST_CLASS: usize = 45;

/// The bytes of values that a baseline create carries.
pub const CREATE_ROOM: usize = 32;

/// The bytes of values that a baseline set carries.
pub const SET_ROOM: usize = 30;

/// The bytes of values that a baseline response to a get carries.
pub const GET_ROOM: usize = 25;

/// ONU data, the one instance of its class. Its attribute 1, MIB data sync, is the counter of the
/// unit's database.
pub const ONU_DATA: EntityId = EntityId {
    class: 2,
    instance: 0,
};
