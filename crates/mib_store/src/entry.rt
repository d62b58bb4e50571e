//! What the table holds of an entity.

use class_spec::WIDEST_CLASS;
use omci_types::EntityId;

/// The bytes of an entry's values.
pub(crate) const ROOM: usize = WIDEST_CLASS;

/// An entity, and the values of its attributes one after the other in attribute order, with zeros
/// after them.
#[derive(Clone, Copy, Debug)]
pub(crate) struct Entry {
    pub(crate) entity: EntityId,
    pub(crate) values: [u8; ROOM],
}
