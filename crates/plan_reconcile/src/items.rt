//! The wanted entities, in ascending order.

ghost use Rattle.std.specs.Prelude.{◌≡◌, ◌<◌, length, IfOk, IfErr};
ghost use Rattle.mib_store.specs.Entries.{IsAscending};
ghost use Rattle.plan_reconcile.specs.Items.{keys_of, IsAt, IsGap, item_at};

use class_spec::WIDEST_CLASS;
use mib_store::place_between;
use omci_attributes::Mask;
use omci_types::EntityId;
use placed_list::PlacedList;
use std::cmp::Ordering;

/// The bytes of the values of a wanted entity.
pub(crate) const ROOM: usize = WIDEST_CLASS;

/// A wanted entity: the attributes that are named, and their values one after the other in
/// attribute order, with zeros after them.
#[derive(Clone, Copy, Debug)]
pub(crate) struct Item {
    pub(crate) entity: EntityId,
    pub(crate) mask: Mask,
    pub(crate) values: [u8; ROOM],
}

/// The place of the entity, or the place where it would go.
pub(crate) fn find(items: &PlacedList<Item>, entity: EntityId) -> Result<usize, usize>
    requires { IsAscending (keys_of items.now) }
    ensures found { IfOk result (IsAt items.now entity) }
    ensures absent { IfErr result (IsGap items.now entity) }
{
    let mut low = 0;
    let mut high = items.len();
    while low < high {
        let middle = place_between(low, high, entity);
        match item_at(items, middle).entity.cmp(&entity) {
            Ordering::Less => low = middle + 1,
            Ordering::Equal => return Ok(middle),
            Ordering::Greater => high = middle,
        }
    }
    Err(low)
}

/// The item in this place.
pub(crate) fn item_at(items: &PlacedList<Item>, at: usize) -> &Item
    requires { at < length items.now }
    ensures { result.now ≡ item_at items.now at }
{
    items.get(at)
}
