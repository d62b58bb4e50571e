//! The search for an entity among entries in ascending order.

ghost use Rattle.std.specs.Prelude.{◌≡◌, ◌<◌, ◌≤◌, length, IfOk, IfErr};
ghost use Rattle.mib_store.specs.Entries.{keys_of, IsAscending, IsAt, IsGap, entry_at};

use crate::entry::Entry;
use class_spec::ONU_DATA;
use omci_types::EntityId;
use placed_list::PlacedList;
use std::cmp::Ordering;

/// A place from `low` on and below `high` where a search for the entity looks next: the lowest one
/// for ONU data, which comes before all other entities, and else the one in the middle.
#[inline(always)]
pub fn place_between(low: usize, high: usize, entity: EntityId) -> usize
    requires { low < high }
    ensures from { low ≤ result }
    ensures below { result < high }
{
    if entity == ONU_DATA {
        low
    } else {
        low + (high - low) / 2
    }
}

/// The place of the entity, or where it would go.
pub(crate) fn find_in(entries: &PlacedList<Entry>, entity: EntityId) -> Result<usize, usize>
    requires { IsAscending (keys_of entries.now) }
    ensures found { IfOk result (IsAt entries.now entity) }
    ensures absent { IfErr result (IsGap entries.now entity) }
{
    let mut low = 0;
    let mut high = entries.len();
    while low < high {
        let middle = place_between(low, high, entity);
        match entry_in(entries, middle).entity.cmp(&entity) {
            Ordering::Less => low = middle + 1,
            Ordering::Equal => return Ok(middle),
            Ordering::Greater => high = middle,
        }
    }
    Err(low)
}

/// The entry in this place.
pub(crate) fn entry_in(entries: &PlacedList<Entry>, at: usize) -> &Entry
    requires { at < length entries.now }
    ensures { result.now ≡ entry_at entries.now at }
{
    entries.get(at)
}
