//! Which entities of the copy are wanted, and where those stand that are wanted.

ghost use Rattle.std.specs.Prelude.{◌≡◌, ◌+◌, ◌∷◌, ◌&&◌, not, is_some, IfOk, IfErr, length};
ghost use Rattle.mib_spec.specs.Requests.{is_unit_made};
ghost use Rattle.mib_spec.specs.Database.{Values};
ghost use Rattle.plan_spec.specs.Steps.{stays};
ghost use Rattle.upload_spec.specs.Pieces.{Copy};
ghost use Rattle.mib_store.specs.Entries.{IsAscending};
ghost use Rattle.plan_reconcile.specs.Items.{keys_of, wanted_of};
ghost use Rattle.plan_reconcile.specs.Matched.{AreMatched, IsFirstNotMade, AreNew, places_of, places_from};

use crate::attributes::{if_so, is_unit_made};
use crate::items::{Item, find, item_at};
use mib_upload::MibCopy;
use omci_core::NoMemory;
use omci_types::EntityId;
use placed_list::PlacedList;
use std::alloc::Global;

/// How a copy and what is wanted stand to each other.
#[derive(Drop)]
pub(crate) struct Matches {
    /// The place in the copy of each wanted entity that is there.
    pub(crate) places: Vec<Option<usize>>,
    /// Whether the entity in each place of the copy stays, from the last one on.
    pub(crate) stays: Vec<bool>,
    /// How many stay.
    pub(crate) count: usize,
}

/// Looks for each entity of the copy among those that are wanted.
pub(crate) fn match_up(
    alloc: Global,
    have: &MibCopy,
    want: &PlacedList<Item>,
) -> Result<Matches, NoMemory>
    requires { IsAscending (keys_of want.now) }
    ensures { IfOk result (AreMatched have.now want.now) }
{
    let mut places = vec![in alloc; None; want.len()]?;
    let mut stays = vec![in alloc; false; have.len()]?;
    let mut count = 0;
    let mut place = have.len();
    while place > 0 {
        place -= 1;
        let stay = note(want, have.entry(place).entity, place, &mut places);
        stays[place] = stay;
        count += if_so(stay, 1);
    }
    Ok(Matches {
        places,
        stays,
        count,
    })
}

/// Notes the place of the entity where it is wanted. Whether it stays.
fn note(
    want: &PlacedList<Item>,
    entity: EntityId,
    place: usize,
    places: &mut Vec<Option<usize>>,
) -> bool
    requires ascending { IsAscending (keys_of want.now) }
    requires len { length places.old.items ≡ length want.now }
    ensures stays { result ≡ stays (wanted_of want.now) entity }
    ensures noted { (have : Copy) (values : Values)
        → places.old.items ≡ places_from want.now (place + 1) have
        → places.new.items ≡ places_from want.now place ((entity, values) ∷ have) }
    ensures len { length places.new.items ≡ length places.old.items }
{
    match find(want, entity) {
        Ok(at) => {
            places[at] = Some(place);
            true
        }
        Err(_) => is_unit_made(entity.class),
    }
}

/// How many wanted entities are new, or the first one that only the unit can make.
pub(crate) fn count_new(
    want: &PlacedList<Item>,
    places: &[Option<usize>],
) -> Result<usize, EntityId>
    requires { length places.now ≡ length want.now }
    ensures new { (have : Copy) → places.now ≡ places_of have want.now
        → IfOk result (AreNew have (wanted_of want.now)) }
    ensures not_made { (have : Copy) → places.now ≡ places_of have want.now
        → IfErr result (IsFirstNotMade have (wanted_of want.now)) }
{
    let mut count = 0;
    for at in 0..want.len() {
        let entity = item_at(want, at).entity;
        let is_new = is_new(places[at]);
        if is_not_made(entity, is_new) {
            return Err(entity);
        }
        count += if_so(is_new, 1);
    }
    Ok(count)
}

/// Whether the copy doesn't have the entity.
fn is_new(place: Option<usize>) -> bool
    ensures { result ≡ not (is_some place) }
{
    place.is_none()
}

/// Whether the entity is new and only the unit can make it.
fn is_not_made(entity: EntityId, is_new: bool) -> bool
    ensures { result ≡ (is_unit_made entity.class && is_new) }
{
    is_unit_made(entity.class) && is_new
}
