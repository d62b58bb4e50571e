//! The parts of a copy, in ascending order of the entity.

ghost use Rattle.std.specs.Prelude.{◌≡◌, ◌<◌, length, is_some, slice_index_or, slice_set};
ghost use Rattle.std.specs.Prelude.{None, IfOk, IfErr, IsErr, OnOk, OnErr};
ghost use Rattle.upload_spec.specs.Copies.{copied, copied_values, copied_counter, copy_counter};
ghost use Rattle.upload_spec.specs.Copies.{with_copied, without_copied, copy_grown};
ghost use Rattle.mib_spec.specs.Database.{bump};
ghost use Rattle.mib_store.specs.Entries.{IsAscending};
ghost use Rattle.mib_upload.specs.Parts.{AreKnown, IsKnown, part_as, copy_of, keys_of, IsAt, IsGap};
ghost use Rattle.mib_upload.specs.Parts.{part_at};

use crate::part::{Part, ROOM};
use class_spec::ONU_DATA;
use mib_store::{NoMemory, place_between};
use omci_attributes::Mask;
use omci_types::EntityId;
use placed_list::PlacedList;
use std::cmp::Ordering;

/// The place of the entity, or the place where it would go.
pub(crate) fn find(parts: &PlacedList<Part>, entity: EntityId) -> Result<usize, usize>
    requires { IsAscending (keys_of parts.now) }
    ensures found { IfOk result (IsAt parts.now entity) }
    ensures absent { IfErr result (IsGap parts.now entity) }
{
    let mut low = 0;
    let mut high = parts.len();
    while low < high {
        let middle = place_between(low, high, entity);
        match part_at(parts, middle).entity.cmp(&entity) {
            Ordering::Less => low = middle + 1,
            Ordering::Equal => return Ok(middle),
            Ordering::Greater => high = middle,
        }
    }
    Err(low)
}

/// The part in this place.
pub(crate) fn part_at(parts: &PlacedList<Part>, at: usize) -> &Part
    requires { at < length parts.now }
    ensures { result.now ≡ part_at parts.now at }
{
    parts.get(at)
}

/// What the parts have of the entity: an empty part where it isn't there.
pub(crate) fn part_of(parts: &PlacedList<Part>, entity: EntityId) -> Part
    requires { IsAscending (keys_of parts.now) }
    ensures entity { result.entity ≡ entity }
    ensures values { (part_as result).1 ≡ copied_values entity (copy_of parts.now) }
{
    match find(parts, entity) {
        Ok(at) => *part_at(parts, at),
        Err(_) => Part {
            entity,
            mask: Mask(0),
            values: [0; ROOM],
        },
    }
}

/// Puts the part in its place, in place of the one that is there, which takes no memory. Without
/// memory nothing has changed.
pub(crate) fn put_part(parts: &mut PlacedList<Part>, part: Part) -> Result<(), NoMemory>
    requires { IsAscending (keys_of parts.old) }
    ensures known { IsKnown part → AreKnown parts.old → AreKnown parts.new }
    ensures ok { OnOk result (copy_of parts.new
        ≡ with_copied part.entity (part_as part).1 (copy_of parts.old)) }
    ensures err { OnErr result (parts.new ≡ parts.old) }
    ensures ascending { IsAscending (keys_of parts.new) }
    ensures room { IsErr result → copied part.entity (copy_of parts.old) ≡ None }
{
    match find(parts, part.entity) {
        Ok(at) => parts.set(at, part),
        Err(at) => parts.insert(at, part)?,
    }
    Ok(())
}

/// Takes the entity away where it is there.
pub(crate) fn remove_part(parts: &mut PlacedList<Part>, entity: EntityId)
    requires { IsAscending (keys_of parts.old) }
    ensures removed { copy_of parts.new ≡ without_copied entity (copy_of parts.old) }
    ensures ascending { IsAscending (keys_of parts.new) }
    ensures known { AreKnown parts.old → AreKnown parts.new }
{
    if let Ok(at) = find(parts, entity) {
        parts.remove(at);
    }
}

/// Whether the parts have a counter: attribute 1 of ONU data.
pub(crate) fn has_counter(parts: &PlacedList<Part>) -> bool
    requires { IsAscending (keys_of parts.now) }
    ensures { result ≡ is_some (copied_counter (copy_of parts.now)) }
{
    part_of(parts, ONU_DATA).mask.has(1)
}

/// The counter.
pub(crate) fn counter(parts: &PlacedList<Part>) -> u8
    requires { IsAscending (keys_of parts.now) }
    ensures { result ≡ copy_counter (copy_of parts.now) }
{
    if !has_counter(parts) {
        return 0;
    }
    part_of(parts, ONU_DATA).values[0]
}

/// Makes the counter one more, and 1 after 255, where the parts have one.
pub(crate) fn grow_parts(parts: &mut PlacedList<Part>)
    requires { IsAscending (keys_of parts.old) }
    ensures grown { copy_of parts.new ≡ copy_grown (copy_of parts.old) }
    ensures keys { keys_of parts.new ≡ keys_of parts.old }
    ensures known { AreKnown parts.old → AreKnown parts.new }
{
    if !has_counter(parts) {
        return;
    }
    if let Ok(at) = find(parts, ONU_DATA) {
        let after = next_part(part_at(parts, at));
        parts.set(at, after);
    }
}

/// The part of ONU data with the next count.
fn next_part(part: &Part) -> Part
    ensures entity { result.entity ≡ part.now.entity }
    ensures mask { result.mask ≡ part.now.mask }
    ensures values { result.values
        ≡ slice_set part.now.values 0 (bump (slice_index_or part.now.values 0 0)) }
{
    let mut after = *part;
    after.values[0] = next_count(part.values[0]);
    after
}

/// The count after this one: 1 after 255.
fn next_count(count: u8) -> u8
    ensures { result ≡ bump count }
{
    if count == 255 { 1 } else { count + 1 }
}
