//! The manager's copy of the unit's database.

ghost use Rattle.std.specs.Prelude.{◌≡◌, ◌<◌, true, false, Some, None, length, slice_index_or};
ghost use Rattle.std.specs.Prelude.{IsErr, OnOk, OnErr};
ghost use Rattle.std.specs.Prelude.{◌==◌, ◌&&◌, nat_le};
ghost use Rattle.class_spec.specs.Masks.{width_of};
ghost use Rattle.omci_types.specs.declared.EntityId.{EntityId};
ghost use Rattle.mib_spec.specs.Database.{Values, bytes_of};
ghost use Rattle.upload_spec.specs.Pieces.{mask_of};
ghost use Rattle.upload_spec.specs.Copies.{copy_counter, after_create, after_set, after_delete};
ghost use Rattle.upload_spec.specs.Copies.{copied, copy_grown};
ghost use Rattle.class_spec.specs.Classes.{class_row};
ghost use Rattle.entity_classes.specs.Rule.{IsRow};
ghost use Rattle.mib_spec.specs.Requests.{is_class, is_onu_data, create_values, of_class};
ghost use Rattle.upload_spec.specs.Copies.{attributes_of};
ghost use Rattle.mib_upload.specs.Parts.{IsKnown, part_as};

use crate::part::{Chosen, Part, ROOM, overlay};
use crate::parts::{counter, find, grow_parts, part_at, put_part, remove_part};
use crate::pieces::cut;
use class_spec::{CREATE_ROOM, ONU_DATA, SET_ROOM};
use entity_classes::{Class, class};
use mib_store::NoMemory;
use omci_attributes::{Mask, Selection, select, width};
use omci_types::EntityId;
use placed_list::PlacedList;
use std::marker::Model;

/// What the copy has of an entity.
#[derive(Clone, Copy, Debug)]
pub struct CopyEntry<'a> {
    pub entity: EntityId,
    /// The attributes that it has a value of.
    pub mask: Mask,
    /// Their values, one after the other in attribute order.
    pub values: &'a [u8],
}

/// The database of the unit as the manager knows it: what the last resynchronisation gave, and what
/// its own commands with code 0 have done since. The manager holds it; `created` alone takes
/// memory.
#[derive(Drop)]
pub struct MibCopy {
    parts: PlacedList<Part>,
}

impl Model for MibCopy {
    ghost use Rattle.upload_spec.specs.Pieces.{Copy};
    ghost use Rattle.mib_upload.specs.Parts.{copy_of, IsParts};

    ghost Value = { Copy };

    ghost view = { λ c. copy_of c.parts };

    ghost invariant = { λ c. IsParts c.parts };
}

impl MibCopy {
    ghost use Rattle.mib_upload.specs.Parts.{copy_of, IsParts};

    /// The copy of these parts, which have a counter.
    pub(crate) fn of(parts: PlacedList<Part>) -> MibCopy
        requires { IsParts parts }
        ensures { result ≡ copy_of parts }
    {
        MibCopy { parts }
    }

    /// The counter, attribute 1 of ONU data.
    pub fn counter(&self) -> u8
        ensures { result ≡ copy_counter self.now }
    {
        counter(&self.parts)
    }

    /// How many entities there are.
    pub fn len(&self) -> usize
        ensures { result ≡ length self.now }
    {
        self.parts.len()
    }

    /// The entity in this place, counted from 0 in ascending order.
    pub fn entry(&self, place: usize) -> CopyEntry<'_>
        requires { place < length self.now }
        ensures entity { (other : EntityId × Values)
            → result.entity ≡ (slice_index_or self.now place other).0 }
        ensures mask { (other : EntityId × Values)
            → result.mask.0 ≡ mask_of (slice_index_or self.now place other).1 }
        ensures values { (other : EntityId × Values)
            → result.values.now ≡ bytes_of (slice_index_or self.now place other).1 }
    {
        let part = part_at(&self.parts, place);
        CopyEntry {
            entity: part.entity,
            mask: part.mask,
            values: cut(&part.values, 0, width_of(part.entity.class, part.mask)),
        }
    }

    /// A create of the entity had code 0: an entry that is there is replaced. Nothing changes for a
    /// class outside the class table and for ONU data. It takes memory for a new entry, and nowhere
    /// else; without memory nothing has changed.
    pub fn created(&mut self, entity: EntityId, values: &[u8; CREATE_ROOM]) -> Result<(), NoMemory>
        ensures ok { OnOk result (self.new ≡ after_create entity values.now self.old) }
        ensures err { OnErr result (self.new ≡ self.old) }
        ensures room { IsErr result → (is_class entity.class ≡ true)
            × (is_onu_data entity ≡ false) × (copied entity self.old ≡ None) }
    {
        let Some(class) = class(entity.class) else {
            return Ok(());
        };
        if is_onu_data(entity) {
            return Ok(());
        }
        put_part(&mut self.parts, new_part(&class, entity, values))
    }

    /// A set of the entity had code 0: the values of the named attributes are stored. Nothing
    /// changes where the entity isn't there, its class doesn't have a named attribute, or the named
    /// attributes need more bytes than a set carries.
    pub fn changed(&mut self, entity: EntityId, mask: Mask, values: &[u8; SET_ROOM])
        ensures { self.new ≡ after_set entity mask.0 values.now self.old }
    {
        let Ok(at) = find(&self.parts, entity) else {
            return;
        };
        let Some(class) = class(entity.class) else {
            return;
        };
        if !is_settable(&select(&class, mask)) {
            return;
        }
        let part = part_at(&self.parts, at);
        let after = overlay(&class, part, Chosen::Named(mask), values);
        self.parts.set(at, after);
    }

    /// A delete of the entity had code 0. Nothing changes where it isn't there, and for ONU data.
    pub fn deleted(&mut self, entity: EntityId)
        ensures { self.new ≡ after_delete entity self.old }
    {
        if is_onu_data(entity) {
            return;
        }
        remove_part(&mut self.parts, entity);
    }

    /// Makes the counter one more, and 1 after 255.
    pub fn grow(&mut self)
        ensures { self.new ≡ copy_grown self.old }
    {
        grow_parts(&mut self.parts);
    }
}

/// Whether the entity is ONU data.
fn is_onu_data(entity: EntityId) -> bool
    ensures { result ≡ is_onu_data entity }
{
    entity == ONU_DATA
}

/// The bytes of the values of the attributes of this class that the mask names.
fn width_of(number: u16, mask: Mask) -> usize
    ensures { result ≡ of_class width_of number mask.0 }
{
    match class(number) {
        Some(class) => width(&class, mask),
        None => 0,
    }
}

/// Whether the class has each named attribute, and a set carries all their values.
fn is_settable(selection: &Selection) -> bool
    ensures { result ≡ (selection.now.unknown.0 == 0 && nat_le selection.now.width SET_ROOM) }
{
    selection.unknown.0 == 0 && selection.width <= SET_ROOM
}

/// What a create makes: the values that it sets, cut from the bytes, and zeros for the others.
fn new_part(class: &Class, entity: EntityId, values: &[u8; CREATE_ROOM]) -> Part
    requires row { class_row entity.class ≡ Some class.now }
    requires rule { IsRow class.now }
    ensures entity { result.entity ≡ entity }
    ensures values { part_as result
        ≡ (entity, create_values (attributes_of entity.class) values.now) }
    ensures known { IsKnown result }
{
    let zeros = Part {
        entity,
        mask: Mask(0xffff),
        values: [0; ROOM],
    };
    overlay(class, &zeros, Chosen::Created, values)
}
