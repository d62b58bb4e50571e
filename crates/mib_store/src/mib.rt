//! The database and its calls.

ghost use Rattle.std.specs.Prelude.{◌≡◌, ◌≢◌, ◌<◌, ◌≤◌, ℕ, true, length, slice_index_or, OnOk};
ghost use Rattle.std.specs.Prelude.{OnErr, IfOk, IsErr};
ghost use Rattle.mib_spec.specs.Database.{Managed, first, counter, bump, bytes_of};
ghost use Rattle.mib_spec.specs.Database.{with_counter_grown, with_software, has_unit_entities};
ghost use Rattle.mib_spec.specs.Requests.{create_outcome, create_code, delete_outcome, set_outcome};
ghost use Rattle.mib_spec.specs.Requests.{get_outcome, reset, sense_outcome};

use crate::answers::{GetAnswer, SetAnswer};
use crate::first::{first_entries, image_of};
use crate::layout::front;
use crate::requests::{create_in, delete_in, get_in, reset_in, sense_in, set_in, software_in};
use crate::table::{Table, counter, grow};
use class_spec::{CREATE_ROOM, SET_ROOM};
use entity_classes::class;
use mib_spec::{MOST_ENTITIES, Sensed, UNIT_ENTITIES};
use omci_attributes::Mask;
use omci_core::NoMemory;
use omci_types::{Code, EntityId, Software};
use std::alloc::Global;
use std::marker::Model;

/// The unit's database (ITU-T G.988, clause 9.1.3), which the unit holds from its start on: at most
/// 4,096 entities, each with its maker and the values of its attributes. The eleven that the unit
/// makes are always there. Attribute 1 of ONU data, MIB data sync, is the counter: `create`,
/// `delete` and `set` with code 0, and `grow`, change it. Only `new` and `create` take memory.
#[derive(Drop)]
pub struct Mib {
    table: Table,
}

impl Model for Mib {
    ghost use Rattle.mib_spec.specs.Database.{Database};
    ghost use Rattle.mib_store.specs.Entries.{database_of, IsMib};

    ghost Value = { Database };

    ghost view = { λ mib. database_of mib.table };

    ghost invariant = { λ mib. IsMib mib.table };
}

impl Mib {
    ghost use Rattle.mib_store.specs.Entries.{held_in, width_in};

    /// The first database, with these software images. It takes memory.
    pub fn new(alloc: Global, software: Software) -> Result<Mib, NoMemory>
        ensures { IfOk result (λ mib. mib ≡ first software) }
    {
        let made = first_entries(image_of(0, &software), image_of(1, &software));
        Ok(Mib {
            table: Table::of(alloc, &made)?,
        })
    }

    /// Makes an entity. Its values are cut from the bytes in attribute order, and those that a
    /// create doesn't set are zero. The codes are 0, 4, 2, 7 and 1; after a code other than 0, and
    /// without memory, nothing has changed. It takes memory where the code would be 0, and nowhere
    /// else.
    pub fn create(&mut self, entity: EntityId, values: &[u8; CREATE_ROOM]) -> Result<Code, NoMemory>
        ensures code { IfOk result
            (λ code. code.0 ≡ (create_outcome entity values.now self.old).0) }
        ensures ok { OnOk result (self.new ≡ (create_outcome entity values.now self.old).1) }
        ensures kept { IfOk result (λ code. code.0 ≢ 0 → self.new ≡ self.old) }
        ensures counter { IfOk result
            (λ code. code.0 ≡ 0 → counter self.new ≡ bump (counter self.old)) }
        ensures err { OnErr result (self.new ≡ self.old) }
        ensures room { IsErr result → create_code entity self.old ≡ 0 }
    {
        create_in(&mut self.table, entity, values)
    }

    /// Removes an entity that the manager has made. The codes are 0, 4, 2 and 5; after a code other
    /// than 0 nothing has changed. It takes no memory.
    pub fn delete(&mut self, entity: EntityId) -> Code
        ensures code { result.0 ≡ (delete_outcome entity self.old).0 }
        ensures database { self.new ≡ (delete_outcome entity self.old).1 }
        ensures kept { result.0 ≢ 0 → self.new ≡ self.old }
        ensures counter { result.0 ≡ 0 → counter self.new ≡ bump (counter self.old) }
    {
        delete_in(&mut self.table, entity)
    }

    /// Stores the values of the named attributes, all or none. They are cut from the bytes in
    /// attribute order. The codes are 0, 4, 5, 9 and 3; after a code other than 0 nothing has
    /// changed. It takes no memory.
    pub fn set(&mut self, entity: EntityId, mask: Mask, values: &[u8; SET_ROOM]) -> SetAnswer
        ensures code { result.code.0
            ≡ (set_outcome entity mask.0 values.now self.old).code }
        ensures unsupported { result.unsupported.0
            ≡ (set_outcome entity mask.0 values.now self.old).unsupported }
        ensures failed { result.failed.0
            ≡ (set_outcome entity mask.0 values.now self.old).failed }
        ensures database { self.new
            ≡ (set_outcome entity mask.0 values.now self.old).database }
        ensures kept { result.code.0 ≢ 0 → self.new ≡ self.old }
    {
        set_in(&mut self.table, entity, mask, values)
    }

    /// The values of the named attributes. The codes are 0, 4, 5, 3 and 9. It takes no memory.
    pub fn get(&self, entity: EntityId, mask: Mask) -> GetAnswer
        ensures code { result.code.0 ≡ (get_outcome entity mask.0 self.now).code }
        ensures mask { result.mask.0 ≡ (get_outcome entity mask.0 self.now).mask }
        ensures values { result.values ≡ (get_outcome entity mask.0 self.now).values }
        ensures unsupported { result.unsupported.0
            ≡ (get_outcome entity mask.0 self.now).unsupported }
    {
        get_in(&self.table, entity, mask)
    }

    /// Makes the database the first one, with the software images as they stand and the counter 0.
    /// It takes no memory.
    pub fn reset(&mut self)
        ensures { self.new ≡ reset self.old }
    {
        reset_in(&mut self.table);
    }

    /// Rewrites the attributes of the two software images. It takes no memory.
    pub fn software(&mut self, software: Software)
        ensures { self.new ≡ with_software software self.old }
    {
        software_in(&mut self.table, &software);
    }

    /// Makes the counter one more, and 1 after 255. It takes no memory.
    pub fn grow(&mut self)
        ensures database { self.new ≡ with_counter_grown self.old }
        ensures counter { counter self.new ≡ bump (counter self.old) }
    {
        grow(&mut self.table);
    }

    /// The counter, MIB data sync.
    pub fn counter(&self) -> u8
        ensures { result ≡ counter self.now }
    {
        counter(&self.table)
    }

    /// How many entities the database has.
    pub fn len(&self) -> usize
        ensures count { result ≡ length self.now }
        ensures most { result ≤ MOST_ENTITIES }
        ensures least { UNIT_ENTITIES ≤ result }
        ensures whole { has_unit_entities self.now ≡ true }
    {
        self.table.len()
    }

    /// The entity in this place, counted from 0 in ascending order. It takes no memory.
    pub fn entity(&self, place: usize) -> EntityId
        requires { place < length self.now }
        ensures { (other : EntityId × Managed) → result ≡ (slice_index_or self.now place other).0 }
    {
        self.table.entry(place).entity
    }

    /// The values of the entity in this place, counted from 0 in ascending order: the bytes of all
    /// its attributes, one after the other in attribute order. The entity has the maker of its
    /// class, and the values that stand in these bytes. It takes no memory.
    pub fn values(&self, place: usize) -> &[u8]
        requires { place < length self.now }
        ensures bytes { (other : EntityId × Managed)
            → result.now ≡ bytes_of (slice_index_or self.now place other).1.values }
        ensures held { (other : EntityId × Managed) → slice_index_or self.now place other
            ≡ held_in (slice_index_or self.now place other).0 result.now }
        ensures width { (other : EntityId × Managed)
            → length result.now ≡ width_in (slice_index_or self.now place other).0.class }
    {
        let entry = self.table.entry(place);
        match class(entry.entity.class) {
            Some(class) => front(&entry.values, class.width()),
            None => &[],
        }
    }

    /// Takes a value that the unit has measured: `NotAllowed` exactly where the entity isn't there,
    /// its class is 2 or 7, the attribute isn't there or may be written, or the value has another
    /// width; `Same` exactly where the value is already held; else `Changed`. It takes no memory.
    pub fn sense(&mut self, entity: EntityId, number: u8, value: &[u8]) -> Sensed
        ensures sensed { result ≡ (sense_outcome entity number value.now self.old).0 }
        ensures database { self.new ≡ (sense_outcome entity number value.now self.old).1 }
    {
        sense_in(&mut self.table, entity, number, value)
    }
}
