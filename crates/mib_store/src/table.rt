//! The table: entries that stay where they were put, in ascending order of the entity.

ghost use Rattle.std.specs.Prelude.{◌≡◌, ◌<◌, ◌≤◌, IfOk, IfErr, OnOk, OnErr, length};
ghost use Rattle.mib_spec.specs.Database.{bump, counter, with_counter_grown, with_values};
ghost use Rattle.mib_spec.specs.Database.{values_of};
ghost use Rattle.mib_store.specs.Entries.{values_in, database_of, keys_of, IsAscending, IsAt};
ghost use Rattle.mib_store.specs.Entries.{IsGap, entry_at, Inserts, Removes};

use crate::entry::{Entry, ROOM};
use crate::search::{entry_in, find_in};
use class_spec::ONU_DATA;
use mib_spec::UNIT_ENTITIES;
use omci_core::NoMemory;
use omci_types::EntityId;
use placed_list::PlacedList;
use std::alloc::Global;
use std::marker::Model;

/// The entities of a unit with their values, seen as the list of its entries in ascending order of
/// the entity. `Mib` holds it; `insert` alone takes memory.
#[derive(Drop)]
pub(crate) struct Table {
    entries: PlacedList<Entry>,
}

impl Model for Table {
    ghost use Rattle.std.specs.Prelude.{List};
    ghost use Rattle.mib_store.specs.declared.entry.Entry.{Entry};

    ghost Value = { List Entry };

    ghost view = { λ t. t.entries };
}

impl Table {
    /// A table of these entries, which stand in ascending order.
    pub(crate) fn of(alloc: Global, entries: &[Entry; UNIT_ENTITIES]) -> Result<Table, NoMemory>
        ensures { IfOk result (λ table. table ≡ entries.now) }
    {
        let mut made = PlacedList::new(alloc);
        for at in 0..UNIT_ENTITIES {
            made.insert(at, entries[at])?;
        }
        Ok(Table { entries: made })
    }

    /// Puts these entries, which stand in ascending order, in place of all.
    pub(crate) fn refill(&mut self, entries: &[Entry; UNIT_ENTITIES])
        requires { UNIT_ENTITIES ≤ length self.old }
        ensures { self.new ≡ entries.now }
    {
        self.entries.truncate(UNIT_ENTITIES);
        overwrite(&mut self.entries, entries);
    }

    /// How many entries there are.
    pub(crate) fn len(&self) -> usize
        ensures { result ≡ length self.now }
    {
        self.entries.len()
    }

    /// The place of the entity, or the place where it would go.
    pub(crate) fn find(&self, entity: EntityId) -> Result<usize, usize>
        requires { IsAscending (keys_of self.now) }
        ensures found { IfOk result (IsAt self.now entity) }
        ensures absent { IfErr result (IsGap self.now entity) }
    {
        find_in(&self.entries, entity)
    }

    /// The entry in this place.
    pub(crate) fn entry(&self, at: usize) -> &Entry
        requires { at < length self.now }
        ensures { result.now ≡ entry_at self.now at }
    {
        entry_in(&self.entries, at)
    }

    /// The values of the entry in this place.
    pub(crate) fn values(&self, at: usize) -> [u8; ROOM]
        requires { at < length self.now }
        ensures { result ≡ (entry_at self.now at).values }
    {
        self.entry(at).values
    }

    /// Writes the values of the entity in its place.
    pub(crate) fn write(&mut self, at: usize, entity: EntityId, values: [u8; ROOM])
        requires { IsAt self.old entity at }
        ensures written { database_of self.new
            ≡ with_values entity (values_in entity.class values) (database_of self.old) }
        ensures keys { keys_of self.new ≡ keys_of self.old }
    {
        self.entries.set(at, Entry { entity, values });
    }

    /// Puts an entry in its place.
    pub(crate) fn insert(&mut self, at: usize, entry: Entry) -> Result<(), NoMemory>
        requires gap { IsGap self.old entry.entity at }
        requires ascending { IsAscending (keys_of self.old) }
        ensures ok { OnOk result (Inserts self.old self.new entry) }
        ensures err { OnErr result (self.new ≡ self.old) }
    {
        self.entries.insert(at, entry)
    }

    /// Takes the entry out of its place.
    pub(crate) fn remove(&mut self, at: usize, entity: EntityId)
        requires at { IsAt self.old entity at }
        requires ascending { IsAscending (keys_of self.old) }
        ensures { Removes self.old self.new entity }
    {
        self.entries.remove(at);
    }
}

fn overwrite(list: &mut PlacedList<Entry>, entries: &[Entry; UNIT_ENTITIES])
    requires { length list.old ≡ UNIT_ENTITIES }
    ensures { list.new ≡ entries.now }
{
    for at in 0..UNIT_ENTITIES {
        list.set(at, entries[at]);
    }
}

/// Writes the values of the entity where it is there.
pub(crate) fn put_values(table: &mut Table, entity: EntityId, values: [u8; ROOM])
    requires { IsAscending (keys_of table.old) }
    ensures written { database_of table.new
        ≡ with_values entity (values_in entity.class values) (database_of table.old) }
    ensures keys { keys_of table.new ≡ keys_of table.old }
{
    if let Ok(at) = table.find(entity) {
        table.write(at, entity, values);
    }
}

/// The values of the entity, and zeros for one that isn't there.
pub(crate) fn values_of(table: &Table, entity: EntityId) -> [u8; ROOM]
    requires { IsAscending (keys_of table.now) }
    ensures { values_in entity.class result ≡ values_of entity (database_of table.now) }
{
    match table.find(entity) {
        Ok(at) => table.values(at),
        Err(_) => [0; ROOM],
    }
}

/// The counter.
pub(crate) fn counter(table: &Table) -> u8
    requires { IsAscending (keys_of table.now) }
    ensures { result ≡ counter (database_of table.now) }
{
    values_of(table, ONU_DATA)[0]
}

/// Makes the counter one more, and 1 after 255.
pub(crate) fn grow(table: &mut Table)
    requires { IsAscending (keys_of table.old) }
    ensures grown { database_of table.new ≡ with_counter_grown (database_of table.old) }
    ensures keys { keys_of table.new ≡ keys_of table.old }
{
    let mut values = values_of(table, ONU_DATA);
    values[0] = next_count(values[0]);
    put_values(table, ONU_DATA, values);
}

/// The count after this one: 1 after 255.
fn next_count(count: u8) -> u8
    ensures { result ≡ bump count }
{
    if count == 255 { 1 } else { count + 1 }
}
