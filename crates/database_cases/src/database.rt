//! The calls of a unit's database.

use crate::words::{mask_text, say};
use case_lines::{NoMemory, hex_of, short_hex_of};
use mib_store::{Mask, Mib};
use omci_types::{Code, EntityId, Software};
use std::alloc::Global;

/// A unit's database.
#[derive(Drop)]
pub(crate) struct Database {
    alloc: Global,
    mib: Mib,
}

impl Database {
    /// The first database of a unit with this software.
    pub(crate) fn new(alloc: Global, software: Software) -> Result<Database, NoMemory> {
        Ok(Database {
            alloc,
            mib: Mib::new(alloc, software)?,
        })
    }

    fn code(&self, code: Code) -> Result<String, NoMemory> {
        let number = code.0;
        Ok(format!(in self.alloc; "{number}")?)
    }

    /// The code of a create.
    pub(crate) fn create(
        &mut self,
        entity: EntityId,
        values: &[u8; 32],
    ) -> Result<String, NoMemory> {
        let code = self.mib.create(entity, values)?;
        self.code(code)
    }

    /// How many creates of zeros are answered by code 0, one for each instance.
    pub(crate) fn create_many(
        &mut self,
        class: u16,
        first: u16,
        last: u16,
    ) -> Result<String, NoMemory> {
        let mut count = 0u64;
        for instance in first..=last {
            if created(&mut self.mib, EntityId { class, instance })? {
                count = count.saturating_add(1);
            }
        }
        Ok(format!(in self.alloc; "{count}")?)
    }

    /// The code of a delete.
    pub(crate) fn delete(&mut self, entity: EntityId) -> Result<String, NoMemory> {
        let code = self.mib.delete(entity);
        self.code(code)
    }

    /// The code of a set, the attributes that the class doesn't have, and those that may not be
    /// written.
    pub(crate) fn set(
        &mut self,
        entity: EntityId,
        mask: Mask,
        values: &[u8; 30],
    ) -> Result<String, NoMemory> {
        let answer = self.mib.set(entity, mask, values);
        let code = answer.code.0;
        let unsupported = mask_text(self.alloc, answer.unsupported)?;
        let failed = mask_text(self.alloc, answer.failed)?;
        Ok(format!(in self.alloc; "{code} {unsupported} {failed}")?)
    }

    /// The code of a get, the attributes that are given, their values, and the attributes that the
    /// class doesn't have.
    pub(crate) fn get(&self, entity: EntityId, mask: Mask) -> Result<String, NoMemory> {
        let answer = self.mib.get(entity, mask);
        let code = answer.code.0;
        let mask = mask_text(self.alloc, answer.mask)?;
        let values = short_hex_of(self.alloc, &answer.values)?;
        let unsupported = mask_text(self.alloc, answer.unsupported)?;
        Ok(format!(in self.alloc; "{code} {mask} {values} {unsupported}")?)
    }

    /// What became of a measured value.
    pub(crate) fn sense(
        &mut self,
        entity: EntityId,
        number: u8,
        value: &[u8],
    ) -> Result<String, NoMemory> {
        let sensed = self.mib.sense(entity, number, value);
        Ok(format!(in self.alloc; "{sensed:?}")?)
    }

    /// The first database again.
    pub(crate) fn reset(&mut self) -> Result<String, NoMemory> {
        self.mib.reset();
        say(self.alloc, "")
    }

    /// The software is another one.
    pub(crate) fn software(&mut self, software: Software) -> Result<String, NoMemory> {
        self.mib.software(software);
        say(self.alloc, "")
    }

    /// How many entities there are, and the counter.
    pub(crate) fn size(&self) -> Result<String, NoMemory> {
        let len = self.mib.len();
        let counter = self.mib.counter();
        Ok(format!(in self.alloc; "{len} {counter}")?)
    }

    /// The entity at a place and all of its values, `-` where there is none.
    pub(crate) fn entity(&self, place: usize) -> Result<String, NoMemory> {
        if place >= self.mib.len() {
            return say(self.alloc, "-");
        }
        let entity = self.mib.entity(place);
        let class = entity.class;
        let instance = entity.instance;
        let values = hex_of(self.alloc, self.mib.values(place))?;
        Ok(format!(in self.alloc; "{class} {instance} {values}")?)
    }
}

/// Whether a create of zeros is answered by code 0.
fn created(mib: &mut Mib, entity: EntityId) -> Result<bool, NoMemory> {
    let code = mib.create(entity, &[0; 32])?;
    Ok(code == Code::SUCCESS)
}
