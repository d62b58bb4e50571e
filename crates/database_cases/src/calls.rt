//! The calls of a line by name.

use crate::classes::{attribute_text, class_text, named_text, place_text};
use crate::database::Database;
use crate::words::{entity_of, mask_of, say, software_of};
use case_lines::{Cases, NoMemory, array_of, bytes_of, u8_of, u16_of};
use std::alloc::Global;

/// A unit's database. The calls on classes stand alone.
#[derive(Drop)]
pub(crate) struct Calls {
    alloc: Global,
    database: Database,
}

impl Calls {
    /// The database of a unit with one image, of one byte `ff`.
    pub(crate) fn new(alloc: Global) -> Result<Calls, NoMemory> {
        Ok(Calls {
            alloc,
            database: Database::new(alloc, software_of("ff", "-", 0, 0))?,
        })
    }

    fn start_again(&mut self) -> Result<String, NoMemory> {
        *self = Calls::new(self.alloc)?;
        say(self.alloc, "")
    }

    /// A call on a class.
    fn class_answer(&self, words: &[&str]) -> Result<String, NoMemory> {
        match *words {
            ["class", number] => class_text(self.alloc, u16_of(number)),
            ["attribute", number, one] => attribute_text(self.alloc, u16_of(number), u8_of(one)),
            ["named", number, mask] => named_text(self.alloc, u16_of(number), mask_of(mask)),
            ["place", number, mask, one, room] => place_text(
                self.alloc,
                u16_of(number),
                mask_of(mask),
                u8_of(one),
                u16_of(room) as usize,
            ),
            _ => say(self.alloc, "no such call"),
        }
    }

    /// A call that changes nothing of what the manager may change.
    fn unit_answer(&mut self, words: &[&str]) -> Result<String, NoMemory> {
        match *words {
            ["new"] => self.start_again(),
            ["sense", class, instance, number, value] => self.database.sense(
                entity_of(class, instance),
                u8_of(number),
                &bytes_of(self.alloc, value)?,
            ),
            ["software", first, second, committed, active] => {
                let software = software_of(first, second, u8_of(committed), u8_of(active));
                self.database.software(software)
            }
            ["size"] => self.database.size(),
            ["entity", place] => self.database.entity(u16_of(place) as usize),
            _ => self.class_answer(words),
        }
    }
}

impl Cases for Calls {
    fn answer(&mut self, words: &[&str]) -> Result<String, NoMemory> {
        match *words {
            ["create", class, instance, values] => self
                .database
                .create(entity_of(class, instance), &array_of(values)),
            ["create-many", class, first, last] => {
                self.database
                    .create_many(u16_of(class), u16_of(first), u16_of(last))
            }
            ["delete", class, instance] => self.database.delete(entity_of(class, instance)),
            ["set", class, instance, mask, values] => self.database.set(
                entity_of(class, instance),
                mask_of(mask),
                &array_of(values),
            ),
            ["get", class, instance, mask] => {
                self.database.get(entity_of(class, instance), mask_of(mask))
            }
            ["reset"] => self.database.reset(),
            _ => self.unit_answer(words),
        }
    }
}
