//! Both ends' alarms, and the calls of them by name.

use crate::log::UnitAlarms;
use crate::table::KnownAlarms;
use case_lines::{Cases, NoMemory, array_of, u8_of, u16_of};
use omci_types::EntityId;
use std::alloc::Global;

/// The unit's log with its last snapshot, and the manager's table.
#[derive(Drop)]
pub(crate) struct Ends {
    alloc: Global,
    unit: UnitAlarms,
    manager: KnownAlarms,
}

impl Ends {
    /// Both ends as they start.
    pub(crate) fn new(alloc: Global) -> Result<Ends, NoMemory> {
        Ok(Ends {
            alloc,
            unit: UnitAlarms::new(alloc),
            manager: KnownAlarms::new(alloc)?,
        })
    }

    fn start_again(&mut self) -> Result<String, NoMemory> {
        *self = Ends::new(self.alloc)?;
        Ok(String::new(self.alloc))
    }

    /// A call of the manager's table.
    fn manager_answer(&mut self, words: &[&str]) -> Result<String, NoMemory> {
        match *words {
            ["take", class, instance, bitmap, number] => self.manager.take(
                entity_of(class, instance),
                array_of(bitmap),
                u8_of(number),
            ),
            ["take-many", class, instance, bitmap, first, last] => self.manager.take_many(
                entity_of(class, instance),
                array_of(bitmap),
                u8_of(first),
                u8_of(last),
            ),
            ["begin"] => self.manager.begin(),
            ["gather", row] => self.manager.gather(&array_of(row)),
            ["finish"] => self.manager.finish(),
            ["fail"] => self.manager.fail(),
            ["table"] => self.manager.text(),
            _ => Ok(String::from_str(self.alloc, "no such call")?),
        }
    }
}

impl Cases for Ends {
    fn answer(&mut self, words: &[&str]) -> Result<String, NoMemory> {
        match *words {
            ["new"] => self.start_again(),
            ["change", class, instance, bitmap] => self
                .unit
                .change(entity_of(class, instance), array_of(bitmap)),
            ["change-many", class, instance, odd, even, first, last] => self.unit.change_many(
                entity_of(class, instance),
                [array_of(even), array_of(odd)],
                u8_of(first),
                u8_of(last),
            ),
            ["log"] => self.unit.text(),
            ["snapshot"] => self.unit.put_by(),
            ["row", number] => self.unit.row(u16_of(number)),
            _ => self.manager_answer(words),
        }
    }
}

fn entity_of(class: &str, instance: &str) -> EntityId {
    EntityId {
        class: u16_of(class),
        instance: u16_of(instance),
    }
}
