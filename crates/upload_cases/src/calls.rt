//! The calls of a line by name.

use crate::manager::Manager;
use crate::unit::Unit;
use case_lines::{Cases, NoMemory, u16_of};
use std::alloc::Global;

/// Both ends.
#[derive(Drop)]
pub(crate) struct Calls {
    unit: Unit,
    manager: Manager,
}

impl Calls {
    pub(crate) fn new(alloc: Global) -> Calls {
        Calls {
            unit: Unit::new(alloc),
            manager: Manager::new(alloc),
        }
    }
}

impl Cases for Calls {
    fn answer(&mut self, words: &[&str]) -> Result<String, NoMemory> {
        match *words {
            ["gather", expected] => self.manager.gather(u16_of(expected)),
            ["add-all"] => self.manager.add_all(&self.unit),
            ["same"] => self.manager.same(&self.unit),
            ["add", _]
            | ["finish"]
            | ["created", ..]
            | ["changed", ..]
            | ["deleted", ..]
            | ["grow"] => self.manager.answer(words, 0),
            ["entry", place] => self.manager.answer(words, usize::from(u16_of(place))),
            _ => self.unit.answer(words),
        }
    }
}
