//! The manager's side: the gathering of pieces, and the copy.

use crate::unit::Unit;
use crate::words::{entity_of, say};
use case_lines::{NoMemory, array_of, hex_of};
use mib_upload::{Gather, GatherFault, Mask, MibCopy};
use omci_types::EntityId;
use std::alloc::Global;

/// What a manager gathers, and its copy.
#[derive(Drop)]
pub(crate) struct Manager {
    alloc: Global,
    gathering: Option<Gather>,
    copy: Option<MibCopy>,
}

impl Manager {
    pub(crate) fn new(alloc: Global) -> Manager {
        Manager {
            alloc,
            gathering: None,
            copy: None,
        }
    }

    /// Begins to gather; how many pieces are expected.
    pub(crate) fn gather(&mut self, expected: u16) -> Result<String, NoMemory> {
        let gathering = Gather::new(self.alloc, expected);
        let expected = gathering.expected();
        self.gathering = Some(gathering);
        Ok(format!(in self.alloc; "{expected}")?)
    }

    /// What becomes of a piece; none where nothing is gathered.
    fn added(&mut self, piece: &[u8; 32]) -> Option<Result<(), GatherFault>> {
        match &mut self.gathering {
            Some(gathering) => Some(gathering.add(piece)),
            None => None,
        }
    }

    fn add(&mut self, piece: &[u8; 32]) -> Result<String, NoMemory> {
        match self.added(piece) {
            Some(Ok(())) => say(self.alloc, "joined"),
            Some(Err(fault)) => fault_text(self.alloc, fault),
            None => say(self.alloc, "not gathering"),
        }
    }

    /// How many of the pieces of the unit's last snapshot are joined.
    pub(crate) fn add_all(&mut self, unit: &Unit) -> Result<String, NoMemory> {
        let mut count = 0u64;
        for number in 0..unit.count() {
            if let Some(piece) = unit.piece(number) {
                if self.added(&piece) == Some(Ok(())) {
                    count = count.saturating_add(1);
                }
            }
        }
        Ok(format!(in self.alloc; "{count}")?)
    }

    fn take_copy(&mut self) {
        self.copy = match self.gathering.take() {
            Some(gathering) => gathering.finish().ok(),
            None => None,
        };
    }

    /// Ends the gathering; what the copy has.
    fn finish(&mut self) -> Result<String, NoMemory> {
        self.take_copy();
        self.copy_text()
    }

    /// How many entities the copy has, and its counter; `missing` where there is none.
    fn copy_text(&self) -> Result<String, NoMemory> {
        match &self.copy {
            Some(copy) => {
                let len = copy.len();
                let counter = copy.counter();
                Ok(format!(in self.alloc; "{len} {counter}")?)
            }
            None => say(self.alloc, "missing"),
        }
    }

    fn entry(&self, place: usize) -> Result<String, NoMemory> {
        match &self.copy {
            Some(copy) => entry_text(self.alloc, copy, place),
            None => say(self.alloc, "missing"),
        }
    }

    fn created(&mut self, entity: EntityId, values: &[u8; 32]) -> Result<(), NoMemory> {
        match &mut self.copy {
            Some(copy) => copy.created(entity, values),
            None => Ok(()),
        }
    }

    fn changed(&mut self, entity: EntityId, mask: Mask, values: &[u8; 30]) {
        if let Some(copy) = &mut self.copy {
            copy.changed(entity, mask, values);
        }
    }

    fn deleted(&mut self, entity: EntityId) {
        if let Some(copy) = &mut self.copy {
            copy.deleted(entity);
        }
    }

    fn grow(&mut self) {
        if let Some(copy) = &mut self.copy {
            copy.grow();
        }
    }

    /// In how many places copy and database have the same entity and values.
    pub(crate) fn same(&self, unit: &Unit) -> Result<String, NoMemory> {
        let mut count = 0u64;
        for place in 0..unit.entities() {
            if self.is_same(unit, place) {
                count = count.saturating_add(1);
            }
        }
        Ok(format!(in self.alloc; "{count}")?)
    }

    fn is_same(&self, unit: &Unit, place: usize) -> bool {
        match &self.copy {
            Some(copy) => is_same_entry(unit, copy, place),
            None => false,
        }
    }

    /// A change of the copy, and what it has then.
    fn change(&mut self, words: &[&str]) -> Result<String, NoMemory> {
        match *words {
            ["created", class, instance, values] => {
                self.created(entity_of(class, instance), &array_of(values))?;
            }
            ["changed", class, instance, mask, values] => {
                let mask = Mask(u16::from_be_bytes(array_of(mask)));
                self.changed(entity_of(class, instance), mask, &array_of(values));
            }
            ["deleted", class, instance] => self.deleted(entity_of(class, instance)),
            ["grow"] => self.grow(),
            _ => return say(self.alloc, "no such call"),
        }
        self.copy_text()
    }

    /// The answer to the call that the words name.
    pub(crate) fn answer(&mut self, words: &[&str], place: usize) -> Result<String, NoMemory> {
        match *words {
            ["add", piece] => self.add(&array_of(piece)),
            ["finish"] => self.finish(),
            ["entry", _] => self.entry(place),
            _ => self.change(words),
        }
    }
}

fn is_same_entry(unit: &Unit, copy: &MibCopy, place: usize) -> bool {
    if place >= copy.len() {
        return false;
    }
    let entry = copy.entry(place);
    unit.has(place, entry.entity, entry.values)
}

/// The entity in this place, its mask and its values.
fn entry_text(alloc: Global, copy: &MibCopy, place: usize) -> Result<String, NoMemory> {
    if place >= copy.len() {
        return say(alloc, "none");
    }
    let entry = copy.entry(place);
    let class = entry.entity.class;
    let instance = entry.entity.instance;
    let mask = hex_of(alloc, &entry.mask.0.to_be_bytes())?;
    let values = hex_of(alloc, entry.values)?;
    Ok(format!(in alloc; "{class} {instance} {mask} {values}")?)
}

fn fault_text(alloc: Global, fault: GatherFault) -> Result<String, NoMemory> {
    match fault {
        GatherFault::Empty => say(alloc, "empty"),
        GatherFault::ClassUnknown { class } => Ok(format!(in alloc; "unknown class {class}")?),
        GatherFault::Truncated { entity } => {
            let class = entity.class;
            let instance = entity.instance;
            Ok(format!(in alloc; "truncated {class} {instance}")?)
        }
        GatherFault::Repeated { entity, attribute } => {
            let class = entity.class;
            let instance = entity.instance;
            Ok(format!(in alloc; "repeated {class} {instance} {attribute}")?)
        }
        GatherFault::NoMemory => Err(NoMemory),
    }
}
