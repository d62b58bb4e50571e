//! The unit's side: its database, and what is put by of it.

use crate::words::{entity_of, say};
use case_lines::{NoMemory, array_of, short_hex_of, u16_of};
use mib_upload::{Mib, Snapshot};
use omci_types::{EntityId, SlotView, Software};
use std::alloc::Global;

/// One image of the byte `ff`, in slot 0.
const FACTORY: Software = Software {
    first: Some(SlotView {
        length: 1,
        crc: 0xff,
        version: [0xff, 0, 0, 0, 0, 0, 0, 0, 0, 0, 0, 0, 0, 0],
    }),
    second: None,
    committed: 0,
    active: 0,
};

/// A unit's database, the last snapshot of it, and the one before.
#[derive(Drop)]
pub(crate) struct Unit {
    alloc: Global,
    mib: Option<Mib>,
    last: Option<Snapshot>,
    before: Option<Snapshot>,
}

impl Unit {
    pub(crate) fn new(alloc: Global) -> Unit {
        Unit {
            alloc,
            mib: None,
            last: None,
            before: None,
        }
    }

    /// The first database.
    fn start(&mut self) -> Result<String, NoMemory> {
        self.mib = Some(Mib::new(self.alloc, FACTORY)?);
        say(self.alloc, "")
    }

    fn created(&mut self, entity: EntityId, values: &[u8; 32]) -> Result<u8, NoMemory> {
        match &mut self.mib {
            Some(mib) => Ok(mib.create(entity, values)?.0),
            None => Ok(u8::MAX),
        }
    }

    /// The code of a create.
    fn create(&mut self, entity: EntityId, values: &[u8; 32]) -> Result<String, NoMemory> {
        let code = self.created(entity, values)?;
        Ok(format!(in self.alloc; "{code}")?)
    }

    /// How many instances of the class, from 60 down to 1, are created with one byte in all values.
    fn fill(&mut self, class: u16, values: &[u8; 32]) -> Result<String, NoMemory> {
        let mut count = 0u64;
        for turn in 0..60u16 {
            let instance = 60 - turn;
            if self.created(EntityId { class, instance }, values)? == 0 {
                count = count.saturating_add(1);
            }
        }
        Ok(format!(in self.alloc; "{count}")?)
    }

    fn put_by(&mut self) -> Result<(), NoMemory> {
        if let Some(mib) = &self.mib {
            let snapshot = Snapshot::of(self.alloc, mib)?;
            self.before = self.last.take();
            self.last = Some(snapshot);
        }
        Ok(())
    }

    /// Takes a snapshot.
    fn snapshot(&mut self) -> Result<String, NoMemory> {
        self.put_by()?;
        counts_text(self.alloc, &self.last)
    }

    /// The piece of the last snapshot.
    pub(crate) fn piece(&self, number: u16) -> Option<[u8; 32]> {
        piece_of(&self.last, number)
    }

    /// How many pieces the last snapshot has.
    pub(crate) fn count(&self) -> u16 {
        match &self.last {
            Some(snapshot) => snapshot.count(),
            None => 0,
        }
    }

    /// How many entities the database has.
    pub(crate) fn entities(&self) -> usize {
        match &self.mib {
            Some(mib) => mib.len(),
            None => 0,
        }
    }

    /// Whether the database has this entity in that place, with these values.
    pub(crate) fn has(&self, place: usize, entity: EntityId, values: &[u8]) -> bool {
        match &self.mib {
            Some(mib) => is_there(mib, place, entity, values),
            None => false,
        }
    }

    /// The answer to the call that the words name, none where the unit has no such call.
    pub(crate) fn answer(&mut self, words: &[&str]) -> Result<String, NoMemory> {
        match *words {
            ["database"] => self.start(),
            ["create", class, instance, values] => {
                self.create(entity_of(class, instance), &array_of(values))
            }
            ["fill", class, byte] => {
                let [byte]: [u8; 1] = array_of(byte);
                self.fill(u16_of(class), &[byte; 32])
            }
            ["snapshot"] => self.snapshot(),
            ["before"] => counts_text(self.alloc, &self.before),
            ["piece", number] => piece_text(self.alloc, self.piece(u16_of(number))),
            ["piece-before", number] => {
                piece_text(self.alloc, piece_of(&self.before, u16_of(number)))
            }
            _ => say(self.alloc, "no such call"),
        }
    }
}

fn is_there(mib: &Mib, place: usize, entity: EntityId, values: &[u8]) -> bool {
    if place >= mib.len() {
        return false;
    }
    mib.entity(place) == entity && mib.values(place) == values
}

fn piece_of(snapshot: &Option<Snapshot>, number: u16) -> Option<[u8; 32]> {
    match snapshot {
        Some(snapshot) => snapshot.piece(number),
        None => None,
    }
}

fn piece_text(alloc: Global, piece: Option<[u8; 32]>) -> Result<String, NoMemory> {
    match piece {
        Some(piece) => short_hex_of(alloc, &piece),
        None => say(alloc, "none"),
    }
}

/// How many pieces and entities a snapshot has, and its counter.
fn counts_text(alloc: Global, snapshot: &Option<Snapshot>) -> Result<String, NoMemory> {
    match snapshot {
        Some(snapshot) => {
            let count = snapshot.count();
            let entities = snapshot.entities();
            let counter = snapshot.counter();
            Ok(format!(in alloc; "{count} {entities} {counter}")?)
        }
        None => say(alloc, "none"),
    }
}
