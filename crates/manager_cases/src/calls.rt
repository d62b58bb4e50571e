//! The calls of a line by name.

use crate::asking::{Asked, ask_order, take, take_frame, tick};
use crate::spelling::{
    alarms_text, copy_text, orders_text, push_refusal, say, state_text, told_text,
};
use case_lines::{Cases, NoMemory, array_of, bytes_of, u8_of, u16_of};
use olt_manager::Manager;
use omci_core::{EntityId, Packets};
use omci_frames::Frame;
use std::alloc::Global;
use trace_lines::{Lines, push_reports};

/// A manager whose unit is the lines of the input.
#[derive(Drop)]
pub(crate) struct Calls {
    alloc: Global,
    manager: Manager,
    /// What the last call sent.
    sent: Packets,
    /// What the last call told.
    told: Lines,
    /// Whether reports wait until they are asked for.
    holds: bool,
}

impl Calls {
    pub(crate) fn new(alloc: Global) -> Result<Calls, NoMemory> {
        Ok(Calls {
            alloc,
            manager: Manager::start(alloc, 1, 1)?,
            sent: Packets::new(alloc),
            told: Lines::new(alloc),
            holds: false,
        })
    }

    /// A manager starts whose lanes draw these numbers first.
    fn start(&mut self, low: u16, high: u16) -> Result<String, NoMemory> {
        if low == 0 || low > 32767 || high == 0 || high > 32767 {
            return say(self.alloc, "no such number");
        }
        self.manager = Manager::start(self.alloc, low, high)?;
        self.holds = false;
        say(self.alloc, "")
    }

    /// An order, as a line of orders.
    fn order(&mut self, words: &[&str]) -> Result<String, NoMemory> {
        let text = orders_text(self.alloc, words)?;
        self.sent.clear();
        match ask_order(&mut self.manager, self.alloc, text.as_str(), &mut self.sent)? {
            Asked::Accepted => {}
            Asked::Refused(refusal) => push_refusal(&mut self.told, refusal)?,
            Asked::Unread => return say(self.alloc, "no such call"),
        }
        self.say_told()
    }

    /// A packet of the unit.
    fn packet(&mut self, bytes: &[u8]) -> Result<String, NoMemory> {
        self.sent.clear();
        take(&mut self.manager, bytes, &mut self.sent)?;
        self.say_told()
    }

    /// A packet of the unit that is this frame.
    fn frame(&mut self, frame: &Frame) -> Result<String, NoMemory> {
        self.sent.clear();
        take_frame(&mut self.manager, frame, &mut self.sent)?;
        self.say_told()
    }

    /// So many seconds.
    fn ticks(&mut self, count: u16) -> Result<String, NoMemory> {
        self.sent.clear();
        for _ in 0..count {
            tick(&mut self.manager, &mut self.sent)?;
        }
        self.say_told()
    }

    /// From now on reports wait until they are asked for.
    fn hold(&mut self) -> Result<String, NoMemory> {
        self.holds = true;
        say(self.alloc, "")
    }

    /// The reports that wait.
    fn reports(&mut self) -> Result<String, NoMemory> {
        self.holds = false;
        self.sent.clear();
        self.say_told()
    }

    /// What the last call told, and what it sent.
    fn say_told(&mut self) -> Result<String, NoMemory> {
        if !self.holds {
            push_reports(&mut self.manager, 0, &mut self.told)?;
        }
        let said = told_text(self.alloc, self.told.bytes(), &self.sent);
        self.told.clear();
        said
    }

    /// What is asked of the manager as it is; else an order.
    fn other_answer(&mut self, words: &[&str]) -> Result<String, NoMemory> {
        match *words {
            ["hold"] => self.hold(),
            ["reports"] => self.reports(),
            ["state"] => state_text(self.alloc, &self.manager),
            ["copy"] => copy_text(self.alloc, &self.manager),
            ["alarms"] => alarms_text(self.alloc, &self.manager),
            _ => self.order(words),
        }
    }
}

impl Cases for Calls {
    fn answer(&mut self, words: &[&str]) -> Result<String, NoMemory> {
        match *words {
            ["start", low, high] => self.start(u16_of(low), u16_of(high)),
            ["packet", bytes] => self.packet(&bytes_of(self.alloc, bytes)?),
            ["take", tci, kind, class, instance, contents] => self.frame(&Frame {
                tci: u16::from_be_bytes(array_of(tci)),
                kind: kind_of(kind),
                entity: entity_of(class, instance),
                contents: array_of(contents),
            }),
            ["notice", class, instance, bitmap, number] => {
                self.frame(&alarm(entity_of(class, instance), bitmap, u8_of(number)))
            }
            ["tick"] => self.ticks(1),
            ["tick", count] => self.ticks(u16_of(count)),
            _ => self.other_answer(words),
        }
    }
}

/// A type byte, in hexadecimal digits.
fn kind_of(word: &str) -> u8 {
    let [kind]: [u8; 1] = array_of(word);
    kind
}

/// The entity that two words name.
fn entity_of(class: &str, instance: &str) -> EntityId {
    EntityId {
        class: u16_of(class),
        instance: u16_of(instance),
    }
}

/// A notice of alarms (ITU-T G.988, clause 11.2): its bitmap comes first, its number last.
fn alarm(entity: EntityId, bitmap: &str, number: u8) -> Frame {
    let mut contents: [u8; 32] = array_of(bitmap);
    contents[31] = number;
    Frame {
        tci: 0,
        kind: 0x10,
        entity,
        contents,
    }
}
