//! The calls of a unit's store.
ghost use Rattle.slot_spec.specs.Rig.{IsTrap};

use crate::said::{Said, say, view_text};
use crate::slots::unmounted;
use case_lines::{NoMemory, array_of, u8_of, u16_of, u32_of};
use image_store::{Boot, EntityId, Handled, Software, Store};
use message_spec::Request;
use slot_disk::{MemDisk, Trap};
use std::alloc::Global;

/// A store, where the unit is on.
#[derive(Drop)]
pub(crate) struct StoreCalls {
    alloc: Global,
    store: Option<Store<MemDisk>>,
}

impl StoreCalls {
    pub(crate) fn new(alloc: Global) -> StoreCalls {
        StoreCalls { alloc, store: None }
    }

    /// Starts a unit with the disk, which comes back where it isn't mounted.
    pub(crate) fn start(
        &mut self,
        disk: MemDisk,
        length: u64,
        boot: Boot,
    ) -> (Option<MemDisk>, Said) {
        match Store::start(disk, length, boot) {
            Ok(store) => {
                self.store = Some(store);
                (None, Said::Done)
            }
            Err(refusal) => {
                let (disk, said) = unmounted(refusal);
                (Some(disk), said)
            }
        }
    }

    /// The disk of a unit that is switched off.
    pub(crate) fn stop(&mut self) -> Option<MemDisk> {
        match self.store.take() {
            Some(store) => Some(store.unmount()),
            None => None,
        }
    }

    /// Sets the trap of the store's disk.
    pub(crate) fn rig(&mut self, trap: Trap)
        requires trap { IsTrap trap }
    {
        if let Some(store) = &mut self.store {
            store.rig(trap);
        }
    }

    fn carried(&mut self, tci: u16, entity: EntityId, request: &Request) -> Option<Handled> {
        match &mut self.store {
            Some(store) => Some(store.carry(tci, entity, request)),
            None => None,
        }
    }

    /// What becomes of a request.
    fn carry(&mut self, tci: u16, entity: EntityId, request: &Request) -> Result<String, NoMemory> {
        match self.carried(tci, entity, request) {
            Some(handled) => handled_text(self.alloc, handled),
            None => Said::Absent.text(self.alloc),
        }
    }

    fn software(&self) -> Option<Software> {
        match &self.store {
            Some(store) => Some(store.software()),
            None => None,
        }
    }

    fn software_text(&self) -> Result<String, NoMemory> {
        let Some(software) = self.software() else {
            return Said::Absent.text(self.alloc);
        };
        let active = software.active;
        let committed = software.committed;
        Ok(format!(in self.alloc; "active {active} committed {committed}")?)
    }

    fn image_text(&self, slot: &str) -> Result<String, NoMemory> {
        let Some(software) = self.software() else {
            return Said::Absent.text(self.alloc);
        };
        if slot == "0" {
            view_text(self.alloc, software.first)
        } else {
            view_text(self.alloc, software.second)
        }
    }

    /// The answer to the call that the words name.
    pub(crate) fn answer(&mut self, words: &[&str]) -> Result<String, NoMemory> {
        match *words {
            ["carry", tci, class, instance, ref request @ ..] => {
                let Some(request) = request_of(request) else {
                    return say(self.alloc, "no such request");
                };
                let entity = EntityId {
                    class: u16_of(class),
                    instance: u16_of(instance),
                };
                self.carry(u16_of(tci), entity, &request)
            }
            ["software"] => self.software_text(),
            ["image", slot] => self.image_text(slot),
            _ => Said::Absent.text(self.alloc),
        }
    }
}

/// The request that the words name.
fn request_of(words: &[&str]) -> Option<Request> {
    match *words {
        ["start", window, size, targets, target] => start_of(window, size, targets, target),
        ["section", number, bytes] => Some(section_of(number, bytes, false)),
        ["last", number, bytes] => Some(section_of(number, bytes, true)),
        ["end", crc, size, targets, target] => Some(Request::End {
            crc: u32::from_be_bytes(array_of(crc)),
            size: u32_of(size),
            targets: u8_of(targets),
            target: u16_of(target),
        }),
        ["activate", flags] => Some(Request::Activate {
            flags: u8_of(flags),
        }),
        ["commit"] => Some(Request::Commit),
        _ => None,
    }
}

fn start_of(window: &str, size: &str, targets: &str, target: &str) -> Option<Request> {
    Some(Request::Start {
        window: u16_of(window),
        size: u32_of(size),
        targets: u8_of(targets),
        target: u16_of(target),
    })
}

fn section_of(number: &str, bytes: &str, last: bool) -> Request {
    Request::Section {
        number: u8_of(number),
        bytes: array_of(bytes),
        last,
    }
}

fn handled_text(alloc: Global, handled: Handled) -> Result<String, NoMemory> {
    match handled {
        Handled::Dropped => say(alloc, "dropped"),
        Handled::Held => say(alloc, "held"),
        Handled::Answered {
            code,
            grows,
            leaves,
        } => {
            let code = code.0;
            let grows = if grows { " grows" } else { "" };
            let leaves = if leaves { " leaves" } else { "" };
            Ok(format!(in alloc; "code {code}{grows}{leaves}")?)
        }
    }
}
