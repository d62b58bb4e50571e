//! The unit's side of a window.

use crate::words::{are_all, byte_of, no_such_call, number_text, say};
use case_lines::{NoMemory, hex_of, u8_of, u16_of};
use download_window::{Arrived, Inbox, SECTION_BYTES};
use std::alloc::Global;

/// What a unit holds of a window.
#[derive(Drop)]
pub(crate) struct Window {
    alloc: Global,
    inbox: Inbox,
}

impl Window {
    pub(crate) fn new(alloc: Global) -> Window {
        Window {
            alloc,
            inbox: Inbox::new(),
        }
    }

    /// What becomes of a section whose bytes are all the same.
    fn section(&mut self, tci: u16, number: u8, byte: u8, last: bool) -> Result<String, NoMemory> {
        let arrived = self
            .inbox
            .section(tci, number, &[byte; SECTION_BYTES], last);
        arrived_text(self.alloc, arrived)
    }

    /// How many sections with the numbers from 0 to 255, and bytes of these numbers, are held.
    fn all(&mut self, tci: u16) -> Result<String, NoMemory> {
        let mut count = 0u64;
        for number in 0..=255u8 {
            let section = [number; SECTION_BYTES];
            if self.inbox.section(tci, number, &section, false) == Arrived::Held {
                count = count.saturating_add(1);
            }
        }
        number_text(self.alloc, count)
    }

    fn clear(&mut self) -> Result<String, NoMemory> {
        self.inbox.clear();
        say(self.alloc, "")
    }

    /// The byte of each section that is held.
    fn text(&self) -> Result<String, NoMemory> {
        let mut out = String::new(self.alloc);
        for section in self.inbox.window().chunks(SECTION_BYTES) {
            push_section(self.alloc, &mut out, section)?;
        }
        if out.as_str().is_empty() {
            out.push_str("-")?;
        }
        Ok(out)
    }

    /// The answer to the call that the words name.
    pub(crate) fn answer(&mut self, words: &[&str]) -> Result<String, NoMemory> {
        match *words {
            ["section", tci, number, byte] => {
                self.section(u16_of(tci), u8_of(number), byte_of(byte), false)
            }
            ["last", tci, number, byte] => {
                self.section(u16_of(tci), u8_of(number), byte_of(byte), true)
            }
            ["sections", tci] => self.all(u16_of(tci)),
            ["clear"] => self.clear(),
            ["window"] => self.text(),
            _ => no_such_call(self.alloc),
        }
    }
}

fn push_section(alloc: Global, out: &mut String, section: &[u8]) -> Result<(), NoMemory> {
    let first = section.first().copied().unwrap_or(0);
    if section.len() == SECTION_BYTES && are_all(section, first) {
        let byte = hex_of(alloc, &[first])?;
        out.push_str(byte.as_str())?;
    } else {
        out.push_str("??")?;
    }
    Ok(())
}

fn arrived_text(alloc: Global, arrived: Arrived) -> Result<String, NoMemory> {
    match arrived {
        Arrived::Held => say(alloc, "held"),
        Arrived::Ignored => say(alloc, "ignored"),
        Arrived::Broken => say(alloc, "broken"),
        Arrived::Whole { sections } => Ok(format!(in alloc; "whole {sections}")?),
    }
}
