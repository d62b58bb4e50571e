//! The calls of a line by name.

use crate::reading::{events_alike, orders_text, script_text};
use crate::texts::{joined, say, text_of};
use case_lines::{Cases, NoMemory, u16_of};
use replay_script::Event;
use std::alloc::Global;

/// The header of the script that a line is put in.
const HEADER: &str = "omci 1 16 1 32767 00ff\n";

/// What comes before a line that is the last of its script.
const LINES_BEFORE: &str = "omci 1 16 1 32767 00ff\n# a note\r\n\nflow 1\n";

/// What comes after a line that is the first of its script. It has a fault of its own.
const LINES_AFTER: &str = "\ntick tock\n";

/// Each call stands alone.
#[derive(Drop)]
pub(crate) struct Calls {
    alloc: Global,
}

impl Calls {
    pub(crate) fn new(alloc: Global) -> Calls {
        Calls { alloc }
    }

    /// What is read from a script.
    fn script(&self, text: &str) -> Result<String, NoMemory> {
        let text = text_of(self.alloc, text)?;
        script_text(self.alloc, text.as_bytes())
    }

    /// What is read from orders.
    fn orders(&self, text: &str) -> Result<String, NoMemory> {
        let text = text_of(self.alloc, text)?;
        orders_text(self.alloc, text.as_bytes())
    }

    /// What is read from a script in which the line comes first, and from one in which it is the
    /// last, and has no line feed.
    fn line(&self, text: &str) -> Result<String, NoMemory> {
        let text = text_of(self.alloc, text)?;
        let first = joined(self.alloc, HEADER, text.as_str(), LINES_AFTER)?;
        let first = script_text(self.alloc, first.as_bytes())?;
        let last = joined(self.alloc, LINES_BEFORE, text.as_str(), "")?;
        let last = script_text(self.alloc, last.as_bytes())?;
        Ok(format!(in self.alloc; "{first}, {last}")?)
    }

    /// Whether lines ask for the same in orders as in a script.
    fn both(&self, text: &str) -> Result<String, NoMemory> {
        let text = text_of(self.alloc, text)?;
        let script = joined(self.alloc, HEADER, text.as_str(), "")?;
        let orders = joined(self.alloc, "orders 1 1 1\n", text.as_str(), "")?;
        events_alike(self.alloc, script.as_bytes(), orders.as_bytes())
    }

    /// What is read from a script in which so many bytes `ff` come to the manager.
    fn noise(&self, count: u16) -> Result<String, NoMemory> {
        let mut text = joined(self.alloc, HEADER, "noise olt ", "")?;
        for _ in 0..count {
            text.push_str("fF")?;
        }
        let said = script_text(self.alloc, text.as_bytes())?;
        say(self.alloc, said.as_str().get(..3).unwrap_or("-"))
    }

    /// Whether an event takes at most 40 bytes of memory.
    fn event_size(&self) -> Result<String, NoMemory> {
        let size = std::mem::size_of::<Event>();
        say(self.alloc, if size <= 40 { "small" } else { "large" })
    }
}

impl Cases for Calls {
    fn answer(&mut self, words: &[&str]) -> Result<String, NoMemory> {
        match *words {
            ["script"] => self.script(""),
            ["script", text] => self.script(text),
            ["orders"] => self.orders(""),
            ["orders", text] => self.orders(text),
            ["line", text] => self.line(text),
            ["both", text] => self.both(text),
            ["noise", count] => self.noise(u16_of(count)),
            ["event-size"] => self.event_size(),
            _ => say(self.alloc, "no such call"),
        }
    }
}
