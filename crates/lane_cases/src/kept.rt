//! Kept replies.

use crate::words::{no_such_call, row_of, row_text, say};
use case_lines::{NoMemory, u16_of};
use retry_cache::Kept;
use std::alloc::Global;

/// The replies that a unit keeps.
#[derive(Drop)]
pub(crate) struct Replies {
    alloc: Global,
    kept: Kept,
}

impl Replies {
    pub(crate) fn new(alloc: Global) -> Replies {
        Replies {
            alloc,
            kept: Kept::new(),
        }
    }

    fn keep(&mut self, tci: u16, reply: &[u8]) -> Result<String, NoMemory> {
        if reply.len() > 1_980 {
            return say(self.alloc, "not allowed");
        }
        self.kept.keep(tci, reply);
        say(self.alloc, "")
    }

    fn find(&self, tci: u16) -> Result<String, NoMemory> {
        match self.kept.find(tci) {
            Some(reply) => row_text(self.alloc, reply),
            None => say(self.alloc, "none"),
        }
    }

    /// The answer to the call that the words name.
    pub(crate) fn answer(&mut self, words: &[&str]) -> Result<String, NoMemory> {
        match *words {
            ["keep", tci, reply] => {
                let reply = row_of(self.alloc, reply)?;
                self.keep(u16_of(tci), &reply)
            }
            ["find", tci] => self.find(u16_of(tci)),
            _ => no_such_call(self.alloc),
        }
    }
}
