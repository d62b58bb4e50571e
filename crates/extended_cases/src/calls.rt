//! The calls of a line by name.

use crate::frames::{baseline_both_ways, decoded, encoded, long_both_ways, text};
use crate::messages::{message, written};
use crate::pieces::stream;
use crate::reader::Reader;
use crate::words::say;
use case_lines::{Cases, NoMemory, array_of, bytes_of, u16_of, u64_of};
use omci_core::EntityId;
use omci_frames::Frame;
use std::alloc::Global;

/// A reader of a stream of baseline frames. The other calls stand alone.
#[derive(Drop)]
pub(crate) struct Calls {
    alloc: Global,
    reader: Reader,
}

impl Calls {
    pub(crate) fn new(alloc: Global) -> Calls {
        Calls {
            alloc,
            reader: Reader::new(alloc),
        }
    }

    fn reader_answer(&mut self, words: &[&str]) -> Result<String, NoMemory> {
        match *words {
            ["reader"] => self.reader.start_again(),
            ["feed", bytes] => self.reader.feed(&bytes_of(self.alloc, bytes)?),
            ["feed-bytes", bytes] => self.reader.feed_bytes(&bytes_of(self.alloc, bytes)?),
            ["take"] => self.reader.take(),
            ["finish"] => self.reader.finish(),
            _ => say(self.alloc, "no such call"),
        }
    }
}

impl Cases for Calls {
    fn answer(&mut self, words: &[&str]) -> Result<String, NoMemory> {
        let alloc = self.alloc;
        match *words {
            ["baseline", tci, kind, class, instance, contents] => baseline_both_ways(
                alloc,
                &Frame {
                    tci: u16_of(tci),
                    kind: kind_of(kind),
                    entity: entity_of(class, instance),
                    contents: array_of(contents),
                },
            ),
            ["extended", tci, kind, class, instance, contents] => long_both_ways(
                alloc,
                u16_of(tci),
                kind_of(kind),
                entity_of(class, instance),
                &bytes_of(alloc, contents)?,
            ),
            ["encode", tci, kind, class, instance, contents] => encoded(
                alloc,
                u16_of(tci),
                kind_of(kind),
                entity_of(class, instance),
                &bytes_of(alloc, contents)?,
            ),
            ["decode", bytes] => decoded(alloc, &bytes_of(alloc, bytes)?),
            ["text", bytes] => text(alloc, &bytes_of(alloc, bytes)?),
            ["message", kind, contents] => {
                message(alloc, kind_of(kind), &bytes_of(alloc, contents)?)
            }
            ["write", ..] => written(alloc, words),
            ["stream", most, bytes] => {
                stream(alloc, &bytes_of(alloc, bytes)?, u64_of(most) as usize)
            }
            _ => self.reader_answer(words),
        }
    }
}

/// A type byte, in hexadecimal digits.
fn kind_of(word: &str) -> u8 {
    let [kind]: [u8; 1] = array_of(word);
    kind
}

/// The entity that two words name.
pub(crate) fn entity_of(class: &str, instance: &str) -> EntityId {
    EntityId {
        class: u16_of(class),
        instance: u16_of(instance),
    }
}
