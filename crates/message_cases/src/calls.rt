//! The calls of a line by name.

use crate::frames::{check_values, decoded, encoded, fields, packet};
use crate::messages::{message, windows};
use crate::texts::{contents_text, hex_text, number_text, say, tci_text, text_after, text_of};
use case_lines::{Cases, NoMemory, array_of, bytes_of, u16_of, u64_of};
use omci_frames::{EntityId, Frame};
use std::alloc::Global;

/// Each call stands alone.
#[derive(Drop)]
pub(crate) struct Calls {
    alloc: Global,
}

impl Calls {
    pub(crate) fn new(alloc: Global) -> Calls {
        Calls { alloc }
    }

    /// A call on bytes.
    fn bytes_answer(&self, name: &str, bytes: &[u8]) -> Result<String, NoMemory> {
        match name {
            "check-value" => check_values(self.alloc, bytes),
            "decode" => decoded(self.alloc, bytes),
            "packet" => packet(self.alloc, bytes),
            "fields" => fields(self.alloc, bytes),
            "contents" => contents_text(self.alloc, bytes),
            "hex" => hex_text(self.alloc, bytes),
            _ => say(self.alloc, "no such call"),
        }
    }

    /// A call on a frame.
    fn frame_answer(&self, name: &str, frame: &Frame) -> Result<String, NoMemory> {
        match name {
            "encode" => encoded(self.alloc, frame),
            "message" => message(self.alloc, frame),
            "text" => text_of(self.alloc, frame),
            "text-after" => text_after(self.alloc, frame),
            _ => say(self.alloc, "no such call"),
        }
    }
}

impl Cases for Calls {
    fn answer(&mut self, words: &[&str]) -> Result<String, NoMemory> {
        match *words {
            ["windows", window] => windows(self.alloc, u16_of(window)),
            ["number", number] => number_text(self.alloc, u64_of(number)),
            ["tci", tci] => tci_text(self.alloc, u16_of_hex(tci)),
            [name, bytes] => self.bytes_answer(name, &bytes_of(self.alloc, bytes)?),
            [name, tci, kind, class, instance, contents] => {
                self.frame_answer(name, &frame_of(tci, kind, class, instance, contents))
            }
            _ => say(self.alloc, "no such call"),
        }
    }
}

/// Four hexadecimal digits.
fn u16_of_hex(word: &str) -> u16 {
    u16::from_be_bytes(array_of(word))
}

/// The frame that the words say: its TCI, type byte and contents in hexadecimal digits. Zeros follow
/// the contents.
fn frame_of(tci: &str, kind: &str, class: &str, instance: &str, contents: &str) -> Frame {
    let [kind]: [u8; 1] = array_of(kind);
    Frame {
        tci: u16_of_hex(tci),
        kind,
        entity: EntityId {
            class: u16_of(class),
            instance: u16_of(instance),
        },
        contents: array_of(contents),
    }
}
