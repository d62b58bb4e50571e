//! The manager's side of a window, and both sides together.

use crate::words::{are_all, byte_of, no_such_call, number_text, row_of, say, truth};
use case_lines::{NoMemory, hex_of, u16_of, u64_of};
use download_window::{Arrived, Image, ImageRefusal, Inbox, Outbox};
use std::alloc::Global;

/// What a manager sends of an image.
#[derive(Drop)]
pub(crate) struct Sender {
    alloc: Global,
    outbox: Option<Outbox>,
}

impl Sender {
    pub(crate) fn new(alloc: Global) -> Sender {
        Sender {
            alloc,
            outbox: None,
        }
    }

    /// Whether the bytes are an image that is sent in windows of so many sections.
    fn outbox(&mut self, window: u16, bytes: &[u8]) -> Result<String, NoMemory> {
        self.outbox = outbox_of(self.alloc, window, bytes)?;
        truth(self.alloc, self.outbox.is_some())
    }

    /// Goes on to the next window, where there is one.
    fn advance(&mut self) -> Result<String, NoMemory> {
        let goes_on = match &mut self.outbox {
            Some(outbox) => outbox.advance(),
            None => false,
        };
        truth(self.alloc, goes_on)
    }

    /// The first byte of each section of the window, whose other bytes are all this one.
    fn sent(&self, others: u8) -> Result<String, NoMemory> {
        match &self.outbox {
            Some(outbox) => sent_text(self.alloc, outbox, others),
            None => say(self.alloc, "none"),
        }
    }

    /// The answer to the call that the words name.
    pub(crate) fn answer(&mut self, words: &[&str]) -> Result<String, NoMemory> {
        match *words {
            ["image", bytes] => image_text(self.alloc, &row_of(self.alloc, bytes)?),
            ["outbox", window, bytes] => {
                let bytes = row_of(self.alloc, bytes)?;
                self.outbox(u16_of(window), &bytes)
            }
            ["advance"] => self.advance(),
            ["sent", others] => self.sent(byte_of(others)),
            ["arrives", length, window] => {
                let arrives = arrives(self.alloc, u64_of(length) as usize, u16_of(window))?;
                truth(self.alloc, arrives)
            }
            _ => no_such_call(self.alloc),
        }
    }
}

/// The outbox of these bytes; none where they are no image, or the window isn't 1 to 256.
fn outbox_of(alloc: Global, window: u16, bytes: &[u8]) -> Result<Option<Outbox>, NoMemory> {
    if window == 0 || window > 256 {
        return Ok(None);
    }
    match Image::new(alloc, bytes) {
        Ok(image) => Ok(Some(Outbox::new(image, window))),
        Err(ImageRefusal::NoMemory) => Err(NoMemory),
        Err(_) => Ok(None),
    }
}

/// How many bytes the image has, once they are those that were given; or its refusal.
fn image_text(alloc: Global, bytes: &[u8]) -> Result<String, NoMemory> {
    match Image::new(alloc, bytes) {
        Ok(image) if image.bytes() == bytes => number_text(alloc, bytes.len() as u64),
        Ok(_) => say(alloc, "other bytes"),
        Err(ImageRefusal::Size { size }) => Ok(format!(in alloc; "size {size}")?),
        Err(ImageRefusal::NoMemory) => Err(NoMemory),
    }
}

fn sent_text(alloc: Global, outbox: &Outbox, others: u8) -> Result<String, NoMemory> {
    let mut out = String::new(alloc);
    for number in 0..outbox.sections() {
        let section = outbox.section(number);
        push_first(alloc, &mut out, &section, others)?;
    }
    Ok(out)
}

fn push_first(alloc: Global, out: &mut String, section: &[u8], others: u8) -> Result<(), NoMemory> {
    match section {
        [first, rest @ ..] if are_all(rest, others) => {
            let first = hex_of(alloc, &[*first])?;
            out.push_str(first.as_str())?;
        }
        _ => out.push_str("??")?,
    }
    Ok(())
}

/// So many bytes, none like the ones beside it.
fn mixed(alloc: Global, length: usize) -> Result<Vec<u8>, NoMemory> {
    let mut bytes = Vec::new(alloc);
    let mut byte = 1u8;
    for _ in 0..length {
        bytes.push(byte)?;
        byte = byte.wrapping_mul(5).wrapping_add(3);
    }
    Ok(bytes)
}

/// Sends the outbox's window under a TCI; whether it arrives whole.
fn send(outbox: &Outbox, inbox: &mut Inbox, tci: u16) -> bool {
    let count = outbox.sections();
    let mut arrived = Arrived::Broken;
    for number in 0..count {
        let last = number + 1 == count;
        arrived = inbox.section(tci, number as u8, &outbox.section(number), last);
    }
    arrived == Arrived::Whole { sections: count }
}

/// The first of these bytes, so many or fewer.
fn front(bytes: &[u8], count: usize) -> &[u8] {
    if bytes.len() < count {
        bytes
    } else {
        &bytes[..count]
    }
}

/// Whether an image of so many bytes arrives as it was in windows of so many sections.
fn arrives(alloc: Global, length: usize, window: u16) -> Result<bool, NoMemory> {
    let bytes = mixed(alloc, length)?;
    let Some(mut outbox) = outbox_of(alloc, window, &bytes)? else {
        return Ok(false);
    };
    let got = carried(alloc, &mut outbox, length)?;
    Ok(got.as_slice() == bytes.as_slice())
}

/// What arrives of an image, window by window; nothing more after a window that breaks.
fn carried(alloc: Global, outbox: &mut Outbox, length: usize) -> Result<Vec<u8>, NoMemory> {
    let mut inbox = Inbox::new();
    let mut got = Vec::new(alloc);
    for turn in 0..length {
        if !send(outbox, &mut inbox, 1 + (turn % 32767) as u16) {
            break;
        }
        let left = length.saturating_sub(got.len());
        got.extend_from_slice(front(inbox.window(), left))?;
        if !outbox.advance() {
            break;
        }
    }
    Ok(got)
}
