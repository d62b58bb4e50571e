//! The texts of frames and of their parts.

use case_lines::NoMemory;
use omci_contents::{
    Frame, push_bytes, push_contents_text, push_hex, push_number, push_tci, push_text, text,
};
use std::alloc::Global;

pub(crate) fn say(alloc: Global, text: &str) -> Result<String, NoMemory> {
    Ok(String::from_str(alloc, text)?)
}

/// Some bytes as a text.
fn said(alloc: Global, bytes: &[u8]) -> Result<String, NoMemory> {
    match str::from_utf8(bytes) {
        Ok(text) => say(alloc, text),
        Err(_) => say(alloc, "no text"),
    }
}

/// The text of a frame.
pub(crate) fn text_of(alloc: Global, frame: &Frame) -> Result<String, NoMemory> {
    said(alloc, &text(alloc, frame)?)
}

/// The text of a frame after other bytes.
pub(crate) fn text_after(alloc: Global, frame: &Frame) -> Result<String, NoMemory> {
    let mut out = Vec::new(alloc);
    push_bytes(&mut out, b"9 took ")?;
    push_text(&mut out, frame)?;
    said(alloc, &out)
}

/// The text of contents, after a letter.
pub(crate) fn contents_text(alloc: Global, bytes: &[u8]) -> Result<String, NoMemory> {
    let mut out = Vec::new(alloc);
    push_bytes(&mut out, b"a")?;
    push_contents_text(&mut out, bytes)?;
    said(alloc, &out)
}

/// The digits of a row of bytes, after a letter.
pub(crate) fn hex_text(alloc: Global, bytes: &[u8]) -> Result<String, NoMemory> {
    let mut out = Vec::new(alloc);
    push_bytes(&mut out, b"a")?;
    push_hex(&mut out, bytes)?;
    said(alloc, &out)
}

/// The digits of a number, after a letter.
pub(crate) fn number_text(alloc: Global, number: u64) -> Result<String, NoMemory> {
    let mut out = Vec::new(alloc);
    push_bytes(&mut out, b"a")?;
    push_number(&mut out, number)?;
    said(alloc, &out)
}

/// The digits of a TCI, after a letter.
pub(crate) fn tci_text(alloc: Global, tci: u16) -> Result<String, NoMemory> {
    let mut out = Vec::new(alloc);
    push_bytes(&mut out, b"a")?;
    push_tci(&mut out, tci)?;
    said(alloc, &out)
}
