//! A reader of a stream of baseline frames.

use crate::frames::parts_text;
use crate::words::{any_fault, fault_text, say};
use case_lines::NoMemory;
use omci_frames::{FrameFault, Frames, Taken};
use std::alloc::Global;

/// The reader.
#[derive(Drop)]
pub(crate) struct Reader {
    alloc: Global,
    frames: Frames,
}

impl Reader {
    pub(crate) fn new(alloc: Global) -> Reader {
        Reader {
            alloc,
            frames: Frames::new(),
        }
    }

    /// A reader made by `default`.
    pub(crate) fn start_again(&mut self) -> Result<String, NoMemory> {
        self.frames = Frames::default();
        say(self.alloc, "")
    }

    /// How many of the bytes are taken.
    pub(crate) fn feed(&mut self, bytes: &[u8]) -> Result<String, NoMemory> {
        let count = self.frames.feed(bytes);
        Ok(format!(in self.alloc; "{count}")?)
    }

    /// How many of the bytes are taken, given one after the other to a reader that has no frame and
    /// no fault to give before any of them.
    pub(crate) fn feed_bytes(&mut self, bytes: &[u8]) -> Result<String, NoMemory> {
        let mut count = 0u64;
        for byte in bytes {
            if self.frames.take() == Taken::More && self.frames.feed(&[*byte]) == 1 {
                count = count.saturating_add(1);
            }
        }
        Ok(format!(in self.alloc; "{count}")?)
    }

    /// The frame or the fault that the reader gives, or `more`.
    pub(crate) fn take(&mut self) -> Result<String, NoMemory> {
        match self.frames.take() {
            Taken::More => say(self.alloc, "more"),
            Taken::Fault { at, fault } => self.fault(at, fault),
            Taken::Frame(frame) => parts_text(
                self.alloc,
                frame.tci,
                frame.kind,
                frame.entity,
                &frame.contents,
            ),
        }
    }

    /// `whole`, or the place and the fault with which the stream ends.
    pub(crate) fn finish(&self) -> Result<String, NoMemory> {
        match self.frames.finish() {
            Ok(()) => say(self.alloc, "whole"),
            Err(end) => self.fault(end.at, end.fault),
        }
    }

    fn fault(&self, at: u64, fault: FrameFault) -> Result<String, NoMemory> {
        let fault = fault_text(self.alloc, any_fault(fault))?;
        Ok(format!(in self.alloc; "at {at} {fault}")?)
    }
}
