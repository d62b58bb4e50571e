//! A sink that takes a few bytes a call, up to its room, and whose failing calls are chosen.

ghost use Rattle.std.specs.Prelude.{◌≤◌, None};

use omci_core::{Failed, Sink};
use std::alloc::Global;

/// A sink that takes at most `width` bytes a call and has room for `room`. Its calls are counted
/// from 1; one fails where the list of fails names it, and where no room is left.
#[derive(Drop)]
pub(crate) struct NarrowSink {
    pub(crate) taken: Vec<u8>,
    width: usize,
    room: usize,
    fails: Vec<u64>,
    calls: u64,
    faults: u64,
}

impl NarrowSink {
    pub(crate) fn new(alloc: Global, width: usize, room: usize, fails: Vec<u64>) -> NarrowSink {
        NarrowSink {
            taken: Vec::new(alloc),
            width,
            room,
            fails,
            calls: 0,
            faults: 0,
        }
    }

    /// How many of so many bytes the next call takes.
    fn share(&self, count: usize) -> usize
        ensures few { result ≤ count }
    {
        count
            .min(self.width)
            .min(self.room.saturating_sub(self.taken.len()))
    }
}

impl Sink for NarrowSink {
    ghost written = { λ _. None };

    ghost faults = { λ s. s.faults };

    fn write(&mut self, from: &[u8]) -> Result<usize, Failed> {
        self.calls = self.calls.saturating_add(1);
        let count = self.share(from.len());
        if self.fails.contains(&self.calls) || count == 0 && !from.is_empty() {
            self.faults = self.faults.saturating_add(1);
            return Err(Failed);
        }
        if self.taken.extend_from_slice(&from[..count]).is_err() {
            self.faults = self.faults.saturating_add(1);
            return Err(Failed);
        }
        Ok(count)
    }
}
