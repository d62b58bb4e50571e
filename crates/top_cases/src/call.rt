//! One call of the top call over memory.

use crate::sink::NarrowSink;
use case_lines::NoMemory;
use omci_core::{MemSource, Words};
use omci_link::MemLink;
use omci_top::{End, Status, omci};
use slot_disk::MemDisk;
use std::alloc::Global;

/// What a call with these words comes to.
pub(crate) fn call_over(
    alloc: Global,
    words: &Words,
    source: &mut MemSource,
    sink: &mut NarrowSink,
    disk: MemDisk,
    link: &mut MemLink,
) -> Ended {
    let End {
        status,
        disk,
        world,
    } = omci(alloc, words, source, sink, disk, link);
    Ended {
        status,
        disk,
        events: world.map(|world| world.events()),
    }
}

/// How a call ended: the disk comes back, and the events of its world.
#[derive(Drop)]
pub(crate) struct Ended {
    pub(crate) status: Status,
    pub(crate) disk: MemDisk,
    pub(crate) events: Option<u64>,
}

/// These words: `''` is an empty one, and `_` stands for a space.
pub(crate) fn words_of(alloc: Global, words: &[&str]) -> Result<Words, NoMemory> {
    let mut line = Words::new(alloc);
    for word in words {
        let mut bytes = Vec::new(alloc);
        if *word != "''" {
            for byte in word.as_bytes() {
                bytes.push(if *byte == b'_' { b' ' } else { *byte })?;
            }
        }
        line.push(&bytes)?;
    }
    Ok(line)
}
