//! The calls of the states of a disk of slots. Each takes a state, and gives the one that stands.

use crate::held::Held;
use crate::said::Said;
use image_slots::{
    BeginRefusal, CommitRefusal, Download, FormatRefusal, MAX_ROOM, MountRefusal, PutRefusal,
    SealRefusal, Slots,
};
use slot_disk::Disk;

pub(crate) fn format<D: Disk>(disk: D, room: u32, image: &[u8]) -> (Held<D>, Said) {
    if room == 0 || room > MAX_ROOM {
        return (Held::Disk(disk), Said::Absent);
    }
    match Slots::format(disk, room, image) {
        Ok(slots) => (Held::Slots(slots), Said::Done),
        Err(FormatRefusal::Size { disk, size, room }) => {
            (Held::Disk(disk), Said::Size { size, room })
        }
        Err(FormatRefusal::Fault { disk }) => (Held::Disk(disk), Said::Fault),
    }
}

pub(crate) fn mount<D: Disk>(disk: D, length: u64) -> (Held<D>, Said) {
    match Slots::mount(disk, length) {
        Ok(slots) => (Held::Slots(slots), Said::Done),
        Err(refusal) => {
            let (disk, said) = unmounted(refusal);
            (Held::Disk(disk), said)
        }
    }
}

/// The disk that is not mounted, and why.
pub(crate) fn unmounted<D: Disk>(refusal: MountRefusal<D>) -> (D, Said) {
    match refusal {
        MountRefusal::NoUnit {
            disk,
            length,
            magic,
            room,
        } => (
            disk,
            Said::NoUnit {
                length,
                magic,
                room,
            },
        ),
        MountRefusal::Fault { disk } => (disk, Said::Fault),
        MountRefusal::NoImage {
            disk,
            slot,
            gate,
            size,
        } => (disk, Said::NoImage { slot, gate, size }),
    }
}

pub(crate) fn begin<D: Disk>(slots: Slots<D>, slot: u8, size: u32) -> (Held<D>, Said) {
    if slot > 1 {
        return (Held::Slots(slots), Said::Absent);
    }
    match slots.begin(slot, size) {
        Ok(download) => (Held::Download(download), Said::Done),
        Err(BeginRefusal::InUse { slots }) => (Held::Slots(slots), Said::InUse),
        Err(BeginRefusal::Size { slots, size, room }) => (
            Held::Slots(slots),
            Said::Size {
                size: u64::from(size),
                room,
            },
        ),
        Err(BeginRefusal::Fault { broken }) => (Held::Broken(broken), Said::Fault),
    }
}

pub(crate) fn put<D: Disk>(download: Download<D>, piece: &[u8]) -> (Held<D>, Said) {
    match download.put(piece) {
        Ok(download) => (Held::Download(download), Said::Done),
        Err(
            PutRefusal::Past {
                download,
                have,
                size,
                more,
            },
        ) => (Held::Download(download), Said::Past { have, size, more }),
        Err(PutRefusal::Fault { broken }) => (Held::Broken(broken), Said::Fault),
    }
}

pub(crate) fn seal<D: Disk>(download: Download<D>, crc: u32, size: u32) -> (Held<D>, Said) {
    match download.seal(crc, size) {
        Ok(slots) => (Held::Slots(slots), Said::Done),
        Err(SealRefusal::Size { slots, have, given }) => {
            (Held::Slots(slots), Said::Short { have, given })
        }
        Err(
            SealRefusal::Check {
                slots,
                computed,
                given,
            },
        ) => (Held::Slots(slots), Said::Check { computed, given }),
        Err(SealRefusal::Fault { broken }) => (Held::Broken(broken), Said::Fault),
    }
}

pub(crate) fn commit<D: Disk>(slots: Slots<D>, slot: u8) -> (Held<D>, Said) {
    if slot > 1 {
        return (Held::Slots(slots), Said::Absent);
    }
    match slots.commit(slot) {
        Ok(slots) => (Held::Slots(slots), Said::Done),
        Err(CommitRefusal::NotValid { slots }) => (Held::Slots(slots), Said::NotValid),
        Err(CommitRefusal::Fault { broken }) => (Held::Broken(broken), Said::Fault),
    }
}
