//! What a store holds of its disk.
ghost use Rattle.std.specs.Prelude.{◌≡◌, ◌<◌, ℕ, List, true, false};
ghost use Rattle.store_spec.specs.Effects.{answered};
ghost use Rattle.slot_spec.specs.Slots.{SlotPair};
ghost use Rattle.slot_spec.specs.Owner.{Settled};
ghost use Rattle.store_spec.specs.State.{software_in};

use image_slots::{Broken, Download, Slots};
use omci_types::{Code, Software};
use slot_disk::Disk;
use store_spec::Handled;

/// The state of the disk: its slots, a download into one of them, or a disk of which a call failed,
/// with the software images as they were shown before it.
#[derive(Drop)]
pub(crate) enum State<D: Disk> {
    Whole {
        slots: Slots<D>,
    },
    Filling {
        download: Download<D>,
    },
    Broken {
        broken: Broken<D>,
        software: Software,
    },
}

/// The state after a request, and what was done with it.
#[derive(Drop)]
pub(crate) struct Done<D: Disk> {
    pub(crate) state: State<D>,
    pub(crate) handled: Handled,
}

/// What stays as long as a unit runs: the room of each slot, and the active slot.
#[derive(Clone, Copy)]
pub(crate) struct Base {
    pub(crate) room: u32,
    pub(crate) active: u8,
}

/// A request is answered by this code, and nothing of the unit changes.
pub(crate) fn refused(code: Code) -> Handled
    ensures value { result ≡ answered code.0 false false }
{
    Handled::Answered {
        code,
        grows: false,
        leaves: false,
    }
}

/// A request that grows the unit's counter was carried out.
pub(crate) fn carried() -> Handled
    ensures value { result ≡ answered 0 true false }
{
    Handled::Answered {
        code: Code::SUCCESS,
        grows: true,
        leaves: false,
    }
}

/// The software images of slots, where this one is active.
pub(crate) fn slots_software<D: Disk>(slots: &Slots<D>, active: u8) -> Software
    ensures shows { (s : SlotPair) → Settled D.seen D.may_leave slots.now.disk slots.now.header s
        → result ≡ software_in active s }
{
    Software {
        first: slots.view(0),
        second: slots.view(1),
        committed: slots.committed(),
        active,
    }
}

/// The same while a download runs.
pub(crate) fn download_software<D: Disk>(download: &Download<D>, active: u8) -> Software
    ensures shows { (s : SlotPair)
        → Settled D.seen D.may_leave download.now.disk download.now.header s → result
        ≡ software_in active s }
{
    Software {
        first: download.view(0),
        second: download.view(1),
        committed: download.committed(),
        active,
    }
}
