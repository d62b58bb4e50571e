//! The whole run of a unit alone.

ghost use Rattle.std.specs.Prelude.{◌≡◌, ℕ, List, length, Option, Some};
ghost use Rattle.slot_spec.specs.Slots.{SlotPair};
ghost use Rattle.slot_spec.specs.Layout.{StandsAt};
ghost use Rattle.image_store.specs.Starts.{IsUnit};
ghost use Rattle.unit_turns.specs.Ending.{CausedBy, DiskCausedBy, EndsBare, UnitEnds};

use crate::ending::{UnitEnd, UnitStatus};
use crate::running::{end_of, run_turns, start};
use omci_core::{Boot, Sink};
use omci_link::Link;
use slot_disk::Disk;
use std::alloc::Global;

/// Runs the unit whose image slots stand on the disk of this name. It starts, its start's line is
/// written, and it listens at the address for so many turns at most, or until the link is closed.
///
/// In a turn it takes what the link gives. A packet is carried out, and its reply is sent. A second
/// without one is told to the unit, which then starts again where it leaves; the line of that start
/// is written at once. A device call that fails in a packet doesn't end the run.
pub fn run_unit<K: Sink, D: Disk, L: Link>(
    alloc: Global,
    address: &[u8],
    file: &[u8],
    turns: u32,
    sink: &mut K,
    disk: D,
    link: &mut L,
) -> UnitEnd<D>
    ensures ends { (room : ℕ) (s0 : SlotPair) (bytes : List ℕ) → D.seen disk ≡ Some bytes
        → StandsAt room bytes s0
        → UnitEnds D.seen D.may_leave D.clock D.left_since D.faults result.status room s0 turns
        disk result.disk (L.left link.old) (L.left link.new) (L.sent link.old) (L.sent link.new)
        (K.written sink.old) (K.written sink.new) }
    ensures bare { (bytes : List ℕ) → D.seen disk ≡ Some bytes → ¬ IsUnit (length bytes) bytes
        → EndsBare result.status × (link.new ≡ link.old) × (sink.new ≡ sink.old) }
    ensures cause { CausedBy result.status (L.faults link.old) (L.faults link.new)
        (K.faults sink.old) (K.faults sink.new) }
    ensures disk_cause { DiskCausedBy result.status (D.faults disk) (D.faults result.disk) }
{
    let mut disk = disk;
    let size = match disk.attach(file) {
        Ok(size) => size,
        Err(_) => {
            return UnitEnd {
                status: UnitStatus::DiskFault,
                disk,
            };
        }
    };
    let unit = match start(alloc, disk, size, Boot::PowerUp, 0, 1, sink) {
        Ok(unit) => unit,
        Err(end) => return end,
    };
    match link.attach(address, true) {
        Err(_) => end_of(UnitStatus::LinkFault, unit),
        Ok(()) => run_turns(alloc, turns, unit, sink, link),
    }
}
