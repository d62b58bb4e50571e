//! The command `unit`: the unit runs over a disk of image slots and a link.

ghost use Rattle.std.specs.Prelude.{◌≡◌, ◌≢◌, ℕ, List, length, Some, None};
ghost use Rattle.omci_core.specs.Causes.{Rose};
ghost use Rattle.slot_spec.specs.Slots.{SlotPair};
ghost use Rattle.slot_spec.specs.Layout.{StandsAt};
ghost use Rattle.image_store.specs.Starts.{IsUnit};
ghost use Rattle.omci_top.specs.Units.{unit_status, AnswersUnit};

use crate::End;
use crate::status::Status;
use omci_core::Sink;
use omci_link::Link;
use slot_disk::Disk;
use std::alloc::Global;
use unit_turns::{UnitEnd, UnitStatus, run_unit};

/// The answer to a run that ended so.
fn status_of(ended: UnitStatus) -> Status
    ensures value { result ≡ unit_status ended }
    ensures no_usage { result ≢ Status.Usage }
    ensures no_read_fault { result ≢ Status.ReadFault }
    ensures no_too_long { result ≢ Status.TooLong }
{
    match ended {
        UnitStatus::Done => Status::Done,
        UnitStatus::DiskFault => Status::DiskFault,
        UnitStatus::NoUnit => Status::NoUnit,
        UnitStatus::LinkFault => Status::LinkFault,
        UnitStatus::WriteFault => Status::WriteFault,
        UnitStatus::NoMemory => Status::NoMemory,
    }
}

/// Runs the unit whose image slots stand on the disk of this name, over the link at this address,
/// for so many turns at most.
pub fn unit<K: Sink, D: Disk, L: Link>(
    alloc: Global,
    address: &[u8],
    file: &[u8],
    turns: u32,
    sink: &mut K,
    disk: D,
    link: &mut L,
) -> End<D>
    ensures answers { AnswersUnit D.seen D.may_leave D.clock D.left_since D.faults result.status
        turns disk result.disk (L.left link.old) (L.left link.new) (L.sent link.old)
        (L.sent link.new) (K.written sink.old) (K.written sink.new) (L.faults link.old)
        (L.faults link.new) (K.faults sink.old) (K.faults sink.new) }
    ensures no_world { result.world ≡ None }
    ensures no_usage { result.status ≢ Status.Usage }
    ensures no_read_fault { result.status ≢ Status.ReadFault }
    ensures no_too_long { result.status ≢ Status.TooLong }
    ensures write_fault { result.status ≡ Status.WriteFault
        → Rose (K.faults sink.old) (K.faults sink.new) }
    ensures write_kept { result.status ≢ Status.WriteFault
        → K.faults sink.new ≡ K.faults sink.old }
    ensures link_fault { result.status ≡ Status.LinkFault
        → Rose (L.faults link.old) (L.faults link.new) }
    ensures link_kept { result.status ≢ Status.LinkFault
        → L.faults link.new ≡ L.faults link.old }
    ensures disk_fault { result.status ≡ Status.DiskFault
        → Rose (D.faults disk) (D.faults result.disk) }
    ensures runs { (room : ℕ) (slots : SlotPair) (bytes : List ℕ) → D.seen disk ≡ Some bytes
        → StandsAt room bytes slots
        → ¬ Rose (K.faults sink.old) (K.faults sink.new)
        → ¬ Rose (L.faults link.old) (L.faults link.new)
        → ¬ Rose (D.faults disk) (D.faults result.disk)
        → result.status ≢ Status.NoMemory → result.status ≡ Status.Done }
    ensures refuses { (bytes : List ℕ) → D.seen disk ≡ Some bytes
        → ¬ IsUnit (length bytes) bytes
        → ¬ Rose (D.faults disk) (D.faults result.disk)
        → result.status ≢ Status.NoMemory → result.status ≡ Status.NoUnit }
{
    let ended = run_unit(alloc, address, file, turns, sink, disk, link);
    End {
        status: status_of(ended.status),
        disk: ended.disk,
        world: None,
    }
}
