//! Taking the slots that stand on a disk.
ghost use Rattle.std.specs.Prelude.{◌≡◌, ℕ, ◌<◌, ◌≤◌, ◌+◌, ◌*◌, List, [], ◌∷◌, length, take};
ghost use Rattle.std.specs.Prelude.{replicate, Option, Some, None, Result, Err, OnOk, IfOk, IfErr};
ghost use Rattle.std.specs.Prelude.{IsSome, MatchResult, true, false};
ghost use Rattle.std.specs.Result.{is_err};
ghost use Rattle.omci_core.specs.Causes.{HasCause, Rose};
ghost use Rattle.slot_spec.specs.Crash.{Moments, HasLength};
ghost use Rattle.slot_spec.specs.Slots.{SlotPair};
ghost use Rattle.slot_spec.specs.Layout.{StandsAt};
ghost use Rattle.slot_spec.specs.Rig.{Rigged, Read, Sync, Makes};
ghost use Rattle.slot_spec.specs.Header.{disk_header_in};
ghost use Rattle.slot_spec.specs.Owner.{Settled};
ghost use Rattle.image_slots.specs.Mounts.{mount_disk, mount_faults, mount_calls, MountFinds};
ghost use Rattle.image_slots.specs.Mounts.{HeadRefused, MountRefused, IsMountFault, MountLeaves};
ghost use Rattle.image_slots.specs.declared.mount.MountRefusal.TheVariants.{NoUnit};

use crate::head::{disk_header, is_unit, number};
use crate::slots::Slots;
use crate::steps::{entry_at, gate_at, slot_header};
use omci_core::Failed;
use slot_disk::Disk;
use slot_spec::{HEADER_BYTES, ROOM_PLACE};

/// Why a disk was not mounted.
#[derive(Drop)]
pub enum MountRefusal<D: Disk> {
    /// It isn't a disk of slots: it has fewer than 4,096 bytes (magic and room are then zeros),
    /// another magic, a room that isn't in 1 to [`slot_spec::MAX_ROOM`], or no length for two slots
    /// of that room.
    NoUnit {
        disk: D,
        length: u64,
        magic: [u8; 8],
        room: u32,
    },
    /// A device call failed.
    Fault {
        disk: D,
    },
    /// The committed slot has no image: its gate isn't open, or its length isn't in 1 to the room.
    NoImage {
        disk: D,
        slot: u8,
        gate: u8,
        size: u32,
    },
}

impl<D: Disk> Slots<D> {
    /// Takes the slots of a disk that has so many bytes. A write that was pending is settled by a
    /// sync, and the first 4,096 bytes are read: device calls 1 and 2. A disk with fewer bytes than
    /// these isn't called.
    ///
    /// The check value and the version of an entry are taken as they stand; the image isn't read.
    #[tactic(auto, unfolding(slot_spec::specs::Rig::after_calls, slot_spec::specs::Rig::calls_fail))]
    pub fn mount(disk: D, size: u64) -> Result<Slots<D>, MountRefusal<D>>
        ensures settled { (room : ℕ) (s : SlotPair) (bytes : List ℕ) → D.seen disk ≡ Some bytes
            → size ≡ length bytes → StandsAt room bytes s
            → MatchResult result (λ slots. Settled D.seen D.may_leave slots.disk slots.header s)
            IsMountFault }
        ensures moments { Moments D.clock D.left_since D.may_leave disk (mount_disk result)
            (D.may_leave disk) }
        ensures seen { D.seen (mount_disk result) ≡ D.seen disk }
        ensures length { (bytes : List ℕ) → D.seen disk ≡ Some bytes
            → OnOk result (HasLength D.may_leave (length bytes) (mount_disk result)) }
        ensures rig { Makes (mount_calls size) (D.rig disk) (D.rig (mount_disk result))
            (mount_faults result) }
        ensures outcome { (r : Rigged) → D.rig disk ≡ Some r → (after : Rigged)
            × (D.rig (mount_disk result) ≡ Some after) × MountLeaves size r after }
        ensures cause { mount_faults result ≡ true
            → Rose (D.faults disk) (D.faults (mount_disk result)) }
        ensures kept { mount_faults result ≡ false → D.faults (mount_disk result) ≡ D.faults disk }
        ensures short { size < HEADER_BYTES → result ≡ Err (NoUnit disk size (replicate 8 0) 0) }
        ensures found { (bytes : List ℕ) → D.seen disk ≡ Some bytes
            → IfOk result (MountFinds size bytes) }
        ensures refused { (bytes : List ℕ) → D.seen disk ≡ Some bytes → HEADER_BYTES ≤ size
            → IfErr result (MountRefused size bytes) }
    {
        if size < HEADER_BYTES {
            return Err(MountRefusal::NoUnit {
                disk,
                length: size,
                magic: [0; 8],
                room: 0,
            });
        }
        let mut disk = disk;
        let mut head = [0; HEADER_BYTES as usize];
        match settle(&mut disk, &mut head) {
            Ok(()) => slots_of(disk, size, &head),
            Err(_) => Err(MountRefusal::Fault { disk }),
        }
    }
}

// Settles a write that was pending, and reads the disk's first bytes.
#[tactic(auto, unfolding(slot_spec::specs::Rig::after_calls, slot_spec::specs::Rig::calls_fail))]
fn settle<D: Disk>(disk: &mut D, head: &mut [u8]) -> Result<(), Failed>
    requires whole { length head.old ≡ HEADER_BYTES }
    ensures front { (bytes : List ℕ) → D.seen disk.old ≡ Some bytes
        → OnOk result (head.new ≡ take HEADER_BYTES bytes) }
    ensures only { (bytes : List ℕ) → D.seen disk.old ≡ Some bytes
        → OnOk result ((image : List ℕ) → D.may_leave disk.new image → image ≡ bytes) }
    ensures seen { D.seen disk.new ≡ D.seen disk.old }
    ensures moments { Moments D.clock D.left_since D.may_leave disk.old disk.new
        (D.may_leave disk.old) }
    ensures rig { Makes (Sync ∷ Read 0 HEADER_BYTES ∷ []) (D.rig disk.old) (D.rig disk.new)
        (is_err result) }
    ensures cause { HasCause (D.faults disk.old) (D.faults disk.new) result }
{
    disk.sync()?;
    disk.read_at(0, head)?;
    Ok(())
}

// The slots of a disk whose first bytes these are.
fn slots_of<D: Disk>(disk: D, size: u64, head: &[u8]) -> Result<Slots<D>, MountRefusal<D>>
    requires whole { HEADER_BYTES ≤ length head.now }
    ensures disk { mount_disk result ≡ disk }
    ensures fault { mount_faults result ≡ false }
    ensures found { IfOk result (MountFinds size head.now) }
    ensures refused { IfErr result (HeadRefused size head.now) }
{
    if !is_unit(head, size) {
        let mut magic = [0; 8];
        magic.copy_from_slice(&head[..8]);
        return Err(MountRefusal::NoUnit {
            disk,
            length: size,
            magic,
            room: number(head, ROOM_PLACE as usize),
        });
    }
    let header = disk_header(head);
    let slot = header.committed;
    match slot_header(&header, slot).view {
        Some(_) => Ok(Slots { disk, header }),
        None => Err(MountRefusal::NoImage {
            disk,
            slot,
            gate: head[gate_at(slot) as usize],
            size: number(head, entry_at(slot) as usize),
        }),
    }
}
