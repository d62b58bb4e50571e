//! Laying the slots out on a disk.
ghost use Rattle.std.specs.Prelude.{◌≡◌, ℕ, ◌<◌, ◌≤◌, ◌+◌, ◌*◌, ◌-◌, List, [], ◌∷◌, ◌++◌, length};
ghost use Rattle.std.specs.Prelude.{Option, Some, None, IsSome, OnOk, IfOk, IfErr, true, false};
ghost use Rattle.std.specs.Result.{is_err};
ghost use Rattle.omci_core.specs.Causes.{HasCause, Rose};
ghost use Rattle.slot_spec.specs.Crash.{Written, HasLength};
ghost use Rattle.slot_spec.specs.Rig.{Rigged, Makes};
ghost use Rattle.slot_spec.specs.Owner.{Settled};
ghost use Rattle.image_slots.specs.Formats.{FormattedBody, FormattedDisk, FormatRefused};
ghost use Rattle.image_slots.specs.Formats.{FormatLeaves, body_calls, layout_calls, format_calls};
ghost use Rattle.image_slots.specs.Formats.{format_disk, format_faults, formatted_slots};
ghost use Rattle.image_slots.specs.Formats.{formatted_length};
ghost use Rattle.slot_spec.specs.declared.TheConstants.{MAX_ROOM};

use crate::fields::{entry_bytes, version_after};
use crate::slots::Slots;
use crate::steps::write_through;
use aal5_crc::crc_of;
use omci_core::Failed;
use omci_types::SlotView;
use slot_disk::Disk;
use slot_spec::{
    CLOSED_GATE, COMMIT_PLACE, DiskHeader, ENTRY_BYTES, FIRST_ENTRY, FIRST_GATE, HEADER_BYTES,
    MAGIC, OPEN_GATE, ROOM_PLACE, SECOND_GATE, SlotHeader, VERSION_BYTES,
};

/// Why a disk was not formatted.
#[derive(Drop)]
pub enum FormatRefusal<D: Disk> {
    /// The image is empty or longer than the room.
    Size { disk: D, size: u64, room: u32 },
    /// A device call failed. What stands on the disk is then no disk of slots, or the new one.
    Fault { disk: D },
}

impl<D: Disk> Slots<D> {
    /// Makes a disk of slots with room for so many bytes each: the image stands in slot 0, which is
    /// committed, and slot 1 is not valid. The room is 1 to [`slot_spec::MAX_ROOM`]. The magic is
    /// taken away first, with a sync, and stands again last.
    pub fn format(disk: D, room: u32, image: &[u8]) -> Result<Slots<D>, FormatRefusal<D>>
        requires some { 1 ≤ room }
        requires small { room ≤ MAX_ROOM }
        ensures settled { IsSome (D.seen disk)
            → IfOk result (λ slots. Settled D.seen D.may_leave slots.disk slots.header
            (formatted_slots image.now)) }
        ensures length { (bytes : List ℕ) → D.seen disk ≡ Some bytes
            → OnOk result (HasLength D.may_leave (formatted_length room (length bytes))
            (format_disk result)) }
        ensures rig { Makes (format_calls room image.now) (D.rig disk) (D.rig (format_disk result))
            (format_faults result) }
        ensures outcome { (r : Rigged) → D.rig disk ≡ Some r
            → OnOk result ((after : Rigged) × (D.rig (format_disk result) ≡ Some after)
            × FormatLeaves room image.now r after) }
        ensures cause { format_faults result ≡ true
            → Rose (D.faults disk) (D.faults (format_disk result)) }
        ensures kept { format_faults result ≡ false
            → D.faults (format_disk result) ≡ D.faults disk }
        ensures refused { IfErr result (FormatRefused disk room (length image.now)) }
        ensures fits { OnOk result ((1 ≤ length image.now) × (length image.now ≤ room)) }
        ensures room { IfOk result (λ slots. slots.header.room ≡ room) }
    {
        let size = image.len() as u64;
        if size == 0 || size > u64::from(room) {
            return Err(FormatRefusal::Size { disk, size, room });
        }
        let length = size as u32;
        let crc = crc_of(image);
        let version = version_after([0; VERSION_BYTES], 0, image);
        let entry = entry_bytes(length, crc, &version);
        let mut disk = disk;
        match lay_out(&mut disk, room, &entry, image) {
            Ok(()) => Ok(Slots {
                disk,
                header: DiskHeader {
                    room,
                    committed: 0,
                    first: SlotHeader {
                        opened: true,
                        view: Some(SlotView {
                            length,
                            crc,
                            version,
                        }),
                    },
                    second: SlotHeader {
                        opened: false,
                        view: None,
                    },
                },
            }),
            Err(_) => Err(FormatRefusal::Fault { disk }),
        }
    }
}

// Lays out the whole: the magic is taken away first, and stands again last.
fn lay_out<D: Disk>(
    disk: &mut D,
    room: u32,
    entry: &[u8; ENTRY_BYTES],
    image: &[u8],
) -> Result<(), Failed>
    requires small { room ≤ MAX_ROOM }
    requires some { 1 ≤ room }
    requires content { 1 ≤ length image.now }
    requires fits { length image.now ≤ room }
    ensures formatted { (was : List ℕ) → D.seen disk.old ≡ Some was
        → OnOk result (FormattedDisk D.seen D.may_leave room entry.now image.now was disk.new) }
    ensures rig { Makes (layout_calls room entry.now image.now) (D.rig disk.old) (D.rig disk.new)
        (is_err result) }
    ensures cause { HasCause (D.faults disk.old) (D.faults disk.new) result }
{
    write_through(disk, 0, &[0; 8])?;
    write_body(disk, room, entry, image)?;
    disk.sync()?;
    write_through(disk, 0, &MAGIC)?;
    Ok(())
}

// Writes what stands behind the magic: the room, the committed slot, the gates, the entry of slot
// 0, its image and the last byte.
fn write_body<D: Disk>(
    disk: &mut D,
    room: u32,
    entry: &[u8; ENTRY_BYTES],
    image: &[u8],
) -> Result<(), Failed>
    requires small { room ≤ MAX_ROOM }
    requires some { 1 ≤ room }
    requires content { 1 ≤ length image.now }
    requires fits { length image.now ≤ room }
    ensures body { (was : List ℕ) → D.seen disk.old ≡ Some was
        → OnOk result ((now : List ℕ) × (D.seen disk.new ≡ Some now)
        × FormattedBody room entry.now image.now was now) }
    ensures rig { Makes (body_calls room entry.now image.now) (D.rig disk.old) (D.rig disk.new)
        (is_err result) }
    ensures cause { HasCause (D.faults disk.old) (D.faults disk.new) result }
{
    disk.write_at(ROOM_PLACE, &room.to_be_bytes())?;
    disk.write_at(COMMIT_PLACE, &[0])?;
    disk.write_at(FIRST_GATE, &[OPEN_GATE])?;
    disk.write_at(SECOND_GATE, &[CLOSED_GATE])?;
    disk.write_at(FIRST_ENTRY, entry)?;
    disk.write_at(HEADER_BYTES, image)?;
    disk.write_at(HEADER_BYTES + 2 * u64::from(room) - 1, &[0])?;
    Ok(())
}
