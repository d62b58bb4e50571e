//! The command `flash`: an image is read whole, and a disk is laid out with it.

ghost use Rattle.std.specs.Prelude.{◌≡◌, ◌≤◌, length, None};
ghost use Rattle.omci_top.specs.Flashes.{FlashesImage, AnswersFlash};

use crate::End;
use crate::status::Status;
use crate::streams::{InputFault, read_whole};
use image_slots::{FormatRefusal, Slots};
use omci_core::Source;
use slot_disk::Disk;
use std::alloc::Global;

/// How many bytes each slot of a flashed disk has room for: the most that its image may have.
pub const FLASH_ROOM: u32 = 1_048_576;

/// The end of a flash, with its disk.
fn end_of<D: Disk>(status: Status, disk: D) -> End<D>
    ensures status { result.status ≡ status }
    ensures disk { result.disk ≡ disk }
    ensures no_world { result.world ≡ None }
{
    End {
        status,
        disk,
        world: None,
    }
}

/// Lays the disk of this name out with the image: it goes into slot 0, which is committed.
fn lay_out<D: Disk>(name: &[u8], image: &[u8], disk: D) -> End<D>
    requires some { 1 ≤ length image.now }
    requires fits { length image.now ≤ FLASH_ROOM }
    ensures flashed { FlashesImage D.seen D.may_leave D.rig D.faults result.status
        image.now disk result.disk }
    ensures no_world { result.world ≡ None }
{
    let mut disk = disk;
    match disk.attach(name) {
        Ok(_) => {}
        Err(_) => return end_of(Status::DiskFault, disk),
    }
    match Slots::format(disk, FLASH_ROOM, image) {
        Ok(slots) => end_of(Status::Done, slots.unmount()),
        Err(FormatRefusal::Fault { disk }) => end_of(Status::DiskFault, disk),
        Err(FormatRefusal::Size { disk, .. }) => end_of(Status::TooLarge, disk),
    }
}

/// Lays the disk of this name out with the image, where its size is right; else the disk isn't
/// called.
fn flash_image<D: Disk>(name: &[u8], image: &[u8], disk: D) -> End<D>
    ensures flashed { FlashesImage D.seen D.may_leave D.rig D.faults result.status
        image.now disk result.disk }
    ensures no_world { result.world ≡ None }
{
    if image.is_empty() || image.len() > FLASH_ROOM as usize {
        return end_of(Status::TooLarge, disk);
    }
    lay_out(name, image, disk)
}

/// Reads an image whole, and makes the disk of this name one of two slots that has it in slot 0.
pub fn flash<S: Source, D: Disk>(alloc: Global, name: &[u8], source: &mut S, disk: D) -> End<D>
    ensures answers { AnswersFlash D.seen D.may_leave D.rig D.faults result.status disk result.disk
        (S.left source.old) (S.left source.new) (S.faults source.old) (S.faults source.new) }
    ensures no_world { result.world ≡ None }
{
    match read_whole(alloc, source) {
        Ok(image) => flash_image(name, &image, disk),
        Err(InputFault::Read) => end_of(Status::ReadFault, disk),
        Err(InputFault::TooLong) => end_of(Status::TooLong, disk),
        Err(InputFault::NoMemory) => end_of(Status::NoMemory, disk),
    }
}
