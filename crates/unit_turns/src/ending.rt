//! How the run of a unit alone ends.

use slot_disk::Disk;

/// How the run of a unit ended.
#[derive(Clone, Copy, Debug, PartialEq, Eq)]
pub enum UnitStatus {
    /// All turns were taken, or the link was closed.
    Done,
    /// A call of the disk failed in its attach, or in a start of the unit.
    DiskFault,
    /// A start found no slots on the disk, or no image in the committed one.
    NoUnit,
    /// A call of the link failed.
    LinkFault,
    /// The sink failed while the line of a start was written.
    WriteFault,
    /// There was not enough memory.
    NoMemory,
}

/// The end of a run, with its disk.
#[derive(Drop)]
pub struct UnitEnd<D: Disk> {
    /// How it ended.
    pub status: UnitStatus,
    /// The disk, as the run left it.
    pub disk: D,
}
