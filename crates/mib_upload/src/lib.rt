//! The upload of a unit's database: the unit's snapshot and its pieces, the gathering of pieces,
//! and the copy that the manager has of the database.
#![tactic(auto)]

mod copy;
mod gather;
mod groups;
mod part;
mod parts;
mod pieces;
mod snapshot;
mod taken;

pub use copy::{CopyEntry, MibCopy};
pub use gather::{Gather, GatherFault, Missing};
pub use mib_store::{Mask, Mib, NoMemory};
pub use snapshot::Snapshot;
pub use upload_spec::{PIECE_BYTES, PieceFault};
