//! A disk as its owner sees it: what a read gives, what a crash may leave, and what makes a call
//! fail. Beside the traits stand a disk in memory, whose power can be cut at each call, and one
//! over a file of the system.
#![tactic(auto)]

mod disk;
mod file;
mod memory;
mod trap;

pub use disk::{Disk, Rig};
pub use file::FileDisk;
pub use memory::MemDisk;
pub use omci_core::{Failed, NoMemory};
pub use slot_spec::{Pick, Trap};
