//! The two image slots of a unit on a disk that no power cut can spoil. Three states own the disk:
//! [`Slots`], [`Download`] and [`Broken`]. Each call consumes its state, and each refusal hands
//! back the state that stands. No call takes memory.
//!
//! The order of the device calls, with a sync after each write that decides something, is what
//! keeps the disk whole: see [`Slots::begin`], [`Download::put`], [`Download::seal`],
//! [`Slots::commit`].
#![tactic(auto)]

mod download;
mod fields;
mod format;
mod head;
mod mount;
mod slots;
mod steps;

pub use download::{Download, PutRefusal, SealRefusal};
pub use format::FormatRefusal;
pub use mount::MountRefusal;
pub use omci_types::SlotView;
pub use slot_spec::MAX_ROOM;
pub use slots::{BeginRefusal, Broken, CommitRefusal, Slots};
