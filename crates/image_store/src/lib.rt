//! The unit's store of software images: it carries requests for images out over the two slots of a
//! disk (ITU-T G.988, annex A, software download). [`Store`] is the whole; nothing else is public
//! but what its calls take and give. No call takes memory.
//!
//! How a unit uses it:
//!
//! - It starts the store with the disk and the kind of its start. A disk that isn't mounted comes
//!   back in the refusal, and [`Store::unmount`] gives it back at any time, so that a unit that
//!   finds no memory for its database still answers with the disk.
//! - Each packet that is a request for class 7, and that neither a kept reply answers nor a unit
//!   that leaves drops, goes to [`Store::carry`] with its TCI and its entity. A section without AR
//!   under a kept TCI is the unit's to drop: the store knows no replies.
//! - The answer is [`Handled`]. The unit makes the reply of it and of the request: the granted
//! window
//!   is the lesser of the asked one and [`store_spec::MOST_GRANTED`], a section's reply has its
//!   number. Where the counter grows, the unit takes its values of class 7 anew from
//!   [`Store::software`]; a note on a sealed or committed slot is of the request's instance and of
//!   what is shown there. Where the unit leaves, it starts again with that instance activated.
//! - A request makes the calls of at most one operation of the slots, so that what a crash may
//! leave
//! at each of its moments is that of the slots before it or of those that it makes: the unit hands
//!   that clause on as it stands. A broken store calls its disk no more.
//! - [`Store::rig`] passes a trap on. A cut inside a request is a trap, the request, `unmount`, and
//!   the disk's power back; what stands there is then told by the trap's number and its pick, and
//!   the next start finds the slots before the request or those that it makes.
//!
//! So the definitions of a store (`store_spec`) have one deed a request, and all else is cases on
//! the deed; `Carried` says of each private call which deed it did, and is handed up whole.
#![tactic(auto)]

mod coming;
mod conditions;
mod finish;
mod load;
mod requests;
mod state;
mod store;

pub use image_slots::MountRefusal;
pub use omci_types::{Boot, Code, EntityId, Software};
pub use store::Store;
pub use store_spec::Handled;
