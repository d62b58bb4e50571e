//! The unit's store of software images: two slots, the download that runs, and what each request
//! for an image comes to (ITU-T G.988, annex A, software download; clause 9.1.4, software image).
//! The history of a store, and which slots that history lets a unit start with. The crate has types
//! and definitions alone.
#![tactic(auto)]

use omci_types::Code;

/// The number of software images: their instances are below it.
pub const IMAGES: u16 = 2;

/// The most sections of a window that are granted to a download.
pub const MOST_GRANTED: u16 = 32;

/// The most circuit packs that a download may be for.
pub const MOST_TARGETS: u8 = 1;

/// What the store did with a request.
#[derive(Clone, Copy, Debug, PartialEq, Eq)]
pub enum Handled {
    /// Nothing: it is no request for an image, or a section that asks for no reply and isn't held.
    Dropped,
    /// A section that asks for no reply is held.
    Held,
    /// The request is answered.
    Answered {
        /// The result. Where it isn't success, the unit's database stays.
        code: Code,
        /// The counter of the unit's database grows.
        grows: bool,
        /// The unit leaves, to start again with the slot that is activated.
        leaves: bool,
    },
}
