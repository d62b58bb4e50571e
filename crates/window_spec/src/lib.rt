//! Windows of a software download: how the manager cuts an image into windows of sections, and how
//! the unit gathers a window's sections. The crate has types and definitions alone.
//!
//! A window is the sections that are sent before one reply is asked for (ITU-T G.988, annex A,
//! download section). Each section carries its number in its window; only the last has bit AR.
#![tactic(auto)]

pub use message_spec::MAX_WINDOW;

/// The class of software images: the instance is the slot (ITU-T G.988, clause 9.1.4).
pub const IMAGE_CLASS: u16 = 7;

/// The bytes of a section in a baseline message.
pub const SECTION_BYTES: usize = 31;

/// The bytes of the most sections that are held.
pub const MAX_WINDOW_BYTES: usize = 7936;

/// The most bytes of an image. The least is 1.
pub const MAX_IMAGE_BYTES: usize = 16_777_216;

/// How a section that comes fits what is held of a window.
#[derive(Clone, Copy, Debug, PartialEq, Eq)]
pub enum Fit {
    /// Its number is 0: it begins a window, whatever is held.
    Begins,
    /// It is the next of the window that is held.
    Extends,
    /// Neither. It changes nothing.
    Apart,
}

/// What becomes of a section that comes.
#[derive(Clone, Copy, Debug, PartialEq, Eq)]
pub enum Arrived {
    /// It isn't its window's last, and is held.
    Held,
    /// It isn't its window's last, and doesn't fit. Nothing changes.
    Ignored,
    /// It is its window's last, and with it all of the window's sections are held.
    Whole { sections: u16 },
    /// It is its window's last, and doesn't fit: a section of its window is missing. Nothing
    /// changes.
    Broken,
}
