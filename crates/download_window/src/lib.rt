//! Windows of a software download at both ends (ITU-T G.988, annex A, download section). The unit
//! gathers the sections of a window in an [`Inbox`]; the manager cuts an [`Image`] into windows of
//! sections by an [`Outbox`]. Only [`Image::new`] takes memory.
#![tactic(auto)]

mod image;
mod inbox;
mod outbox;

pub use image::{Image, ImageRefusal};
pub use inbox::Inbox;
pub use outbox::Outbox;
pub use window_spec::{Arrived, MAX_IMAGE_BYTES, MAX_WINDOW, MAX_WINDOW_BYTES, SECTION_BYTES};
