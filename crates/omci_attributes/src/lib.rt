//! Masks of attributes, and where the values stand that a mask names (ITU-T G.988, clause 11.2).
#![tactic(auto)]

mod mask;
mod widths;

pub use mask::Mask;
pub use widths::{MaskFault, Selection, known, place, select, width};
